//! Two threads sell the last seats of a house. No sale is lost, none is invented, and no seat is sold twice: so says the contract of
//! [`sell_last_seats`], with nothing that tests it at run time.
ghost use Rattle.std.specs.Prelude.{◌≡◌, ◌+◌, ◌-◌, ◌*◌, ◌∷◌, [], IfOk, None, Some, false, min, pos, slice_get};
ghost use Rattle.ref_value.specs.Edn.{int};
ghost use Rattle.ref_world.specs.History.{Begins};
ghost use Rattle.ref_world.specs.Shares.{AreBlanks, all_parts, joined, whole};
ghost use Rattle.tests_threads.specs.Seats.{CameTo, DoesTry, HasSold, HasTried, HaveSold, IsOpen, IsSoldOut};

use ref_fun::codes::MINUS;
use ref_fun::{Core, CoreFunctions, IntoValue};
use ref_log::Stamp;
use ref_shared::{Body, Open, Quiet, Shared};
use ref_tx::{Dosync, Readable, TxFault};
use ref_world::{Blanks, Booked, Books, RefStart, Share, Start, Totals, World};
use std::alloc::{AllocError, Global};
use std::marker::Brand;
use std::sync::Wait;
use std::thread;
use std::thread::Threads;
use tests_shared::numbers::int_of;
use tests_shared::worlds::Stop;

// The ref that holds how many seats are free.
const SEATS: u32 = 0;

// How often a try is made at most: it begins anew if it is in conflict.
const ATTEMPTS: u32 = 1_000_000;

/// What came of it: the world, its totals, and how many seats each of the two threads sold.
#[derive(Drop)]
pub struct Sold {
    pub world: World<Core>,
    pub totals: Totals,
    pub first: u32,
    pub second: u32,
}

/// Two threads share a world with one ref, the number of free seats. Each of them tries so many times to sell one.
///
/// A try is a transaction: it takes a seat if one is free, and else ensures that none is; both are committed. Together the threads sell as many
/// seats as there are, or as they try for if these are fewer. It fails if memory is refused, or a try is in conflict a million times.
pub fn sell_last_seats<R: AllocGlobal + Threads + Wait + Sync>(
    rt: &R,
    seats: u32,
    tries: u32,
) -> Result<Sold, Stop>
    ensures left { IfOk result (λ s. slice_get s.world.refs.values 0 ≡ Some (int (pos (seats - 2 * tries)))) }
    ensures sold { IfOk result (λ s. s.first + s.second ≡ min seats (2 * tries)) }
    ensures commits { IfOk result (λ s. s.totals.commits ≡ 2 * tries) }
{
    match sell_in::<Brand, R>(rt, seats, tries, Blanks::new()) {
        Ok(sold) => Ok(sold),
        Err(stop) => Err(stop),
    }
}

// The same, in a world whose books L names.
fn sell_in<L: Books + Send + Sync, R: AllocGlobal + Threads + Wait + Sync>(
    rt: &R,
    seats: u32,
    tries: u32,
    blanks: Blanks,
) -> Result<Sold, Stop>
    requires { AreBlanks blanks L.commits L.added L.taken L.story }
    ensures { IfOk result (λ s. IsSoldOut seats tries s.first s.second s.totals.commits s.world.refs.values) }
{
    let alloc = rt.alloc();
    match open::<L>(alloc, seats, blanks) {
        Ok((shared, share)) => match sell_both(rt, alloc, &shared, share, tries) {
            Ok((share, first, second)) => finish(alloc, shared, share, first, second),
            Err(stop) => {
                drop(shared);
                Err(stop)
            }
        },
        Err(stop) => Err(stop),
    }
}

// A world with so many free seats under its lock, and its whole share.
fn open<L: Books>(
    alloc: Global,
    seats: u32,
    blanks: Blanks,
) -> Result<(Shared<Core, L>, Share<L>), Stop>
    requires { AreBlanks blanks L.commits L.added L.taken L.story }
    ensures { IfOk result (λ r. IsOpen seats r.1) }
{
    let start = start(alloc, seats)?;
    match Booked::new(alloc, &CoreFunctions, &start, blanks) {
        Ok((booked, share)) => Ok((Shared::new(booked), share)),
        Err(_) => Err(Stop::Refused),
    }
}

fn start(alloc: Global, seats: u32) -> Result<Start, AllocError>
    ensures { IfOk result (λ start. start.refs.items ≡ record {
      value = int (pos seats);
      rule = None;
      tally = false;
    } ∷ []) }
{
    let mut refs = Vec::with_capacity(alloc, 1)?;
    let value = i64::from(seats).into_value(alloc)?;
    refs.push(RefStart {
        value,
        rule: None,
        tally: false,
    })?;
    Ok(Start {
        refs,
        atoms: Vec::new(alloc),
        agents: Vec::new(alloc),
    })
}

// Takes the world out of its lock: the history that it has come to begins with all that the share knows, and has just its commits.
fn finish<L: Books>(
    alloc: Global,
    shared: Shared<Core, L>,
    share: Share<L>,
    first: u32,
    second: u32,
) -> Result<Sold, Stop>
    requires { share.parts ≡ all_parts }
    ensures sold { IfOk result (λ s. (s.first ≡ first) × (s.second ≡ second)) }
    ensures commits { IfOk result (λ s. s.totals.commits ≡ share.commits) }
    ensures values { IfOk result (λ s. CameTo share.history share.commits s.world.refs.values) }
{
    match shared.finish(alloc, share) {
        Ok((world, totals)) => {
            world.holds();
            let _ = world.commits();
            Ok(Sold {
                world,
                totals,
                first,
                second,
            })
        }
        Err((booked, share, _)) => {
            drop((booked, share));
            Err(Stop::Refused)
        }
    }
}

// ---- Threads

// Both threads, each with some of the parts, which are joined at the end; and how many seats each sold.
fn sell_both<L: Books + Send + Sync, R: Threads + Wait + Sync>(
    rt: &R,
    alloc: Global,
    shared: &Shared<Core, L>,
    share: Share<L>,
    tries: u32,
) -> Result<(Share<L>, u32, u32), Stop>
    requires { share ≡ whole share.history }
    ensures { IfOk result (λ r. HaveSold tries r.1 r.2 share.history r.0) }
{
    let mut rest = share;
    let Some(part) = rest.split(1) else {
        unreachable!()
    };
    let (one, two) = thread::join(
        rt,
        move || -> Result<(Share<L>, u32), Stop>
            ensures { IfOk result (λ r. HasSold 0 tries r.1 part r.0) }
        { sell(rt, alloc, shared, part, 0, tries) },
        move || -> Result<(Share<L>, u32), Stop>
            ensures { IfOk result (λ r. HasSold 1 tries r.1 rest r.0) }
        { sell(rt, alloc, shared, rest, 1, tries) },
    );
    let (part, first) = one?;
    let (rest, second) = two?;
    match join_parts(rest, part) {
        Ok(share) => Ok((share, first, second)),
        Err(stop) => Err(stop),
    }
}

fn join_parts<L: Books>(one: Share<L>, other: Share<L>) -> Result<Share<L>, Stop>
    ensures all { IfOk result (λ share. share ≡ joined one other) }
    ensures known { IfOk result (λ share. Begins one.history share.history × Begins other.history share.history) }
{
    let mut all = one;
    match all.join(other) {
        Ok(()) => Ok(all),
        Err(other) => {
            drop((all, other));
            Err(Stop::Memory)
        }
    }
}

// All tries of a thread, which answers its share and how many seats it sold.
fn sell<R: Wait, L: Books>(
    rt: &R,
    alloc: Global,
    shared: &Shared<Core, L>,
    share: Share<L>,
    worker: u32,
    tries: u32,
) -> Result<(Share<L>, u32), Stop>
    ensures { IfOk result (λ r. HasSold worker tries r.1 share r.0) }
{
    let mut mine = share;
    match sell_seats(rt, alloc, shared, &mut mine, worker, tries) {
        Ok(sold) => Ok((mine, sold)),
        Err(stop) => {
            drop(mine);
            Err(stop)
        }
    }
}

fn sell_seats<R: Wait, L: Books>(
    rt: &R,
    alloc: Global,
    shared: &Shared<Core, L>,
    share: &mut Share<L>,
    worker: u32,
    tries: u32,
) -> Result<u32, Stop>
    ensures { IfOk result (λ sold. HasSold worker tries sold share.old share.new) }
{
    let mut sold = 0u32;
    for step in 0..tries {
        if try_once(rt, alloc, shared, share, Stamp { worker, step })? {
            sold += 1;
        }
    }
    Ok(sold)
}

// ---- Tries

// A transaction that tries to sell a seat. It answers whether it did.
fn try_once<R: Wait, L: Books>(
    rt: &R,
    alloc: Global,
    shared: &Shared<Core, L>,
    share: &mut Share<L>,
    stamp: Stamp,
) -> Result<bool, Stop>
    ensures { IfOk result (λ sold. HasTried stamp.worker sold share.old share.new) }
{
    let (funs, gate, sink, body) = (&CoreFunctions, &mut Open, &mut Quiet, &mut Try);
    match shared.transact_body(rt, alloc, funs, share, stamp, ATTEMPTS, gate, sink, body) {
        Ok((sold, _receipt)) => Ok(sold),
        Err(_) => Err(Stop::Refused),
    }
}

// The body of that transaction.
#[derive(Drop)]
struct Try;

impl<S: Readable> Body<S> for Try {
    type Meaning = Core;

    type Functions = CoreFunctions;

    type Answer = bool;

    type Fault = TxFault;

    ghost may = { λ _. Unit {0} };

    ghost does = { λ _ began answer left _. DoesTry began answer left };

    fn functions(&self) -> CoreFunctions {
        CoreFunctions
    }

    fn run(&mut self, tx: &mut Dosync<S>) -> Result<bool, TxFault>
        ensures does { DoesTry tx.old result tx.new }
        ensures may { Unit {0} }
    {
        take_or_ensure(tx)
    }
}

// Takes a seat if one is free, and else ensures that none is.
fn take_or_ensure<S: Readable>(tx: &mut Dosync<S>) -> Result<bool, TxFault>
    ensures { DoesTry tx.old result tx.new }
{
    let Some(free) = int_of(tx.deref(SEATS)?) else {
        return Err(TxFault::NotMet);
    };
    if free > 0 {
        let _ = tx.alter(SEATS, MINUS, 1)?;
        Ok(true)
    } else {
        let _ = tx.ensure(SEATS)?;
        Ok(false)
    }
}

#[cfg(test)]
mod tests {
    use super::*;
    use crate::same::same;
    use ref_log::Who;
    use std::test::Fail;

    // How many seats there are, how often each thread tries, how many both sell, and how many are left.
    const SALES: &[(u32, u32, u32, i64)] = &[
        (0, 10, 0, 0),
        (15, 10, 15, 0),
        (23, 10, 20, 3),
        (1_500, 1_000, 1_500, 0),
    ];

    #[test]
    fn two_threads_sell_each_seat_once(rt: HostRuntime) -> Result<(), Fail> {
        for (seats, tries, wanted, left) in SALES {
            let end = sell_last_seats(&rt, *seats, *tries)?;
            let sold = end.first.saturating_add(end.second);
            let found = end.world.value_of(Who::Ref(SEATS)).and_then(int_of);
            let commits = u64::from(*tries).saturating_mul(2);
            same(&rt, (sold, found), (*wanted, Some(*left)));
            same(&rt, end.totals.commits, commits);
        }
        Ok(())
    }
}
