//! Many waits of several threads: each ends.
use crate::cases::{Case, check};
use crate::same::same;
use ref_fun::codes::{MINUS, PLUS};
use ref_fun::{Core, CoreFunctions};
use ref_log::{Stamp, Who};
use ref_shared::{Open, Quiet, Shared};
use ref_tx::Tx;
use ref_world::{Books, Front, Share};
use std::alloc::Global;
use std::process::Abort;
use std::sync::Wait;
use std::sync::atomic::{AtomicBool, Ordering};
use std::test::Fail;
use std::thread;
use std::thread::Threads;
use std::time::Clock;
use tests_shared::jobs::agents_at;
use tests_shared::numbers::int_of;
use tests_shared::steps::{send, transact_add};
use tests_shared::worlds::{Stop, done, int_at, one_arg};
use tests_threads::flags::Flags;
use tests_threads::pools::two_pools;
use tests_threads::waits::wait_for;

/// How many times each thread waits.
const ROUNDS: u32 = 25;

// Waits until both have ended, and then closes. It returns whether they ended in time.
fn close_behind<R: Wait + Clock, L: Books>(
    rt: &R,
    shared: &Shared<Core, L>,
    flags: &Flags,
) -> bool {
    let in_time = wait_for(rt, &flags.first) && wait_for(rt, &flags.second);
    shared.close(rt);
    in_time
}

// ---- One gives and two take

// Takes 1 from a, if it is there.
fn take(alloc: Global, tx: &mut Tx<Core>) -> Result<Option<()>, Stop> {
    if int_of(done(tx.deref(0))?) == Some(0) {
        return Ok(None);
    }
    let one = one_arg(alloc, "1")?;
    let _ = done(tx.alter(alloc, &CoreFunctions, 0, MINUS, one))?;
    Ok(Some(()))
}

// Takes 1 from a in each round, waiting for it, and says when it has ended. It returns the share, and how many it took.
fn take_in_rounds<R: AllocGlobal + Wait, L: Books>(
    rt: &R,
    shared: &Shared<Core, L>,
    mut share: Share<L>,
    worker: u32,
    ended: &AtomicBool,
) -> (Share<L>, u32) {
    let (alloc, funs) = (rt.alloc(), &CoreFunctions);
    let mut count = 0u32;
    for step in 0..ROUNDS {
        let (stamp, share) = (Stamp { worker, step }, &mut share);
        let (tries, gate, sink) = (10_000, &mut Open, &mut Quiet);
        let body = |tx: &mut Tx<Core>| take(alloc, tx);
        let took = shared.transact_when(rt, alloc, funs, share, stamp, tries, gate, sink, body);
        if took.is_ok() {
            count = count.saturating_add(1);
        }
    }
    ended.store(true, Ordering::SeqCst);
    (share, count)
}

// Adds 1 to a for each round of two threads, and closes when they have ended. It returns the share, and whether all went well.
fn give<R: AllocGlobal + Wait + Clock, L: Books>(
    rt: &R,
    shared: &Shared<Core, L>,
    mut share: Share<L>,
    flags: &Flags,
) -> (Share<L>, bool) {
    let alloc = rt.alloc();
    let mut went = true;
    for step in 0..2 * ROUNDS {
        let stamp = Stamp { worker: 2, step };
        let gave = transact_add(rt, alloc, shared, &mut share, stamp, 10_000, "1");
        went = went && gave.is_ok();
    }
    let in_time = close_behind(rt, shared, flags);
    (share, went && in_time)
}

fn two_take<L: Books + Send + Sync, R: AllocGlobal + Threads + Wait + Sync>(
    rt: &R,
    shared: &Shared<Core, L>,
    share: Share<L>,
    other: Share<L>,
    flags: &Flags,
) -> ((Share<L>, u32), (Share<L>, u32)) {
    let (mine, theirs) = thread::join(
        rt,
        move || take_in_rounds(rt, shared, share, 0, &flags.first),
        move || take_in_rounds(rt, shared, other, 1, &flags.second),
    );
    (mine, theirs)
}

// The shares of the two joined, and how many each took.
fn joined<L: Books>(
    mine: (Share<L>, u32),
    theirs: (Share<L>, u32),
) -> (Share<L>, Option<(u32, u32)>) {
    let (mut share, one) = mine;
    let (other, two) = theirs;
    let counts = match share.join(other) {
        Ok(()) => Some((one, two)),
        Err(_) => None,
    };
    (share, counts)
}

fn give_and_take<L: Books + Send + Sync, R: AllocGlobal + Threads + Wait + Clock + Sync>(
    rt: &R,
    shared: &Shared<Core, L>,
    share: Share<L>,
    other: Share<L>,
    third: Share<L>,
) -> ((Share<L>, Option<(u32, u32)>), (Share<L>, bool)) {
    let flags = Flags::new();
    let lent = &flags;
    let (both, gave) = thread::join(
        rt,
        move || two_take(rt, shared, share, other, lent),
        move || give(rt, shared, third, lent),
    );
    (joined(both.0, both.1), gave)
}

// Each takes what it waits for once.
pub(crate) fn see_taking<
    L: Books + Send + Sync,
    R: AllocGlobal + Threads + Wait + Clock + Abort + Sync,
>(rt: &R, shared: &Shared<Core, L>, share: &mut Share<L>) -> Result<(), Stop> {
    let other = share.split(1).ok_or(Stop::Refused)?;
    let third = share.split(1).ok_or(Stop::Refused)?;
    let part = share.split(1).ok_or(Stop::Refused)?;
    let (both, gave) = give_and_take(rt, shared, part, other, third);
    let (part, counts) = both;
    let (third, went) = gave;
    done(share.join(part))?;
    done(share.join(third))?;
    same(rt, (counts, went), (Some((25, 25)), true));
    same(rt, int_at(rt, shared, share.front(), Who::Ref(0)), Some(0));
    Ok(())
}

#[test]
fn each_that_waits_for_a_value_takes_it_once(rt: HostRuntime) -> Result<(), Fail> {
    check(&rt, Case::Takes)
}

// ---- Two send and wait, and two run the actions

// What one of the two sends, which adds so much to a sum. The other one's part of a sum is apart from it.
#[derive(Clone, Copy, Drop)]
enum Unit {
    One,
    Thousand,
}

impl Unit {
    fn text(&self) -> &'static str {
        match self {
            Unit::One => "1",
            Unit::Thousand => "1000",
        }
    }

    // How often it is in a sum.
    fn count_in(&self, sum: i64) -> i64 {
        match self {
            Unit::One => sum % 1000,
            Unit::Thousand => sum / 1000,
        }
    }
}

// Whether at least so many of what one sent to an agent have ended.
fn is_at_least<R: Wait, L: Books>(
    rt: &R,
    shared: &Shared<Core, L>,
    front: &Front<L>,
    g: u32,
    unit: Unit,
    least: u32,
) -> bool {
    match int_at(rt, shared, front, Who::Agent(g)) {
        Some(sum) => unit.count_in(sum) >= i64::from(least),
        None => false,
    }
}

// Sends to both agents, and waits for both. It returns whether all that it sent so far has ended then.
fn send_and_await<R: AllocGlobal + Wait, L: Books>(
    rt: &R,
    shared: &Shared<Core, L>,
    front: &Front<L>,
    unit: Unit,
    sent: u32,
) -> Result<bool, Stop> {
    let alloc = rt.alloc();
    send(rt, alloc, shared, 0, PLUS, unit.text())?;
    send(rt, alloc, shared, 1, PLUS, unit.text())?;
    done(shared.await_agents(rt, alloc, &[0, 1]))?;
    let of_g = is_at_least(rt, shared, front, 0, unit, sent);
    Ok(of_g && is_at_least(rt, shared, front, 1, unit, sent))
}

// Does that in each round, and says when it has ended. It returns in how many rounds all was well.
fn await_in_rounds<R: AllocGlobal + Wait, L: Books>(
    rt: &R,
    shared: &Shared<Core, L>,
    front: Front<L>,
    unit: Unit,
    ended: &AtomicBool,
) -> u32 {
    let mut count = 0u32;
    for round in 0..ROUNDS {
        let sent = round.saturating_add(1);
        if send_and_await(rt, shared, &front, unit, sent) == Ok(true) {
            count = count.saturating_add(1);
        }
    }
    ended.store(true, Ordering::SeqCst);
    count
}

fn two_await<L: Books + Send + Sync, R: AllocGlobal + Threads + Wait + Sync>(
    rt: &R,
    shared: &Shared<Core, L>,
    front: Front<L>,
    flags: &Flags,
) -> (u32, u32) {
    let other = front.again();
    let (one, two) = thread::join(
        rt,
        move || await_in_rounds(rt, shared, front, Unit::One, &flags.first),
        move || await_in_rounds(rt, shared, other, Unit::Thousand, &flags.second),
    );
    (one, two)
}

fn run_and_close<L: Books + Send + Sync, R: AllocGlobal + Threads + Wait + Clock + Sync>(
    rt: &R,
    shared: &Shared<Core, L>,
    flags: &Flags,
) -> (Result<u32, Stop>, bool) {
    let (ran, in_time) = thread::join(
        rt,
        move || two_pools(rt, rt.alloc(), shared),
        move || close_behind(rt, shared, flags),
    );
    (ran, in_time)
}

// In how many rounds all was well, how many actions were run, and whether all ended in time.
type Awaited = ((u32, u32), (Result<u32, Stop>, bool));

fn await_and_run<L: Books + Send + Sync, R: AllocGlobal + Threads + Wait + Clock + Sync>(
    rt: &R,
    shared: &Shared<Core, L>,
    front: Front<L>,
) -> Awaited {
    let flags = Flags::new();
    let lent = &flags;
    let (awaited, ran) = thread::join(
        rt,
        move || two_await(rt, shared, front, lent),
        move || run_and_close(rt, shared, lent),
    );
    (awaited, ran)
}

pub(crate) fn see_awaiting<
    L: Books + Send + Sync,
    R: AllocGlobal + Threads + Wait + Clock + Abort + Sync,
>(rt: &R, shared: &Shared<Core, L>, front: &Front<L>) -> Result<(), Stop> {
    let awaited = await_and_run(rt, shared, front.again());
    same(rt, awaited, ((25, 25), (Ok(100), true)));
    same(
        rt,
        agents_at(rt, shared, front),
        (Some(25_025), Some(25_025)),
    );
    Ok(())
}

#[test]
fn each_that_waits_for_agents_finds_what_it_sent(rt: HostRuntime) -> Result<(), Fail> {
    check(&rt, Case::Sends)
}
