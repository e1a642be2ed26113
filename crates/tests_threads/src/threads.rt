//! Transactions of two threads.
use crate::cases::{Case, check};
use crate::flags::Flags;
use crate::same::same;
use crate::waits::wait_for;
use ref_fun::{Core, CoreFunctions};
use ref_log::{Notice, Stamp, Who};
use ref_shared::{Gate, Open, Quiet, Shared, Spot, WatchSink};
use ref_tx::Tx;
use ref_world::{Books, Front, Share, Totals, World};
use std::alloc::Global;
use std::process::Abort;
use std::sync::Wait;
use std::sync::atomic::{AtomicBool, Ordering};
use std::test::Fail;
use std::thread;
use std::thread::Threads;
use std::time::Clock;
use tests_shared::numbers::int_of;
use tests_shared::steps::{transact_add, watch};
use tests_shared::worlds::{STAMP, Stop, Told, add, all_commits, done, int_at, told_of};

const OTHER: Stamp = Stamp { worker: 1, step: 0 };

// A hundred commits that add 1 to a. It answers the share, and how many weren't committed.
fn hundred<R: Wait, L: Books>(
    rt: &R,
    alloc: Global,
    shared: &Shared<Core, L>,
    mut share: Share<L>,
    worker: u32,
) -> (Share<L>, u32) {
    let mut refused = 0u32;
    for step in 0..100u32 {
        let stamp = Stamp { worker, step };
        let added = transact_add(rt, alloc, shared, &mut share, stamp, 1000, "1");
        if added.is_err() {
            refused = refused.saturating_add(1);
        }
    }
    (share, refused)
}

// A part of the share for each of two threads.
fn two_parts<L: Books>(share: &mut Share<L>) -> Result<(Share<L>, Share<L>), Stop> {
    match (share.split(1), share.split(1)) {
        (Some(one), Some(other)) => Ok((one, other)),
        _ => Err(Stop::Refused),
    }
}

// Gives them back.
fn join_both<L: Books>(share: &mut Share<L>, one: Share<L>, other: Share<L>) -> Result<(), Stop> {
    match (share.join(one), share.join(other)) {
        (Ok(()), Ok(())) => Ok(()),
        _ => Err(Stop::Memory),
    }
}

// A hundred commits of each of two threads, of which none is lost.
pub(crate) fn see_sum<
    L: Books + Send + Sync,
    R: AllocGlobal + Threads + Wait + Clock + Abort + Sync,
>(rt: &R, shared: &Shared<Core, L>, share: &mut Share<L>) -> Result<(), Stop> {
    let alloc = rt.alloc();
    let (one, other) = two_parts(share)?;
    let (mine, theirs) = thread::join(
        rt,
        move || hundred(rt, alloc, shared, one, 0),
        move || hundred(rt, alloc, shared, other, 1),
    );
    let refused = (mine.1, theirs.1);
    join_both(share, mine.0, theirs.0)?;
    same(rt, refused, (0, 0));
    same(
        rt,
        int_at(rt, shared, share.front(), Who::Ref(0)),
        Some(200),
    );
    Ok(())
}

#[test]
fn no_commit_of_two_threads_is_lost(rt: HostRuntime) -> Result<(), Fail> {
    check(&rt, Case::Sum)
}

// A gate that holds the first body's commit until another thread says so, and says when it does.
#[derive(Drop)]
struct Hold<'a, 'b, 'c, R: Clock> {
    rt: &'a R,
    held: &'b AtomicBool,
    free: &'c AtomicBool,
    bodies: u32,
    in_time: bool,
}

impl<'a, 'b, 'c, R: Clock> Gate for Hold<'a, 'b, 'c, R> {
    fn pass(&mut self, spot: Spot) {
        if spot == Spot::AfterBody {
            self.bodies = self.bodies.saturating_add(1);
            if self.bodies == 1 {
                self.held.store(true, Ordering::SeqCst);
                self.in_time = wait_for(self.rt, self.free);
            }
        }
    }
}

// Adds 1 to a next to a gate, and returns the commit's point, and what a was before in the last body.
fn add_beside<R: Wait, L: Books, G: Gate>(
    rt: &R,
    alloc: Global,
    shared: &Shared<Core, L>,
    share: &mut Share<L>,
    gate: &mut G,
) -> Result<(u64, Option<i64>), Stop> {
    let (funs, sink) = (&CoreFunctions, &mut Quiet);
    let body = |tx: &mut Tx<Core>| -> Result<Option<i64>, Stop> {
        let read = int_of(done(tx.deref(0))?);
        add(alloc, tx, 0, "1")?;
        Ok(read)
    };
    let added = shared.transact(rt, alloc, funs, share, STAMP, 10, gate, sink, body);
    done(added).map(|(read, receipt)| (receipt.point, read))
}

// What came of the held commit: its point, how many bodies it took, and what the last one read.
#[derive(Clone, Copy, Debug, Drop, PartialEq)]
struct Held {
    point: u64,
    bodies: u32,
    read: Option<i64>,
}

// Adds 1 to a, held after its first body.
fn add_held<R: AllocGlobal + Wait + Clock, L: Books>(
    rt: &R,
    shared: &Shared<Core, L>,
    mut share: Share<L>,
    flags: &Flags,
) -> (Share<L>, Result<Held, Stop>) {
    let alloc = rt.alloc();
    let mut gate = Hold {
        rt,
        held: &flags.first,
        free: &flags.second,
        bodies: 0,
        in_time: false,
    };
    let committed = add_beside(rt, alloc, shared, &mut share, &mut gate);
    if !gate.in_time {
        return (share, Err(Stop::Late));
    }
    let bodies = gate.bodies;
    let held = committed.map(|(point, read)| Held {
        point,
        bodies,
        read,
    });
    (share, held)
}

// Adds 10 to a while the other is held. It answers the share, and the commit's point.
fn add_meanwhile<R: AllocGlobal + Wait + Clock, L: Books>(
    rt: &R,
    shared: &Shared<Core, L>,
    mut share: Share<L>,
    flags: &Flags,
) -> (Share<L>, Result<u64, Stop>) {
    let alloc = rt.alloc();
    if !wait_for(rt, &flags.first) {
        return (share, Err(Stop::Late));
    }
    let added = transact_add(rt, alloc, shared, &mut share, OTHER, 1, "10");
    flags.second.store(true, Ordering::SeqCst);
    (share, added)
}

// A commit of one thread, held until one of the other is there: it begins anew.
pub(crate) fn see_overtaking<
    L: Books + Send + Sync,
    R: AllocGlobal + Threads + Wait + Clock + Abort + Sync,
>(rt: &R, shared: &Shared<Core, L>, share: &mut Share<L>) -> Result<(), Stop> {
    let (one, other) = two_parts(share)?;
    let flags = Flags::new();
    let lent = &flags;
    let (mine, theirs) = thread::join(
        rt,
        move || add_held(rt, shared, one, lent),
        move || add_meanwhile(rt, shared, other, lent),
    );
    let (held, meanwhile) = (mine.1, theirs.1);
    join_both(share, mine.0, theirs.0)?;
    let wanted = Held {
        point: 2,
        bodies: 2,
        read: Some(10),
    };
    same(rt, (held, meanwhile), (Ok(wanted), Ok(1)));
    same(rt, int_at(rt, shared, share.front(), Who::Ref(0)), Some(11));
    Ok(())
}

pub(crate) fn look_at_overtaking<R: AllocGlobal + Abort>(
    rt: &R,
    world: &World<Core>,
    totals: Totals,
) -> Result<(), Stop> {
    let log = all_commits(rt.alloc(), world.log())?;
    same(rt, log.as_slice(), &[(OTHER, 0), (STAMP, 1)]);
    same(rt, totals.commits, 2);
    Ok(())
}

#[test]
fn who_is_overtaken_begins_anew(rt: HostRuntime) -> Result<(), Fail> {
    check(&rt, Case::Overtaking)
}

// A sink that waits, when it is called, until another thread has looked.
#[derive(Drop)]
struct Watcher<'a, 'b, 'c, R: Clock> {
    rt: &'a R,
    reached: &'b AtomicBool,
    looked: &'c AtomicBool,
    in_time: bool,
    times: u32,
    last: Option<Told>,
}

impl<'a, 'b, 'c, R: Clock> WatchSink for Watcher<'a, 'b, 'c, R> {
    fn told(&mut self, notice: &Notice) {
        self.times = self.times.saturating_add(1);
        self.last = Some(told_of(notice));
        self.reached.store(true, Ordering::SeqCst);
        self.in_time = wait_for(self.rt, self.looked);
    }
}

// What a sink got: how often, and what last; and what is in the receipt.
#[derive(Debug, Drop, PartialEq)]
struct Delivered {
    times: u32,
    last: Option<Told>,
    receipt: Vec<Told>,
}

// Adds 1 to a, whose notices go to a sink, and returns what the receipt says of them.
fn add_to<R: Wait, L: Books, W: WatchSink>(
    rt: &R,
    alloc: Global,
    shared: &Shared<Core, L>,
    share: &mut Share<L>,
    sink: &mut W,
) -> Result<Vec<Told>, Stop> {
    let (funs, gate) = (&CoreFunctions, &mut Open);
    let body = |tx: &mut Tx<Core>| add(alloc, tx, 0, "1");
    let (_, receipt) = done(shared.transact(rt, alloc, funs, share, STAMP, 1, gate, sink, body))?;
    let mut told = Vec::new(alloc);
    for notice in &receipt.notices {
        told.push(told_of(notice))?;
    }
    Ok(told)
}

// Adds 1 to a, and returns the share, and the notices.
fn add_told<R: AllocGlobal + Wait + Clock, L: Books>(
    rt: &R,
    shared: &Shared<Core, L>,
    mut share: Share<L>,
    flags: &Flags,
) -> (Share<L>, Result<Delivered, Stop>) {
    let alloc = rt.alloc();
    let mut sink = Watcher {
        rt,
        reached: &flags.first,
        looked: &flags.second,
        in_time: false,
        times: 0,
        last: None,
    };
    let receipt = add_to(rt, alloc, shared, &mut share, &mut sink);
    if !sink.in_time {
        return (share, Err(Stop::Late));
    }
    let (times, last) = (sink.times, sink.last);
    let told = receipt.map(|receipt| Delivered {
        times,
        last,
        receipt,
    });
    (share, told)
}

// What a holds once the sink is called.
fn look<R: Wait + Clock, L: Books>(
    rt: &R,
    shared: &Shared<Core, L>,
    front: &Front<L>,
    flags: &Flags,
) -> Result<Option<i64>, Stop> {
    if !wait_for(rt, &flags.first) {
        return Err(Stop::Late);
    }
    let now = int_at(rt, shared, front, Who::Ref(0));
    flags.second.store(true, Ordering::SeqCst);
    Ok(now)
}

// A commit of one thread, whose watch is called while another looks.
pub(crate) fn see_telling<
    L: Books + Send + Sync,
    R: AllocGlobal + Threads + Wait + Clock + Abort + Sync,
>(rt: &R, shared: &Shared<Core, L>, share: &mut Share<L>) -> Result<(), Stop> {
    watch(rt, rt.alloc(), shared, Who::Ref(0), ":k")?;
    let part = share.split(1).ok_or(Stop::Refused)?;
    let front = share.front();
    let flags = Flags::new();
    let lent = &flags;
    let (mine, seen) = thread::join(
        rt,
        move || add_told(rt, shared, part, lent),
        move || look(rt, shared, front, lent),
    );
    let (part, told) = mine;
    done(share.join(part))?;
    let notice = (Who::Ref(0), true, Some(0), Some(1));
    let wanted = Delivered {
        times: 1,
        last: Some(notice),
        receipt: vec![in rt.alloc(); notice]?,
    };
    same(rt, (told, seen), (Ok(wanted), Ok(Some(1))));
    Ok(())
}

#[test]
fn others_read_while_a_watch_is_told(rt: HostRuntime) -> Result<(), Fail> {
    check(&rt, Case::Telling)
}
