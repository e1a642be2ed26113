//! A thread that waits for an action to run is woken by each single send, also while others wait for something else; and the end wakes all
//! who wait.
use crate::awaits::{await_when_told, meet};
use crate::cases::{Case, check};
use crate::same::same;
use crate::whens::{nudge, wait_in_vain};
use ref_fun::Core;
use ref_fun::codes::PLUS;
use ref_shared::{AwaitFault, Shared, Worked};
use ref_world::{Books, Front, Share};
use std::process::Abort;
use std::sync::Wait;
use std::sync::atomic::Ordering;
use std::test::Fail;
use std::thread;
use std::thread::Threads;
use std::time::Clock;
use tests_shared::jobs::{Work, agents_at, send_four};
use tests_shared::steps::{commit, send};
use tests_shared::worlds::{STAMP, Stop};
use tests_threads::flags::Flags;
use tests_threads::pools::work_thrice;
use tests_threads::waits::{wait_for, wait_past};

// Works three times, once the one has waited for a while that waits for an entry.
fn work_last<R: AllocGlobal + Wait + Clock, L: Books>(
    rt: &R,
    shared: &Shared<Core, L>,
    when: &Flags,
    work: &Flags,
) -> (Work, Work, Work) {
    let _ = wait_past(rt, &when.second);
    work_thrice(rt, rt.alloc(), shared, work)
}

fn send_to_g<R: AllocGlobal + Wait, L: Books>(rt: &R, shared: &Shared<Core, L>) -> bool {
    send(rt, rt.alloc(), shared, 0, PLUS, "1").is_ok()
}

// One waits for h, one for an entry, and then one to run an action. Sends to g twice, and then releases what is held of h, each while
// that one waits; and returns whether it ran each in time, and the first returned then, and not before.
fn wake_worker<R: AllocGlobal + Wait + Clock, L: Books>(
    rt: &R,
    shared: &Shared<Core, L>,
    point: u64,
    agent: &Flags,
    when: &Flags,
    work: &Flags,
) -> bool {
    meet(rt, agent)
        && meet(rt, when)
        && wait_past(rt, &work.first)
        && send_to_g(rt, shared)
        && wait_past(rt, &work.second)
        && send_to_g(rt, shared)
        && wait_past(rt, &work.third)
        && !agent.third.load(Ordering::SeqCst)
        && shared.release(rt, point)
        && wait_for(rt, &work.fourth)
        && wait_for(rt, &agent.third)
}

// Wakes the worker as planned, and then closes; and returns whether all went as planned, and the one who waits for an entry returned last.
fn wake_and_close<R: AllocGlobal + Wait + Clock, L: Books>(
    rt: &R,
    shared: &Shared<Core, L>,
    front: &Front<L>,
    point: u64,
    agent: &Flags,
    when: &Flags,
    work: &Flags,
) -> bool {
    let woke = wake_worker(rt, shared, point, agent, when, work);
    shared.close(rt);
    let ended = wait_for(rt, &when.third);
    if !ended {
        nudge(rt, rt.alloc(), shared, front);
    }
    woke && ended
}

// What who waits for h returned, and how many times the body was called of who waits for an entry, if it was closed.
type Two = (Result<(), AwaitFault>, Option<u32>);

// The same of these two, and what the third did.
type Three = (Result<(), AwaitFault>, Option<u32>, (Work, Work, Work));

fn two_wait<L: Books + Send + Sync, R: AllocGlobal + Threads + Wait + Clock + Sync>(
    rt: &R,
    shared: &Shared<Core, L>,
    share: Share<L>,
    agent: &Flags,
    when: &Flags,
) -> Two {
    let (awaited, bodies) = thread::join(
        rt,
        move || await_when_told(rt, shared, &[1], agent),
        move || wait_in_vain(rt, shared, share, when),
    );
    (awaited, bodies)
}

fn three_wait<L: Books + Send + Sync, R: AllocGlobal + Threads + Wait + Clock + Sync>(
    rt: &R,
    shared: &Shared<Core, L>,
    share: Share<L>,
    agent: &Flags,
    when: &Flags,
    work: &Flags,
) -> Three {
    let (both, works) = thread::join(
        rt,
        move || two_wait(rt, shared, share, agent, when),
        move || work_last(rt, shared, when, work),
    );
    (both.0, both.1, works)
}

// How far the three have come: who waits for h, who waits for an entry, and who waits to run an action.
#[derive(Drop)]
struct ThreeFlags {
    agent: Flags,
    when: Flags,
    work: Flags,
}

fn three_wait_and_wake<L: Books + Send + Sync, R: AllocGlobal + Threads + Wait + Clock + Sync>(
    rt: &R,
    shared: &Shared<Core, L>,
    share: Share<L>,
    point: u64,
) -> (Three, bool) {
    let front = share.front().again();
    let known = &front;
    let flags = ThreeFlags {
        agent: Flags::new(),
        when: Flags::new(),
        work: Flags::new(),
    };
    let lent = &flags;
    let (three, woke) = thread::join(
        rt,
        move || three_wait(rt, shared, share, &lent.agent, &lent.when, &lent.work),
        move || {
            wake_and_close(
                rt,
                shared,
                known,
                point,
                &lent.agent,
                &lent.when,
                &lent.work,
            )
        },
    );
    (three, woke)
}

// Commits `send h + 4`, which is held, and returns the point.
fn commit_four<L: Books, R: AllocGlobal + Wait>(
    rt: &R,
    shared: &Shared<Core, L>,
    share: &mut Share<L>,
) -> Result<u64, Stop> {
    let mut tx = shared.begin(rt, rt.alloc(), share)?;
    send_four(rt.alloc(), &mut tx)?;
    commit(rt, rt.alloc(), shared, share, STAMP, tx)
}

pub(crate) fn see_waking<
    L: Books + Send + Sync,
    R: AllocGlobal + Threads + Wait + Clock + Abort + Sync,
>(rt: &R, shared: &Shared<Core, L>, share: &mut Share<L>) -> Result<(), Stop> {
    let point = commit_four(rt, shared, share)?;
    let part = share.split(1).ok_or(Stop::Refused)?;
    let (three, woke) = three_wait_and_wake(rt, shared, part, point);
    let (g, h) = (Ok(Worked::Did(0)), Ok(Worked::Did(1)));
    same(rt, (three, woke), ((Ok(()), Some(1), (g, g, h)), true));
    same(rt, agents_at(rt, shared, share.front()), (Some(2), Some(4)));
    Ok(())
}

#[test]
fn a_send_wakes_a_worker_beside_others_who_wait(rt: HostRuntime) -> Result<(), Fail> {
    check(&rt, Case::Wakes)
}

// ---- At the end

// Closes while one waits for h, whose action is held, and one for an entry; and returns whether both returned then, and not before.
fn close_on_both<R: AllocGlobal + Wait + Clock, L: Books>(
    rt: &R,
    shared: &Shared<Core, L>,
    front: &Front<L>,
    agent: &Flags,
    when: &Flags,
) -> bool {
    let were_there = meet(rt, agent) && meet(rt, when);
    let early = agent.third.load(Ordering::SeqCst) || when.third.load(Ordering::SeqCst);
    shared.close(rt);
    let both = wait_for(rt, &agent.third) && wait_for(rt, &when.third);
    if !both {
        nudge(rt, rt.alloc(), shared, front);
    }
    were_there && !early && both
}

fn two_wait_and_close<L: Books + Send + Sync, R: AllocGlobal + Threads + Wait + Clock + Sync>(
    rt: &R,
    shared: &Shared<Core, L>,
    share: Share<L>,
) -> (Two, bool) {
    let front = share.front().again();
    let known = &front;
    let (agent, when) = (Flags::new(), Flags::new());
    let (agent, when) = (&agent, &when);
    let (two, woke) = thread::join(
        rt,
        move || two_wait(rt, shared, share, agent, when),
        move || close_on_both(rt, shared, known, agent, when),
    );
    (two, woke)
}

pub(crate) fn see_closing<
    L: Books + Send + Sync,
    R: AllocGlobal + Threads + Wait + Clock + Abort + Sync,
>(rt: &R, shared: &Shared<Core, L>, share: &mut Share<L>) -> Result<(), Stop> {
    let _point = commit_four(rt, shared, share)?;
    let part = share.split(1).ok_or(Stop::Refused)?;
    let wanted = ((Err(AwaitFault::Closed), Some(1)), true);
    same(rt, two_wait_and_close(rt, shared, part), wanted);
    Ok(())
}

#[test]
fn closing_wakes_all_who_wait(rt: HostRuntime) -> Result<(), Fail> {
    check(&rt, Case::Closes)
}
