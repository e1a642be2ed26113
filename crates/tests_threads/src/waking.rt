//! Who waits for an agent is woken: by a send, a release, a restart, an action that is put back, and at the end. `releases` has the
//! releases that wake several.
use crate::cases::{Case, check};
use crate::flags::Flags;
use crate::pools::work_thrice;
use crate::same::same;
use crate::side_by_side::{work_first, work_next};
use crate::waits::{wait_for, wait_past};
use ref_fun::codes::{MINUS, PLUS};
use ref_fun::{Action, Core, CoreFunctions, FunTable};
use ref_log::Who;
use ref_shared::{Shared, WorkFault, Worked};
use ref_value::Value;
use ref_world::{Books, Front, Share};
use std::alloc::Global;
use std::process::Abort;
use std::sync::Wait;
use std::sync::atomic::{AtomicBool, Ordering};
use std::test::Fail;
use std::thread;
use std::thread::Threads;
use std::time::Clock;
use tests_shared::jobs::{CLOSED, Work, agents_at, send_four, work};
use tests_shared::steps::{commit, send};
use tests_shared::worlds::{STAMP, Stop, action, done, int_at, value};

// Wakes one who waits, so that a test ends which has failed.
pub(crate) fn nudge<R: Wait, L: Books>(rt: &R, alloc: Global, shared: &Shared<Core, L>) {
    if let Ok(action) = action(alloc, PLUS, "1") {
        let _ = shared.send(rt, 1, action);
    }
}

// ---- By a send, by a release, and at the end

// Sends to g, lets out what a commit sent to h, and closes, each while the other waits. It answers whether the other was there and
// woken in time, and nothing was refused.
fn wake<R: Wait + Clock, L: Books>(
    rt: &R,
    alloc: Global,
    shared: &Shared<Core, L>,
    action: Action,
    point: u64,
    flags: &Flags,
) -> bool {
    let was_first = wait_past(rt, &flags.first);
    let sent = shared.send(rt, 0, action);
    let was_second = wait_past(rt, &flags.second);
    let released = shared.release(rt, point);
    let was_third = wait_past(rt, &flags.third);
    shared.close(rt);
    let has_ended = wait_for(rt, &flags.fourth);
    if !has_ended {
        nudge(rt, alloc, shared);
    }
    was_first && was_second && was_third && has_ended && sent.is_ok() && released
}

// One thread's work, and the other's waking of it.
pub(crate) fn see_waking<
    L: Books + Send + Sync,
    R: AllocGlobal + Threads + Wait + Clock + Abort + Sync,
>(rt: &R, shared: &Shared<Core, L>, share: &mut Share<L>) -> Result<(), Stop> {
    let alloc = rt.alloc();
    let mut tx = shared.begin(rt, alloc, share)?;
    send_four(alloc, &mut tx)?;
    let point = commit(rt, alloc, shared, share, STAMP, tx)?;
    let plus_one = action(alloc, PLUS, "1")?;
    let flags = Flags::new();
    let lent = &flags;
    let (works, woke) = thread::join(
        rt,
        move || work_thrice(rt, alloc, shared, lent),
        move || wake(rt, alloc, shared, plus_one, point, lent),
    );
    let wanted = (Ok(Worked::Did(0)), Ok(Worked::Did(1)), CLOSED);
    same(rt, (works, woke), (wanted, true));
    same(rt, agents_at(rt, shared, share.front()), (Some(1), Some(4)));
    Ok(())
}

// ---- By a restart

// Works once, and says before that it comes, and when it has ended.
fn work_between<R: Wait, L: Books>(
    rt: &R,
    alloc: Global,
    shared: &Shared<Core, L>,
    here: &AtomicBool,
    ended: &AtomicBool,
) -> Work {
    here.store(true, Ordering::SeqCst);
    let worked = work(rt, alloc, shared);
    ended.store(true, Ordering::SeqCst);
    worked
}

// Restarts g while the other waits, and answers whether that one was woken in time.
fn restart<R: Wait + Clock, L: Books>(
    rt: &R,
    alloc: Global,
    shared: &Shared<Core, L>,
    state: Value,
    flags: &Flags,
) -> bool {
    let was_there = wait_past(rt, &flags.first);
    let restarted = shared.restart(rt, &CoreFunctions, 0, state, false);
    let has_ended = wait_for(rt, &flags.second);
    shared.close(rt);
    was_there && has_ended && restarted.is_ok()
}

// `- 5`, which fails g, and `+ 2`, which is held until it is restarted with 10.
pub(crate) fn see_restart<
    L: Books + Send + Sync,
    R: AllocGlobal + Threads + Wait + Clock + Abort + Sync,
>(rt: &R, shared: &Shared<Core, L>, front: &Front<L>) -> Result<(), Stop> {
    let alloc = rt.alloc();
    send(rt, alloc, shared, 0, MINUS, "5")?;
    send(rt, alloc, shared, 0, PLUS, "2")?;
    let _ = done(work(rt, alloc, shared))?;
    let ten = value(alloc, "10")?;
    let flags = Flags::new();
    let lent = &flags;
    let (worked, woke) = thread::join(
        rt,
        move || work_between(rt, alloc, shared, &lent.first, &lent.second),
        move || restart(rt, alloc, shared, ten, lent),
    );
    same(rt, (worked, woke), (Ok(Worked::Did(0)), true));
    same(rt, int_at(rt, shared, front, Who::Agent(0)), Some(12));
    Ok(())
}

// ---- By an action that is put back

// Takes an action and has no function for it, once the other waits.
fn work_without<R: Wait + Clock, L: Books>(
    rt: &R,
    alloc: Global,
    shared: &Shared<Core, L>,
    flags: &Flags,
) -> (Work, bool) {
    let funs = FunTable::empty(alloc);
    work_first(rt, alloc, shared, &funs, flags)
}

// Two threads and one action, which the first can't run.
pub(crate) fn see_handing_on<
    L: Books + Send + Sync,
    R: AllocGlobal + Threads + Wait + Clock + Abort + Sync,
>(rt: &R, shared: &Shared<Core, L>, front: &Front<L>) -> Result<(), Stop> {
    let alloc = rt.alloc();
    send(rt, alloc, shared, 0, PLUS, "1")?;
    let flags = Flags::new();
    let lent = &flags;
    let (next, first) = thread::join(
        rt,
        move || work_next(rt, alloc, shared, lent),
        move || work_without(rt, alloc, shared, lent),
    );
    same(rt, first, (Err(WorkFault::NoSuchFun(PLUS)), true));
    same(rt, next, (Ok(Worked::Did(0)), true));
    same(rt, int_at(rt, shared, front, Who::Agent(0)), Some(1));
    Ok(())
}

// ---- All who wait

// Closes while two wait, and answers whether both ended then.
fn close_on_two<R: Wait + Clock, L: Books>(
    rt: &R,
    alloc: Global,
    shared: &Shared<Core, L>,
    flags: &Flags,
) -> bool {
    let (was_one, was_other) = (wait_past(rt, &flags.first), wait_past(rt, &flags.second));
    shared.close(rt);
    let (one, other) = (wait_for(rt, &flags.third), wait_for(rt, &flags.fourth));
    if !one || !other {
        nudge(rt, alloc, shared);
        nudge(rt, alloc, shared);
    }
    was_one && was_other && one && other
}

fn two_work<L: Books + Send + Sync, R: Threads + Wait + Sync>(
    rt: &R,
    alloc: Global,
    shared: &Shared<Core, L>,
    flags: &Flags,
) -> (Work, Work) {
    let (one, two) = thread::join(
        rt,
        move || work_between(rt, alloc, shared, &flags.first, &flags.third),
        move || work_between(rt, alloc, shared, &flags.second, &flags.fourth),
    );
    (one, two)
}

pub(crate) fn see_close<
    L: Books + Send + Sync,
    R: AllocGlobal + Threads + Wait + Clock + Abort + Sync,
>(rt: &R, shared: &Shared<Core, L>) -> Result<(), Stop> {
    let alloc = rt.alloc();
    let flags = Flags::new();
    let lent = &flags;
    let (works, woke) = thread::join(
        rt,
        move || two_work(rt, alloc, shared, lent),
        move || close_on_two(rt, alloc, shared, lent),
    );
    same(rt, (works, woke), ((CLOSED, CLOSED), true));
    Ok(())
}

#[test]
fn who_waits_for_an_agent_is_woken(rt: HostRuntime) -> Result<(), Fail> {
    check(&rt, Case::Waking)?;
    check(&rt, Case::Restart)?;
    check(&rt, Case::HandingOn)
}

#[test]
fn closing_wakes_all_who_wait(rt: HostRuntime) -> Result<(), Fail> {
    check(&rt, Case::Close)
}
