//! A release wakes all who wait for an agent: that of a commit, and that of what an action carried.
ghost use Rattle.std.specs.Prelude.{◌≡◌};

use crate::cases::{Case, check};
use crate::flags::Flags;
use crate::same::same;
use crate::side_by_side::work_and_meet;
use crate::waits::{wait_for, wait_past};
use crate::waking::nudge;
use ref_agents::Job;
use ref_fun::codes::PLUS;
use ref_fun::{Action, Carries, Core, CoreFunctions};
use ref_shared::{Open, Quiet, Shared};
use ref_tx::Tx;
use ref_world::{Books, Front, Share, World};
use std::alloc::{AllocError, Global};
use std::process::Abort;
use std::sync::Wait;
use std::sync::atomic::{AtomicBool, Ordering};
use std::test::Fail;
use std::thread;
use std::thread::Threads;
use std::time::Clock;
use tests_shared::jobs::{agents_at, send_four};
use tests_shared::steps::commit;
use tests_shared::worlds::{STAMP, Stop, action, carry, done};

// Runs one action, which is held until the other's has begun, and says before that it comes.
fn come_and_meet<R: AllocGlobal + Wait + Clock, L: Books>(
    rt: &R,
    shared: &Shared<Core, L>,
    comes: &AtomicBool,
    here: &AtomicBool,
    there: &AtomicBool,
) -> (bool, bool) {
    comes.store(true, Ordering::SeqCst);
    work_and_meet(rt, shared, here, there)
}

fn two_meet<L: Books + Send + Sync, R: AllocGlobal + Threads + Wait + Clock + Sync>(
    rt: &R,
    shared: &Shared<Core, L>,
    flags: &Flags,
) -> ((bool, bool), (bool, bool)) {
    let (one, two) = thread::join(
        rt,
        move || come_and_meet(rt, shared, &flags.first, &flags.third, &flags.fourth),
        move || come_and_meet(rt, shared, &flags.second, &flags.fourth, &flags.third),
    );
    (one, two)
}

// Waits until both are about to wait.
fn both_wait<R: Clock>(rt: &R, flags: &Flags) -> bool {
    let (was_one, was_other) = (wait_past(rt, &flags.first), wait_past(rt, &flags.second));
    was_one && was_other
}

// Waits until each has begun an action, and returns whether they were woken to do so.
fn both_begin<R: AllocGlobal + Wait + Clock, L: Books>(
    rt: &R,
    shared: &Shared<Core, L>,
    flags: &Flags,
) -> bool {
    let (one, other) = (wait_for(rt, &flags.third), wait_for(rt, &flags.fourth));
    if !one || !other {
        nudge(rt, rt.alloc(), shared);
        nudge(rt, rt.alloc(), shared);
    }
    one && other
}

// Releases what was sent to g and to h while two wait, by the commit at a point or, without one, by an action of g; and returns whether both
// were woken.
fn release_to_two<R: AllocGlobal + Wait + Clock, L: Books>(
    rt: &R,
    shared: &Shared<Core, L>,
    point: Option<u64>,
    flags: &Flags,
) -> bool {
    let were_there = both_wait(rt, flags);
    let released = match point {
        Some(point) => shared.release(rt, point),
        None => shared.release_carried(rt, 0),
    };
    let began = both_begin(rt, shared, flags);
    were_there && began && released
}

// Two run an action each, that of g `+ 1` and that of h `+ 4`, and meet, and a third one wakes both.
pub(crate) fn see_released<
    L: Books + Send + Sync,
    R: AllocGlobal + Threads + Wait + Clock + Abort + Sync,
>(rt: &R, shared: &Shared<Core, L>, front: &Front<L>, point: Option<u64>) -> Result<(), Stop> {
    let flags = Flags::new();
    let lent = &flags;
    let (works, woke) = thread::join(
        rt,
        move || two_meet(rt, shared, lent),
        move || release_to_two(rt, shared, point, lent),
    );
    same(rt, (works, woke), (((true, true), (true, true)), true));
    same(rt, agents_at(rt, shared, front), (Some(1), Some(4)));
    Ok(())
}

// ---- By the release of a commit

// `send g + 1` and `send h + 4` in a transaction.
fn send_both(alloc: Global, tx: &mut Tx<Core>) -> Result<(), Stop> {
    done(tx.send(alloc, &CoreFunctions, 0, action(alloc, PLUS, "1")?))?;
    send_four(alloc, tx)
}

// Commits both sends, and releases them while two wait.
pub(crate) fn see_release<
    L: Books + Send + Sync,
    R: AllocGlobal + Threads + Wait + Clock + Abort + Sync,
>(rt: &R, shared: &Shared<Core, L>, share: &mut Share<L>) -> Result<(), Stop> {
    let mut tx = shared.begin(rt, rt.alloc(), share)?;
    send_both(rt.alloc(), &mut tx)?;
    let point = commit(rt, rt.alloc(), shared, share, STAMP, tx)?;
    see_released(rt, shared, share.front(), Some(point))
}

// ---- By a `transact`, which releases what it sent

// Sends both in a `transact` while two wait, and returns whether both were woken.
fn transact_for_two<R: AllocGlobal + Wait + Clock, L: Books>(
    rt: &R,
    shared: &Shared<Core, L>,
    mut share: Share<L>,
    flags: &Flags,
) -> (Share<L>, bool) {
    let (alloc, funs, gate, sink) = (rt.alloc(), &CoreFunctions, &mut Open, &mut Quiet);
    let were_there = both_wait(rt, flags);
    let body = |tx: &mut Tx<Core>| send_both(alloc, tx);
    let committed = shared.transact(rt, alloc, funs, &mut share, STAMP, 1, gate, sink, body);
    let began = both_begin(rt, shared, flags);
    (share, were_there && began && committed.is_ok())
}

pub(crate) fn see_transact<
    L: Books + Send + Sync,
    R: AllocGlobal + Threads + Wait + Clock + Abort + Sync,
>(rt: &R, shared: &Shared<Core, L>, share: &mut Share<L>) -> Result<(), Stop> {
    let part = share.split(1).ok_or(Stop::Refused)?;
    let flags = Flags::new();
    let lent = &flags;
    let (works, woke) = thread::join(
        rt,
        move || two_meet(rt, shared, lent),
        move || transact_for_two(rt, shared, part, lent),
    );
    let (part, woke) = woke;
    done(share.join(part))?;
    same(rt, (works, woke), (((true, true), (true, true)), true));
    same(rt, agents_at(rt, shared, share.front()), (Some(1), Some(4)));
    Ok(())
}

// ---- By the release of what an action carried

// For g `+ 0`, which carries `+ 1` for g and `+ 4` for h.
fn carrying_both(alloc: Global) -> Result<Action, AllocError> {
    let (mut action, to_g) = (action(alloc, PLUS, "0")?, carry(alloc, 0, "1")?);
    action.carries = Carries::of(alloc, vec![in alloc; to_g, carry(alloc, 1, "4")?]?)?;
    Ok(action)
}

// Runs a job, and releases nothing of what its action carried.
fn end_job(alloc: Global, world: &mut World<Core>, job: Job) -> Result<(), Stop>
    ensures same { (world.new.books ≡ world.old.books) × (world.new.base ≡ world.old.base)
        × (world.new.log ≡ world.old.log) }
{
    let ran = match job.run(alloc, &CoreFunctions) {
        Ok(ran) => ran,
        Err((job, _)) => {
            job.forsake();
            return Err(Stop::Refused);
        }
    };
    if let Err((ran, _)) = world.finish(alloc, &CoreFunctions, ran) {
        ran.into_job().forsake();
        return Err(Stop::Refused);
    }
    Ok(())
}

// Sends that action, and ends it. `work_once` releases what it ended itself, so this is done before the world is shared.
pub(crate) fn carry_both(alloc: Global, world: &mut World<Core>) -> Result<(), Stop>
    ensures same { (world.new.books ≡ world.old.books) × (world.new.base ≡ world.old.base)
        × (world.new.log ≡ world.old.log) }
{
    done(world.send(0, carrying_both(alloc)?))?;
    match done(world.take())? {
        Some(job) => end_job(alloc, world, job),
        None => Err(Stop::Refused),
    }
}

#[test]
fn a_release_wakes_all_who_wait(rt: HostRuntime) -> Result<(), Fail> {
    check(&rt, Case::Release)?;
    check(&rt, Case::Transact)?;
    check(&rt, Case::CarriedRelease)
}
