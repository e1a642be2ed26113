//! Who waits for an agent gets the next action as soon as it may be taken: one that was carried once it is released, an agent's next one
//! before the sink has taken the notices of the last, and the one behind an action that was passed over with what it carried.
use crate::cases::{Case, check};
use crate::flags::Flags;
use crate::same::same;
use crate::side_by_side::{take_turns, work_first, work_next};
use crate::waits::{Meet, wait_for};
use ref_agents::ErrorMode;
use ref_fun::codes::PLUS;
use ref_fun::{Action, Carries, Core, CoreFunctions};
use ref_log::{Notice, Who};
use ref_shared::{Shared, WatchSink, Worked};
use ref_world::{Books, Front};
use std::alloc::{AllocError, Global};
use std::process::Abort;
use std::sync::Wait;
use std::sync::atomic::{AtomicBool, Ordering};
use std::test::Fail;
use std::thread;
use std::thread::Threads;
use std::time::Clock;
use tests_shared::jobs::{Work, agents_at, work};
use tests_shared::steps::{send, watch};
use tests_shared::worlds::{Stop, action, carry, done};

// ---- One that was carried

// For g `+` with this argument, which carries `+ 4` for h.
fn carrying(alloc: Global, text: &str) -> Result<Action, AllocError> {
    let mut action = action(alloc, PLUS, text)?;
    action.carries = Carries::of(alloc, vec![in alloc; carry(alloc, 1, "4")?]?)?;
    Ok(action)
}

pub(crate) fn see_carried<
    L: Books + Send + Sync,
    R: AllocGlobal + Threads + Wait + Clock + Abort + Sync,
>(rt: &R, shared: &Shared<Core, L>, front: &Front<L>) -> Result<(), Stop> {
    let alloc = rt.alloc();
    done(shared.send(rt, 0, carrying(alloc, "1")?))?;
    let turns = take_turns(rt, alloc, shared);
    let next = (Ok(Worked::Did(1)), true);
    same(rt, turns, (next, (Ok(Worked::Did(0)), true)));
    same(rt, agents_at(rt, shared, front), (Some(1), Some(4)));
    Ok(())
}

// ---- An agent's next one, and a sink

// A sink that waits until the next action has ended.
#[derive(Drop)]
struct Late<'a, 'b, R: Clock> {
    rt: &'a R,
    ended: &'b AtomicBool,
    in_time: bool,
}

impl<'a, 'b, R: Clock> WatchSink for Late<'a, 'b, R> {
    fn told(&mut self, _notice: &Notice) {
        self.in_time = wait_for(self.rt, self.ended);
    }
}

// Runs the first action, held until the other thread waits for the next one, with that sink, and closes.
fn work_watched<R: Wait + Clock, L: Books>(
    rt: &R,
    alloc: Global,
    shared: &Shared<Core, L>,
    flags: &Flags,
) -> (Work, bool) {
    let mut gate = Meet::at(rt, &flags.first, &flags.second);
    let mut sink = Late {
        rt,
        ended: &flags.third,
        in_time: false,
    };
    let worked = shared.work_once(rt, alloc, &CoreFunctions, &mut gate, &mut sink);
    shared.close(rt);
    (worked, gate.met && sink.in_time)
}

pub(crate) fn see_watched<
    L: Books + Send + Sync,
    R: AllocGlobal + Threads + Wait + Clock + Abort + Sync,
>(rt: &R, shared: &Shared<Core, L>, front: &Front<L>) -> Result<(), Stop> {
    let alloc = rt.alloc();
    watch(rt, alloc, shared, Who::Agent(0), ":k")?;
    send(rt, alloc, shared, 0, PLUS, "1")?;
    send(rt, alloc, shared, 0, PLUS, "2")?;
    let flags = Flags::new();
    let lent = &flags;
    let (next, first) = thread::join(
        rt,
        move || work_next(rt, alloc, shared, lent),
        move || work_watched(rt, alloc, shared, lent),
    );
    let did = (Ok(Worked::Did(0)), true);
    same(rt, (next, first), (did, did));
    same(rt, agents_at(rt, shared, front), (Some(3), Some(0)));
    Ok(())
}

// ---- One that is passed over

// Waits while the first action of g is on its way: for g, or for an action of g to run. Returns whether this went well, and whether it came
// in time.
fn wait_next<R: AllocGlobal + Wait + Clock, L: Books>(
    rt: &R,
    shared: &Shared<Core, L>,
    awaits: bool,
    flags: &Flags,
) -> (bool, bool) {
    let in_time = wait_for(rt, &flags.first);
    flags.second.store(true, Ordering::SeqCst);
    let went = if awaits {
        shared.await_agents(rt, rt.alloc(), &[0]).is_ok()
    } else {
        work(rt, rt.alloc(), shared) == Ok(Worked::Did(0))
    };
    flags.third.store(true, Ordering::SeqCst);
    (went, in_time)
}

// g goes on where an action fails. If it isn't waited for, `+ 2` stands behind the action that is passed over. Nothing is left for h.
pub(crate) fn see_passing<
    L: Books + Send + Sync,
    R: AllocGlobal + Threads + Wait + Clock + Abort + Sync,
>(
    rt: &R,
    shared: &Shared<Core, L>,
    front: &Front<L>,
    awaits: bool,
    value: i64,
) -> Result<(), Stop> {
    let alloc = rt.alloc();
    done(shared.set_error_mode(rt, 0, ErrorMode::Continue))?;
    done(shared.send(rt, 0, carrying(alloc, ":k")?))?;
    if !awaits {
        send(rt, alloc, shared, 0, PLUS, "2")?;
    }
    let flags = Flags::new();
    let lent = &flags;
    let (next, first) = thread::join(
        rt,
        move || wait_next(rt, shared, awaits, lent),
        move || work_first(rt, alloc, shared, &CoreFunctions, lent),
    );
    same(rt, next, (true, true));
    same(rt, first, (Ok(Worked::Did(0)), true));
    same(rt, shared.await_agents(rt, alloc, &[1]), Ok(()));
    same(rt, agents_at(rt, shared, front), (Some(value), Some(0)));
    Ok(())
}

#[test]
fn who_waits_gets_the_next_action_as_soon_as_it_may_be_taken(rt: HostRuntime) -> Result<(), Fail> {
    check(&rt, Case::Carried)?;
    check(&rt, Case::Watched)?;
    check(&rt, Case::Passing(true, 0))?;
    check(&rt, Case::Passing(false, 2))
}
