//! Agents and two threads: actions of two agents run side by side, also where one of them is held after it has run; those of one
//! agent in turn.
use crate::cases::{Case, check};
use crate::flags::Flags;
use crate::same::same;
use crate::waits::{Meet, wait_for};
use ref_agents::ErrorMode;
use ref_fun::codes::{MINUS, PLUS};
use ref_fun::{Core, CoreFunctions, Functions};
use ref_log::Who;
use ref_shared::{Gate, Quiet, Shared, Spot, Worked};
use ref_world::{Books, Front};
use std::alloc::Global;
use std::process::Abort;
use std::sync::Wait;
use std::sync::atomic::{AtomicBool, Ordering};
use std::test::Fail;
use std::thread;
use std::thread::Threads;
use std::time::Clock;
use tests_shared::jobs::{Work, agents_at, work};
use tests_shared::steps::send;
use tests_shared::worlds::{Stop, done, int_at};

// Runs one action, and answers whether it met the other.
pub(crate) fn work_and_meet<R: AllocGlobal + Wait + Clock, L: Books>(
    rt: &R,
    shared: &Shared<Core, L>,
    here: &AtomicBool,
    there: &AtomicBool,
) -> (bool, bool) {
    let alloc = rt.alloc();
    let mut gate = Meet::at(rt, here, there);
    let worked = shared.work_once(rt, alloc, &CoreFunctions, &mut gate, &mut Quiet);
    (worked.is_ok(), gate.met)
}

// Two threads, each of which runs an action that is held until the other's has begun.
pub(crate) fn see_meeting<
    L: Books + Send + Sync,
    R: AllocGlobal + Threads + Wait + Clock + Abort + Sync,
>(rt: &R, shared: &Shared<Core, L>, front: &Front<L>) -> Result<(), Stop> {
    send(rt, rt.alloc(), shared, 0, PLUS, "1")?;
    send(rt, rt.alloc(), shared, 1, PLUS, "2")?;
    let flags = Flags::new();
    let lent = &flags;
    let (one, two) = thread::join(
        rt,
        move || work_and_meet(rt, shared, &lent.first, &lent.second),
        move || work_and_meet(rt, shared, &lent.second, &lent.first),
    );
    same(rt, (one, two), ((true, true), (true, true)));
    same(rt, agents_at(rt, shared, front), (Some(1), Some(2)));
    Ok(())
}

// Runs one action by a table, held until the other waits for the next one, and closes once that one was run.
pub(crate) fn work_first<R: Wait + Clock, L: Books, F: Functions<Core>>(
    rt: &R,
    alloc: Global,
    shared: &Shared<Core, L>,
    funs: &F,
    flags: &Flags,
) -> (Work, bool) {
    let mut gate = Meet::at(rt, &flags.first, &flags.second);
    let worked = shared.work_once(rt, alloc, funs, &mut gate, &mut Quiet);
    let in_time = gate.met && wait_for(rt, &flags.third);
    shared.close(rt);
    (worked, in_time)
}

// Waits for the next action while the first is on its way, and runs it.
pub(crate) fn work_next<R: Wait + Clock, L: Books>(
    rt: &R,
    alloc: Global,
    shared: &Shared<Core, L>,
    flags: &Flags,
) -> (Work, bool) {
    let in_time = wait_for(rt, &flags.first);
    flags.second.store(true, Ordering::SeqCst);
    let worked = work(rt, alloc, shared);
    flags.third.store(true, Ordering::SeqCst);
    (worked, in_time)
}

// Two threads that run two actions of one agent.
pub(crate) fn take_turns<L: Books + Send + Sync, R: Threads + Wait + Clock + Sync>(
    rt: &R,
    alloc: Global,
    shared: &Shared<Core, L>,
) -> ((Work, bool), (Work, bool)) {
    let flags = Flags::new();
    let lent = &flags;
    let (next, first) = thread::join(
        rt,
        move || work_next(rt, alloc, shared, lent),
        move || work_first(rt, alloc, shared, &CoreFunctions, lent),
    );
    (next, first)
}

// The first action calls the function of this code with 1. If the agent's rule doesn't accept its value, the agent goes on.
pub(crate) fn see_turns<
    L: Books + Send + Sync,
    R: AllocGlobal + Threads + Wait + Clock + Abort + Sync,
>(rt: &R, shared: &Shared<Core, L>, front: &Front<L>, code: u32, value: i64) -> Result<(), Stop> {
    let alloc = rt.alloc();
    done(shared.set_error_mode(rt, 0, ErrorMode::Continue))?;
    send(rt, alloc, shared, 0, code, "1")?;
    send(rt, alloc, shared, 0, PLUS, "2")?;
    let did = (Ok(Worked::Did(0)), true);
    same(rt, take_turns(rt, alloc, shared), (did, did));
    same(rt, int_at(rt, shared, front, Who::Agent(0)), Some(value));
    Ok(())
}

// ---- One that is held after its action

// A gate that holds the first of two actions after it has run, until the call for the other one has returned.
#[derive(Drop)]
struct Last<'a, 'b, R: Clock> {
    rt: &'a R,
    flags: &'b Flags,
    is_first: bool,
    in_time: bool,
}

impl<'a, 'b, R: Clock> Gate for Last<'a, 'b, R> {
    fn pass(&mut self, spot: Spot) {
        if spot == Spot::AfterAction && !self.flags.first.swap(true, Ordering::SeqCst) {
            self.is_first = true;
            self.in_time = wait_for(self.rt, &self.flags.second);
        }
    }
}

// What a thread did, whether its action was held, and if so whether the other call returned in time.
#[derive(Clone, Copy, Drop)]
struct Did {
    work: Work,
    is_first: bool,
    in_time: bool,
}

// Runs one action, and says so once the call has returned.
fn work_beside<R: AllocGlobal + Wait + Clock, L: Books>(
    rt: &R,
    shared: &Shared<Core, L>,
    flags: &Flags,
) -> Did {
    let alloc = rt.alloc();
    let mut gate = Last {
        rt,
        flags,
        is_first: false,
        in_time: false,
    };
    let work = shared.work_once(rt, alloc, &CoreFunctions, &mut gate, &mut Quiet);
    flags.second.store(true, Ordering::SeqCst);
    Did {
        work,
        is_first: gate.is_first,
        in_time: gate.in_time,
    }
}

// One action is held, in time, and these are of both agents.
pub(crate) fn see_holding<
    L: Books + Send + Sync,
    R: AllocGlobal + Threads + Wait + Clock + Abort + Sync,
>(rt: &R, shared: &Shared<Core, L>, front: &Front<L>) -> Result<(), Stop> {
    send(rt, rt.alloc(), shared, 0, PLUS, "1")?;
    send(rt, rt.alloc(), shared, 1, PLUS, "2")?;
    let flags = Flags::new();
    let lent = &flags;
    let (one, two) = thread::join(
        rt,
        move || work_beside(rt, shared, lent),
        move || work_beside(rt, shared, lent),
    );
    let first = usize::from(one.is_first) + usize::from(two.is_first);
    let in_time = usize::from(one.in_time) + usize::from(two.in_time);
    same(rt, (first, in_time), (1, 1));
    let (works, of_both) = (
        (one.work, two.work),
        (Ok(Worked::Did(0)), Ok(Worked::Did(1))),
    );
    same(
        rt,
        works == of_both || works == (of_both.1, of_both.0),
        true,
    );
    same(rt, agents_at(rt, shared, front), (Some(1), Some(2)));
    Ok(())
}

#[test]
fn actions_of_two_agents_run_side_by_side(rt: HostRuntime) -> Result<(), Fail> {
    check(&rt, Case::Meeting)?;
    check(&rt, Case::Holding)
}

#[test]
fn an_agents_next_action_waits_for_the_first(rt: HostRuntime) -> Result<(), Fail> {
    check(&rt, Case::Turns(PLUS, 3))?;
    check(&rt, Case::Turns(MINUS, 2))
}
