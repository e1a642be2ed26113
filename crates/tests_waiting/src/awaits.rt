//! Who waits for agents returns once all is gone that was there when it came, and not before.
use crate::cases::{Case, check, found};
use crate::same::same;
use ref_fun::codes::PLUS;
use ref_fun::{Core, CoreFunctions};
use ref_shared::{AwaitFault, Gate, Open, Quiet, Shared, Spot};
use ref_world::Books;
use std::process::Abort;
use std::sync::Wait;
use std::sync::atomic::Ordering;
use std::test::Fail;
use std::thread;
use std::thread::Threads;
use std::time::Clock;
use tests_shared::jobs::work;
use tests_shared::steps::send;
use tests_shared::tables::Poor;
use tests_shared::worlds::{Stop, value};
use tests_threads::flags::Flags;
use tests_threads::waits::{Meet, wait_for, wait_past};

// Waits for these agents once the other is there, and says before that it comes, and when the call has returned.
pub(crate) fn await_when_told<R: AllocGlobal + Wait + Clock, L: Books>(
    rt: &R,
    shared: &Shared<Core, L>,
    agents: &[u32],
    flags: &Flags,
) -> Result<(), AwaitFault> {
    let _ = wait_for(rt, &flags.first);
    flags.second.store(true, Ordering::SeqCst);
    let awaited = shared.await_agents(rt, rt.alloc(), agents);
    flags.third.store(true, Ordering::SeqCst);
    awaited
}

// Lets the other begin, and returns whether it came, and some time later, when it waits.
pub(crate) fn meet<R: Clock>(rt: &R, flags: &Flags) -> bool {
    flags.first.store(true, Ordering::SeqCst);
    wait_past(rt, &flags.second)
}

// Sends `+ 1` to g so many times, and returns whether all were taken.
pub(crate) fn send_more<R: AllocGlobal + Wait, L: Books>(
    rt: &R,
    shared: &Shared<Core, L>,
    count: u32,
) -> bool {
    let mut sent = true;
    for _ in 0..count {
        sent = sent && send(rt, rt.alloc(), shared, 0, PLUS, "1").is_ok();
    }
    sent
}

// A gate that holds an action until the other waits, sends more to g, and sees whether the other has returned before the action ends.
#[derive(Drop)]
struct Hold<'a, 'b, 'c, R: AllocGlobal + Wait + Clock, L: Books> {
    rt: &'a R,
    shared: &'b Shared<Core, L>,
    flags: &'c Flags,
    sends: u32,
    met: bool,
    early: bool,
}

impl<'a, 'b, 'c, R: AllocGlobal + Wait + Clock, L: Books> Gate for Hold<'a, 'b, 'c, R, L> {
    fn pass(&mut self, spot: Spot) {
        if spot == Spot::BeforeAction {
            self.met = meet(self.rt, self.flags) && send_more(self.rt, self.shared, self.sends);
        }
        if spot == Spot::AfterAction {
            self.early = self.flags.third.load(Ordering::SeqCst);
        }
    }
}

// What the other thread does, step by step. Each returns whether it went as planned, and whether the call has returned too early.
#[derive(Clone, Copy, Drop)]
pub(crate) enum Step {
    // Waits until the other waits.
    Come,
    // Runs an action that is held until the other waits, and then until so many more were sent.
    Hold(u32),
    // Runs an action that is held until the call has returned.
    HoldBehind,
    // Takes an action and puts it back: by a table without memory for it, or without the predicate for its end.
    PutBack(Poor),
    Fold,
    // Restarts g, without its queue if asked.
    Restart(bool),
    Close,
}

fn run_held<R: AllocGlobal + Wait + Clock, L: Books>(
    rt: &R,
    shared: &Shared<Core, L>,
    sends: u32,
    flags: &Flags,
) -> (bool, bool) {
    let mut gate = Hold {
        rt,
        shared,
        flags,
        sends,
        met: false,
        early: false,
    };
    let worked = shared.work_once(rt, rt.alloc(), &CoreFunctions, &mut gate, &mut Quiet);
    (gate.met && worked.is_ok(), gate.early)
}

fn run_behind<R: AllocGlobal + Wait + Clock, L: Books>(
    rt: &R,
    shared: &Shared<Core, L>,
    flags: &Flags,
) -> bool {
    let mut gate = Meet::at(rt, &flags.fourth, &flags.third);
    let worked = shared.work_once(rt, rt.alloc(), &CoreFunctions, &mut gate, &mut Quiet);
    gate.met && worked.is_ok()
}

fn put_back<R: AllocGlobal + Wait, L: Books>(rt: &R, shared: &Shared<Core, L>, funs: Poor) -> bool {
    shared
        .work_once(rt, rt.alloc(), &funs, &mut Open, &mut Quiet)
        .is_err()
}

fn restart<R: AllocGlobal + Wait, L: Books>(rt: &R, shared: &Shared<Core, L>, clear: bool) -> bool {
    let alloc = rt.alloc();
    match value(alloc, "0") {
        Ok(zero) => shared.restart(rt, &CoreFunctions, 0, zero, clear).is_ok(),
        Err(_) => false,
    }
}

fn make<R: AllocGlobal + Wait + Clock, L: Books>(
    rt: &R,
    shared: &Shared<Core, L>,
    step: Step,
    flags: &Flags,
) -> (bool, bool) {
    match step {
        Step::Come => (meet(rt, flags), flags.third.load(Ordering::SeqCst)),
        Step::Hold(sends) => run_held(rt, shared, sends, flags),
        Step::HoldBehind => (run_behind(rt, shared, flags), false),
        Step::PutBack(funs) => (put_back(rt, shared, funs), false),
        Step::Fold => (shared.fold_agent(rt, 0) == Ok(true), false),
        Step::Restart(clear) => (restart(rt, shared, clear), false),
        Step::Close => {
            shared.close(rt);
            (true, false)
        }
    }
}

// What is sent to g as `+ x`, the agents that are waited for, and what the other thread does.
pub(crate) type Waiting = (&'static [&'static str], &'static [u32], &'static [Step]);

// What the other thread found: whether all went as planned, whether the call returned too early, and whether it returned before
// the shared world was closed, or soon after the last step.
#[derive(Clone, Copy, Debug, Drop, PartialEq)]
struct Other {
    went: bool,
    early: bool,
    in_time: bool,
}

// Runs what is left in a closed world, so that a test ends which has failed.
pub(crate) fn run_rest<R: AllocGlobal + Wait, L: Books>(rt: &R, shared: &Shared<Core, L>) {
    for _ in 0..8u32 {
        let _ = work(rt, rt.alloc(), shared);
    }
}

fn act<R: AllocGlobal + Wait + Clock, L: Books>(
    rt: &R,
    shared: &Shared<Core, L>,
    steps: &[Step],
    flags: &Flags,
) -> Other {
    let mut went = true;
    let mut early = false;
    for step in steps {
        let (made, is_early) = make(rt, shared, *step, flags);
        went = went && made;
        early = early || is_early;
        if !went {
            break;
        }
    }
    let in_time = went && wait_for(rt, &flags.third);
    shared.close(rt);
    if !in_time {
        run_rest(rt, shared);
    }
    Other {
        went,
        early,
        in_time,
    }
}

fn await_and_act<L: Books + Send + Sync, R: AllocGlobal + Threads + Wait + Clock + Sync>(
    rt: &R,
    shared: &Shared<Core, L>,
    case: Waiting,
) -> (Result<(), AwaitFault>, Other) {
    let flags = Flags::new();
    let lent = &flags;
    let (_queue, agents, steps) = case;
    let (awaited, other) = thread::join(
        rt,
        move || await_when_told(rt, shared, agents, lent),
        move || act(rt, shared, steps, lent),
    );
    (awaited, other)
}

const AS_PLANNED: Other = Other {
    went: true,
    early: false,
    in_time: true,
};

// The call returns this, and all goes as planned.
pub(crate) fn see<L: Books + Send + Sync, R: AllocGlobal + Threads + Wait + Clock + Abort + Sync>(
    rt: &R,
    shared: &Shared<Core, L>,
    case: Waiting,
    wanted: Result<(), AwaitFault>,
) -> Result<(), Stop> {
    for text in case.0 {
        send(rt, rt.alloc(), shared, 0, PLUS, text)?;
    }
    same(rt, await_and_act(rt, shared, case), (wanted, AS_PLANNED));
    Ok(())
}

const NO_MEMORY: Poor = Poor {
    has_memory: false,
    has_predicates: true,
};

const NO_PREDICATES: Poor = Poor {
    has_memory: true,
    has_predicates: false,
};

const COME: Step = Step::Come;

const HOLD: Step = Step::Hold(0);

const FAILED: Result<(), AwaitFault> = Err(AwaitFault::Failed(0));

// These, and what the call returns.
const ROWS: &[(Waiting, Result<(), AwaitFault>)] = &[
    // Who waits for an agent returns when all has ended.
    ((&["1"], &[0], &[HOLD]), Ok(())),
    ((&["1", "2"], &[0], &[HOLD, HOLD]), Ok(())),
    ((&["1", "2"], &[0], &[COME, HOLD, HOLD]), Ok(())),
    ((&["1"], &[0, 1], &[HOLD]), Ok(())),
    ((&["1"], &[1, 0], &[HOLD]), Ok(())),
    ((&["1"], &[0, 0], &[HOLD]), Ok(())),
    (
        (&["1"], &[0], &[COME, Step::PutBack(NO_MEMORY), HOLD]),
        Ok(()),
    ),
    (
        (&["1"], &[0], &[COME, Step::PutBack(NO_PREDICATES), HOLD]),
        Ok(()),
    ),
    ((&["1", "2"], &[0], &[HOLD, Step::Fold, HOLD]), Ok(())),
    // An action that fails the agent has ended too.
    ((&[":k"], &[0], &[HOLD]), Ok(())),
    ((&["1", ":k"], &[0], &[HOLD, HOLD]), Ok(())),
    // One that is sent later is on its way, and another one waits, when the call returns.
    ((&["1"], &[0], &[Step::Hold(2), Step::HoldBehind]), Ok(())),
    // A failure wakes who waits for what is behind it.
    ((&[":k", "1"], &[0], &[HOLD]), FAILED),
    ((&["1", ":k", "2"], &[1, 0], &[HOLD, HOLD]), FAILED),
    // Closing wakes who waits for an agent.
    (
        (&["1"], &[0], &[COME, Step::Close]),
        Err(AwaitFault::Closed),
    ),
];

#[test]
fn who_waits_for_an_agent_returns_when_all_has_ended(rt: HostRuntime) -> Result<(), Fail> {
    for (waiting, wanted) in ROWS {
        check(&rt, Case::Awaits(*waiting, *wanted))?;
    }
    Ok(())
}

// ---- A failure and a restart at once

// Runs an action that fails g, with another one behind it, and then these steps, of which the first restarts g at once. Whoever waits may
// see the failure before the restart, and returns then. If not, all has to go as planned, until all is gone. Returns whether it missed the
// failure.
pub(crate) fn misses_failure<
    L: Books + Send + Sync,
    R: AllocGlobal + Threads + Wait + Clock + Abort + Sync,
>(rt: &R, shared: &Shared<Core, L>, steps: &'static [Step]) -> Result<bool, Stop> {
    send(rt, rt.alloc(), shared, 0, PLUS, ":k")?;
    send(rt, rt.alloc(), shared, 0, PLUS, "1")?;
    let (awaited, other) = await_and_act(rt, shared, (&[], &[0], steps));
    if awaited == Err(AwaitFault::Failed(0)) {
        same(rt, (other.went, other.in_time), (true, true));
        return Ok(false);
    }
    same(rt, (awaited, other), (Ok(()), AS_PLANNED));
    Ok(true)
}

// Tries it until it misses the failure once, if it does so within some tries.
fn check_missed<R: AllocGlobal + Threads + Wait + Clock + Abort + Sync>(
    rt: &R,
    steps: &'static [Step],
) -> Result<(), Fail> {
    for _ in 0..20u32 {
        if found(rt, Case::Misses(steps))? {
            return Ok(());
        }
    }
    Ok(())
}

#[test]
fn who_misses_a_failure_waits_for_what_was_behind_it(rt: HostRuntime) -> Result<(), Fail> {
    check_missed(&rt, &[HOLD, Step::Restart(false), HOLD])
}

#[test]
fn who_misses_a_failure_waits_for_nothing_that_was_dropped(rt: HostRuntime) -> Result<(), Fail> {
    check_missed(&rt, &[HOLD, Step::Restart(true)])
}
