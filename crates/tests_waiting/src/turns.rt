//! Several who wait for the same agent return in their turns: each once its own actions have ended, and not before.
use crate::awaits::{await_when_told, meet, run_rest, send_more};
use crate::cases::{Case, check};
use crate::same::same;
use ref_fun::codes::PLUS;
use ref_fun::{Core, CoreFunctions};
use ref_shared::{AwaitFault, Gate, Quiet, Shared, Spot};
use ref_world::Books;
use std::process::Abort;
use std::sync::Wait;
use std::sync::atomic::Ordering;
use std::test::Fail;
use std::thread;
use std::thread::Threads;
use std::time::Clock;
use tests_shared::steps::send;
use tests_shared::worlds::Stop;
use tests_threads::flags::Flags;
use tests_threads::waits::wait_past;

// A gate for one of the actions that come in turn. It holds the action until the one who came two turns before has returned, and
// then until the one of this turn waits, for two actions, of which this is the first; and sends one more. When the action ends, neither
// that one nor the one before may have returned.
#[derive(Drop)]
struct Turn<'a, 'b, 'c, R: AllocGlobal + Wait + Clock, L: Books> {
    rt: &'a R,
    shared: &'b Shared<Core, L>,
    waiters: &'c [&'c Flags],
    turn: usize,
    went: bool,
}

// Whether the one who came two turns before has returned, some time ago, if there is one.
fn has_returned<R: Clock>(rt: &R, waiters: &[&Flags], turn: usize) -> bool {
    if turn < 2 {
        return true;
    }
    match waiters.get(turn - 2) {
        Some(flags) => wait_past(rt, &flags.third),
        None => false,
    }
}

// Lets the one of this turn begin, if there is one, and sends one more.
fn meet_next<R: AllocGlobal + Wait + Clock, L: Books>(
    rt: &R,
    shared: &Shared<Core, L>,
    waiters: &[&Flags],
    turn: usize,
) -> bool {
    match waiters.get(turn) {
        Some(flags) => meet(rt, flags) && send_more(rt, shared, 1),
        None => true,
    }
}

// Whether none has returned who came in the turn before, or later.
fn none_has_returned(waiters: &[&Flags], turn: usize) -> bool {
    for flags in waiters.iter().skip(turn.saturating_sub(1)) {
        if flags.third.load(Ordering::SeqCst) {
            return false;
        }
    }
    true
}

impl<'a, 'b, 'c, R: AllocGlobal + Wait + Clock, L: Books> Gate for Turn<'a, 'b, 'c, R, L> {
    fn pass(&mut self, spot: Spot) {
        if spot == Spot::BeforeAction {
            self.went = has_returned(self.rt, self.waiters, self.turn)
                && meet_next(self.rt, self.shared, self.waiters, self.turn);
        }
        if spot == Spot::AfterAction {
            self.went = self.went && none_has_returned(self.waiters, self.turn);
        }
    }
}

// Runs an action by that gate, and returns whether all went as planned.
fn act_in_turn<R: AllocGlobal + Wait + Clock, L: Books>(
    rt: &R,
    shared: &Shared<Core, L>,
    waiters: &[&Flags],
    turn: usize,
) -> bool {
    let mut gate = Turn {
        rt,
        shared,
        waiters,
        turn,
        went: false,
    };
    let worked = shared.work_once(rt, rt.alloc(), &CoreFunctions, &mut gate, &mut Quiet);
    gate.went && worked.is_ok()
}

// Lets all begin, so that a test ends which has failed.
fn release_all(waiters: &[&Flags]) {
    for flags in waiters {
        flags.first.store(true, Ordering::SeqCst);
    }
}

// Runs the actions of four turns, and returns whether each of three returned when its two had ended, and not before.
fn act_in_turns<R: AllocGlobal + Wait + Clock, L: Books>(
    rt: &R,
    shared: &Shared<Core, L>,
    waiters: &[&Flags],
) -> bool {
    let mut went = true;
    for turn in 0..4usize {
        went = went && act_in_turn(rt, shared, waiters, turn);
    }
    went = went && has_returned(rt, waiters, 4);
    shared.close(rt);
    if !went {
        release_all(waiters);
        run_rest(rt, shared);
    }
    went
}

type Three = (
    Result<(), AwaitFault>,
    Result<(), AwaitFault>,
    Result<(), AwaitFault>,
);

fn two_await<L: Books + Send + Sync, R: AllocGlobal + Threads + Wait + Clock + Sync>(
    rt: &R,
    shared: &Shared<Core, L>,
    one: &Flags,
    two: &Flags,
) -> (Result<(), AwaitFault>, Result<(), AwaitFault>) {
    let (first, second) = thread::join(
        rt,
        move || await_when_told(rt, shared, &[0], one),
        move || await_when_told(rt, shared, &[0], two),
    );
    (first, second)
}

fn three_await<L: Books + Send + Sync, R: AllocGlobal + Threads + Wait + Clock + Sync>(
    rt: &R,
    shared: &Shared<Core, L>,
    one: &Flags,
    two: &Flags,
    three: &Flags,
) -> Three {
    let (both, third) = thread::join(
        rt,
        move || two_await(rt, shared, one, two),
        move || await_when_told(rt, shared, &[0], three),
    );
    (both.0, both.1, third)
}

fn three_await_in_turn<L: Books + Send + Sync, R: AllocGlobal + Threads + Wait + Clock + Sync>(
    rt: &R,
    shared: &Shared<Core, L>,
) -> (Three, bool) {
    let (one, two, three) = (Flags::new(), Flags::new(), Flags::new());
    let (one, two, three) = (&one, &two, &three);
    let (awaited, went) = thread::join(
        rt,
        move || three_await(rt, shared, one, two, three),
        move || act_in_turns(rt, shared, &[one, two, three]),
    );
    (awaited, went)
}

pub(crate) fn see<L: Books + Send + Sync, R: AllocGlobal + Threads + Wait + Clock + Abort + Sync>(
    rt: &R,
    shared: &Shared<Core, L>,
) -> Result<(), Stop> {
    send(rt, rt.alloc(), shared, 0, PLUS, "1")?;
    send(rt, rt.alloc(), shared, 0, PLUS, "1")?;
    let wanted = ((Ok(()), Ok(()), Ok(())), true);
    same(rt, three_await_in_turn(rt, shared), wanted);
    Ok(())
}

#[test]
fn each_who_waits_for_an_agent_returns_in_its_turn(rt: HostRuntime) -> Result<(), Fail> {
    check(&rt, Case::Turns)
}
