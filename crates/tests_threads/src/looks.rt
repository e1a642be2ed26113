//! What is called between the steps of a transaction and of an action is called with the lock free: while one thread waits there,
//! another looks at the shared world.
ghost use Rattle.ref_fun.specs.Names.{is_function, is_predicate};

use crate::cases::{Case, check};
use crate::flags::{Flags, Place};
use crate::same::same;
use crate::waits::wait_for;
use ref_fun::codes::PLUS;
use ref_fun::{CallFault, Core, CoreFunctions, Functions};
use ref_log::{Notice, Who};
use ref_shared::{Gate, Shared, Spot, WatchSink, Worked};
use ref_tx::Tx;
use ref_value::Value;
use ref_world::{Books, Front, Share};
use std::alloc::Global;
use std::process::Abort;
use std::sync::Wait;
use std::sync::atomic::Ordering;
use std::test::Fail;
use std::thread;
use std::thread::Threads;
use std::time::Clock;
use tests_shared::jobs::{CLOSED, Work, send_four, work};
use tests_shared::steps::{send, watch};
use tests_shared::worlds::{STAMP, Stop, add, done, int_at};

// Says that it is here, if it is to, and waits until the other has looked. Where that comes in time, the third flag is set.
fn wait_here<R: Clock>(rt: &R, flags: &Flags, is_to: bool) {
    if is_to {
        flags.first.store(true, Ordering::SeqCst);
        if wait_for(rt, &flags.second) {
            flags.third.store(true, Ordering::SeqCst);
        }
    }
}

// A gate, a sink and a table of all functions, which wait at one place.
#[derive(Drop)]
struct Pause<'a, 'b, R: Clock> {
    rt: &'a R,
    flags: &'b Flags,
    place: Place,
}

impl<'a, 'b, R: Clock> Gate for Pause<'a, 'b, R> {
    fn pass(&mut self, spot: Spot) {
        wait_here(self.rt, self.flags, self.place.is_at(spot));
    }
}

impl<'a, 'b, R: Clock> WatchSink for Pause<'a, 'b, R> {
    fn told(&mut self, _notice: &Notice) {
        wait_here(self.rt, self.flags, self.place == Place::Told);
    }
}

impl<'a, 'b, R: Clock> Functions<Core> for Pause<'a, 'b, R> {
    ghost knows = { λ table. record { funs = is_function; preds = is_predicate } };

    fn has_fun(&self, code: u32) -> bool {
        CoreFunctions.has_fun(code)
    }

    fn has_pred(&self, code: u32) -> bool {
        CoreFunctions.has_pred(code)
    }

    fn call(
        &self,
        alloc: Global,
        code: u32,
        state: &Value,
        args: &[Value],
    ) -> Result<Value, CallFault> {
        wait_here(self.rt, self.flags, self.place == Place::Action);
        CoreFunctions.call(alloc, code, state, args)
    }

    fn test(&self, code: u32, state: &Value, args: &[Value]) -> Option<bool> {
        CoreFunctions.test(code, state, args)
    }
}

// What the other thread finds: the number that a reference holds, and that no agent is ready.
type Look = Result<(Option<i64>, Work), Stop>;

// Looks once the other is there, and says so.
fn look<R: AllocGlobal + Wait + Clock, L: Books>(
    rt: &R,
    shared: &Shared<Core, L>,
    front: &Front<L>,
    who: Who,
    flags: &Flags,
) -> Look {
    if !wait_for(rt, &flags.first) {
        return Err(Stop::Late);
    }
    let now = int_at(rt, shared, front, who);
    let seen = (now, work(rt, rt.alloc(), shared));
    flags.second.store(true, Ordering::SeqCst);
    Ok(seen)
}

// ---- A transaction

// Adds 1 to a and sends `+ 4` to h, in a transaction that waits if asked, though it is ready. It returns the share, and whether it was
// committed.
fn transact<R: AllocGlobal + Wait + Clock, L: Books>(
    rt: &R,
    shared: &Shared<Core, L>,
    mut share: Share<L>,
    place: Place,
    waits: bool,
    flags: &Flags,
) -> (Share<L>, bool) {
    let (alloc, funs) = (rt.alloc(), &CoreFunctions);
    let gate = &mut Pause { rt, flags, place };
    let sink = &mut Pause { rt, flags, place };
    let is_ok = if waits {
        let body = |tx: &mut Tx<Core>| add_and_send(rt, tx, place, flags).map(Some);
        let share = &mut share;
        let committed = shared.transact_when(rt, alloc, funs, share, STAMP, 1, gate, sink, body);
        committed.is_ok()
    } else {
        let body = |tx: &mut Tx<Core>| add_and_send(rt, tx, place, flags);
        let committed = shared.transact(rt, alloc, funs, &mut share, STAMP, 1, gate, sink, body);
        committed.is_ok()
    };
    (share, is_ok)
}

fn add_and_send<R: AllocGlobal + Clock>(
    rt: &R,
    tx: &mut Tx<Core>,
    place: Place,
    flags: &Flags,
) -> Result<(), Stop> {
    wait_here(rt, flags, place == Place::Body);
    add(rt.alloc(), tx, 0, "1")?;
    send_four(rt.alloc(), tx)
}

fn transact_and_look<L: Books + Send + Sync, R: AllocGlobal + Threads + Wait + Clock + Sync>(
    rt: &R,
    shared: &Shared<Core, L>,
    share: Share<L>,
    place: Place,
    waits: bool,
    flags: &Flags,
) -> ((Share<L>, bool), Look) {
    let front = share.front().again();
    let known = &front;
    let (mine, seen) = thread::join(
        rt,
        move || transact(rt, shared, share, place, waits, flags),
        move || look(rt, shared, known, Who::Ref(0), flags),
    );
    (mine, seen)
}

// A transaction in a world that is closed, so that a worker there learns that no agent is ready. The look comes before the waiting is given
// up. What it sends isn't ready before the watches are called.
pub(crate) fn see_transaction<
    L: Books + Send + Sync,
    R: AllocGlobal + Threads + Wait + Clock + Abort + Sync,
>(
    rt: &R,
    shared: &Shared<Core, L>,
    share: &mut Share<L>,
    place: Place,
    seen: i64,
    waits: bool,
) -> Result<(), Stop> {
    watch(rt, rt.alloc(), shared, Who::Ref(0), ":k")?;
    shared.close(rt);
    let part = share.split(1).ok_or(Stop::Refused)?;
    let flags = Flags::new();
    let (mine, looked) = transact_and_look(rt, shared, part, place, waits, &flags);
    let (part, is_ok) = mine;
    done(share.join(part))?;
    same(rt, (place, looked), (place, Ok((Some(seen), CLOSED))));
    same(
        rt,
        (is_ok, flags.third.load(Ordering::SeqCst)),
        (true, true),
    );
    same(rt, work(rt, rt.alloc(), shared), Ok(Worked::Did(1)));
    Ok(())
}

// Where it waits, and what a holds then.
const OF_A_TRANSACTION: &[(Place, i64)] = &[
    (Place::At(Spot::BeforeBody), 0),
    (Place::Body, 0),
    (Place::At(Spot::AfterBody), 0),
    (Place::At(Spot::AfterCommit), 1),
    (Place::Told, 1),
];

#[test]
fn the_lock_is_free_at_each_step_of_a_transaction(rt: HostRuntime) -> Result<(), Fail> {
    for (place, seen) in OF_A_TRANSACTION {
        check(&rt, Case::Transaction(*place, *seen, false))?;
        check(&rt, Case::Transaction(*place, *seen, true))?;
    }
    Ok(())
}

// ---- An action

// Runs the action of h, and answers whether it did.
fn act<R: AllocGlobal + Wait + Clock, L: Books>(
    rt: &R,
    shared: &Shared<Core, L>,
    place: Place,
    flags: &Flags,
) -> bool {
    let funs = Pause { rt, flags, place };
    let mut gate = Pause { rt, flags, place };
    let mut sink = Pause { rt, flags, place };
    let worked = shared.work_once(rt, rt.alloc(), &funs, &mut gate, &mut sink);
    worked == Ok(Worked::Did(1))
}

// An action in a world that is closed.
pub(crate) fn see_action<
    L: Books + Send + Sync,
    R: AllocGlobal + Threads + Wait + Clock + Abort + Sync,
>(rt: &R, shared: &Shared<Core, L>, front: &Front<L>, place: Place, seen: i64) -> Result<(), Stop> {
    watch(rt, rt.alloc(), shared, Who::Agent(1), ":k")?;
    send(rt, rt.alloc(), shared, 1, PLUS, "4")?;
    shared.close(rt);
    let flags = Flags::new();
    let lent = &flags;
    let (is_ok, looked) = thread::join(
        rt,
        move || act(rt, shared, place, lent),
        move || look(rt, shared, front, Who::Agent(1), lent),
    );
    same(rt, (place, looked), (place, Ok((Some(seen), CLOSED))));
    same(
        rt,
        (is_ok, flags.third.load(Ordering::SeqCst)),
        (true, true),
    );
    same(rt, work(rt, rt.alloc(), shared), CLOSED);
    Ok(())
}

// Where it waits, and what h holds then.
const OF_AN_ACTION: &[(Place, i64)] = &[
    (Place::At(Spot::BeforeAction), 0),
    (Place::Action, 0),
    (Place::At(Spot::AfterAction), 0),
    (Place::Told, 4),
];

#[test]
fn the_lock_is_free_at_each_step_of_an_action(rt: HostRuntime) -> Result<(), Fail> {
    for (place, seen) in OF_AN_ACTION {
        check(&rt, Case::Action(*place, *seen))?;
    }
    Ok(())
}
