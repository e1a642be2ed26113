//! Several references of each kind, and two workers with a sink each: a call reaches the reference that it names, with all that it passes, and
//! each sink hears of its own thread alone.
use crate::ears::Ear;
use crate::same::same;
use ref_program::prelude::*;
use std::test::Fail;

// Of each kind there are four. These are changed.
const LEFT: u32 = 2;

const RIGHT: u32 = 3;

// Each watch has a key of its own.
const WATCHES: &[(Who, &str)] = &[
    (Who::Ref(LEFT), "led"),
    (Who::Ref(RIGHT), "followed"),
    (Who::Atom(RIGHT), "swapped"),
    (Who::Agent(RIGHT), "sent"),
];

#[derive(Drop)]
struct Several {
    alloc: Global,
}

impl CustomProgram for Several {
    type Meaning = Core;

    type Functions = CoreFunctions;

    type Sink = Ear;

    fn functions(&self) -> CoreFunctions {
        CoreFunctions
    }

    fn sink(&self) -> Ear {
        Ear::new(self.alloc)
    }

    fn start(&self, world: &mut Declared) -> Result<(), Fault> {
        make_two(world, 0, 1)?;
        make_two(world, 2, 3)?;
        is_numbered(world.make_tally("0")?, 4)?;
        for (who, key) in WATCHES {
            world.watch(*who, keyword(key)?)?;
        }
        Ok(())
    }

    fn work<L: Books, R: Wait>(
        &self,
        worker: &mut Worker<'_, L, R, Core, CoreFunctions, Ear>,
    ) -> Result<(), Fault> {
        if worker.number() == 0 {
            lead(worker)
        } else {
            follow(worker)
        }
    }
}

// Two references of each kind, the second one with a rule. Each call returns the number.
fn make_two(world: &mut Declared, first: u32, second: u32) -> Result<(), Fault> {
    is_numbered(world.make_ref("0")?, first)?;
    is_numbered(world.make_ref_with("0", AT_LEAST, 0)?, second)?;
    is_numbered(world.make_atom("0")?, first)?;
    is_numbered(world.make_atom_with("0", AT_LEAST, 0)?, second)?;
    is_numbered(world.make_agent("1", ErrorMode::Fail)?, first)?;
    let mode = ErrorMode::Continue;
    is_numbered(world.make_agent_with("2", mode, AT_LEAST, 0)?, second)
}

fn is_numbered(number: u32, wanted: u32) -> Result<(), Fault> {
    if number == wanted {
        Ok(())
    } else {
        Err(Fault::Own("a reference has another number"))
    }
}

// One worker changes an atom, and then a ref.
fn lead<L: Books, R: Wait>(
    worker: &mut Worker<'_, L, R, Core, CoreFunctions, Ear>,
) -> Result<(), Fault> {
    let _ = worker.swap(RIGHT, PLUS, 5)?;
    worker.transact(|tx| set(tx, LEFT, 1))?;
    Ok(())
}

// The other one waits for that, changes another ref, and sends to two agents. What one action makes of the state is refused by the agent's
// rule, and the agent goes on.
fn follow<L: Books, R: Wait>(
    worker: &mut Worker<'_, L, R, Core, CoreFunctions, Ear>,
) -> Result<(), Fault> {
    worker.transact_when(|tx| set_when_led(tx))?;
    worker.send(LEFT, PLUS, 10)?;
    worker.send(RIGHT, PLUS, 4)?;
    worker.send(RIGHT, MINUS, 10)?;
    worker.send(RIGHT, PLUS, 3)?;
    worker.await_agents(&[LEFT, RIGHT])?;
    for (who, wanted) in VALUES {
        has_value(worker, *who, *wanted)?;
    }
    Ok(())
}

fn set(tx: &mut Dosync, r: u32, value: i64) -> Result<(), Fault> {
    tx.ref_set(r, value)?;
    Ok(())
}

fn set_when_led(tx: &mut Dosync) -> Result<Option<()>, Fault> {
    if int_of(tx.deref(LEFT)?) == Some(1) {
        set(tx, RIGHT, 7)?;
        Ok(Some(()))
    } else {
        Ok(None)
    }
}

fn has_value<L: Books, R: Wait>(
    worker: &mut Worker<'_, L, R, Core, CoreFunctions, Ear>,
    who: Who,
    wanted: Option<i64>,
) -> Result<(), Fault> {
    let value = worker.value_of(who)?;
    if value.as_ref().and_then(int_of) == wanted {
        Ok(())
    } else {
        Err(Fault::Own("a reference has another value"))
    }
}

// What the worker finds in the end. None stands for no reference.
const VALUES: &[(Who, Option<i64>)] = &[
    (Who::Ref(1), Some(0)),
    (Who::Ref(LEFT), Some(1)),
    (Who::Ref(RIGHT), Some(7)),
    (Who::Ref(5), None),
    (Who::Atom(LEFT), Some(0)),
    (Who::Atom(RIGHT), Some(5)),
    (Who::Atom(4), None),
    (Who::Agent(0), Some(1)),
    (Who::Agent(1), Some(2)),
    (Who::Agent(LEFT), Some(11)),
    (Who::Agent(RIGHT), Some(9)),
    (Who::Agent(4), None),
];

// What the sinks of the two workers heard, and then the helper's.
const HEARD: &[&str] = &[
    "Atom(3) :swapped Some(0) Some(5); Ref(2) :led Some(0) Some(1); ",
    "Ref(3) :followed Some(0) Some(7); ",
    "Agent(3) :sent Some(2) Some(6); Agent(3) :sent Some(6) Some(9); ",
];

#[test]
fn each_call_reaches_the_reference_that_it_names(rt: HostRuntime) -> Result<(), Fail> {
    let alloc = rt.alloc();
    let end = run_custom(&rt, &Several { alloc }, Crew::of(2, 1))?;
    same(&rt, end.sinks.len(), HEARD.len());
    for (sink, wanted) in end.sinks.iter().zip(HEARD) {
        same(&rt, sink.heard.as_str(), *wanted);
    }
    Ok(())
}
