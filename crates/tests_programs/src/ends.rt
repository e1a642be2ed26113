//! How a run ends early. A row is what goes wrong, and what the fault says that the run ends with.
use crate::same::same;
use ref_program::prelude::*;
use std::process::Abort;
use std::test::Fail;

// A ref from 0 on, how many are about to wait, and an agent.
const A: u32 = 0;

const COMING: u32 = 1;

const G: u32 = 0;

// There is none of this number.
const NONE: u32 = 9;

#[derive(Clone, Copy, Debug, Drop, PartialEq)]
enum Wrong {
    // At the start
    Text,
    Predicate,
    Value,
    Tally,
    Watch,
    // In a worker: beside its transactions
    Name,
    Atom,
    Send,
    Await,
    Point,
    Closed,
    // In a call of the shared world
    Rule,
    Mode,
    Restart,
    NotMade,
    // In a transaction and at its commit
    Ref,
    Commit,
    // An agent that fails before another action that a worker waits for
    Agent,
}

// What goes wrong.
#[derive(Drop)]
struct Going {
    wrong: Wrong,
}

impl Program for Going {
    fn start(&self, world: &mut Declared) -> Result<(), Fault> {
        world.make_ref_with("0", AT_LEAST, 0)?;
        world.make_agent("0", ErrorMode::Fail)?;
        declare(world, self.wrong)
    }

    fn work<L: Books, R: Wait>(&self, worker: &mut Worker<'_, L, R>) -> Result<(), Fault> {
        match self.wrong {
            Wrong::Ref | Wrong::Commit | Wrong::Agent => transact(worker, self.wrong),
            Wrong::Rule | Wrong::Mode | Wrong::Restart | Wrong::NotMade => {
                call_shared(worker, self.wrong)
            }
            _ => call(worker, self.wrong),
        }
    }
}

fn declare(world: &mut Declared, wrong: Wrong) -> Result<(), Fault> {
    match wrong {
        Wrong::Text => world.make_ref("[1").map(drop),
        Wrong::Predicate => world.make_ref_with("0", 999, ()).map(drop),
        Wrong::Value => world.make_atom_with("0", AT_LEAST, 1).map(drop),
        Wrong::Tally => world.make_tally("-1").map(drop),
        Wrong::Watch => world.watch(Who::Ref(NONE), keyword("k")?),
        _ => Ok(()),
    }
}

// A call besides transactions.
fn call<L: Books, R: Wait>(worker: &mut Worker<'_, L, R>, wrong: Wrong) -> Result<(), Fault> {
    match wrong {
        Wrong::Name => keyword("1st").map(drop),
        Wrong::Atom => Ok(worker.swap(NONE, INC, ()).map(drop)?),
        Wrong::Send => Ok(worker.send(NONE, INC, ())?),
        Wrong::Await => Ok(worker.await_agents(&[G, NONE])?),
        Wrong::Point => Ok(worker.checkpoint(9, 1).map(drop)?),
        Wrong::Closed => Err(Fault::Closed),
        _ => Ok(()),
    }
}

// A call that only the shared world has.
fn call_shared<L: Books, R: Wait>(worker: &Worker<'_, L, R>, wrong: Wrong) -> Result<(), Fault> {
    let (rt, alloc, shared) = (worker.rt(), worker.alloc(), worker.shared());
    match wrong {
        Wrong::Rule => Ok(shared.set_validator(rt, &CoreFunctions, Who::Atom(NONE), None)?),
        Wrong::Mode => Ok(shared.set_error_mode(rt, NONE, ErrorMode::Continue)?),
        Wrong::Restart => Ok(shared.restart(rt, &CoreFunctions, G, edn(alloc, "1")?, false)?),
        _ => {
            let mut front = worker.front().again();
            let value = edn(alloc, "-1")?;
            let made = shared.make_ref(rt, alloc, &CoreFunctions, &mut front, value, None, true);
            Ok(made.map(drop)?)
        }
    }
}

fn transact<L: Books, R: Wait>(worker: &mut Worker<'_, L, R>, wrong: Wrong) -> Result<(), Fault> {
    worker.transact(|tx| change(tx, wrong))?;
    worker.await_agents(&[G])?;
    Ok(())
}

fn change(tx: &mut Dosync, wrong: Wrong) -> Result<(), Fault> {
    match wrong {
        Wrong::Ref => tx.alter(NONE, INC, ()).map(drop)?,
        Wrong::Commit => tx.alter(A, DEC, ()).map(drop)?,
        _ => {
            tx.send(G, PLUS, keyword("k")?)?;
            tx.send(G, PLUS, 1)?;
        }
    }
    Ok(())
}

// The fault that a run ends with.
fn fault_of(alloc: Global, ended: Result<Ended, Fault>) -> Result<String, Fail> {
    match ended {
        Ok(_) => Ok(String::from_str(alloc, "no fault")?),
        Err(fault) => Ok(fault.to_string(alloc)?),
    }
}

const ROWS: &[(Wrong, &str)] = &[
    (Wrong::Text, "the text ends too early, at byte 2"),
    (Wrong::Predicate, "Ref(1): no predicate has code 999"),
    (Wrong::Value, "Atom(0): the rule doesn't accept the value"),
    (
        Wrong::Tally,
        "Ref(1): a tally has to be the only one, and to start with an integer of 0 or more",
    ),
    (Wrong::Watch, "there is no such reference"),
    (Wrong::Name, "no name of a keyword"),
    (Wrong::Atom, "there is no such atom"),
    (Wrong::Send, "there is no such agent"),
    (Wrong::Await, "there is no agent 9"),
    (Wrong::Point, "there is no such point in the log"),
    (Wrong::Closed, "closed before it was ready"),
    (Wrong::Rule, "there is no such reference"),
    (Wrong::Mode, "there is no such agent"),
    (Wrong::Restart, "the agent is not failed"),
    (
        Wrong::NotMade,
        "a tally has to be the only one, and to start with an integer of 0 or more",
    ),
    (Wrong::Ref, "no such ref"),
    (Wrong::Commit, "the rule of ref 0 doesn't accept its value"),
    (Wrong::Agent, "agent 0 is failed"),
];

#[test]
fn a_run_ends_with_the_fault_of_its_start_or_of_a_worker(rt: HostRuntime) -> Result<(), Fail> {
    for (wrong, wanted) in ROWS {
        let ended = run(&rt, &Going { wrong: *wrong }, Crew::of(1, 1));
        let said = fault_of(rt.alloc(), ended)?;
        same(&rt, (*wrong, said.as_str()), (*wrong, *wanted));
    }
    Ok(())
}

// ---- One fails while the others wait

// Of three workers one waits in a transaction that is never ready, and one for an action that nobody runs. The last one ends so, once both are
// about to wait.
#[derive(Drop)]
struct Waiting {
    last: Fault,
}

impl Program for Waiting {
    fn start(&self, world: &mut Declared) -> Result<(), Fault> {
        world.make_ref("0")?;
        world.make_ref("0")?;
        world.make_agent("0", ErrorMode::Fail)?;
        Ok(())
    }

    fn work<L: Books, R: Wait>(&self, worker: &mut Worker<'_, L, R>) -> Result<(), Fault> {
        match worker.number() {
            0 => {
                worker.transact(|tx| come(tx))?;
                Ok(worker.transact_when(|tx| is_at_least(tx, A, 1))?)
            }
            1 => {
                worker.send(G, INC, ())?;
                worker.transact(|tx| come(tx))?;
                Ok(worker.await_agents(&[G])?)
            }
            _ => {
                worker.transact_when(|tx| is_at_least(tx, COMING, 2))?;
                linger(worker)?;
                Err(self.last)
            }
        }
    }
}

// One more is about to wait.
fn come(tx: &mut Dosync) -> Result<(), Fault> {
    tx.alter(COMING, INC, ())?;
    Ok(())
}

fn is_at_least(tx: &mut Dosync, r: u32, least: i64) -> Result<Option<()>, Fault> {
    let held = int_of(tx.deref(r)?);
    Ok(held.filter(|n| *n >= least).map(drop))
}

// Some time, in which the others have begun to wait.
fn linger<L: Books, R: Wait>(worker: &mut Worker<'_, L, R>) -> Result<(), Fault> {
    Ok(worker.dotimes(1_000, |tx| tx.ensure(COMING).map(drop).map_err(Fault::from))?)
}

fn check_waiting<R: AllocGlobal + Threads + Wait + Sync + Abort>(
    rt: &R,
    last: Fault,
    wanted: &str,
) -> Result<(), Fail> {
    let said = fault_of(rt.alloc(), run(rt, &Waiting { last }, Crew::of(3, 0)))?;
    same(rt, said.as_str(), wanted);
    Ok(())
}

// Those that wait end with a fault of their own, which comes first by their numbers. It isn't that of the run.
#[test]
fn who_fails_wakes_all_who_wait(rt: HostRuntime) -> Result<(), Fail> {
    check_waiting(&rt, Fault::Own("the last one fails"), "the last one fails")?;
    check_waiting(&rt, Fault::BadName, "no name of a keyword")?;
    check_waiting(&rt, Fault::Closed, "closed before it was ready")
}
