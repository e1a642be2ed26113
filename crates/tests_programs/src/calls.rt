//! What the calls of a worker do besides transactions: changes of atoms, of which the worker's sink hears, and what is folded.
use crate::ears::Ear;
use crate::same::same;
use ref_program::prelude::*;
use std::test::Fail;

// One worker makes all changes, each of a reference that has a watch.
#[derive(Drop)]
struct Changes {
    alloc: Global,
}

impl CustomProgram for Changes {
    type Meaning = Core;

    type Functions = CoreFunctions;

    type Sink = Ear;

    fn functions(&self) -> CoreFunctions {
        CoreFunctions
    }

    fn sink(&self) -> Ear {
        Ear::new(self.alloc)
    }

    fn start(&self, world: &mut Declared) -> Result<(), Fault> {
        world.make_ref("0")?;
        world.make_atom("1")?;
        world.make_agent("3", ErrorMode::Fail)?;
        for who in [Who::Ref(0), Who::Atom(0), Who::Agent(0)] {
            world.watch(who, keyword("k")?)?;
        }
        Ok(())
    }

    fn work<L: Books, R: Wait>(
        &self,
        worker: &mut Worker<'_, L, R, Core, CoreFunctions, Ear>,
    ) -> Result<(), Fault> {
        change_atom(worker)?;
        worker.transact(|tx| change_others(tx))?;
        Ok(worker.await_agents(&[0])?)
    }
}

// Each call answers what it did. A comparison that answers false tells nobody.
fn change_atom<L: Books, R: Wait>(
    worker: &mut Worker<'_, L, R, Core, CoreFunctions, Ear>,
) -> Result<(), Fault> {
    let swapped = worker.swap(0, PLUS, 1)?;
    let reset = worker.reset(0, 7)?;
    let seven = 7i64.into_value(worker.alloc())?;
    let set = worker.compare_and_set(0, &seven, 8)?;
    let again = worker.compare_and_set(0, &seven, 9)?;
    let olds = (int_of(&swapped.old), int_of(&reset.old));
    let news = (int_of(&swapped.new), int_of(&reset.new));
    if olds == (Some(1), Some(2)) && news == (Some(2), Some(7)) && set && !again {
        Ok(())
    } else {
        Err(Fault::Own("a change answers something else"))
    }
}

fn change_others(tx: &mut Dosync) -> Result<(), Fault> {
    tx.ref_set(0, 5)?;
    tx.send(0, PLUS, 1)?;
    Ok(())
}

// What each sink heard: the worker's of what the worker changed, and then the helper's of the agent.
const HEARD: &[&str] = &[
    "Atom(0) :k Some(1) Some(2); Atom(0) :k Some(2) Some(7); Atom(0) :k Some(7) Some(8); Ref(0) :k Some(0) Some(5); ",
    "Agent(0) :k Some(3) Some(4); ",
];

#[test]
fn a_sink_hears_what_its_thread_changes(rt: HostRuntime) -> Result<(), Fail> {
    let alloc = rt.alloc();
    let end = run_custom(&rt, &Changes { alloc }, Crew::of(1, 1))?;
    same(&rt, end.sinks.len(), HEARD.len());
    for (sink, wanted) in end.sinks.iter().zip(HEARD) {
        same(&rt, sink.heard.as_str(), *wanted);
    }
    let value = text(alloc, end.value_of(Who::Atom(0))?)?;
    same(&rt, value.as_str(), "8");
    Ok(())
}

// ---- Folding

// One worker adds 1 three times, folds all of it, and adds 1 once more.
struct Folds;

impl Program for Folds {
    fn start(&self, world: &mut Declared) -> Result<(), Fault> {
        world.make_ref("0")?;
        world.make_agent("0", ErrorMode::Fail)?;
        Ok(())
    }

    fn work<L: Books, R: Wait>(&self, worker: &mut Worker<'_, L, R>) -> Result<(), Fault> {
        worker.dotimes(3, |tx| add_and_send(tx))?;
        worker.await_agents(&[0])?;
        fold(worker)?;
        worker.dotimes(1, |tx| add_and_send(tx))?;
        Ok(())
    }
}

fn add_and_send(tx: &mut Dosync) -> Result<(), Fault> {
    tx.alter(0, PLUS, 1)?;
    tx.send(0, PLUS, 1)?;
    Ok(())
}

// In two bites. What is folded already isn't counted, and an agent that isn't there isn't folded.
fn fold<L: Books, R: Wait>(worker: &mut Worker<'_, L, R>) -> Result<(), Fault> {
    let point = worker.point();
    let folded = (worker.checkpoint(point, 2)?, worker.checkpoint(point, 2)?);
    worker.forget();
    let agents = (worker.fold_agent(0)?, worker.fold_agent(1)?);
    if (point, folded, agents) == (3, (3, 0), (true, false)) {
        Ok(())
    } else {
        Err(Fault::Own("something else is folded"))
    }
}

// What is left of the log and of what the agent did.
#[test]
fn what_is_folded_is_no_longer_in_the_world(rt: HostRuntime) -> Result<(), Fail> {
    let end = run(&rt, &Folds, Crew::of(1, 1))?;
    let base = end.world.base();
    let first = base.refs.get(0).and_then(int_of);
    same(&rt, (base.point, first), (3, Some(3)));
    let handled = end.world.account(0).map(|account| account.handled().len());
    let value = text(rt.alloc(), end.value_of(Who::Agent(0))?)?;
    same(&rt, (handled, value.as_str()), (Some(1), "4"));
    same(&rt, (end.world.log().len(), end.totals.commits), (1, 4));
    Ok(())
}
