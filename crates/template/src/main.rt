//! A program to begin with: four threads vote, and each vote is a transaction.
//!
//! Copy this folder, and change what RENAME marks. docs/USING.md begins with how.
#![tactic(auto)]

ghost use Rattle.std.specs.Prelude.{◌≡◌, IfOk};

use ref_program::prelude::*;

// The ref that has the votes. References are numbered from 0 by kind, in the order in which `start` makes them. RENAME
const VOTES: u32 = 0;

struct Poll;

impl Program for Poll {
    // What each worker does, for the proof: 25 commits. RENAME
    ghost did = { λ _ share. share.commits ≡ 25 };

    // What the world begins with: one ref, a map. RENAME
    fn start(&self, world: &mut Declared) -> Result<(), Fault> {
        world.make_ref("{:no 0 :yes 0}")?;
        Ok(())
    }

    // What a thread does: its transactions, one after the other. RENAME
    fn work<L: Books, R: Wait>(&self, worker: &mut Worker<'_, L, R>) -> Result<(), Fault> {
        let choice = keyword(if worker.number() % 2 == 0 {
            "yes"
        } else {
            "no"
        })?;
        worker.dotimes(25, |tx| vote(tx, choice))?;
        Ok(())
    }
}

// The body of a transaction, which may be run more than once: it reads a value, and makes another one. RENAME
fn vote(tx: &mut Dosync, choice: Keyword) -> Result<(), Fault> {
    let key = choice.into_value(tx.alloc)?;
    let count = get(tx.deref(VOTES)?, &key).and_then(int_of);
    let count = count.ok_or(Fault::Own("no such choice"))?;
    tx.alter(VOTES, ASSOC, (choice, count.saturating_add(1)))?;
    Ok(())
}

// Four workers and no helper. However the threads get on, they make 100 commits. RENAME
fn run_poll<R: AllocGlobal + Threads + Wait + Sync>(rt: &R) -> Result<Ended, Fault>
    ensures { IfOk result (λ end. end.totals.commits ≡ 100) }
{
    run(rt, &Poll, Crew::of(4, 0))
}

// Prints what is in the world at the end. RENAME
fn main(rt: HostRuntime) -> Result<(), Fault> {
    let end = run_poll(&rt)?;
    let votes = text(rt.alloc(), end.value_of(Who::Ref(VOTES))?)?;
    println!(rt; "votes {votes}, commits {}", end.totals.commits)?;
    Ok(())
}
