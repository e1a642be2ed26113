//! A box office, whose functions are its own: two clerks sell tickets for two evenings.
use crate::acts::{ADD, Acts, BoxOffice, CLOSE, IS_LEFT, SELL};
use ref_log::Stamp;
use ref_program::prelude::*;
use ref_shared::{Body, Quiet, TransactFault};
use ref_world::World;

// The refs: how many tickets are left for the first evening, and for the second, and how many are sold, the tally.
const FIRST: u32 = 0;

const SECOND: u32 = 1;

const SOLD: u32 = 2;

// The atoms: how many groups came too late, and how many were too large.
const TOO_LATE: u32 = 0;

const TOO_LARGE: u32 = 1;

const CLERKS: u32 = 2;

struct Office;

impl CustomProgram for Office {
    type Meaning = BoxOffice;

    type Functions = Acts;

    type Sink = Quiet;

    fn functions(&self) -> Acts {
        Acts
    }

    fn sink(&self) -> Quiet {
        Quiet
    }

    fn start(&self, world: &mut Declared) -> Result<(), Fault> {
        world.make_ref_with("30", IS_LEFT, ())?;
        world.make_ref_with("50", IS_LEFT, ())?;
        world.make_tally("0")?;
        world.make_atom("0")?;
        world.make_atom("0")?;
        Ok(())
    }

    // Twenty groups of two come to a clerk, half of them for each evening, and then one of five.
    fn work<L: Books, R: Wait>(
        &self,
        worker: &mut Worker<'_, L, R, BoxOffice, Acts>,
    ) -> Result<(), Fault> {
        for n in 0..21u32 {
            let evening = if n % 2 == 0 { FIRST } else { SECOND };
            let group = if n < 20 { 2 } else { 5 };
            serve(worker, Sale { evening, group })?;
        }
        Ok(())
    }
}

// Sells a group its tickets, or counts why it goes without.
fn serve<L: Books, R: Wait>(
    worker: &mut Worker<'_, L, R, BoxOffice, Acts>,
    sale: Sale,
) -> Result<(), Fault> {
    let mut sale = sale;
    let missed = match worker.transact_body(&mut sale) {
        Ok(()) => return Ok(()),
        Err(TransactFault::Commit(CommitFault::Invalid(_))) => TOO_LATE,
        Err(TransactFault::Body(TxFault::Refused(_))) => TOO_LARGE,
        Err(_) => return Err(Fault::Own("a sale went wrong")),
    };
    let _ = worker.swap(missed, ADD, 1)?;
    Ok(())
}

// A sale of tickets to a group, which is the body of a transaction by the functions of the box office.
#[derive(Clone, Copy, Debug, Drop)]
struct Sale {
    evening: u32,
    group: i64,
}

impl<S: Readable> Body<S> for Sale {
    type Meaning = BoxOffice;

    type Functions = Acts;

    type Answer = ();

    type Fault = TxFault;

    ghost may = { λ _. Unit {0} };

    ghost does = { λ _ _ _ _ _. Unit {0} };

    fn functions(&self) -> Acts {
        Acts
    }

    fn run(&mut self, tx: &mut Dosync<S, BoxOffice, Acts>) -> Result<(), TxFault> {
        tx.alter(self.evening, SELL, self.group)?;
        tx.commute(SOLD, ADD, self.group)?;
        Ok(())
    }
}

/// Sells tickets in two threads, and says what came of it.
pub(crate) fn sell_tickets<R: AllocGlobal + Print + Threads + Wait + Sync>(
    rt: &R,
) -> Result<(), Fault> {
    let mut end = run_custom(rt, &Office, Crew::of(CLERKS, 0))?;
    close_and_say(rt, &mut end.world)
}

// Closes the second evening, and says what is in the world.
fn close_and_say<R: AllocGlobal + Print>(
    rt: &R,
    world: &mut World<BoxOffice>,
) -> Result<(), Fault> {
    say(rt, world, "first evening", Who::Ref(FIRST))?;
    say(rt, world, "second evening", Who::Ref(SECOND))?;
    close(rt.alloc(), world, SECOND)?;
    say(rt, world, "closed, it has", Who::Ref(SECOND))?;
    say(rt, world, "tickets sold", Who::Ref(SOLD))?;
    say(rt, world, "groups too late", Who::Atom(TOO_LATE))?;
    say(rt, world, "groups too large", Who::Atom(TOO_LARGE))?;
    println!(rt;
        "commits {}, which added {}",
        world.commits(),
        world.added()
    )?;
    Ok(())
}

// Closes an evening, now that the clerks have gone: no ticket is left for it.
fn close(alloc: Global, world: &mut World<BoxOffice>, evening: u32) -> Result<(), Fault> {
    let mut tx = Dosync {
        tx: world.begin(alloc)?,
        alloc,
        funs: Acts,
    };
    tx.alter(evening, CLOSE, ())?;
    let stamp = Stamp {
        worker: CLERKS,
        step: 0,
    };
    match world.commit(alloc, &Acts, stamp, tx.tx) {
        Ok(_receipt) => Ok(()),
        Err((_tx, fault)) => Err(Fault::from(fault)),
    }
}

fn say<R: AllocGlobal + Print>(
    rt: &R,
    world: &World<BoxOffice>,
    words: &str,
    who: Who,
) -> Result<(), Fault> {
    let value = world.value_of(who).ok_or(Fault::NoSuch(who))?;
    let value = text(rt.alloc(), value)?;
    println!(rt; "{words} {value}")?;
    Ok(())
}
