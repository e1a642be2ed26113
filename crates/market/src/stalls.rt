//! The stalls: their world, and what their customers do.
use crate::board::Board;
use ref_program::prelude::*;

// References are numbered from 0 by kind, in the order in which `start` makes them. Refs 0, 1 and 2 are the stocks.
const TAKINGS: u32 = 3;

const CAME: u32 = 0;

const SOLD_OUT: u32 = 1;

const WITHOUT_BREAD: u32 = 2;

const JOURNAL: u32 = 0;

const TILL: u32 = 1;

// How many customers come in each thread. Each of them wants one piece of a good.
const CUSTOMERS: u32 = 60;

#[derive(Clone, Copy)]
struct Good {
    stock: u32,
    price: i64,
    name: &'static str,
}

const APPLE: Good = Good {
    stock: 0,
    price: 2,
    name: "apple",
};

const BREAD: Good = Good {
    stock: 1,
    price: 3,
    name: "bread",
};

const CHEESE: Good = Good {
    stock: 2,
    price: 7,
    name: "cheese",
};

struct Market;

impl CustomProgram for Market {
    type Meaning = Core;

    type Functions = CoreFunctions;

    type Sink = Board;

    fn functions(&self) -> CoreFunctions {
        CoreFunctions
    }

    // The board at the gate gets the notices of all watches.
    fn sink(&self) -> Board {
        Board::default()
    }

    fn start(&self, world: &mut Declared) -> Result<(), Fault> {
        for pieces in ["50", "100", "70"] {
            world.make_ref_with(pieces, AT_LEAST, 0)?;
        }
        world.make_tally("0")?;
        for _ in [CAME, SOLD_OUT, WITHOUT_BREAD] {
            world.make_atom("0")?;
        }
        world.make_agent("[]", ErrorMode::Fail)?;
        world.make_agent("0", ErrorMode::Fail)?;
        watch_all(world, keyword("board")?)
    }

    fn work<L: Books, R: Wait>(
        &self,
        worker: &mut Worker<'_, L, R, Core, CoreFunctions, Board>,
    ) -> Result<(), Fault> {
        for customer in 0..CUSTOMERS {
            let good = match customer % 3 {
                0 => APPLE,
                1 => BREAD,
                _ => CHEESE,
            };
            serve(worker, good)?;
        }
        Ok(())
    }
}

// Has the board watch the stocks, the count of customers and both agents.
fn watch_all(world: &mut Declared, board: Keyword) -> Result<(), Fault> {
    for good in [APPLE, BREAD, CHEESE] {
        world.watch(Who::Ref(good.stock), board)?;
    }
    world.watch(Who::Atom(CAME), board)?;
    world.watch(Who::Agent(JOURNAL), board)?;
    world.watch(Who::Agent(TILL), board)
}

// A customer comes, and gets a piece of a good, or goes without.
fn serve<L: Books, R: Wait>(
    worker: &mut Worker<'_, L, R, Core, CoreFunctions, Board>,
    good: Good,
) -> Result<(), Fault> {
    let _ = worker.swap(CAME, INC, ())?;
    let missed = match worker.transact(|tx| sell(tx, good)).map_err(Fault::from) {
        Ok(()) => return Ok(()),
        Err(Fault::Commit(CommitFault::Invalid(_))) => SOLD_OUT,
        Err(Fault::Tx(TxFault::NotMet)) => WITHOUT_BREAD,
        Err(fault) => return Err(fault),
    };
    let _ = worker.swap(missed, INC, ())?;
    Ok(())
}

// Sells a piece of a good. Cheese is sold only as long as there is bread, also at the moment of the commit.
fn sell(tx: &mut Dosync, good: Good) -> Result<(), Fault> {
    if good.stock == CHEESE.stock {
        tx.ensure(BREAD.stock)?;
        tx.require(BREAD.stock, AT_LEAST, 1)?;
    }
    tx.alter(good.stock, MINUS, 1)?;
    tx.commute(TAKINGS, PLUS, good.price)?;
    tx.send(JOURNAL, CONJ, keyword(good.name)?)?;
    tx.send(TILL, PLUS, good.price)?;
    Ok(())
}

/// A day at the market, and what is in its world at the end.
pub(crate) fn run_day<R: AllocGlobal + Print + Threads + Wait + Sync>(rt: &R) -> Result<(), Fault> {
    let end = run_custom(rt, &Market, Crew::of(4, 2))?;
    say_all(rt, &end)
}

fn say_all<R: AllocGlobal + Print>(rt: &R, end: &Ended<Core, Board>) -> Result<(), Fault> {
    say(rt, end, "customers", Who::Atom(CAME))?;
    say(rt, end, ":apple", Who::Ref(APPLE.stock))?;
    say(rt, end, ":bread", Who::Ref(BREAD.stock))?;
    say(rt, end, ":cheese", Who::Ref(CHEESE.stock))?;
    say(rt, end, "takings", Who::Ref(TAKINGS))?;
    say(rt, end, "till", Who::Agent(TILL))?;
    say(rt, end, "sold out", Who::Atom(SOLD_OUT))?;
    say(rt, end, "without bread", Who::Atom(WITHOUT_BREAD))?;
    say_journal(rt, end.value_of(Who::Agent(JOURNAL))?)?;
    say_notices(rt, Board::sum(end.sinks.as_slice()))?;
    let totals = end.totals;
    println!(rt; "commits {}, which added {}", totals.commits, totals.added)?;
    Ok(())
}

fn say<R: AllocGlobal + Print>(
    rt: &R,
    end: &Ended<Core, Board>,
    words: &str,
    who: Who,
) -> Result<(), Fault> {
    let value = text(rt.alloc(), end.value_of(who)?)?;
    println!(rt; "{words} {value}")?;
    Ok(())
}

fn say_journal<R: AllocGlobal + Print>(rt: &R, journal: &Value) -> Result<(), Fault> {
    println!(rt; "lines of the journal {}", count(journal))?;
    Ok(())
}

fn say_notices<R: AllocGlobal + Print>(rt: &R, notices: Board) -> Result<(), Fault> {
    println!(rt;
        "notices of refs {}, of atoms {}, of agents {}",
        notices.refs, notices.atoms, notices.agents
    )?;
    Ok(())
}
