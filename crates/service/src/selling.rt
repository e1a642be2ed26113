//! The threads that sell.
use crate::errors::Errors;
use crate::shop::{FOLDED, GONE, LOGS, SHARED_COUNTER, TAKINGS};
use ref_program::prelude::*;

// After how many sales a thread rests.
const SALES_TO_A_REST: u64 = 128;

// How much may be taken that isn't folded yet. Then sales wait, so that the log doesn't grow while who folds can't keep up.
const MOST_UNFOLDED: i64 = 25_000;

// What is sold: where, for how much, and whether the line for the log is damaged.
#[derive(Clone, Copy)]
struct Sale {
    counter: u32,
    log: u32,
    price: i64,
    is_damaged: bool,
}

// The sale of this number of a thread. One in eight is made at the counter that all share, and of one in sixteen the line is damaged. A piece
// costs at a counter what its number says, and one more.
fn nth_sale(number: u32, n: u64) -> Sale {
    Sale {
        counter: if n % 8 == 7 { SHARED_COUNTER } else { number },
        log: number % LOGS,
        price: i64::from(number) + 1,
        is_damaged: n % 16 == 15,
    }
}

/// Makes all sales of a thread.
pub(crate) fn sell_all<L: Books, R: Wait>(
    worker: &mut Worker<'_, L, R, Core, CoreFunctions, Errors>,
    sales: u64,
) -> Result<(), Fault> {
    for n in 0..sales {
        sell_next(worker, n)?;
    }
    leave(worker)
}

/// Makes the sale of this number of a thread, and rests after it now and then.
pub(crate) fn sell_next<L: Books, R: Wait>(
    worker: &mut Worker<'_, L, R, Core, CoreFunctions, Errors>,
    n: u64,
) -> Result<(), Fault> {
    let sale = nth_sale(worker.number(), n);
    worker.transact_when(|tx| sell(tx, sale))?;
    if n % SALES_TO_A_REST == SALES_TO_A_REST - 1 {
        // So neither the receipts nor a queue grow for long.
        worker.forget();
        worker.await_agents(&[sale.log])?;
    }
    Ok(())
}

/// Notes that a thread has made all its sales.
pub(crate) fn leave<L: Books, R: Wait>(
    worker: &mut Worker<'_, L, R, Core, CoreFunctions, Errors>,
) -> Result<(), Fault> {
    worker.transact(|tx| note_leaving(tx))?;
    Ok(())
}

// A sale, when few enough are left to fold.
fn sell(tx: &mut Dosync, sale: Sale) -> Result<Option<()>, Fault> {
    if is_too_much(tx)? {
        return Ok(None);
    }
    tx.alter(sale.counter, PLUS, 1)?;
    tx.commute(TAKINGS, PLUS, sale.price)?;
    if sale.is_damaged {
        tx.send(sale.log, PLUS, keyword("damaged")?)?;
    } else {
        tx.send(sale.log, PLUS, 1)?;
    }
    Ok(Some(()))
}

fn note_leaving(tx: &mut Dosync) -> Result<(), Fault> {
    tx.alter(GONE, INC, ())?;
    Ok(())
}

// Whether too much was taken that isn't folded yet.
fn is_too_much(tx: &Dosync) -> Result<bool, Fault> {
    let taken = int_of(tx.deref(TAKINGS)?);
    let folded = int_of(tx.deref(FOLDED)?);
    Ok(match (taken, folded) {
        (Some(taken), Some(folded)) => taken.saturating_sub(folded) >= MOST_UNFOLDED,
        _ => false,
    })
}
