//! One thread folds what the others leave behind.
use crate::errors::Errors;
use crate::shop::{COUNTERS, FOLDED, GONE, LOGS, TAKINGS};
use ref_program::prelude::*;

/// How much is taken between two folds: what some thousand sales bring.
pub(crate) const TAKINGS_TO_A_FOLD: i64 = 2_500;

/// How many entries are folded while the lock is held.
pub(crate) const BITE: u32 = 1_000;

/// Folds whenever so much more was taken, until all who sell have gone.
pub(crate) fn keep_folding<L: Books, R: Wait>(
    worker: &mut Worker<'_, L, R, Core, CoreFunctions, Errors>,
) -> Result<(), Fault> {
    let mut takings = 0i64;
    for _ in 0..u64::MAX {
        takings = takings.saturating_add(TAKINGS_TO_A_FOLD);
        let is_over = worker.transact_when(|tx| note_if_taken(tx, takings))?;
        if is_over {
            return Ok(());
        }
        fold(worker)?;
    }
    Ok(())
}

/// Notes in the world that so much was taken, once it was, and answers whether all who sell have gone before that.
pub(crate) fn note_if_taken(tx: &mut Dosync, takings: i64) -> Result<Option<bool>, Fault> {
    if int_of(tx.deref(TAKINGS)?).is_some_and(|taken| taken >= takings) {
        tx.ref_set(FOLDED, takings)?;
        return Ok(Some(false));
    }
    if int_of(tx.deref(GONE)?) == Some(i64::from(COUNTERS)) {
        return Ok(Some(true));
    }
    Ok(None)
}

// Folds the entries up to this worker's latest, and what the logs have handled.
fn fold<L: Books, R: Wait>(
    worker: &mut Worker<'_, L, R, Core, CoreFunctions, Errors>,
) -> Result<(), Fault> {
    let _ = worker.checkpoint(worker.point(), BITE)?;
    for g in 0..LOGS {
        let _ = worker.fold_agent(g)?;
    }
    worker.forget();
    Ok(())
}
