//! Passes over the refused steps, the log and the plan.
ghost use Rattle.std.specs.Prelude.{◌≡◌, ℕ, [], false, true};
ghost use Rattle.std.specs.Bool.{MatchBool};
ghost use Rattle.std.specs.List.{All, IsDistinct};
ghost use Rattle.ref_shared.specs.Gather.{InOrder};
ghost use Rattle.ref_workload.specs.Marks.{AreMarks, EntriesStand, EntryMissed, EntryTaken, IsDone, IsRowDone, RefusedStand, TransactionMissed, TransactionTaken, is_tx};
ghost use Rattle.ref_workload.specs.Orderly.{IsPlanned, IsStep, is_of_same_step};

use crate::order::board::{Board, Mark};
use crate::order::named::is_named;
use ref_audit::Refusal;
use ref_log::{Entry, SharedVec, Transaction};
use ref_plan::Step;
use ref_pvec::PVec;

// Marks the refused steps, where each is open.
pub(crate) fn mark_refused(board: &mut Board, refused: &[Refusal]) -> bool
    ensures yes { (workers : _) → AreMarks workers [] [] board.old → result ≡ true
        → RefusedStand workers refused.now board.new }
    ensures no { (workers : _) → AreMarks workers [] [] board.old → result ≡ false
        → All (IsStep workers) refused.now → IsDistinct is_of_same_step refused.now → ⊥ }
{
    for refusal in refused {
        if !board.take(refusal.stamp, Mark::Refused) {
            return false;
        }
    }
    true
}

// Marks the steps of the entries, where each is an open one that names what the entry holds.
pub(crate) fn mark_entries(
    board: &mut Board,
    workers: &[SharedVec<Step>],
    log: &PVec<Entry>,
) -> bool
    ensures yes { (refused : _) → AreMarks workers.now refused [] board.old → result ≡ true
        → EntriesStand workers.now refused log.now board.new }
    ensures no { (refused : _) (base : ℕ) → AreMarks workers.now refused [] board.old → result ≡ false
        → InOrder base log.now → All (IsPlanned workers.now refused) log.now → ⊥ }
{
    for entry in log {
        if !mark_entry(board, workers, entry) {
            return false;
        }
    }
    true
}

fn mark_entry(board: &mut Board, workers: &[SharedVec<Step>], entry: &Entry) -> bool
    ensures { MatchBool result (EntryTaken workers.now board.old entry.now board.new)
        (EntryMissed workers.now board.old entry.now) }
{
    match entry {
        Entry::Trans(transaction) => mark_transaction(board, workers, transaction),
        Entry::Atom(..) => true,
        Entry::MadeRef(_) | Entry::MadeAtom(_) => false,
    }
}

fn mark_transaction(
    board: &mut Board,
    workers: &[SharedVec<Step>],
    transaction: &Transaction,
) -> bool
    ensures { MatchBool result (TransactionTaken workers.now board.old transaction.now board.new)
        (TransactionMissed workers.now board.old transaction.now) }
{
    let stamp = transaction.stamp;
    let Some(steps) = workers.get(stamp.worker as usize) else {
        return false;
    };
    let Some(Step::Tx(ops)) = steps.get(stamp.step as usize) else {
        return false;
    };
    is_named(ops.as_slice(), transaction) && board.take(stamp, Mark::Committed)
}

// Whether no transaction's step is open.
pub(crate) fn is_done(board: &Board, workers: &[SharedVec<Step>]) -> bool
    ensures yes { result ≡ true → IsDone workers.now board.now }
    ensures no { result ≡ false → IsDone workers.now board.now → ⊥ }
{
    let rows = board.rows();
    for k in 0..workers.len() {
        // What has no mark isn't open.
        let Some(row) = rows.get(k) else {
            continue;
        };
        if !is_row_done(workers[k].as_slice(), row.as_slice()) {
            return false;
        }
    }
    true
}

fn is_row_done(steps: &[Step], marks: &[Mark]) -> bool
    ensures yes { result ≡ true → IsRowDone steps.now marks.now }
    ensures no { result ≡ false → IsRowDone steps.now marks.now → ⊥ }
{
    for k in 0..steps.len() {
        if is_tx(&steps[k]) && marks.get(k).copied() == Some(Mark::Open) {
            return false;
        }
    }
    true
}

// Whether a step is a transaction.
fn is_tx(step: &Step) -> bool
    ensures { result ≡ is_tx step.now }
{
    matches!(step, Step::Tx(_))
}
