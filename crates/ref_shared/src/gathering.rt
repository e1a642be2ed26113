//! Compares what a log holds with the receipts of those who wrote it.
ghost use Rattle.std.specs.Prelude.{◌+◌, ◌<◌, ◌≤◌, ◌^◌, ◌↔◌, ℕ, List, IfErr, OnOk, length};
ghost use Rattle.ref_log.specs.declared.entries.Entry.{Entry};
ghost use Rattle.ref_shared.specs.Gather.{GatherFails, InOrder, ReceiptsMatch};
ghost use Rattle.ref_shared.specs.declared.faults.GatherFault.{GatherFault};
ghost use Rattle.ref_world.specs.Shares.{after_point};

use crate::faults::GatherFault;
use crate::matching::receipts_match;
use crate::order::in_order;
use ref_log::Entry;
use ref_pvec::PVec;
use std::alloc::Global;

/// Compares the entries of a log past its base with the receipts of those who added them, which are their points. Ok where the receipts past
/// the base's point are just the points of the entries of transactions and of atoms, each once, and where of two transactions of one
/// worker the later in the log has the later step, and was begun when the earlier was there. Receipts up to the base's point are
/// passed over, and their order says nothing.
///
/// Linear in the numbers of entries and receipts, but for a logarithm of the number of workers, and one of the number of entries. It looks at no
/// value, and takes a byte for each entry, and some for each worker.
pub fn match_receipts(
    alloc: Global,
    base_point: u64,
    log: &PVec<Entry>,
    receipts: &[u64],
) -> Result<(), GatherFault>
    requires { base_point + length log.now < 2 ^ 63 }
    ensures ok { OnOk result (ReceiptsMatch base_point log.now receipts.now × InOrder base_point log.now) }
    ensures fault { IfErr result (λ f. GatherFails base_point log.now receipts.now f) }
{
    if !receipts_match(alloc, base_point, log, receipts)? {
        return Err(GatherFault::ReceiptMissing);
    }
    if !in_order(alloc, base_point, log)? {
        return Err(GatherFault::OutOfOrder);
    }
    Ok(())
}

/// For [`match_receipts`] it makes no difference whether the receipts up to a point that isn't past the base's are there:
/// [`ref_world::Share::forget`] drops them. A law about all logs and receipts, with nothing to run.
pub fn folded_receipts_say_nothing()
    ensures matches { (p base : ℕ) (log : List Entry) (rs : List ℕ) → p ≤ base
        → (ReceiptsMatch base log rs ↔ ReceiptsMatch base log (after_point p rs)) }
    ensures fails { (p base : ℕ) (log : List Entry) (rs : List ℕ) (f : GatherFault) → p ≤ base
        → (GatherFails base log rs f ↔ GatherFails base log (after_point p rs) f) }
{}
