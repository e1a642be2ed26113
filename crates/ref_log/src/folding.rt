//! Folding entries into the base that they stand on.
ghost use Rattle.std.specs.Prelude.{◌≡◌, ◌<◌, ◌^◌, ◌+◌, ℕ, None, IfOk, IfErr, OnOk, length, slice_index_or};
ghost use Rattle.ref_log.specs.Fold.{IsFolded};
ghost use Rattle.ref_log.specs.Replay.{FaultComes, missing, needed, point_after, replay};
ghost use Rattle.ref_log.specs.Tally.{commits_of, moved_of};
ghost use Rattle.ref_log.specs.declared.counting.Side.TheVariants.{Added, Taken};

use crate::counting::{Side, commits_of, moved_of};
use crate::entries::Entry;
use crate::faults::AuditFault;
use crate::lasts::lasts_after;
use crate::replay::replay_plain;
use crate::states::{Base, PlainState};
use ref_fun::{Functions, Meaning, SharedVec};
use ref_pvec::PVec;
use std::alloc::Global;

/// The base of a log of which these entries are the first, with them folded into it, or the first fault of their replay. The
/// table has to have the functions of the operations up to there. The points fit in 64 bits, and so do the books. Linear in the
/// number of references and operations, but for the look-ups in the table.
pub fn fold<M: Meaning, F: Functions<M>>(
    alloc: Global,
    funs: &F,
    base: &Base,
    entries: &PVec<Entry>,
) -> Result<Base, AuditFault>
    requires points { point_after base.now entries.now < 2 ^ 64 }
    requires commits { base.now.commits + commits_of entries.now < 2 ^ 64 }
    requires added { base.now.added + moved_of Added base.now.tally entries.now < 2 ^ 64 }
    requires taken { base.now.taken + moved_of Taken base.now.tally entries.now < 2 ^ 64 }
    // The base has the last change of each of its refs.
    requires lasts { length base.now.last ≡ length base.now.refs }
    ensures ok { IfOk result (λ after. IsFolded M.means base.now entries.now after) }
    ensures served { OnOk result (missing (F.knows funs.now).funs (needed M.means base.now entries.now) ≡ None) }
    ensures err { IfErr result (λ fault.
        FaultComes (missing (F.knows funs.now).funs (needed M.means base.now entries.now))
        (replay M.means base.now entries.now) fault) }
{
    let PlainState { refs, atoms } = replay_plain(alloc, funs, base, entries)?;
    let lasts = lasts_after(alloc, base, entries)?;
    let last = SharedVec::of(alloc, lasts)?;
    // The books fit in 64 bits.
    let Some(added) = moved_of(Side::Added, base.tally, entries) else {
        unreachable!()
    };
    let Some(taken) = moved_of(Side::Taken, base.tally, entries) else {
        unreachable!()
    };
    Ok(Base {
        point: base.point + entries.len() as u64,
        refs,
        last,
        atoms,
        tally: base.tally,
        commits: base.commits + commits_of(entries),
        added: base.added + added,
        taken: base.taken + taken,
    })
}
