//! Checkpoints: the entries up to a point are folded into the base.
ghost use Rattle.std.specs.Prelude.{◌≡◌, ◌≢◌, ◌<◌, ◌≤◌, ◌^◌, ◌+◌, ◌-◌, true, None, Some, IfOk, IfErr, OnErr, OnOk, length, take, drop};
ghost use Rattle.std.specs.Result.{is_ok};
ghost use Rattle.ref_log.specs.Called.{codes_called};
ghost use Rattle.ref_log.specs.Fold.{IsFolded};
ghost use Rattle.ref_log.specs.Replay.{missing, needed, point_after, replay};
ghost use Rattle.ref_log.specs.Tally.{commits_of, moved_of};
ghost use Rattle.ref_log.specs.declared.counting.Side.TheVariants.{Added, Taken};
ghost use Rattle.ref_log.specs.Told.{TellsThenMemory};
ghost use Rattle.ref_world.specs.Checkpoint.{checkpoint_refusal, folded_entries, lacks_fun, no_such_point, with_checkpoint};
ghost use Rattle.ref_world.specs.declared.faults.CheckpointFault.TheVariants as checkpoints;

use crate::faults::CheckpointFault;
use crate::worlds::World;
use ref_fun::{Functions, Meaning};
use ref_log::{AuditFault, Base, Entry, fold, lacking_fun};
use ref_pvec::PVec;
use std::alloc::{AllocError, Global};
use std::sync::Arc;

impl<M: Meaning> World<M> {
    /// Folds the entries up to this point into the base, and answers how many these were: the base gets the values and the last
    /// change of each ref at that point, and the commits, additions and takings up to there. The log holds the entries after it. All
    /// values, last changes, rules, agents and books stay, so that no later call answers otherwise. The table has to have the
    /// functions that the folded entries call, for they are replayed. Views stay as they were.
    ///
    /// Where there are such entries, it costs a look-up for each of their operations and their replay, a step for each ref and atom, and a
    /// logarithm of the entries that are left; else it returns at once. A function that the table lacks is reported before any memory is taken. All growths come before the
    /// first change; a refused call changes nothing.
    #[tactic(auto, using(crate::proofs::Folded::first_called))]
    pub fn checkpoint<F: Functions<M>>(
        &mut self,
        alloc: Global,
        funs: &F,
        point: u64,
    ) -> Result<u64, CheckpointFault>
        ensures refused { TellsThenMemory checkpoints.Memory
            (checkpoint_refusal M.means (F.knows funs.now).funs self.old point) result }
        ensures count { IfOk result (λ n. n + self.old.base.point ≡ point) }
        // The base then has the values, the last changes and the books at the point.
        ensures folded { OnOk result (IsFolded M.means self.old.base (folded_entries self.old point) self.new.base) }
        // Nothing else is changed, but that the log has the entries after it alone.
        ensures rest { OnOk result (self.new ≡ with_checkpoint self.old point self.new.base) }
        ensures err { OnErr result (self.new ≡ self.old) }
    {
        if point < self.base.point || point > self.point() {
            return Err(CheckpointFault::NoSuchPoint);
        }
        let count = point - self.base.point;
        if count == 0 {
            return Ok(0);
        }
        if let Some(code) = lacking_fun::<M, F>(funs, &self.log, count as usize) {
            return Err(CheckpointFault::NoSuchFun(code));
        }
        // What was added in all fits in 64 bits, and so does what was taken.
        let _ = (self.added(), self.taken());
        let (base, log) = parted(alloc, funs, &self.base, &self.log, count as usize)?;
        self.base = base;
        self.log = log;
        Ok(count)
    }
}

// The base with the first entries, so many, folded into it, and the entries after them.
fn parted<M: Meaning, F: Functions<M>>(
    alloc: Global,
    funs: &F,
    base: &Base,
    log: &PVec<Entry>,
    count: usize,
) -> Result<(Arc<Base>, PVec<Entry>), AllocError>
    requires replayed { is_ok (replay M.means base.now log.now) ≡ true }
    requires served { missing (F.knows funs.now).funs (codes_called (take count log.now)) ≡ None }
    requires points { point_after base.now log.now < 2 ^ 64 }
    requires commits { base.now.commits + commits_of log.now < 2 ^ 64 }
    requires added { base.now.added + moved_of Added base.now.tally log.now < 2 ^ 64 }
    requires taken { base.now.taken + moved_of Taken base.now.tally log.now < 2 ^ 64 }
    requires lasts { length base.now.last ≡ length base.now.refs }
    ensures folded { IfOk result (λ p. IsFolded M.means base.now (take count log.now) p.0.value) }
    ensures rest { IfOk result (λ p. p.1 ≡ drop count log.now) }
{
    let first = log.first(alloc, count)?;
    let rest = log.rest(alloc, count)?;
    let folded = match fold(alloc, funs, base, &first) {
        Ok(folded) => folded,
        Err(AuditFault::Memory) => return Err(AllocError),
        // The table has all functions that these entries call.
        Err(AuditFault::NoSuchFun(_)) => unreachable!(),
        // A world's log has a replay, and so have its first entries.
        Err(AuditFault::Answer(_)) => unreachable!(),
        Err(AuditFault::Refuses(_)) => unreachable!(),
        Err(AuditFault::NoSuch(_)) => unreachable!(),
    };
    let folded = Arc::new(alloc, folded)?;
    Ok((folded, rest))
}
