//! Committing a transaction.
ghost use Rattle.ref_log.specs.Told.{Tells, TellsBack, TellsOrMemory};
ghost use Rattle.std.specs.Prelude.{◌≡◌, ◌≢◌, ◌≤◌, ◌-◌, ◌+◌, ◌==◌, ℕ, List, true, None, Some, Ok, IfOk, IfErr, OnOk, OnErr, length, slice_get};
ghost use Rattle.std.specs.List.{list_any};
ghost use Rattle.std.specs.Option.{option_map};
ghost use Rattle.ref_value.specs.Edn.{Edn};
ghost use Rattle.ref_log.specs.Guards.{AreAccepted};
ghost use Rattle.ref_log.specs.Replay.{after_dones, is_protected, is_touched, step};
ghost use Rattle.ref_log.specs.declared.operations.Done.{Done};
ghost use Rattle.ref_log.specs.Tally.{fit_tally, moved, moved_by_dones, tally_value};
ghost use Rattle.ref_log.specs.declared.counting.Side.TheVariants.{Added, Taken};
ghost use Rattle.ref_tx.specs.Inner.{inner_value};
ghost use Rattle.ref_refs.specs.Commit.{alien, alien_ref, alien_value, changed_by, commit_refusal, conflict, early_refusal, entry_of, first_invalid, full_book, lacking, lacking_rule};
ghost use Rattle.ref_refs.specs.Conflicts.{ConflictFits};
ghost use Rattle.ref_refs.specs.Ready.{CanInstall, IsChecked, IsOwn};
ghost use Rattle.ref_refs.specs.Seen.{changed_at, are_unchanged_since};
ghost use Rattle.ref_refs.specs.Watches.{notices, touched_refs};
ghost use Rattle.ref_refs.specs.declared.faults.CommitFault.TheVariants as commits;
ghost use Rattle.ref_log.specs.Limits.{last_point};

use crate::checking::{
    check_agents, check_refs, check_served, first_changed, first_differing, fits_tally,
    is_any_other, moved_within,
};
use crate::drafts::{Changes, Draft};
use crate::faults::{Alien, CommitFault, Conflict};
use crate::placing::place_all;
use crate::rules::{check_rules_known, first_invalid};
use crate::store::RefStore;
use crate::watches::{are_unguarded, notices, touched_refs};
use ref_fun::{Functions, Meaning};
use ref_log::{Done, Entry, LAST_POINT, Notice, Side, Stamp, Transaction};
use ref_tx::{Beginning, Comparable, Tx};
use std::alloc::Global;

/// A commit that was made: its entry for the log, and the notices for its watches.
#[derive(Drop)]
pub struct Landed {
    pub entry: Entry,
    pub notices: Vec<Notice>,
}

/// A commit that was tested: what it does to the refs, what is returned, and how much it adds to the tally and takes from it.
#[derive(Drop)]
pub struct Prepared {
    pub refs: Changes,
    pub landed: Landed,
    pub added: u64,
    pub taken: u64,
}

/// The refs of [`RefStore::commit`]'s notices are those that the transaction changes.
pub fn touched_refs_are_touched()
    ensures { (dones : List Done) (r : ℕ) → list_any (λ x. x == r) (touched_refs dones) ≡ is_touched dones r }
{}

impl<M: Meaning> RefStore<M> {
    /// Commits a transaction at a new point, which comes after the last change of each ref and right after the present
    /// point. What was commuted is made on the latest value; where a ref was set, altered or ensured too, it gets its
    /// in-transaction value. The stamp goes into the entry.
    ///
    /// The rules of the refs that it changes are asked of the values that they get. The notices for their watches are in the order of
    /// the refs, and those of one ref in the order of adding, also where the value is the same as before.
    ///
    /// The caller says how many agents there are, and how much may still be added to the tally and taken from it. What the
    /// transaction sends stands in the entry, and nothing else comes of it here.
    ///
    /// A refused commit changes nothing and returns the transaction. The tests are made in this order: what is foreign,
    /// functions and predicates that the table lacks, the conflict, a foreign value, a refusal over the latest values, a
    /// rule that doesn't accept, the end of points, a full book.
    /// Each operation costs time logarithmic in the number of refs. A protected ref costs a comparison of its value with the one
    /// of the beginning, which is linear in its size, once for several operations in a row ([`RefStore::prepare_own`] compares none); a `commute` of another ref costs its
    /// function, each changed ref the test of its rule and a notice for each of its watches.
    pub fn commit<F: Functions<M>, S: Comparable>(
        &mut self,
        alloc: Global,
        funs: &F,
        at: u64,
        agents: usize,
        most_added: u64,
        most_taken: u64,
        stamp: Stamp,
        tx: Tx<M, S>,
    ) -> Result<Landed, (Tx<M, S>, CommitFault)>
        requires new { 1 ≤ at }
        requires last { are_unchanged_since self.old.lasts (at - 1) ≡ true }
        ensures refused { TellsBack commits.Memory (early_refusal (F.knows funs.now) self.old at agents tx)
            (commit_refusal M.means M.accepts (F.knows funs.now) self.old at agents most_added most_taken tx) result }
        ensures entry { IfOk result (λ landed. landed.entry ≡ entry_of stamp tx) }
        ensures notices { IfOk result (λ landed. landed.notices.items
            ≡ notices self.old.guards self.old.values self.new.values (touched_refs tx.dones)) }
        ensures values { OnOk result ((atoms : List Edn)
            → step M.means at (entry_of stamp tx) (record { refs = self.old.values; atoms = atoms })
            ≡ Ok (record { refs = self.new.values; atoms = atoms })) }
        ensures inner { OnOk result ((r : ℕ) → is_protected tx.dones r ≡ true
            → slice_get self.new.values r ≡ inner_value M.means tx r) }
        ensures lasts { OnOk result ((r : ℕ) → changed_at self.new.lasts r ≡ changed_by self.old.lasts at tx.dones r) }
        ensures since { OnOk result (are_unchanged_since self.new.lasts at ≡ true) }
        ensures rest { OnOk result ((self.new.tally ≡ self.old.tally) × (self.new.guards ≡ self.old.guards)) }
        // The tally moves by what was commuted, and by nothing else.
        ensures tally { OnOk result (tally_value self.new.tally self.new.values
            ≡ moved (tally_value self.old.tally self.old.values) (moved_by_dones Added self.old.tally tx.dones)
            (moved_by_dones Taken self.old.tally tx.dones)) }
        // A conflict is returned with a ref that the transaction protects, its read point and the later point of its last change.
        ensures conflict { IfErr result (λ e. ConflictFits tx (changed_at self.old.lasts) e.1) }
        ensures back { IfErr result (λ e. e.0 ≡ tx) }
        ensures err { OnErr result (self.new ≡ self.old) }
    {
        match self.prepare(alloc, funs, at, agents, most_added, most_taken, stamp, &tx) {
            Ok(prepared) => {
                self.install(alloc, at, prepared.refs, tx.dones());
                Ok(prepared.landed)
            }
            Err(fault) => Err((tx, fault)),
        }
    }

    /// All of a commit that takes memory or may be refused. It changes nothing.
    pub fn prepare<F: Functions<M>, S: Comparable>(
        &self,
        alloc: Global,
        funs: &F,
        at: u64,
        agents: usize,
        most_added: u64,
        most_taken: u64,
        stamp: Stamp,
        tx: &Tx<M, S>,
    ) -> Result<Prepared, CommitFault>
        ensures refused { TellsOrMemory commits.Memory (early_refusal (F.knows funs.now) self.now at agents tx.now)
            (commit_refusal M.means M.accepts (F.knows funs.now) self.now at agents most_added most_taken tx.now)
            result }
        // What `install` asks.
        ensures ready { IfOk result (CanInstall M.means M.accepts self.now at most_added most_taken stamp tx.now) }
    {
        self.check(funs, at, agents, tx)?;
        self.draft(alloc, funs, at, agents, most_added, most_taken, stamp, tx)
    }

    /// As [`RefStore::prepare`], for a transaction of which the caller knows that the refs it protects have the values that it began with, if
    /// they haven't changed since. So no value is compared, and the transaction needn't hold any: an `ensure`, a set or an `alter` costs a
    /// look-up, whatever the size of the value.
    pub fn prepare_own<F: Functions<M>, S: Beginning>(
        &self,
        alloc: Global,
        funs: &F,
        at: u64,
        agents: usize,
        most_added: u64,
        most_taken: u64,
        stamp: Stamp,
        tx: &Tx<M, S>,
    ) -> Result<Prepared, CommitFault>
        requires own { IsOwn self.now tx.now }
        ensures refused { TellsOrMemory commits.Memory (early_refusal (F.knows funs.now) self.now at agents tx.now)
            (commit_refusal M.means M.accepts (F.knows funs.now) self.now at agents most_added most_taken tx.now)
            result }
        // What `install` asks.
        ensures ready { IfOk result (CanInstall M.means M.accepts self.now at most_added most_taken stamp tx.now) }
    {
        self.check_own(funs, at, agents, tx)?;
        self.draft(alloc, funs, at, agents, most_added, most_taken, stamp, tx)
    }

    /// Makes the changes of a prepared commit. It can't fail: those that need memory which is refused are stored as notes, which each look-up
    /// reads, and get to their places later. A place that no open transaction can see is changed there; others are copied.
    pub fn install(&mut self, alloc: Global, at: u64, refs: Changes, dones: &[Done])
        requires base { refs.base ≡ record { values = self.old.values; lasts = self.old.lasts } }
        requires new { 1 ≤ at }
        requires limit { at ≤ last_point }
        requires last { are_unchanged_since self.old.lasts (at - 1) ≡ true }
        requires moved { (r : ℕ) → changed_at refs.lasts r ≡ changed_by self.old.lasts at dones.now r }
        requires all { length refs.lasts ≡ length self.old.lasts }
        requires fits { fit_tally self.old.tally dones.now ≡ true }
        requires made { after_dones M.means dones.now at dones.now (Ok self.old.values) ≡ Ok refs.values }
        requires accepted { AreAccepted M.accepts self.old.guards refs.values }
        ensures values { self.new.values ≡ refs.values }
        ensures lasts { (r : ℕ) → changed_at self.new.lasts r ≡ changed_by self.old.lasts at dones.now r }
        ensures since { are_unchanged_since self.new.lasts at ≡ true }
        ensures rest { (self.new.tally ≡ self.old.tally) × (self.new.guards ≡ self.old.guards) }
        ensures tally { tally_value self.new.tally self.new.values
            ≡ moved (tally_value self.old.tally self.old.values) (moved_by_dones Added self.old.tally dones.now)
            (moved_by_dones Taken self.old.tally dones.now) }
    {
        self.refs.make(refs);
        self.refs.settle(alloc);
    }
}

impl<M: Meaning> RefStore<M> {
    // What a commit makes, once all is asked that can be asked before memory is taken.
    fn draft<F: Functions<M>, S: Beginning>(
        &self,
        alloc: Global,
        funs: &F,
        at: u64,
        agents: usize,
        most_added: u64,
        most_taken: u64,
        stamp: Stamp,
        tx: &Tx<M, S>,
    ) -> Result<Prepared, CommitFault>
        requires { IsChecked (F.knows funs.now) self.now at agents tx.now }
        ensures refused { TellsOrMemory commits.Memory (early_refusal (F.knows funs.now) self.now at agents tx.now)
            (commit_refusal M.means M.accepts (F.knows funs.now) self.now at agents most_added most_taken tx.now)
            result }
        ensures ready { IfOk result (CanInstall M.means M.accepts self.now at most_added most_taken stamp tx.now) }
    {
        let dones = tx.dones();
        let refs = place_all(alloc, funs, at, &self.refs, tx)?;
        let touched = self.check_rules(alloc, funs, dones, &refs)?;
        if at > LAST_POINT {
            return Err(CommitFault::PointLimit);
        }
        let (added, taken) = self.moves(dones, most_added, most_taken)?;
        let notices = notices(alloc, &self.guards, &self.refs, &refs, &touched)?;
        let entry = Entry::Trans(Transaction {
            stamp,
            read_point: tx.read_point(),
            dones: tx.shared_dones().share()?,
            sends: tx.shared_sends().share()?,
        });
        Ok(Prepared {
            refs: refs.done(),
            landed: Landed { entry, notices },
            added,
            taken,
        })
    }

    // Asks the rules of the refs that these operations change, of the values after them. It returns the refs whose watches are to be
    // told, with others that have none, or no ref where none of them has a rule or a watch.
    #[tactic(auto, using(crate::proofs::Unguarded::invalid_none, crate::proofs::Unguarded::notices_none))]
    fn check_rules<F: Functions<M>>(
        &self,
        alloc: Global,
        funs: &F,
        dones: &[Done],
        refs: &Draft<'_>,
    ) -> Result<Vec<u32>, CommitFault>
        requires known { lacking_rule (F.knows funs.now).preds self.now.guards dones.now ≡ None }
        requires made { (at : ℕ) → after_dones M.means dones.now at dones.now (Ok self.now.values)
            ≡ Ok refs.now.values }
        ensures told { IfOk result (λ rs. (before after : List Edn)
            → notices self.now.guards before after rs.items
            ≡ notices self.now.guards before after (touched_refs dones.now)) }
        ensures ok { OnOk result (
            first_invalid M.accepts self.now.guards refs.now.values (touched_refs dones.now) ≡ None) }
        ensures accepted { OnOk result (AreAccepted M.accepts self.now.guards refs.now.values) }
        ensures err { IfErr result (λ f. f ≢ commits.Memory
            → option_map commits.Invalid
            (first_invalid M.accepts self.now.guards refs.now.values (touched_refs dones.now)) ≡ Some f) }
    {
        if are_unguarded(&self.guards, dones) {
            return Ok(Vec::new(alloc));
        }
        let touched = touched_refs(alloc, dones)?;
        match first_invalid(funs, &self.guards, refs, &touched) {
            None => Ok(touched),
            Some(r) => Err(CommitFault::Invalid(r)),
        }
    }

    // How much these operations add to the tally and take from it, where the books can take that.
    fn moves(
        &self,
        dones: &[Done],
        most_added: u64,
        most_taken: u64,
    ) -> Result<(u64, u64), CommitFault>
        ensures refused { Tells (full_book most_added most_taken self.now.tally dones.now) result }
        ensures added { IfOk result (λ m. m.0 ≡ moved_by_dones Added self.now.tally dones.now) }
        ensures taken { IfOk result (λ m. m.1 ≡ moved_by_dones Taken self.now.tally dones.now) }
        ensures books { IfOk result (λ m. (m.0 ≤ most_added) × (m.1 ≤ most_taken)) }
        ensures told { IfErr result (λ f. f ≢ commits.Memory) }
    {
        let added = moved_within(Side::Added, self.tally, dones, most_added);
        let taken = moved_within(Side::Taken, self.tally, dones, most_taken);
        match (added, taken) {
            (Some(added), Some(taken)) => Ok((added, taken)),
            _ => Err(CommitFault::BookFull),
        }
    }

    // Asks all that can be asked before memory is taken.
    fn check<F: Functions<M>, S: Comparable>(
        &self,
        funs: &F,
        at: u64,
        agents: usize,
        tx: &Tx<M, S>,
    ) -> Result<(), CommitFault>
        ensures refused { Tells (early_refusal (F.knows funs.now) self.now at agents tx.now) result }
        ensures checked { OnOk result (IsChecked (F.knows funs.now) self.now at agents tx.now) }
        ensures told { IfErr result (λ f. f ≢ commits.Memory) }
    {
        self.check_foreign(at, agents, tx)?;
        check_served(funs, tx.dones())?;
        check_rules_known(funs, &self.guards, tx.dones())?;
        if !is_any_other(&self.refs, tx) {
            return Ok(());
        }
        self.check_conflict(tx)?;
        self.check_values(tx)
    }

    // As `check`, where the values of refs that haven't changed are known to be those of the beginning.
    fn check_own<F: Functions<M>, S: Beginning>(
        &self,
        funs: &F,
        at: u64,
        agents: usize,
        tx: &Tx<M, S>,
    ) -> Result<(), CommitFault>
        requires { IsOwn self.now tx.now }
        ensures refused { Tells (early_refusal (F.knows funs.now) self.now at agents tx.now) result }
        ensures checked { OnOk result (IsChecked (F.knows funs.now) self.now at agents tx.now) }
        ensures told { IfErr result (λ f. f ≢ commits.Memory) }
    {
        let dones = tx.dones();
        self.check_foreign(at, agents, tx)?;
        check_served(funs, dones)?;
        check_rules_known(funs, &self.guards, dones)?;
        self.check_conflict(tx)
    }

    // What of a transaction is foreign, but for its values.
    fn check_foreign<S: Beginning>(
        &self,
        at: u64,
        agents: usize,
        tx: &Tx<M, S>,
    ) -> Result<(), CommitFault>
        ensures refused { Tells (alien self.now at agents tx.now) result }
        ensures here { OnOk result (alien_ref self.now.values tx.now.dones ≡ None) }
        ensures fits { OnOk result (fit_tally self.now.tally tx.now.dones ≡ true) }
        ensures told { IfErr result (λ f. f ≢ commits.Memory) }
    {
        check_refs(&self.refs, tx.dones())?;
        check_agents(agents, tx.sends())?;
        if !fits_tally(self.tally, tx.dones()) {
            return Err(CommitFault::Foreign(Alien::Tally));
        }
        let read_point = tx.read_point();
        if read_point >= at {
            return Err(CommitFault::Foreign(Alien::Point(read_point)));
        }
        Ok(())
    }

    fn check_conflict<S: Beginning>(&self, tx: &Tx<M, S>) -> Result<(), CommitFault>
        requires { alien_ref self.now.values tx.now.dones ≡ None }
        ensures refused { Tells (conflict self.now tx.now) result }
        ensures told { IfErr result (λ f. f ≢ commits.Memory) }
    {
        let read_point = tx.read_point();
        match first_changed(&self.refs, tx) {
            None => Ok(()),
            Some(r) => Err(CommitFault::Conflict(Conflict {
                r,
                read_point,
                changed_at: self.changed_at(r),
            })),
        }
    }

    fn check_values<S: Comparable>(&self, tx: &Tx<M, S>) -> Result<(), CommitFault>
        requires { alien_ref self.now.values tx.now.dones ≡ None }
        ensures refused { Tells (alien_value self.now.values tx.now) result }
        ensures told { IfErr result (λ f. f ≢ commits.Memory) }
    {
        match first_differing(&self.refs, tx) {
            None => Ok(()),
            Some(r) => Err(CommitFault::Foreign(Alien::Value(r))),
        }
    }
}
