//! A world with its books and its history: what changes refs and atoms counts in a share.
ghost use Rattle.std.specs.Coded.{codes};
ghost use Rattle.ref_value.specs.Code.{edn_code};
ghost use Rattle.ref_log.specs.Told.{TellsBack, TellsOrMemory, TellsThenMemory};
ghost use Rattle.std.specs.Prelude.{◌≡◌, ◌≢◌, ◌+◌, ◌≤◌, ℕ, true, false, [], None, Some, Ok, IfOk, IfErr, OnErr, OnOk, length, slice_get};
ghost use Rattle.ref_log.specs.Fold.{IsFolded};
ghost use Rattle.ref_log.specs.Guards.{keys_at};
ghost use Rattle.ref_log.specs.Make as made;
ghost use Rattle.ref_log.specs.Replay.{is_protected, place, step};
ghost use Rattle.ref_log.specs.Tally.{moved_by_dones};
ghost use Rattle.ref_log.specs.Watches.{notices_of};
ghost use Rattle.ref_log.specs.declared.counting.Side.TheVariants.{Added, Taken};
ghost use Rattle.ref_log.specs.declared.entries.Entry.TheVariants as entries;
ghost use Rattle.ref_log.specs.declared.faults.MakeFault.TheVariants as makes;
ghost use Rattle.ref_log.specs.declared.notices.Who.TheVariants as who;
ghost use Rattle.ref_log.specs.declared.operations.Op.TheVariants.{Alter, Set};
ghost use Rattle.ref_atoms.specs.Atoms as atoms;
ghost use Rattle.ref_atoms.specs.Atoms.{with_value};
ghost use Rattle.ref_atoms.specs.Change as changes;
ghost use Rattle.ref_atoms.specs.Change.{change_refusal, compare_refusal, is_same_at};
ghost use Rattle.ref_atoms.specs.declared.faults.AtomFault.TheVariants as faults;
ghost use Rattle.ref_refs.specs.Commit.{changed_by, entry_of};
ghost use Rattle.ref_refs.specs.Conflicts.{ConflictFits};
ghost use Rattle.ref_refs.specs.Make as refs;
ghost use Rattle.ref_refs.specs.Seen.{changed_at};
ghost use Rattle.ref_refs.specs.Watches.{notices, touched_refs};
ghost use Rattle.ref_refs.specs.declared.faults.CommitFault.TheVariants as commits;
ghost use Rattle.ref_tx.specs.Inner.{inner_value};
ghost use Rattle.ref_world.specs.Shares as shares;
ghost use Rattle.ref_world.specs.Checkpoint.{checkpoint_refusal, folded_entries, with_checkpoint};
ghost use Rattle.ref_world.specs.History.{Begins, IsCut, IsLegal, changed_in, point_in, refs_in, state_in, upto, with_entry};
ghost use Rattle.ref_world.specs.Shares.{AreBlanks, all_parts, forgotten, knowing, whole, with_receipt};
ghost use Rattle.ref_world.specs.declared.faults.CheckpointFault.TheVariants as checkpoints;
ghost use Rattle.ref_world.specs.Starts as starts;
ghost use Rattle.ref_world.specs.Starts.{first_refusal, start_refusal};
ghost use Rattle.ref_world.specs.World as worlds;
ghost use Rattle.ref_world.specs.World.{CanEnter, IsReady, commit_refusal, early_refusal, point_of, values_now, with_commit, with_made_ref};

use crate::beginnings::{Known, Preparing};
use crate::commits::Receipt;
use crate::faults::CheckpointFault;
use crate::histories::{Front, History};
use crate::ledgers::Ledgers;
use crate::names::{Blanks, Books};
use crate::shares::Share;
use crate::worlds::{Totals, World};
use ref_agents::Start;
use ref_atoms::{AtomFault, Cas, Change, Swapped};
use ref_fun::{Args, Functions, Meaning, Rule};
use ref_log::{MakeFault, Op, Stamp, Who};
use ref_refs::{CommitFault, Prepared};
use ref_tx::{Beginning, Comparable, Tx};
use ref_value::Value;
use std::alloc::{AllocError, Global};
use std::snapshot::Snapshot;

/// A world whose commits are counted in shares, by books that L names: what stands in the books is what all of its shares have together,
/// and so are the world's own numbers. Its history has all that changed its refs and atoms since it was made: base and log are parts of it.
///
/// The calls here are those that count in a share, add an entry, move entries into the base, or begin a transaction. All others are calls of the
/// world, `booked.world.send(..)`. A program that changed the world's numbers past the books, or its log past the history, would have no proof.
#[derive(Drop)]
pub struct Booked<M: Meaning, L: Books> {
    pub world: World<M>,
    pub books: Ledgers<L>,
    pub history: History<L>,
    ghost cut: { IsCut M.means history world.base world.log } by { Prim.hlevel (codes, edn_code) },
    ghost commits: { world.books.commits ≡ books.commits },
    ghost added: { world.books.added ≡ books.added },
    ghost taken: { world.books.taken ≡ books.taken },
}

impl<M: Meaning, L: Books> Booked<M, L> {
    /// A world as [`World::new`] makes it, with its books, and its whole share. The blanks become the books, and are spent where the world
    /// is refused, too.
    pub fn new<F: Functions<M>>(
        alloc: Global,
        funs: &F,
        start: &Start,
        blanks: Blanks,
    ) -> Result<(Booked<M, L>, Share<L>), (Who, MakeFault)>
        requires { AreBlanks blanks L.commits L.added L.taken L.story }
        ensures ok { OnOk result (start_refusal M.accepts (F.knows funs.now).preds start.now ≡ None) }
        ensures refs { IfOk result (λ r. starts.declared_refs M.accepts (F.knows funs.now).preds start.now.refs.items
            ≡ Ok r.0.world.refs) }
        ensures atoms { IfOk result (λ r. starts.declared_atoms M.accepts (F.knows funs.now).preds start.now.atoms.items
            ≡ Ok r.0.world.atoms) }
        ensures agents { IfOk result (λ r. starts.declared_agents M.accepts
            (F.knows funs.now).preds start.now.agents.items ≡ Ok r.0.world.agents) }
        ensures base { IfOk result (λ r. r.0.world.base ≡ starts.base_of r.0.world.refs r.0.world.atoms) }
        ensures log { IfOk result (λ r. r.0.world.log ≡ []) }
        ensures books { IfOk result (λ r. r.0.world.books ≡ starts.books_of r.0.world.refs) }
        ensures history { IfOk result (λ r. r.0.history ≡ record { start = r.0.world.base; entries = [] }) }
        ensures share { IfOk result (λ r. r.1 ≡ whole r.0.history) }
        ensures fault { IfErr result (λ e. e.1 ≢ makes.Memory
            → start_refusal M.accepts (F.knows funs.now).preds start.now ≡ Some e) }
        ensures memory { IfErr result (λ e. e.1 ≡ makes.Memory
            → first_refusal M.accepts (F.knows funs.now).preds start.now ≡ None) }
    {
        match World::new(alloc, funs, start) {
            Ok(world) => {
                let (books, history, share) = Ledgers::<L>::open(alloc, blanks, world.base());
                Ok((
                    Booked {
                        world,
                        books,
                        history,
                    },
                    share,
                ))
            }
            Err(refused) => Err(refused),
        }
    }

    /// Begins a transaction as [`World::begin`] does. Its beginning is known by its place in the history, so its commit compares no value. The
    /// share then knows the history up to now.
    pub fn begin(
        &mut self,
        alloc: Global,
        share: &mut Share<L>,
    ) -> Result<Tx<M, Known<M, L>>, AllocError>
        ensures tx { IfOk result (λ tx. tx
            ≡ record {
              read_point = point_of self.old.world;
              began = self.old.world.refs.values;
              dones = [];
              sends = [];
              tally = self.old.world.refs.tally;
              agents = length self.old.world.agents.agents;
            }) }
        ensures began { IfOk result (λ tx. (tx.read_point ≡ point_in share.new.history)
            × (tx.began ≡ refs_in M.means share.new.history)) }
        ensures known { Begins share.old.history share.new.history }
        ensures legal { IsLegal M.means share.new.history }
        ensures share { share.new ≡ knowing share.old self.old.history }
        ensures same { (self.new.world ≡ self.old.world) × (self.new.history ≡ self.old.history) }
    {
        self.inform(share);
        let point = self.world.point();
        let snapshot = self.world.refs.snapshot(alloc)?;
        let front = self.history.front(point);
        let began = Known::of(snapshot, front);
        let agents = self.world.agent_count();
        Ok(Tx::start(alloc, point, began, self.world.refs.tally(), agents))
    }

    /// What is known of the history begins it. Each of its entries was a legal step, and base and log are parts of it. There is nothing to run.
    pub fn bounds(&mut self, front: &Front<L>)
        ensures known { Begins front.now self.old.history }
        ensures legal { IsLegal M.means self.old.history }
        ensures cut { IsCut M.means self.old.history self.old.world.base self.old.world.log }
        ensures values { state_in M.means self.old.history ≡ Ok (values_now self.old.world.refs self.old.world.atoms) }
        ensures lasts { (r : ℕ) → changed_in self.old.history r ≡ changed_at self.old.world.refs.lasts r }
        ensures same { (self.new.world ≡ self.old.world) × (self.new.history ≡ self.old.history)
            × (self.new.books ≡ self.old.books) }
    {
        self.world.holds();
        self.history.bounds(front);
    }

    /// The front then knows the history up to now: each of its entries was a legal step, and what was known before begins it.
    pub fn inform_front(&mut self, front: &mut Front<L>)
        ensures all { front.new ≡ self.old.history }
        ensures known { Begins front.old self.old.history }
        ensures legal { IsLegal M.means self.old.history }
        ensures point { point_in self.old.history ≡ point_of self.old.world }
        ensures values { state_in M.means self.old.history ≡ Ok (values_now self.old.world.refs self.old.world.atoms) }
        ensures lasts { (r : ℕ) → changed_in self.old.history r ≡ changed_at self.old.world.refs.lasts r }
        ensures same { (self.new.world ≡ self.old.world) × (self.new.history ≡ self.old.history) }
    {
        let point = self.world.point();
        self.bounds(front);
        *front = self.history.front(point);
    }

    /// The same of a share, by its front.
    pub fn inform(&mut self, share: &mut Share<L>)
        ensures share { share.new ≡ knowing share.old self.old.history }
        ensures known { Begins share.old.history self.old.history }
        ensures legal { IsLegal M.means self.old.history }
        ensures point { point_in self.old.history ≡ point_of self.old.world }
        ensures values { state_in M.means self.old.history ≡ Ok (values_now self.old.world.refs self.old.world.atoms) }
        ensures lasts { (r : ℕ) → changed_in self.old.history r ≡ changed_at self.old.world.refs.lasts r }
        ensures same { (self.new.world ≡ self.old.world) × (self.new.history ≡ self.old.history) }
    {
        self.inform_front(&mut share.front);
    }

    /// Commits a transaction as [`World::commit`] does. The share gets the commit, what it adds to the tally and takes from it, and its
    /// receipt, the point of its entry.
    ///
    /// A transaction that [`Booked::begin`] began is in conflict if a ref that it set, altered or ensured has changed after its read point, and
    /// else that ref has the value that it began with: so no value is compared. Of one that [`World::begin`] began, here or elsewhere, the
    /// values of these refs are compared with those of the beginning.
    ///
    /// A refused commit changes neither world nor share, and returns the transaction.
    pub fn commit_with<F: Functions<M>, S: Preparing<M, L>>(
        &mut self,
        alloc: Global,
        funs: &F,
        share: &mut Share<L>,
        stamp: Stamp,
        tx: Tx<M, S>,
    ) -> Result<Receipt, (Tx<M, S>, CommitFault)>
        ensures refused { TellsBack commits.Memory (early_refusal (F.knows funs.now) self.old.world tx)
            (commit_refusal M.means M.accepts (F.knows funs.now) self.old.world tx) result }
        // The base stays, the log has one entry more, no atom is changed, and the sends stand in their queues.
        ensures entry { OnOk result (self.new.world
            ≡ with_commit self.old.world (entry_of stamp tx) self.new.world.refs tx.sends) }
        ensures values { OnOk result (step M.means (point_of self.old.world + 1) (entry_of stamp tx)
            (values_now self.old.world.refs self.old.world.atoms) ≡ Ok (values_now self.new.world.refs self.new.world.atoms)) }
        ensures inner { OnOk result ((r : ℕ) → is_protected tx.dones r ≡ true
            → slice_get self.new.world.refs.values r ≡ inner_value M.means tx r) }
        ensures lasts { OnOk result ((r : ℕ)
            → changed_at self.new.world.refs.lasts r ≡ changed_by self.old.world.refs.lasts (point_of self.old.world + 1) tx.dones r) }
        ensures rest { OnOk result ((self.new.world.refs.tally ≡ self.old.world.refs.tally)
            × (self.new.world.refs.guards ≡ self.old.world.refs.guards)) }
        ensures receipt { IfOk result (λ receipt. (receipt.point ≡ point_of self.old.world + 1) × (receipt.stamp ≡ stamp)) }
        ensures notices { IfOk result (λ receipt. receipt.notices.items
            ≡ notices self.old.world.refs.guards self.old.world.refs.values self.new.world.refs.values (touched_refs tx.dones)) }
        ensures share { OnOk result (share.new
            ≡ knowing (shares.with_commit share.old (point_of self.old.world + 1)
            (moved_by_dones Added self.old.world.refs.tally tx.dones)
            (moved_by_dones Taken self.old.world.refs.tally tx.dones)) self.new.history) }
        // The history has the entry more, and what the share knew begins it.
        ensures history { OnOk result (self.new.history ≡ with_entry self.old.history (entry_of stamp tx)) }
        ensures known { OnOk result (Begins share.old.history self.old.history) }
        // What it protects hasn't changed since its read point, and it began with the values that these refs had there.
        ensures began { OnOk result ((r : ℕ) → is_protected tx.dones r ≡ true
            → slice_get tx.began r ≡ slice_get (refs_in M.means (upto self.old.history tx.read_point)) r) }
        ensures unchanged { OnOk result ((r : ℕ) → is_protected tx.dones r ≡ true
            → changed_in self.old.history r ≤ tx.read_point) }
        // A conflict is returned with a ref that the transaction protects, its read point and the later point of its last change.
        ensures conflict { IfErr result (λ e. ConflictFits tx (changed_at self.old.world.refs.lasts) e.1) }
        ensures back { IfErr result (λ e. e.0 ≡ tx) }
        ensures err { OnErr result ((self.new.world ≡ self.old.world) × (self.new.history ≡ self.old.history)) }
        ensures same { OnErr result (share.new ≡ share.old) }
    {
        let prepared = match S::prepare(self, alloc, funs, stamp, &tx) {
            Ok(prepared) => prepared,
            Err(fault) => return Err((tx, fault)),
        };
        if share.receipts.reserve(1).is_err() {
            return Err((tx, CommitFault::Memory));
        }
        let (added, taken) = (prepared.added, prepared.taken);
        let told = Snapshot::of(&prepared.landed.entry);
        match self.world.install(alloc, stamp, prepared, tx) {
            Ok(receipt) => {
                let point = receipt.point;
                self.history.bounds(&share.front);
                self.history.enter(&told);
                share.front = self.history.front(point);
                share.receipts.push_reserved(point);
                self.books.book(share, added, taken);
                Ok(receipt)
            }
            Err(tx) => Err((tx, CommitFault::Memory)),
        }
    }

    // All tests of a commit, and its first growths, for a transaction that began here, at this front. No value is compared.
    pub(crate) fn prepare_own<F: Functions<M>, S: Beginning>(
        &mut self,
        front: &Front<L>,
        alloc: Global,
        funs: &F,
        stamp: Stamp,
        tx: &Tx<M, S>,
    ) -> Result<Prepared, CommitFault>
        requires began { tx.now.began ≡ refs_in M.means front.now }
        requires point { tx.now.read_point ≡ point_in front.now }
        ensures refused { TellsOrMemory commits.Memory (early_refusal (F.knows funs.now) self.old.world tx.now)
            (commit_refusal M.means M.accepts (F.knows funs.now) self.old.world tx.now) result }
        ensures ready { IfOk result (IsReady M.means M.accepts self.old.world stamp tx.now) }
        ensures conflict { IfErr result (ConflictFits tx.now (changed_at self.old.world.refs.lasts)) }
        ensures unchanged { OnOk result ((r : ℕ) → is_protected tx.now.dones r ≡ true
            → changed_in self.old.history r ≤ tx.now.read_point) }
        ensures began { OnOk result ((r : ℕ) → is_protected tx.now.dones r ≡ true
            → slice_get tx.now.began r ≡ slice_get (refs_in M.means (upto self.old.history tx.now.read_point)) r) }
        ensures same { (self.new.world ≡ self.old.world) × (self.new.history ≡ self.old.history)
            × (self.new.books ≡ self.old.books) }
    {
        self.history.bounds(front);
        self.world.holds();
        let _ = self.world.ref_count();
        self.world.prepare_own(alloc, funs, stamp, tx)
    }

    // The same for a transaction that began anywhere: the values of what it protects are compared.
    pub(crate) fn prepare<F: Functions<M>, S: Comparable>(
        &mut self,
        alloc: Global,
        funs: &F,
        stamp: Stamp,
        tx: &Tx<M, S>,
    ) -> Result<Prepared, CommitFault>
        ensures refused { TellsOrMemory commits.Memory (early_refusal (F.knows funs.now) self.old.world tx.now)
            (commit_refusal M.means M.accepts (F.knows funs.now) self.old.world tx.now) result }
        ensures ready { IfOk result (IsReady M.means M.accepts self.old.world stamp tx.now) }
        ensures conflict { IfErr result (ConflictFits tx.now (changed_at self.old.world.refs.lasts)) }
        ensures unchanged { OnOk result ((r : ℕ) → is_protected tx.now.dones r ≡ true
            → changed_in self.old.history r ≤ tx.now.read_point) }
        ensures began { OnOk result ((r : ℕ) → is_protected tx.now.dones r ≡ true
            → slice_get tx.now.began r ≡ slice_get (refs_in M.means (upto self.old.history tx.now.read_point)) r) }
        ensures same { (self.new.world ≡ self.old.world) × (self.new.history ≡ self.old.history)
            × (self.new.books ≡ self.old.books) }
    {
        self.world.holds();
        let _ = self.world.ref_count();
        self.world.prepare(alloc, funs, stamp, tx)
    }

    /// Makes a ref as [`World::make_ref`] does. A refused call changes nothing.
    pub fn make_ref<F: Functions<M>>(
        &mut self,
        alloc: Global,
        funs: &F,
        value: Value,
        rule: Option<Rule>,
        tally: bool,
    ) -> Result<u32, MakeFault>
        ensures refused { TellsThenMemory makes.Memory
            (refs.make_refusal M.accepts (F.knows funs.now).preds self.old.world.refs
            (point_of self.old.world + 1) value rule tally) result }
        ensures number { IfOk result (λ r. r ≡ length self.old.world.refs.values) }
        ensures adds { OnOk result (self.new.world ≡ with_made_ref self.old.world value tally
            (refs.with_ref self.old.world.refs (point_of self.old.world + 1) value rule tally)) }
        ensures history { OnOk result (self.new.history ≡ with_entry self.old.history (entries.MadeRef value)) }
        ensures err { OnErr result ((self.new.world ≡ self.old.world) × (self.new.history ≡ self.old.history)) }
    {
        let told = Snapshot::of(&value);
        let r = self.world.make_ref(alloc, funs, value, rule, tally)?;
        self.history.make_ref(&told);
        Ok(r)
    }

    /// Makes an atom as [`World::make_atom`] does. A refused call changes nothing.
    pub fn make_atom<F: Functions<M>>(
        &mut self,
        alloc: Global,
        funs: &F,
        value: Value,
        rule: Option<Rule>,
    ) -> Result<u32, MakeFault>
        ensures refused { TellsThenMemory makes.Memory
            (made.make_refusal M.accepts (F.knows funs.now).preds (length self.old.world.atoms.values) false
            (point_of self.old.world + 1) value rule) result }
        ensures number { IfOk result (λ a. a ≡ length self.old.world.atoms.values) }
        ensures entry { OnOk result (self.new.world
            ≡ worlds.with_entry self.old.world (entries.MadeAtom value) self.old.world.refs
            (atoms.with_atom self.old.world.atoms value rule)) }
        ensures history { OnOk result (self.new.history ≡ with_entry self.old.history (entries.MadeAtom value)) }
        ensures err { OnErr result ((self.new.world ≡ self.old.world) × (self.new.history ≡ self.old.history)) }
    {
        let told = Snapshot::of(&value);
        let a = self.world.make_atom(alloc, funs, value, rule)?;
        self.history.make_atom(&told);
        Ok(a)
    }

    /// Folds entries into the base as [`World::checkpoint`] does. The history stays as it is: base and log then are other parts of it.
    #[tactic(auto, using(crate::proofs::Cut::cut_folded))]
    pub fn checkpoint<F: Functions<M>>(
        &mut self,
        alloc: Global,
        funs: &F,
        point: u64,
    ) -> Result<u64, CheckpointFault>
        ensures refused { TellsThenMemory checkpoints.Memory
            (checkpoint_refusal M.means (F.knows funs.now).funs self.old.world point) result }
        ensures count { IfOk result (λ n. n + self.old.world.base.point ≡ point) }
        ensures folded { OnOk result (IsFolded M.means self.old.world.base (folded_entries self.old.world point)
            self.new.world.base) }
        ensures rest { OnOk result (self.new.world ≡ with_checkpoint self.old.world point self.new.world.base) }
        ensures history { self.new.history ≡ self.old.history }
        ensures err { OnErr result (self.new.world ≡ self.old.world) }
    {
        self.world.checkpoint(alloc, funs, point)
    }

    /// Changes an atom as [`World::swap`] does. The share gets the entry's receipt. A refused call changes nothing.
    pub fn swap<F: Functions<M>>(
        &mut self,
        alloc: Global,
        funs: &F,
        share: &mut Share<L>,
        a: u32,
        code: u32,
        args: Args,
    ) -> Result<Swapped, AtomFault>
        ensures refused { TellsOrMemory faults.Memory
            (changes.early_refusal M.accepts (F.knows funs.now) self.old.world.atoms (point_of self.old.world + 1) a (Alter code args))
            (change_refusal M.means M.accepts (F.knows funs.now) self.old.world.atoms (point_of self.old.world + 1) a
            (Alter code args)) result }
        ensures old { IfOk result (λ s. slice_get self.old.world.atoms.values a ≡ Some s.old) }
        ensures new { IfOk result (λ s. place M.means (Alter code args) s.old ≡ Ok s.new) }
        ensures entry { IfOk result (λ s. self.new.world
            ≡ worlds.with_entry self.old.world (entries.Atom a (Alter code args) s.new) self.old.world.refs
            (with_value self.old.world.atoms a s.new)) }
        ensures values { IfOk result (λ s. step M.means (point_of self.old.world + 1)
            (entries.Atom a (Alter code args) s.new) (values_now self.old.world.refs self.old.world.atoms)
            ≡ Ok (values_now self.new.world.refs self.new.world.atoms)) }
        ensures notices { IfOk result (λ s. s.notices.items
            ≡ notices_of (who.Atom a) (keys_at self.old.world.atoms.guards a) s.old s.new) }
        ensures share { IfOk result (λ s. share.new
            ≡ knowing (with_receipt share.old (point_of self.old.world + 1)) self.new.history) }
        ensures history { IfOk result (λ s. self.new.history ≡ with_entry self.old.history (entries.Atom a (Alter code args) s.new)) }
        ensures known { OnOk result (Begins share.old.history self.old.history) }
        ensures err { OnErr result ((self.new.world ≡ self.old.world) × (self.new.history ≡ self.old.history)) }
        ensures same { OnErr result (share.new ≡ share.old) }
    {
        let at = self.world.point() + 1;
        let change = self
            .world
            .atoms
            .prepare(alloc, funs, at, a, Op::Alter(code, args))?;
        Ok(self.enter(alloc, share, a, change)?)
    }

    /// Sets an atom as [`World::reset`] does. The share gets the entry's receipt. A refused call changes nothing.
    pub fn reset<F: Functions<M>>(
        &mut self,
        alloc: Global,
        funs: &F,
        share: &mut Share<L>,
        a: u32,
        value: Value,
    ) -> Result<Swapped, AtomFault>
        ensures refused { TellsThenMemory faults.Memory
            (change_refusal M.means M.accepts (F.knows funs.now) self.old.world.atoms (point_of self.old.world + 1) a
            (Set value)) result }
        ensures old { IfOk result (λ s. slice_get self.old.world.atoms.values a ≡ Some s.old) }
        ensures new { IfOk result (λ s. s.new ≡ value) }
        ensures entry { OnOk result (self.new.world
            ≡ worlds.with_entry self.old.world (entries.Atom a (Set value) value) self.old.world.refs
            (with_value self.old.world.atoms a value)) }
        ensures values { OnOk result (step M.means (point_of self.old.world + 1) (entries.Atom a (Set value) value)
            (values_now self.old.world.refs self.old.world.atoms) ≡ Ok (values_now self.new.world.refs self.new.world.atoms)) }
        ensures notices { IfOk result (λ s. s.notices.items
            ≡ notices_of (who.Atom a) (keys_at self.old.world.atoms.guards a) s.old value) }
        ensures share { OnOk result (share.new
            ≡ knowing (with_receipt share.old (point_of self.old.world + 1)) self.new.history) }
        ensures history { OnOk result (self.new.history ≡ with_entry self.old.history (entries.Atom a (Set value) value)) }
        ensures known { OnOk result (Begins share.old.history self.old.history) }
        ensures err { OnErr result ((self.new.world ≡ self.old.world) × (self.new.history ≡ self.old.history)) }
        ensures same { OnErr result (share.new ≡ share.old) }
    {
        let at = self.world.point() + 1;
        let change = self
            .world
            .atoms
            .prepare(alloc, funs, at, a, Op::Set(value))?;
        Ok(self.enter(alloc, share, a, change)?)
    }

    /// Sets an atom as [`World::compare_and_set`] does. Where it did the share gets the entry's receipt; where it answers false, and where
    /// it is refused, nothing is changed.
    pub fn compare_and_set<F: Functions<M>>(
        &mut self,
        alloc: Global,
        funs: &F,
        share: &mut Share<L>,
        a: u32,
        old: &Value,
        new: Value,
    ) -> Result<Cas, AtomFault>
        ensures refused { TellsThenMemory faults.Memory
            (compare_refusal M.accepts (F.knows funs.now).preds self.old.world.atoms
            (point_of self.old.world + 1) a old.now new) result }
        ensures done { IfOk result (λ c. c.done ≡ is_same_at self.old.world.atoms a old.now) }
        ensures entry { IfOk result (λ c. c.done ≡ true
            → self.new.world ≡ worlds.with_entry self.old.world (entries.Atom a (Set new) new) self.old.world.refs
            (with_value self.old.world.atoms a new)) }
        ensures values { IfOk result (λ c. c.done ≡ true
            → step M.means (point_of self.old.world + 1) (entries.Atom a (Set new) new)
            (values_now self.old.world.refs self.old.world.atoms) ≡ Ok (values_now self.new.world.refs self.new.world.atoms)) }
        ensures notices { IfOk result (λ c. c.done ≡ true
            → c.notices.items ≡ notices_of (who.Atom a) (keys_at self.old.world.atoms.guards a) old.now new) }
        ensures share { IfOk result (λ c. c.done ≡ true
            → share.new ≡ knowing (with_receipt share.old (point_of self.old.world + 1)) self.new.history) }
        ensures history { IfOk result (λ c. c.done ≡ true
            → self.new.history ≡ with_entry self.old.history (entries.Atom a (Set new) new)) }
        ensures known { IfOk result (λ c. c.done ≡ true → Begins share.old.history self.old.history) }
        ensures unset { IfOk result (λ c. c.done ≡ false
            → (self.new.world ≡ self.old.world) × (self.new.history ≡ self.old.history)) }
        ensures unshared { IfOk result (λ c. c.done ≡ false → share.new ≡ share.old) }
        ensures untold { IfOk result (λ c. c.done ≡ false → c.notices.items ≡ []) }
        ensures grows { IfErr result (λ f. f ≡ faults.Memory → is_same_at self.old.world.atoms a old.now ≡ true) }
        ensures err { OnErr result ((self.new.world ≡ self.old.world) × (self.new.history ≡ self.old.history)) }
        ensures same { OnErr result (share.new ≡ share.old) }
    {
        let at = self.world.point() + 1;
        let prepared = self
            .world
            .atoms
            .prepare_compare(alloc, funs, at, a, old, new)?;
        let Some(change) = prepared else {
            return Ok(Cas {
                done: false,
                notices: Vec::new(alloc),
            });
        };
        let swapped = self.enter(alloc, share, a, change)?;
        Ok(Cas {
            done: true,
            notices: swapped.notices,
        })
    }

    // Puts a change of an atom in its place, with its entry and its receipt, and answers what it answers. The growths come first.
    fn enter(
        &mut self,
        alloc: Global,
        share: &mut Share<L>,
        a: u32,
        change: Change,
    ) -> Result<Swapped, AllocError>
        requires { CanEnter M.means M.accepts self.old.world a change }
        ensures entry { OnOk result (self.new.world
            ≡ worlds.with_entry self.old.world change.entry self.old.world.refs (with_value self.old.world.atoms a change.value)) }
        ensures values { OnOk result (step M.means (point_of self.old.world + 1) change.entry
            (values_now self.old.world.refs self.old.world.atoms) ≡ Ok (values_now self.new.world.refs self.new.world.atoms)) }
        ensures swapped { IfOk result (λ s. s ≡ change.swapped) }
        ensures share { OnOk result (share.new
            ≡ knowing (with_receipt share.old (point_of self.old.world + 1)) self.new.history) }
        ensures history { OnOk result (self.new.history ≡ with_entry self.old.history change.entry) }
        ensures known { OnOk result (Begins share.old.history self.old.history) }
        ensures err { OnErr result ((self.new.world ≡ self.old.world) × (self.new.history ≡ self.old.history)) }
        ensures same { OnErr result (share.new ≡ share.old) }
    {
        let point = self.world.point() + 1;
        share.receipts.reserve(1)?;
        let told = Snapshot::of(&change.entry);
        let swapped = self.world.enter(alloc, a, change)?;
        self.history.bounds(&share.front);
        self.history.enter(&told);
        share.front = self.history.front(point);
        share.receipts.push_reserved(point);
        Ok(swapped)
    }

    /// Drops the receipts of a share whose entries are folded into the base. The others stay, and so do commits, additions, takings and
    /// parts. It takes no memory. Linear in the number of the share's receipts.
    pub fn forget(&self, share: &mut Share<L>)
        ensures { share.new ≡ forgotten share.old self.now.world.base.point }
    {
        share.forget(self.world.base().point);
    }

    /// What a share has of the books, where it is whole: all commits, and all that was added to the tally and taken from it. It
    /// changes nothing.
    pub fn totals(&mut self, share: &mut Share<L>) -> Totals
        ensures value { result ≡ record {
          commits = self.old.world.books.commits;
          added = self.old.world.books.added;
          taken = self.old.world.books.taken;
        } }
        ensures whole { share.old.parts ≡ all_parts
            → (result.commits ≡ share.old.commits) × (result.added ≡ share.old.added)
            × (result.taken ≡ share.old.taken) }
        ensures world { (self.new.world ≡ self.old.world) × (self.new.history ≡ self.old.history) }
        ensures share { share.new ≡ share.old }
    {
        self.books.audit(share);
        self.world.totals()
    }

    /// The world without its books.
    pub fn into_world(self) -> World<M>
        ensures { result ≡ self.world }
    {
        let Booked {
            world,
            books: _,
            history: _,
        } = self;
        world
    }
}
