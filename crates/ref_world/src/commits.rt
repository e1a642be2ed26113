//! Transactions: where they begin, and the world's only commit.
ghost use Rattle.ref_log.specs.Told.{TellsBack, TellsOrMemory};
ghost use Rattle.std.specs.Prelude.{◌≡◌, ◌+◌, ◌++◌, ◌∷◌, ℕ, [], true, Ok, IfOk, IfErr, OnErr, OnOk, length, slice_get};
ghost use Rattle.ref_log.specs.Replay.{is_protected, step};
ghost use Rattle.ref_refs.specs.Commit.{changed_by, entry_of};
ghost use Rattle.ref_refs.specs.Conflicts.{ConflictFits};
ghost use Rattle.ref_refs.specs.Ready.{IsOwn};
ghost use Rattle.ref_refs.specs.Seen.{changed_at};
ghost use Rattle.ref_refs.specs.Watches.{notices, touched_refs};
ghost use Rattle.ref_refs.specs.declared.faults.CommitFault.TheVariants as commits;
ghost use Rattle.ref_tx.specs.Inner.{inner_value};
ghost use Rattle.ref_agents.specs.Agents as queues;
ghost use Rattle.ref_world.specs.World.{IsReady, commit_refusal, early_refusal, point_of, values_now, with_commit};

use crate::counts::room;
use crate::worlds::World;
use ref_agents::AgentStore;
use ref_fun::{Functions, Meaning};
use ref_log::{Entry, Notice, Sent, Shareable as _, Stamp};
use ref_pvec::PVec;
use ref_refs::{CommitFault, Landed, Prepared};
use ref_tx::{Beginning, Comparable, Tx};
use std::alloc::{AllocError, Global};

/// What a commit returns: its point, its stamp, and the notices for the watches.
#[derive(Drop)]
pub struct Receipt {
    pub point: u64,
    pub stamp: Stamp,
    pub notices: Vec<Notice>,
}

impl<M: Meaning> World<M> {
    /// Begins a transaction over the values as they are now. It takes no memory, and as long whatever the number of refs; but where memory
    /// was refused to put changes of earlier commits into their places, it takes as much as that takes.
    pub fn begin(&self, alloc: Global) -> Result<Tx<M>, AllocError>
        ensures { IfOk result (λ tx. tx
            ≡ record {
              read_point = point_of self.now;
              began = self.now.refs.values;
              dones = [];
              sends = [];
              tally = self.now.refs.tally;
              agents = length self.now.agents.agents;
            }) }
    {
        self.refs.begin(alloc, self.point(), self.agents.len())
    }

    /// Commits a transaction at the next point, as one entry more of the log. What was commuted is made on the latest value;
    /// where a ref was set, altered or ensured too, it gets its in-transaction value. The stamp goes into the entry. What the
    /// transaction sends waits at the ends of its agents' queues, in order, and is held until [`World::release`] is called with
    /// the commit's point; a failed agent takes it too.
    ///
    /// A refused commit changes nothing and returns the transaction. The tests are made in this order: what is foreign,
    /// functions and predicates that the table lacks, the conflict, a foreign value, a refusal over the latest values, a rule
    /// that doesn't accept, the end of points, a full book. All growths come before the first change, but for the sends, which are taken back
    /// where there is no memory for all of them. The cost is that of the store's commit, logarithmic in the number of refs for
    /// each operation; that of one entry more, as [`PVec::push`] or, where it sends, [`PVec::pushed`] has it; and a step for each
    /// send, logarithmic in the number of agents with actions that wait.
    ///
    /// [`Booked::commit_with`](crate::Booked::commit_with) counts the commit in a share, too.
    pub fn commit<F: Functions<M>, S: Comparable>(
        &mut self,
        alloc: Global,
        funs: &F,
        stamp: Stamp,
        tx: Tx<M, S>,
    ) -> Result<Receipt, (Tx<M, S>, CommitFault)>
        ensures refused { TellsBack commits.Memory (early_refusal (F.knows funs.now) self.old tx)
            (commit_refusal M.means M.accepts (F.knows funs.now) self.old tx) result }
        // The base stays, the log has one entry more, no atom is changed, and the sends stand in their queues.
        ensures entry { OnOk result (self.new ≡ with_commit self.old (entry_of stamp tx) self.new.refs tx.sends) }
        ensures values { OnOk result (step M.means (point_of self.old + 1) (entry_of stamp tx)
            (values_now self.old.refs self.old.atoms) ≡ Ok (values_now self.new.refs self.new.atoms)) }
        ensures inner { OnOk result ((r : ℕ) → is_protected tx.dones r ≡ true
            → slice_get self.new.refs.values r ≡ inner_value M.means tx r) }
        ensures lasts { OnOk result ((r : ℕ)
            → changed_at self.new.refs.lasts r ≡ changed_by self.old.refs.lasts (point_of self.old + 1) tx.dones r) }
        ensures rest { OnOk result ((self.new.refs.tally ≡ self.old.refs.tally)
            × (self.new.refs.guards ≡ self.old.refs.guards)) }
        ensures receipt { IfOk result (λ receipt. (receipt.point ≡ point_of self.old + 1) × (receipt.stamp ≡ stamp)) }
        ensures notices { IfOk result (λ receipt. receipt.notices.items
            ≡ notices self.old.refs.guards self.old.refs.values self.new.refs.values (touched_refs tx.dones)) }
        // A conflict is returned with a ref that the transaction protects, its read point and the later point of its last change.
        ensures conflict { IfErr result (λ e. ConflictFits tx (changed_at self.old.refs.lasts) e.1) }
        ensures back { IfErr result (λ e. e.0 ≡ tx) }
        ensures err { OnErr result (self.new ≡ self.old) }
    {
        let prepared = match self.prepare(alloc, funs, stamp, &tx) {
            Ok(prepared) => prepared,
            Err(fault) => return Err((tx, fault)),
        };
        match self.install(alloc, stamp, prepared, tx) {
            Ok(receipt) => Ok(receipt),
            Err(tx) => Err((tx, CommitFault::Memory)),
        }
    }

    // All tests of a commit, and its first growths. It changes nothing.
    pub(crate) fn prepare<F: Functions<M>, S: Comparable>(
        &self,
        alloc: Global,
        funs: &F,
        stamp: Stamp,
        tx: &Tx<M, S>,
    ) -> Result<Prepared, CommitFault>
        ensures refused { TellsOrMemory commits.Memory (early_refusal (F.knows funs.now) self.now tx.now)
            (commit_refusal M.means M.accepts (F.knows funs.now) self.now tx.now) result }
        ensures ready { IfOk result (IsReady M.means M.accepts self.now stamp tx.now) }
        ensures conflict { IfErr result (ConflictFits tx.now (changed_at self.now.refs.lasts)) }
    {
        let at = self.point() + 1;
        let agents = self.agents.len();
        let most_added = room(self.added());
        let most_taken = room(self.taken());
        self.refs
            .prepare(alloc, funs, at, agents, most_added, most_taken, stamp, tx)
    }

    // As `prepare`, of a transaction that was begun on this world: no value is compared.
    pub(crate) fn prepare_own<F: Functions<M>, S: Beginning>(
        &self,
        alloc: Global,
        funs: &F,
        stamp: Stamp,
        tx: &Tx<M, S>,
    ) -> Result<Prepared, CommitFault>
        requires { IsOwn self.now.refs tx.now }
        ensures refused { TellsOrMemory commits.Memory (early_refusal (F.knows funs.now) self.now tx.now)
            (commit_refusal M.means M.accepts (F.knows funs.now) self.now tx.now) result }
        ensures ready { IfOk result (IsReady M.means M.accepts self.now stamp tx.now) }
        ensures conflict { IfErr result (ConflictFits tx.now (changed_at self.now.refs.lasts)) }
    {
        let next = self.point() + 1;
        let count = self.agents.len();
        let (added, taken) = (self.added(), self.taken());
        self.refs.prepare_own(
            alloc,
            funs,
            next,
            count,
            room(added),
            room(taken),
            stamp,
            tx,
        )
    }

    // Makes a commit that was prepared. Where there is no memory for its entry and its sends it changes nothing.
    pub(crate) fn install<S: Beginning>(
        &mut self,
        alloc: Global,
        stamp: Stamp,
        prepared: Prepared,
        tx: Tx<M, S>,
    ) -> Result<Receipt, Tx<M, S>>
        requires { IsReady M.means M.accepts self.old stamp tx prepared }
        ensures entry { OnOk result (self.new ≡ with_commit self.old (entry_of stamp tx) self.new.refs tx.sends) }
        ensures values { OnOk result (step M.means (point_of self.old + 1) (entry_of stamp tx)
            (values_now self.old.refs self.old.atoms) ≡ Ok (values_now self.new.refs self.new.atoms)) }
        ensures inner { OnOk result ((r : ℕ) → is_protected tx.dones r ≡ true
            → slice_get self.new.refs.values r ≡ inner_value M.means tx r) }
        ensures lasts { OnOk result ((r : ℕ)
            → changed_at self.new.refs.lasts r ≡ changed_by self.old.refs.lasts (point_of self.old + 1) tx.dones r) }
        ensures rest { OnOk result ((self.new.refs.tally ≡ self.old.refs.tally)
            × (self.new.refs.guards ≡ self.old.refs.guards)) }
        ensures receipt { IfOk result (λ receipt. (receipt.point ≡ point_of self.old + 1) × (receipt.stamp ≡ stamp)) }
        ensures notices { IfOk result (λ receipt. receipt.notices.items
            ≡ notices self.old.refs.guards self.old.refs.values self.new.refs.values (touched_refs tx.dones)) }
        ensures back { IfErr result (λ same. same ≡ tx) }
        ensures err { OnErr result (self.new ≡ self.old) }
    {
        let at = self.point() + 1;
        let Prepared {
            refs,
            landed,
            added,
            taken,
        } = prepared;
        let Landed { entry, notices } = landed;
        let Ok(dones) = tx.shared_dones().share() else {
            return Err(tx);
        };
        let sends = tx.sends();
        let written = write(alloc, &mut self.log, &mut self.agents, at, entry, sends);
        if written.is_err() {
            return Err(tx);
        }
        // From here on nothing can fail. The transaction is dropped first: where no other one reads the refs as they were, they are changed
        // in place.
        drop(tx);
        self.refs.install(alloc, at, refs, dones.as_slice());
        self.books.book(added, taken);
        Ok(Receipt {
            point: at,
            stamp,
            notices,
        })
    }
}

// Puts an entry behind the others, and what it sends at the ends of the queues, or leaves both. Where it sends nothing the entry
// is put in place; else it is put into a version of its own, which is dropped where there is no memory for the sends.
fn write<M: Meaning>(
    alloc: Global,
    log: &mut PVec<Entry>,
    agents: &mut AgentStore<M>,
    at: u64,
    entry: Entry,
    sends: &[Sent],
) -> Result<(), AllocError>
    ensures entry { OnOk result (log.new ≡ log.old ++ entry ∷ []) }
    ensures sends { OnOk result (agents.new ≡ queues.with_commit agents.old at sends.now) }
    ensures err { OnErr result ((log.new ≡ log.old) × (agents.new ≡ agents.old)) }
{
    if sends.is_empty() {
        log.push(alloc, entry)?;
        match agents.send_held(at, sends) {
            Ok(()) => Ok(()),
            Err(_) => unreachable!(),
        }
    } else {
        let longer = log.pushed(alloc, entry)?;
        agents.send_held(at, sends)?;
        *log = longer;
        Ok(())
    }
}
