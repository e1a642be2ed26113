//! The world and what can be asked of it.
ghost use Rattle.std.specs.Prelude.{◌≡◌, ◌≢◌, ◌≤◌, ◌+◌, [], true, length, None, Some, Ok, IfOk, IfErr, OnOk};
ghost use Rattle.std.specs.List.{list_all};
ghost use Rattle.ref_log.specs.Replay.{sets_atom};
ghost use Rattle.ref_log.specs.Tally.{IsMoved, commits_of, fits_entry, moved_of};
ghost use Rattle.ref_log.specs.declared.counting.Side.TheVariants.{Added, Taken};
ghost use Rattle.ref_log.specs.declared.faults.MakeFault.TheVariants as makes;
ghost use Rattle.ref_refs.specs.Seen.{are_unchanged_since};
ghost use Rattle.ref_world.specs.Starts as starts;
ghost use Rattle.ref_world.specs.Starts.{first_refusal, start_refusal};
ghost use Rattle.ref_world.specs.World.{HasLastChanges, IsReplayed, are_past, most_booked, point_of};
ghost use Rattle.ref_log.specs.Limits.{last_point};

use crate::counts::Counts;
use crate::declared::{base_of, declared_agents, declared_atoms, declared_refs, start_of};
use ref_agents::{AgentStore, Start};
use ref_atoms::AtomStore;
use ref_fun::{Functions, Meaning};
use ref_log::{Base, Entry, MakeFault, Who};
use ref_pvec::PVec;
use ref_refs::RefStore;
use std::alloc::Global;
use std::marker::Model;
use std::sync::Arc;

/// Refs and atoms with a base and a log, agents, and books. Contracts see plain data.
///
/// It is always so that the log has a replay on the base and gives the values of refs and atoms now, and that the point of each
/// ref's last change is that of the last entry which made or touched it; that each agent's state is its start folded over its
/// done actions, and an agent is failed exactly where its last handled action is marked failed; that each rule accepts; and
/// that no commit whose sends are held comes after the present point. The books have how many transactions were committed and how
/// much they added to the tally and took from it, as base and log say, and the tally holds its start plus what was added less what
/// was taken.
#[derive(Drop)]
pub struct World<M: Meaning> {
    // It may have several owners, and so may the log: views.
    pub(crate) base: Arc<Base>,
    pub(crate) log: PVec<Entry>,
    pub(crate) refs: RefStore<M>,
    pub(crate) atoms: AtomStore<M>,
    pub(crate) agents: AgentStore<M>,
    pub(crate) books: Counts,
}

impl<M: Meaning> Model for World<M> {
    ghost use Rattle.std.specs.Coded.{codes};
    ghost use Rattle.ref_value.specs.Code.{edn_code};
    ghost use Rattle.ref_world.specs.Seen.{WorldSeen};
    ghost use Rattle.ref_world.specs.World.{AreBooks, IsWorld};

    ghost Value = { WorldSeen };

    ghost coded = { Prim.hlevel (codes, edn_code) };

    ghost view = { λ a. record {
      base = a.base.value;
      log = a.log;
      refs = a.refs;
      atoms = a.atoms;
      agents = a.agents;
      books = a.books;
    } };

    ghost invariant = { λ a. IsWorld M.means a.base.value a.log a.refs a.atoms a.agents.unreleased
        × AreBooks a.base.value a.log a.refs.tally a.refs.values a.books };
}

impl<M: Meaning> World<M> {
    /// A world that begins with these references, refs made before atoms before agents, at point 0 and with no entry. Where one of the
    /// references can't be made which and why is returned; where memory is refused, which one says nothing.
    #[tactic(auto, using(crate::proofs::Starting::first_made))]
    pub fn new<F: Functions<M>>(
        alloc: Global,
        funs: &F,
        start: &Start,
    ) -> Result<World<M>, (Who, MakeFault)>
        ensures ok { OnOk result (start_refusal M.accepts (F.knows funs.now).preds start.now ≡ None) }
        ensures refs { IfOk result (λ w. starts.declared_refs M.accepts (F.knows funs.now).preds start.now.refs.items
            ≡ Ok w.refs) }
        ensures atoms { IfOk result (λ w. starts.declared_atoms M.accepts (F.knows funs.now).preds start.now.atoms.items
            ≡ Ok w.atoms) }
        ensures agents { IfOk result (λ w. starts.declared_agents M.accepts
            (F.knows funs.now).preds start.now.agents.items ≡ Ok w.agents) }
        ensures base { IfOk result (λ w. w.base ≡ starts.base_of w.refs w.atoms) }
        ensures log { IfOk result (λ w. w.log ≡ []) }
        ensures books { IfOk result (λ w. w.books ≡ starts.books_of w.refs) }
        ensures fault { IfErr result (λ e. e.1 ≢ makes.Memory
            → start_refusal M.accepts (F.knows funs.now).preds start.now ≡ Some e) }
        ensures memory { IfErr result (λ e. e.1 ≡ makes.Memory
            → first_refusal M.accepts (F.knows funs.now).preds start.now ≡ None) }
    {
        let refs = declared_refs(alloc, funs, &start.refs)?;
        let atoms = declared_atoms(alloc, funs, &start.atoms)?;
        let agents = declared_agents(alloc, funs, &start.agents)?;
        let Ok(base) = base_of(alloc, &refs, &atoms) else {
            return Err((Who::Ref(0), MakeFault::Memory));
        };
        let Ok(base) = Arc::new(alloc, base) else {
            return Err((Who::Ref(0), MakeFault::Memory));
        };
        let books = Counts::none(start_of(&refs));
        Ok(World {
            base,
            log: PVec::empty(),
            refs,
            atoms,
            agents,
            books,
        })
    }

    /// The present point: how many entries there ever were, at most 2^62.
    pub fn point(&self) -> u64
        ensures value { result ≡ point_of self.now }
        ensures limit { result ≤ last_point }
        // The point of each ref's last change is that of the last entry which made or touched it.
        ensures lasts { HasLastChanges self.now.base self.now.log self.now.refs }
        ensures tally { self.now.base.tally ≡ self.now.refs.tally }
        // No ref has changed after it, and no commit whose sends are held comes after it.
        ensures since { are_unchanged_since self.now.refs.lasts (point_of self.now) ≡ true }
        ensures held { are_past (point_of self.now) self.now.agents.unreleased ≡ true }
    {
        self.base.point + self.log.len() as u64
    }

    /// What always holds of a world: facts, with nothing to run.
    pub fn holds(&self)
        // Every ref and atom holds what the stored entries, replayed one by one on the stored base, give.
        ensures replayed { IsReplayed M.means self.now.base self.now.log self.now.refs self.now.atoms }
        // The point of each ref's last change is that of the last entry which made or touched it.
        ensures lasts { HasLastChanges self.now.base self.now.log self.now.refs }
    {
        let _ = &self.base;
    }

    /// What the log begins with.
    pub fn base(&self) -> &Base
        ensures base { result.now ≡ self.now.base }
        // It has the last change of each of its refs.
        ensures lasts { length self.now.base.last ≡ length self.now.base.refs }
    {
        &self.base
    }

    /// The entries after the base, the first of them at the point after its. [`World::view`] holds them as they are now.
    pub fn log(&self) -> &PVec<Entry>
        ensures log { result.now ≡ self.now.log }
        // An atom's entry is `reset!` or `swap!`.
        ensures sets { list_all sets_atom self.now.log ≡ true }
    {
        &self.log
    }

    /// How many transactions were committed.
    pub fn commits(&self) -> u64
        ensures value { result ≡ self.now.books.commits }
        // Those up to the base, and the transactions of the log.
        ensures books { result ≡ self.now.base.commits + commits_of self.now.log }
        ensures limit { result ≤ point_of self.now }
    {
        self.books.commits
    }

    /// How much was added to the tally since its start, at most 9223372036854775807; 0 where there is no tally.
    pub fn added(&self) -> u64
        ensures value { result ≡ self.now.books.added }
        // What was added up to the base, and the arguments of the commutes by `+` on the tally in the log.
        ensures books { result ≡ self.now.base.added + moved_of Added self.now.refs.tally self.now.log }
        ensures most { result ≤ most_booked }
        // No entry changes the tally in another way than by `+` and `-`, and it holds its start plus what was added less what was
        // taken.
        ensures lawful { list_all (fits_entry self.now.refs.tally) self.now.log ≡ true }
        ensures tally { IsMoved self.now.refs.tally self.now.refs.values self.now.books.start result self.now.books.taken }
    {
        self.books.added
    }

    /// How much was taken from the tally since its start, at most 9223372036854775807; 0 where there is no tally.
    pub fn taken(&self) -> u64
        ensures value { result ≡ self.now.books.taken }
        // What was taken up to the base, and the arguments of the commutes by `-` on the tally in the log.
        ensures books { result ≡ self.now.base.taken + moved_of Taken self.now.refs.tally self.now.log }
        ensures most { result ≤ most_booked }
    {
        self.books.taken
    }

    /// How many transactions were committed, and how much they added to the tally and took from it.
    pub fn totals(&self) -> Totals
        ensures { result ≡ record {
          commits = self.now.books.commits;
          added = self.now.books.added;
          taken = self.now.books.taken;
        } }
    {
        Totals {
            commits: self.books.commits,
            added: self.books.added,
            taken: self.books.taken,
        }
    }
}

/// How many transactions were committed, and how much they added to the tally and took from it.
#[derive(Clone, Copy, Debug, Drop, PartialEq, Eq)]
pub struct Totals {
    pub commits: u64,
    pub added: u64,
    pub taken: u64,
}
