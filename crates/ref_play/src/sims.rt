//! A world with the actors that act on it.
ghost use Rattle.std.specs.Prelude.{◌≡◌, ◌≢◌, ◌↔◌, ℕ, None, Some, Ok, [], true, false, length, IfOk, IfErr, OnOk, OnErr};
ghost use Rattle.ref_log.specs.declared.faults.MakeFault.TheVariants as makes;
ghost use Rattle.ref_play.specs.Machine.{Machine};
ghost use Rattle.ref_play.specs.Runs.{IsServed, is_out_at};
ghost use Rattle.ref_play.specs.Sims.{IsPlayed, Stands, all_back, jobs_of, machine_of, present, txs_of};
ghost use Rattle.ref_world.specs.Shares.{AreBlanks, all_parts, whole};
ghost use Rattle.ref_world.specs.Starts as starts;
ghost use Rattle.ref_world.specs.Starts.{first_refusal, start_refusal};
ghost use Rattle.ref_world.specs.World.{IsWorld, with_agents};

use crate::actors::Actors;
use crate::events::{Event, Reply};
use crate::jobs::Jobs;
use crate::serving::serve;
use ref_agents::Start;
use ref_fun::{Functions, Meaning};
use ref_log::{MakeFault, Who};
use ref_world::{Blanks, Booked, Books, Share, World};
use std::alloc::{AllocError, Global};
use std::marker::Model;

/// A world, its whole share, and of each actor at most one open transaction and one job. It has to be ended, since jobs have to be
/// spent.
pub struct Sim<M: Meaning, L: Books> {
    booked: Booked<M, L>,
    share: Share<L>,
    actors: Actors<M>,
    jobs: Jobs<M>,
}

impl<M: Meaning, L: Books> Model for Sim<M, L> {
    ghost use Rattle.std.specs.Coded.{codes};
    ghost use Rattle.ref_value.specs.Code.{edn_code};
    ghost use Rattle.ref_play.specs.Sims.{IsSim, SimSeen};

    ghost Value = { SimSeen };

    ghost coded = { Prim.hlevel (codes, edn_code) };

    ghost view = { λ a. record { world = a.booked.world; share = a.share; slots = a.actors; jobs = a.jobs } };

    ghost invariant = { λ a. IsSim M.means
        (record { world = a.booked.world; share = a.share; slots = a.actors; jobs = a.jobs }) };
}

impl<M: Meaning, L: Books> Sim<M, L> {
    /// A new world with these references, as [`Booked::new`] makes it; no actor has anything.
    pub fn new<F: Functions<M>>(
        alloc: Global,
        funs: &F,
        start: &Start,
        blanks: Blanks,
    ) -> Result<Sim<M, L>, (Who, MakeFault)>
        requires { AreBlanks blanks L.commits L.added L.taken L.story }
        ensures ok { OnOk result (start_refusal M.accepts (F.knows funs.now).preds start.now ≡ None) }
        ensures refs { IfOk result (λ s. starts.declared_refs M.accepts (F.knows funs.now).preds start.now.refs.items
            ≡ Ok s.world.refs) }
        ensures atoms { IfOk result (λ s. starts.declared_atoms M.accepts (F.knows funs.now).preds start.now.atoms.items
            ≡ Ok s.world.atoms) }
        ensures agents { IfOk result (λ s. starts.declared_agents M.accepts
            (F.knows funs.now).preds start.now.agents.items ≡ Ok s.world.agents) }
        ensures base { IfOk result (λ s. s.world.base ≡ starts.base_of s.world.refs s.world.atoms) }
        ensures log { IfOk result (λ s. s.world.log ≡ []) }
        ensures books { IfOk result (λ s. s.world.books ≡ starts.books_of s.world.refs) }
        ensures share { IfOk result (λ s. s.share ≡ whole s.share.history) }
        ensures actors { IfOk result (λ s. (a : ℕ) → (txs_of s.slots a ≡ None) × (jobs_of s.jobs a ≡ None)) }
        ensures fault { IfErr result (λ e. e.1 ≢ makes.Memory
            → start_refusal M.accepts (F.knows funs.now).preds start.now ≡ Some e) }
        ensures memory { IfErr result (λ e. e.1 ≡ makes.Memory
            → first_refusal M.accepts (F.knows funs.now).preds start.now ≡ None) }
    {
        let (booked, share) = Booked::new(alloc, funs, start, blanks)?;
        Ok(Sim {
            booked,
            share,
            actors: Actors::none(alloc),
            jobs: Jobs::none(alloc),
        })
    }

    /// Whether a table has the predicate of each rule and each function that an open transaction commutes by, which
    /// [`Sim::play`] asks for. Linear in the number of references and of operations that are open. It takes no memory.
    pub fn served_by<F: Functions<M>>(&self, funs: &F) -> bool
        ensures { result ≡ true ↔ IsServed (F.knows funs.now) (present self.now) }
    {
        self.booked.world.served_by(funs) && self.actors.are_served(funs)
    }

    /// The world that its actors act on.
    pub fn world(&self) -> &World<M>
        ensures world { result.now ≡ self.now.world }
        // There is a machine that has seen what the log holds: the one that begins with it.
        ensures stands { Stands M.means (machine_of self.now) self.now }
    {
        always_so(&self.booked.world);
        &self.booked.world
    }

    /// Plays events, one after the other, and returns the replies to the actors, one for each event.
    pub fn play<F: Functions<M>>(
        &mut self,
        alloc: Global,
        funs: &F,
        events: &[Event],
    ) -> Result<Vec<Reply>, AllocError>
        requires served { IsServed (F.knows funs.now) (present self.old) }
        ensures run { IfOk result (λ replies. (m : Machine) → Stands M.means m self.old
            → IsPlayed M.means M.accepts (F.knows funs.now) m events.now replies.items self.new) }
        ensures served { OnOk result (IsServed (F.knows funs.now) (present self.new)) }
        ensures err { OnErr result (self.new ≡ self.old) }
        ensures memory { OnErr result (events.now ≢ []) }
    {
        let mut replies = Vec::with_capacity(alloc, events.len())?;
        for event in events {
            always_so(&self.booked.world);
            let reply = serve(
                alloc,
                funs,
                &mut self.booked,
                &mut self.share,
                &mut self.actors,
                &mut self.jobs,
                event,
            );
            replies.push_reserved(reply);
        }
        Ok(replies)
    }

    /// Puts every job back, drops the open transactions, and returns the world with its books, and its whole share.
    pub fn end(self) -> (Booked<M, L>, Share<L>)
        ensures world { result.0.world ≡ with_agents self.world (all_back self.jobs self.world.agents) }
        ensures share { result.1 ≡ self.share }
        ensures whole { result.1.parts ≡ all_parts }
        // No job is out.
        ensures jobs { (g : ℕ) → is_out_at result.0.world.agents.agents g ≡ false }
    {
        let Sim {
            mut booked,
            share,
            actors: _actors,
            jobs,
        } = self;
        jobs.put_all_back(&mut booked.world);
        (booked, share)
    }
}

// What is always so of a world.
fn always_so<M: Meaning>(world: &World<M>)
    ensures world { IsWorld M.means world.now.base world.now.log world.now.refs world.now.atoms
        world.now.agents.unreleased }
    ensures count { length world.now.refs.lasts ≡ length world.now.refs.values }
{
    let _ = world.point();
    let _ = world.base().point;
    let _ = world.log().len();
    let _ = world.value_of(Who::Ref(0)).is_some();
    let _ = world.ref_count();
}
