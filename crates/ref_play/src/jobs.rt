//! The jobs that actors have.
ghost use Rattle.std.specs.Prelude.{◌≡◌, ◌≢◌, ℕ, false, None, Some, IsSome, OnOk, option_copied};
ghost use Rattle.ref_play.specs.Present.{put};
ghost use Rattle.ref_play.specs.Runs.{AreHeld, is_out_at};
ghost use Rattle.ref_play.specs.Sims.{all_back, jobs_of, slot_of};
ghost use Rattle.ref_world.specs.World.{with_agents};

use ref_agents::{Job, Ran};
use ref_fun::Meaning;
use ref_world::World;
use std::alloc::{AllocError, Global};
use std::collections::BTreeMap;
use std::marker::Model;

// A job that hasn't run, or one that has.
pub(crate) enum Stage<M: Meaning> {
    Taken(Job),
    Ran(Ran<M>),
}

// A job that an actor has. Like a job it has to be spent.
pub(crate) struct Held<M: Meaning> {
    pub(crate) stage: Stage<M>,
}

impl<M: Meaning> Model for Held<M> {
    ghost use Rattle.std.specs.Coded.{codes};
    ghost use Rattle.ref_value.specs.Code.{edn_code};
    ghost use Rattle.ref_play.specs.Present.{HeldSeen};
    ghost use Rattle.ref_play.specs.Sims.{held_seen};

    ghost Value = { HeldSeen };

    ghost coded = { Prim.hlevel (codes, edn_code) };

    ghost view = { λ a. held_seen a.stage };
}

impl<M: Meaning> Held<M> {
    // The job as it was taken.
    pub(crate) fn into_job(self) -> Job
        ensures { result ≡ self.job }
    {
        let Held { stage } = self;
        match stage {
            Stage::Taken(job) => job,
            Stage::Ran(ran) => ran.into_job(),
        }
    }
}

// Of each actor that ever took a job the one that it has, if any: so a job can be put back without memory.
pub(crate) struct Jobs<M: Meaning> {
    slots: BTreeMap<u32, Option<Held<M>>>,
}

impl<M: Meaning> Model for Jobs<M> {
    ghost use Rattle.std.specs.Coded.{codes};
    ghost use Rattle.ref_value.specs.Code.{edn_code};
    ghost use Rattle.ref_play.specs.Sims.{JobSlots};

    ghost Value = { JobSlots };

    ghost coded = { Prim.hlevel (codes, edn_code) };

    ghost view = { λ a. a.slots.entries };
}

impl<M: Meaning> Jobs<M> {
    pub(crate) fn none(alloc: Global) -> Jobs<M>
        ensures { (a : _) → jobs_of result a ≡ None }
    {
        Jobs {
            slots: BTreeMap::new(alloc),
        }
    }

    // The job that an actor has.
    pub(crate) fn held(&self, a: u32) -> Option<&Held<M>>
        ensures { option_copied result ≡ jobs_of self.now a }
    {
        match self.slots.get(&a) {
            Some(Some(held)) => Some(held),
            _ => None,
        }
    }

    // Makes room for the job of an actor that has none.
    pub(crate) fn reserve(&mut self, a: u32) -> Result<(), AllocError>
        requires { jobs_of self.old a ≡ None }
        ensures same { jobs_of self.new ≡ jobs_of self.old }
        ensures slot { OnOk result (slot_of self.new a ≢ None) }
    {
        match self.slots.insert(a, None) {
            Ok(None) => Ok(()),
            Ok(Some(None)) => Ok(()),
            Ok(Some(Some(_held))) => unreachable!(),
            Err(back) => {
                let (_a, none) = back.value;
                match none {
                    None => Err(AllocError),
                    Some(_held) => unreachable!(),
                }
            }
        }
    }

    // Takes the job that an actor has out, if it has one.
    pub(crate) fn take(&mut self, a: u32) -> Option<Held<M>>
        ensures was { result ≡ jobs_of self.old a }
        ensures takes { IsSome result → jobs_of self.new ≡ put (jobs_of self.old) a None }
        ensures slot { IsSome result → slot_of self.new a ≢ None }
        ensures none { result ≡ None → jobs_of self.new ≡ jobs_of self.old }
    {
        let Some(slot) = self.slots.get_mut(&a) else {
            return None;
        };
        slot.take()
    }

    // Puts it back, or as it is now, without memory.
    pub(crate) fn put(&mut self, a: u32, held: Held<M>)
        requires slot { slot_of self.old a ≢ None }
        requires none { jobs_of self.old a ≡ None }
        ensures { jobs_of self.new ≡ put (jobs_of self.old) a (Some held) }
    {
        match self.slots.insert(a, Some(held)) {
            Ok(None) => {}
            Ok(Some(None)) => {}
            Ok(Some(Some(_other))) => unreachable!(),
            Err(_back) => unreachable!(),
        }
    }

    // Puts all jobs back.
    pub(crate) fn put_all_back(self, world: &mut World<M>)
        requires { AreHeld M.means world.old.agents.agents (jobs_of self) }
        ensures world { world.new ≡ with_agents world.old (all_back self world.old.agents) }
        ensures none { (g : ℕ) → is_out_at world.new.agents.agents g ≡ false }
    {
        let Jobs { mut slots } = self;
        while let Some((_a, slot)) = slots.pop_first() {
            match slot {
                None => {}
                Some(held) => {
                    let job = held.into_job();
                    match world.put_back(job) {
                        Ok(()) => {}
                        Err(_job) => unreachable!(),
                    }
                }
            }
        }
        slots.destroy_empty();
    }
}
