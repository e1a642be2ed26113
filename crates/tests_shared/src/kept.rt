//! What a world has is there when it comes out of a shared one: its watches, what waits, what is held, and error modes.
use crate::jobs::two_agents;
use crate::same::same;
use crate::scenarios::{Inspection, Scenario, run_to_end};
use crate::worlds::{STAMP, Stop, action, done, value};
use ref_agents::{AgentError, ErrorMode, Finished, Job};
use ref_fun::codes::PLUS;
use ref_fun::{Cause, Core, CoreFunctions};
use ref_log::Who;
use ref_shared::Shared;
use ref_world::{Booked, Books, Share, Totals, World};
use std::alloc::{AllocError, Global};
use std::test::Fail;

// The agent whose job is taken, which stays out.
fn taken(world: &mut World<Core>) -> Result<Option<u32>, AllocError> {
    match world.take()? {
        Some(job) => {
            let agent = job.agent();
            job.forsake();
            Ok(Some(agent))
        }
        None => Ok(None),
    }
}

// How a job ends that is run.
fn ended(alloc: Global, world: &mut World<Core>, job: Job) -> Result<Finished, Stop> {
    let ran = match job.run(alloc, &CoreFunctions) {
        Ok(ran) => ran,
        Err((job, _fault)) => {
            job.forsake();
            return Err(Stop::Refused);
        }
    };
    match world.finish(alloc, &CoreFunctions, ran) {
        Ok(finished) => Ok(finished),
        Err((ran, _fault)) => {
            ran.into_job().forsake();
            Err(Stop::Refused)
        }
    }
}

// The agent whose job is taken and run, and the error with which it goes on.
fn continued(alloc: Global, world: &mut World<Core>) -> Result<Option<(u32, AgentError)>, Stop> {
    let Some(job) = world.take()? else {
        return Ok(None);
    };
    let agent = job.agent();
    match ended(alloc, world, job)? {
        Finished::Continued(error) => Ok(Some((agent, error))),
        _ => Ok(None),
    }
}

// Commits `send g + 1`, which is held, at point 1.
fn commit_send<L: Books>(
    alloc: Global,
    booked: &mut Booked<Core, L>,
    share: &mut Share<L>,
) -> Result<(), Stop> {
    let mut tx = booked.world.begin(alloc)?;
    done(tx.send(alloc, &CoreFunctions, 0, action(alloc, PLUS, "1")?))?;
    done(booked.commit_with(alloc, &CoreFunctions, share, STAMP, tx)).map(drop)
}

// What the world has: the error with which h goes on, whose jobs are taken before and after the release, whether it had sends, and
// whether the watch is there.
#[derive(Debug, Drop, PartialEq)]
struct Kept {
    first: Option<(u32, AgentError)>,
    others: [Option<u32>; 2],
    was_held: bool,
    was_watched: bool,
}

// A ref has a watch; h, which goes on after an error, an action that its function refuses; and an action of g that a commit sent is held.
// This world is shared, and comes out again.
#[derive(Drop)]
struct Keeping;

impl<R> Scenario<R> for Keeping {
    type Outcome = ();

    fn prepare<L: Books>(
        &self,
        alloc: Global,
        booked: &mut Booked<Core, L>,
        share: &mut Share<L>,
    ) -> Result<(), Stop> {
        let (key, action) = (value(alloc, ":w")?, action(alloc, PLUS, ":k")?);
        done(booked.world.add_watch(Who::Ref(0), key))?;
        done(booked.world.set_error_mode(1, ErrorMode::Continue))?;
        done(booked.world.send(1, action))?;
        commit_send(alloc, booked, share)
    }

    fn run<L: Books>(
        &self,
        _rt: &R,
        _alloc: Global,
        _shared: &Shared<Core, L>,
        _share: &mut Share<L>,
    ) -> Result<(), Stop> {
        Ok(())
    }
}

impl Inspection for Keeping {
    type Seen = Kept;

    fn inspect(
        &self,
        alloc: Global,
        world: &mut World<Core>,
        _totals: Totals,
    ) -> Result<Kept, Stop> {
        let key = value(alloc, ":w")?;
        let first = continued(alloc, world)?;
        let before = taken(world)?;
        let was_held = world.release(1);
        Ok(Kept {
            first,
            others: [before, taken(world)?],
            was_held,
            was_watched: world.remove_watch(Who::Ref(0), &key),
        })
    }
}

#[test]
fn a_shared_world_keeps_what_the_world_had(rt: HostRuntime) -> Result<(), Fail> {
    let alloc = rt.alloc();
    let (_, kept) = run_to_end(&rt, alloc, two_agents(alloc)?, &Keeping, &Keeping)?;
    let wanted = Kept {
        first: Some((1, AgentError::Refused(Cause::WrongKind))),
        others: [None, Some(0)],
        was_held: true,
        was_watched: true,
    };
    same(&rt, kept, wanted);
    Ok(())
}
