//! What actors do with jobs.
ghost use Rattle.std.specs.Prelude.{◌≡◌, []};
ghost use Rattle.ref_play.specs.Present.{Finishes, PutsBack, Runs, Takes};
ghost use Rattle.ref_play.specs.Runs.{AreHeld};
ghost use Rattle.ref_play.specs.Sims.{SimSeen, jobs_of, present};
ghost use Rattle.ref_world.specs.World.{with_agents};

use crate::events::Reply;
use crate::jobs::{Held, Jobs, Stage};
use ref_fun::{Functions, Meaning};
use ref_world::World;
use std::alloc::Global;

// Takes a job of any agent that is ready, where the actor has none.
pub(crate) fn take<M: Meaning>(world: &mut World<M>, jobs: &mut Jobs<M>, actor: u32) -> Reply
    ensures acts { (s : SimSeen) → Takes (present (record s { world = world.old; jobs = jobs.old })) actor result []
        (present (record s { world = world.new; jobs = jobs.new })) }
    ensures rest { world.new ≡ with_agents world.old world.new.agents }
{
    if let Some(_) = jobs.held(actor) {
        return Reply::Busy;
    }
    if let Err(fault) = jobs.reserve(actor) {
        return Reply::Take(Err(fault));
    }
    let job = match world.take() {
        Ok(Some(job)) => job,
        Ok(None) => return Reply::Take(Ok(None)),
        Err(fault) => return Reply::Take(Err(fault)),
    };
    let told = (job.agent(), job.number());
    jobs.put(
        actor,
        Held {
            stage: Stage::Taken(job),
        },
    );
    Reply::Take(Ok(Some(told)))
}

// Runs the job of an actor, once.
pub(crate) fn run<M: Meaning, F: Functions<M>>(
    alloc: Global,
    funs: &F,
    jobs: &mut Jobs<M>,
    actor: u32,
) -> Reply
    ensures { (s : SimSeen) → Runs M.means (F.knows funs.now) (present (record s { jobs = jobs.old })) actor result []
        (present (record s { jobs = jobs.new })) }
{
    let Some(held) = jobs.take(actor) else {
        return Reply::NoJob;
    };
    let Held { stage } = held;
    match stage {
        Stage::Ran(ran) => {
            jobs.put(
                actor,
                Held {
                    stage: Stage::Ran(ran),
                },
            );
            Reply::Busy
        }
        Stage::Taken(job) => match job.run(alloc, funs) {
            Ok(ran) => {
                jobs.put(
                    actor,
                    Held {
                        stage: Stage::Ran(ran),
                    },
                );
                Reply::Run(Ok(()))
            }
            Err((job, fault)) => {
                jobs.put(
                    actor,
                    Held {
                        stage: Stage::Taken(job),
                    },
                );
                Reply::Run(Err(fault))
            }
        },
    }
}

// Puts the job of an actor back, whether it has run or not.
pub(crate) fn put_back<M: Meaning>(world: &mut World<M>, jobs: &mut Jobs<M>, actor: u32) -> Reply
    requires { AreHeld M.means world.old.agents.agents (jobs_of jobs.old) }
    ensures acts { (s : SimSeen) → PutsBack (present (record s { world = world.old; jobs = jobs.old })) actor result []
        (present (record s { world = world.new; jobs = jobs.new })) }
    ensures rest { world.new ≡ with_agents world.old world.new.agents }
{
    let Some(held) = jobs.take(actor) else {
        return Reply::NoJob;
    };
    match world.put_back(held.into_job()) {
        Ok(()) => Reply::PutBack,
        Err(_job) => unreachable!(),
    }
}

// Ends the job of an actor, where it has run. A refused one stays with the actor.
pub(crate) fn finish<M: Meaning, F: Functions<M>>(
    alloc: Global,
    funs: &F,
    world: &mut World<M>,
    jobs: &mut Jobs<M>,
    actor: u32,
) -> Reply
    requires { AreHeld M.means world.old.agents.agents (jobs_of jobs.old) }
    ensures acts { (s : SimSeen) → Finishes M.accepts (F.knows funs.now)
        (present (record s { world = world.old; jobs = jobs.old })) actor result []
        (present (record s { world = world.new; jobs = jobs.new })) }
    ensures rest { world.new ≡ with_agents world.old world.new.agents }
{
    let Some(held) = jobs.take(actor) else {
        return Reply::NoJob;
    };
    let Held { stage } = held;
    match stage {
        Stage::Taken(job) => {
            jobs.put(
                actor,
                Held {
                    stage: Stage::Taken(job),
                },
            );
            Reply::Busy
        }
        Stage::Ran(ran) => match world.finish(alloc, funs, ran) {
            Ok(finished) => Reply::Finish(Ok(finished)),
            Err((ran, fault)) => {
                jobs.put(
                    actor,
                    Held {
                        stage: Stage::Ran(ran),
                    },
                );
                Reply::Finish(Err(fault))
            }
        },
    }
}
