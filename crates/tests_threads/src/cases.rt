//! Runs each case of these tests on a shared world of its own, which stands in one function alone: it is lent to what the case does, and what
//! is to be in the world is looked at in the end.
ghost use Rattle.ref_world.specs.Shares.{AreBlanks};

use crate::flags::Place;
use crate::same::same;
use crate::{
    chains, checkpoints, looks, next_actions, releases, side_by_side, stress, threads, waking,
};
use ref_fun::Core;
use ref_shared::Shared;
use ref_world::{Blanks, Books, Share, Start, Totals, World};
use std::alloc::{AllocError, Global};
use std::marker::Brand;
use std::process::Abort;
use std::sync::Wait;
use std::test::Fail;
use std::thread::Threads;
use std::time::Clock;
use tests_shared::jobs::two_agents;
use tests_shared::worlds::{Stop, closed, made, plain_start};

// What is done, in the modules of these names.
#[derive(Clone, Copy, Debug, Drop)]
pub(crate) enum Case {
    // threads
    Sum,
    Overtaking,
    Telling,
    // checkpoints
    Folding,
    // chains
    Chains,
    // stress, on so many refs
    Sums(u32),
    // looks: where one waits, what the other finds, and whether the transaction waits if it isn't ready
    Transaction(Place, i64, bool),
    Action(Place, i64),
    // next_actions: at the last whether g is waited for, and what it is in the end
    Carried,
    Watched,
    Passing(bool, i64),
    // releases
    Release,
    Transact,
    CarriedRelease,
    // side_by_side: by the code of the first action, and what the agent is in the end
    Meeting,
    Turns(u32, i64),
    Holding,
    // waking
    Waking,
    Restart,
    HandingOn,
    Close,
}

fn start(alloc: Global, case: Case) -> Result<Start, AllocError> {
    match case {
        Case::Sum | Case::Overtaking | Case::Telling | Case::Folding => {
            plain_start(alloc, "0", "")
        }
        Case::Chains => chains::start(alloc),
        Case::Sums(refs) => stress::start(alloc, refs),
        _ => two_agents(alloc),
    }
}

fn see<L: Books + Send + Sync, R: AllocGlobal + Threads + Wait + Clock + Abort + Sync>(
    rt: &R,
    case: Case,
    shared: &Shared<Core, L>,
    share: &mut Share<L>,
) -> Result<(), Stop> {
    match case {
        Case::Sum => threads::see_sum(rt, shared, share),
        Case::Overtaking => threads::see_overtaking(rt, shared, share),
        Case::Telling => threads::see_telling(rt, shared, share),
        Case::Folding => checkpoints::see(rt, shared, share),
        Case::Chains => chains::see(rt, shared),
        Case::Sums(_) => stress::see(rt, shared, share),
        Case::Transaction(place, seen, waits) => {
            looks::see_transaction(rt, shared, share, place, seen, waits)
        }
        Case::Action(place, seen) => looks::see_action(rt, shared, share.front(), place, seen),
        Case::Carried => next_actions::see_carried(rt, shared, share.front()),
        Case::Watched => next_actions::see_watched(rt, shared, share.front()),
        Case::Passing(awaits, value) => {
            next_actions::see_passing(rt, shared, share.front(), awaits, value)
        }
        _ => see_waking(rt, case, shared, share),
    }
}

fn see_waking<L: Books + Send + Sync, R: AllocGlobal + Threads + Wait + Clock + Abort + Sync>(
    rt: &R,
    case: Case,
    shared: &Shared<Core, L>,
    share: &mut Share<L>,
) -> Result<(), Stop> {
    match case {
        Case::Release => releases::see_release(rt, shared, share),
        Case::Transact => releases::see_transact(rt, shared, share),
        Case::CarriedRelease => releases::see_released(rt, shared, share.front(), None),
        Case::Meeting => side_by_side::see_meeting(rt, shared, share.front()),
        Case::Turns(code, value) => {
            side_by_side::see_turns(rt, shared, share.front(), code, value)
        }
        Case::Holding => side_by_side::see_holding(rt, shared, share.front()),
        Case::Waking => waking::see_waking(rt, shared, share),
        Case::Restart => waking::see_restart(rt, shared, share.front()),
        Case::HandingOn => waking::see_handing_on(rt, shared, share.front()),
        Case::Close => waking::see_close(rt, shared),
        _ => Err(Stop::Refused),
    }
}

fn look_at<R: AllocGlobal + Abort>(
    rt: &R,
    case: Case,
    world: &World<Core>,
    totals: Totals,
) -> Result<(), Stop> {
    match case {
        Case::Overtaking => threads::look_at_overtaking(rt, world, totals),
        Case::Folding => checkpoints::look_at(rt, world, totals),
        Case::Chains => chains::look_at(rt, world),
        Case::Sums(refs) => stress::look_at(rt, world, totals, refs),
        Case::Sum | Case::Telling => {
            let commits = if matches!(case, Case::Sum) { 200 } else { 1 };
            same(rt, totals.commits, commits);
            Ok(())
        }
        _ => Ok(()),
    }
}

fn end<L: Books, R: AllocGlobal + Abort>(
    rt: &R,
    case: Case,
    shared: Shared<Core, L>,
    share: Share<L>,
) -> Result<(), Stop> {
    match closed(rt.alloc(), shared, share) {
        Ok((world, totals)) => look_at(rt, case, &world, totals),
        Err(stop) => Err(stop),
    }
}

fn run<L: Books + Send + Sync, R: AllocGlobal + Threads + Wait + Clock + Abort + Sync>(
    rt: &R,
    case: Case,
    start: Start,
    blanks: Blanks,
) -> Result<(), Stop>
    requires { AreBlanks blanks L.commits L.added L.taken L.story }
{
    let (mut booked, mut share) = made::<L>(rt.alloc(), start, blanks)?;
    let prepared = match case {
        Case::CarriedRelease => releases::carry_both(rt.alloc(), &mut booked.world),
        _ => Ok(()),
    };
    if let Err(stop) = prepared {
        return Err(stop);
    }
    let shared = Shared::new(booked);
    match see(rt, case, &shared, &mut share) {
        Ok(()) => end(rt, case, shared, share),
        Err(stop) => Err(stop),
    }
}

pub(crate) fn check<R: AllocGlobal + Threads + Wait + Clock + Abort + Sync>(
    rt: &R,
    case: Case,
) -> Result<(), Fail> {
    let start = start(rt.alloc(), case)?;
    run::<Brand, R>(rt, case, start, Blanks::new())?;
    Ok(())
}
