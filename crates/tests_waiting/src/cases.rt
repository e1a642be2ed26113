//! Runs each case of these tests on a shared world of its own, which stands in one function alone: it is lent to what the case does.
ghost use Rattle.ref_world.specs.Shares.{AreBlanks};

use crate::awaits::{Step, Waiting};
use crate::same::same;
use crate::whens::Kind;
use crate::{awaits, many, sleepers, turns, whens};
use ref_fun::Core;
use ref_shared::{AwaitFault, Shared};
use ref_world::{Blanks, Books, Share, Start};
use std::alloc::{AllocError, Global};
use std::marker::Brand;
use std::process::Abort;
use std::sync::Wait;
use std::test::Fail;
use std::thread::Threads;
use std::time::Clock;
use tests_shared::jobs::two_agents;
use tests_shared::scenarios::{AllCommits, CommitCount, seen_at_end};
use tests_shared::worlds::{Stop, made, plain_start};

// What is done, in the modules of these names.
#[derive(Clone, Copy, Drop)]
pub(crate) enum Case {
    // awaits, with what the call returns; and where it may miss a failure
    Awaits(Waiting, Result<(), AwaitFault>),
    Misses(&'static [Step]),
    // many
    Takes,
    Sends,
    // sleepers
    Wakes,
    Closes,
    // turns
    Turns,
    // whens: by this entry, with what a holds in the end, and whether it is a commit
    Entry(Kind, i64, bool),
    End,
}

fn start(alloc: Global, case: Case) -> Result<Start, AllocError> {
    match case {
        Case::Takes | Case::Entry(..) | Case::End => plain_start(alloc, "0", "0"),
        _ => two_agents(alloc),
    }
}

// It returns whether a failure was missed.
fn see<L: Books + Send + Sync, R: AllocGlobal + Threads + Wait + Clock + Abort + Sync>(
    rt: &R,
    case: Case,
    shared: &Shared<Core, L>,
    share: &mut Share<L>,
) -> Result<bool, Stop> {
    let seen = match case {
        Case::Misses(steps) => return awaits::misses_failure(rt, shared, steps),
        Case::Awaits(waiting, wanted) => awaits::see(rt, shared, waiting, wanted),
        Case::Takes => many::see_taking(rt, shared, share),
        Case::Sends => many::see_awaiting(rt, shared, share.front()),
        Case::Wakes => sleepers::see_waking(rt, shared, share),
        Case::Closes => sleepers::see_closing(rt, shared, share),
        Case::Turns => turns::see(rt, shared),
        Case::Entry(kind, value, _) => { whens::see_entry(rt, shared, share, kind, value) }
        Case::End => whens::see_end(rt, shared, share),
    };
    seen.map(|()| false)
}

// What is in the log at the end, where all shares are back.
fn end<L: Books, R: AllocGlobal + Abort>(
    rt: &R,
    case: Case,
    shared: Shared<Core, L>,
    share: Share<L>,
) -> Result<(), Stop> {
    let alloc = rt.alloc();
    match case {
        Case::Takes => same(rt, seen_at_end(alloc, shared, share, &CommitCount)?, 100),
        Case::Entry(_, _, is_commit) => {
            let commits = seen_at_end(alloc, shared, share, &AllCommits)?;
            same(rt, commits, whens::wanted_of(alloc, is_commit)?);
        }
        _ => drop((shared, share)),
    }
    Ok(())
}

fn run<L: Books + Send + Sync, R: AllocGlobal + Threads + Wait + Clock + Abort + Sync>(
    rt: &R,
    case: Case,
    start: Start,
    blanks: Blanks,
) -> Result<bool, Stop>
    requires { AreBlanks blanks L.commits L.added L.taken L.story }
{
    let (booked, mut share) = made::<L>(rt.alloc(), start, blanks)?;
    let shared = Shared::new(booked);
    match see(rt, case, &shared, &mut share) {
        Ok(missed) => end(rt, case, shared, share).map(|()| missed),
        Err(stop) => Err(stop),
    }
}

// Whether a failure was missed.
pub(crate) fn found<R: AllocGlobal + Threads + Wait + Clock + Abort + Sync>(
    rt: &R,
    case: Case,
) -> Result<bool, Stop> {
    let start = start(rt.alloc(), case)?;
    run::<Brand, R>(rt, case, start, Blanks::new())
}

pub(crate) fn check<R: AllocGlobal + Threads + Wait + Clock + Abort + Sync>(
    rt: &R,
    case: Case,
) -> Result<(), Fail> {
    let _missed = found(rt, case)?;
    Ok(())
}
