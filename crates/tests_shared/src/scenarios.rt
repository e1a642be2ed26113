//! Running a scenario on a new shared world. A shared world and its share are dropped in this module alone: a scenario is lent both.
ghost use Rattle.ref_world.specs.Shares.{AreBlanks};

use crate::worlds::{Stop, all_commits, made};
use ref_fun::Core;
use ref_log::Stamp;
use ref_shared::{GatherFault, Shared};
use ref_world::{Blanks, Booked, Books, Share, Start, Totals, World};
use std::alloc::Global;
use std::marker::Brand;
use std::sync::Wait;

/// What a test does with a shared world and its whole share.
pub trait Scenario<R> {
    type Outcome: Drop;

    /// What is done with the world and the share before the world is shared.
    fn prepare<L: Books>(
        &self,
        _alloc: Global,
        _booked: &mut Booked<Core, L>,
        _share: &mut Share<L>,
    ) -> Result<(), Stop> {
        Ok(())
    }

    fn run<L: Books>(
        &self,
        rt: &R,
        alloc: Global,
        shared: &Shared<Core, L>,
        share: &mut Share<L>,
    ) -> Result<Self::Outcome, Stop>;
}

/// What a test reads of the world that a shared world ends with, and of its totals.
pub trait Inspection {
    type Seen: Drop;

    fn inspect(
        &self,
        alloc: Global,
        world: &mut World<Core>,
        totals: Totals,
    ) -> Result<Self::Seen, Stop>;

    /// The same where no world comes out, of what comes back.
    fn refused<L: Books>(
        &self,
        _alloc: Global,
        _booked: &Booked<Core, L>,
        _share: &Share<L>,
        _fault: GatherFault,
    ) -> Result<Self::Seen, Stop> {
        Err(Stop::Refused)
    }
}

/// Reads how many transactions were committed, by the totals.
#[derive(Drop)]
pub struct CommitCount;

impl Inspection for CommitCount {
    type Seen = u64;

    fn inspect(
        &self,
        _alloc: Global,
        _world: &mut World<Core>,
        totals: Totals,
    ) -> Result<u64, Stop> {
        Ok(totals.commits)
    }
}

/// The stamp and the read point of each transaction of a log, and how many commits there are by the totals.
#[derive(Debug, Drop, PartialEq)]
pub struct Commits {
    pub log: Vec<(Stamp, u64)>,
    pub commits: u64,
}

/// Reads all commits.
#[derive(Drop)]
pub struct AllCommits;

impl Inspection for AllCommits {
    type Seen = Commits;

    fn inspect(
        &self,
        alloc: Global,
        world: &mut World<Core>,
        totals: Totals,
    ) -> Result<Commits, Stop> {
        Ok(Commits {
            log: all_commits(alloc, world.log())?,
            commits: totals.commits,
        })
    }
}

/// Runs a scenario and ends the shared world, and returns the outcome, and what is read at the end.
pub fn run_to_end<R: Wait, S: Scenario<R>, I: Inspection>(
    rt: &R,
    alloc: Global,
    start: Start,
    scenario: &S,
    inspection: &I,
) -> Result<(S::Outcome, I::Seen), Stop> {
    let blanks = Blanks::new();
    run_to_end_in::<Brand, R, S, I>(rt, alloc, start, scenario, inspection, blanks)
}

fn run_to_end_in<L: Books, R: Wait, S: Scenario<R>, I: Inspection>(
    rt: &R,
    alloc: Global,
    start: Start,
    scenario: &S,
    inspection: &I,
    blanks: Blanks,
) -> Result<(S::Outcome, I::Seen), Stop>
    requires { AreBlanks blanks L.commits L.added L.taken L.story }
{
    let (mut booked, mut share) = made::<L>(alloc, start, blanks)?;
    if let Err(stop) = scenario.prepare(alloc, &mut booked, &mut share) {
        return Err(stop);
    }
    let shared = Shared::new(booked);
    match scenario.run(rt, alloc, &shared, &mut share) {
        Ok(outcome) => match seen_at_end(alloc, shared, share, inspection) {
            Ok(seen) => Ok((outcome, seen)),
            Err(stop) => Err(stop),
        },
        Err(stop) => Err(stop),
    }
}

/// What is read of the world that a shared world ends with, or, where log and receipts don't fit, of what comes back. The share has to
/// be whole.
pub fn seen_at_end<L: Books, I: Inspection>(
    alloc: Global,
    shared: Shared<Core, L>,
    share: Share<L>,
    inspection: &I,
) -> Result<I::Seen, Stop> {
    if !share.is_whole() {
        return Err(Stop::Refused);
    }
    match shared.finish(alloc, share) {
        Ok((mut world, totals)) => inspection.inspect(alloc, &mut world, totals),
        Err((booked, share, fault)) => inspection.refused(alloc, &booked, &share, fault),
    }
}
