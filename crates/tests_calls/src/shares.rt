//! Shares and views, and what is left at the end of a list of events; and commits that a share counts, which are refused as those of a world
//! without books.
ghost use Rattle.ref_play.specs.Sims.{HaveSameBooks};
ghost use Rattle.ref_world.specs.Shares.{AreBlanks};

use crate::looks::{STAMP, transaction};
use crate::rows::{Way, check};
use crate::tables::{FULL, Table};
use crate::worlds::parts_of;
use ref_agents::Start;
use ref_events::ScriptParts;
use ref_fun::Core;
use ref_play::{Event, Sim};
use ref_refs::CommitFault;
use ref_tx::{Starts, Tx};
use ref_world::{ALL_PARTS, Blanks, Booked, Books, Preparing, Share, World};
use std::alloc::{AllocError, Global};
use std::marker::Brand;
use std::test::Fail;

/// What is done with a world that has books, and its whole share.
#[derive(Drop)]
pub(crate) enum Counting {
    /// A transaction of another world is committed by a table.
    Commit(Tx<Core>, Table),
    /// The same, once it is closed.
    Closed(Tx<Core, Starts>, Table),
    /// What is left is looked at.
    Left,
    /// The share is split and joined again.
    Split,
    /// The share forgets what was folded.
    Forget,
}

// What is left: the totals of the whole share, how many receipts it has, and the jobs that can be taken, by agent and number.
#[test]
fn ends_leave_a_whole_share(rt: HostRuntime) -> Result<(), Fail> {
    check(
        &rt,
        Way::Left,
        r##"
            0 0 0, 0, [] | :refs []
            // What is refused or aborted counts nothing. A change of an atom has a receipt, a making has none.
            1 0 0, 1, [] | :refs [[a 0]] :events [[0 :begin] [0 :alter a + 1] [1 :begin] [1 :ref-set a 5] [1 :commit] [0 :commit] [0 :abort]]
            1 2 3, 4, [] | :refs [[t 5 :tally]] :atoms [[x 1]] :events [[0 :begin] [0 :commute t + 2] [0 :commute t - 3] [0 :commit] [0 :swap x + 1] [0 :cas x 1 5] [0 :cas x 2 5] [0 :reset x 7] [0 :make-ref 1] [0 :make-atom 1]]
            2 9223372036854775807 9223372036854775807, 2, [] | :refs [[t 0 :tally]] :events [[0 :begin] [0 :commute t + 9223372036854775807] [0 :commit] [0 :begin] [0 :commute t - 9223372036854775807] [0 :commit] [0 :begin] [0 :commute t + 1] [0 :commit]]
            // Open transactions are dropped. A job that hasn't run and one that has are there again.
            0 0 0, 0, [(0, 0), (1, 0)] | :refs [[a 0]] :agents [[g 0] [h 5]] :events [[0 :begin] [0 :ref-set a 7] [0 :send-in-tx g + 1] [0 :send g + 1] [0 :take] [0 :run] [1 :send h + 2] [1 :take] [2 :take]]
            // What is held stays held, also after a checkpoint. A failed agent's action isn't ready.
            1 10 0, 1, [(1, 1)] | :refs [[t 1 :tally]] :agents [[g 0] [h 5] [i 0 [>= 0]]] :events [[0 :send h + 1] [0 :send h + 2] [0 :send i - 1] [0 :send i + 1] [3 :take] [3 :run] [3 :finish] [2 :take] [2 :run] [2 :finish] [0 :begin] [0 :commute t + 10] [0 :send-in-tx g + 1] [0 :commit] [3 :take] [1 :checkpoint 1] [1 :begin]]
        "##,
    )
}

fn jobs(alloc: Global, world: &mut World<Core>) -> Result<Vec<(u32, u64)>, AllocError>
    ensures books { HaveSameBooks world.old world.new }
{
    let mut all = Vec::new(alloc);
    // A job that came back would come without end.
    for _ in 0..10u32 {
        if let Some(job) = world.take()? {
            let seen = (job.agent(), job.number());
            job.forsake();
            all.push(seen)?;
        }
    }
    all.sort()?;
    Ok(all)
}

// What is left of a world and its share.
fn left<L: Books>(
    alloc: Global,
    booked: &mut Booked<Core, L>,
    share: &mut Share<L>,
) -> Result<String, AllocError> {
    let (totals, receipts) = (booked.totals(share), share.receipts().len());
    let jobs = jobs(alloc, &mut booked.world)?;
    let (commits, added, taken) = (totals.commits, totals.added, totals.taken);
    format!(in alloc; "{commits} {added} {taken}, {receipts}, {jobs:?}")
}

// What is seen: whether all went as it should, the points of the receipts, and the totals.
#[test]
fn shares_are_split_joined_and_forget(rt: HostRuntime) -> Result<(), Fail> {
    // The first commit is counted in one half, the others in the other.
    check(
        &rt,
        Way::Split,
        "true [2, 3, 1] 3 21 0 | :refs [[t 5 :tally]] :events [[9 :commute t + 7]]",
    )?;
    // The first two entries are folded. A view has them still.
    check(
        &rt,
        Way::Forget,
        "true [3] 3 21 0 | :refs [[t 5 :tally]] :events [[9 :commute t + 7]]",
    )
}

// Commits a transaction, of which a share gets the receipt, at a point.
fn is_committed<L: Books>(
    alloc: Global,
    booked: &mut Booked<Core, L>,
    share: &mut Share<L>,
    events: &[Event],
    point: u64,
) -> Result<bool, AllocError> {
    let tx = transaction(alloc, &booked.world, events)?;
    let committed = booked.commit_with(alloc, &FULL, share, STAMP, tx);
    Ok(committed.is_ok_and(|receipt| receipt.point == point))
}

fn told<L: Books>(
    alloc: Global,
    booked: &mut Booked<Core, L>,
    share: &mut Share<L>,
    is_right: bool,
) -> Result<String, AllocError> {
    let mut points = Vec::new(alloc);
    for receipt in share.receipts() {
        points.push(*receipt)?;
    }
    let totals = booked.totals(share);
    let (commits, added, taken) = (totals.commits, totals.added, totals.taken);
    format!(in alloc; "{is_right} {points:?} {commits} {added} {taken}")
}

// What comes of three commits, the first of which is counted in one half of a share, and the others in the other.
fn split<L: Books>(
    alloc: Global,
    booked: &mut Booked<Core, L>,
    share: &mut Share<L>,
    events: &[Event],
) -> Result<String, AllocError> {
    let none = share.split(0).is_none() && share.split(ALL_PARTS).is_none();
    let Some(mut half) = share.split(ALL_PARTS / 2) else {
        return Err(AllocError);
    };
    let halves = !share.is_whole() && !half.is_whole();
    let done = is_committed(alloc, booked, &mut half, events, 1)?
        && is_committed(alloc, booked, share, events, 2)?
        && is_committed(alloc, booked, share, events, 3)?;
    let joined = share.join(half).is_ok() && share.is_whole();
    told(alloc, booked, share, none && halves && done && joined)
}

// What comes of three commits, the first two of which are folded and forgotten.
fn forgotten<L: Books>(
    alloc: Global,
    booked: &mut Booked<Core, L>,
    share: &mut Share<L>,
    events: &[Event],
) -> Result<String, AllocError> {
    let done = is_committed(alloc, booked, share, events, 1)?
        && is_committed(alloc, booked, share, events, 2)?
        && is_committed(alloc, booked, share, events, 3)?;
    let view = booked.world.view()?;
    let folded = booked.checkpoint(alloc, &FULL, 2) == Ok(2);
    booked.forget(share);
    let stays = (view.base().point, view.log().len(), view.point()) == (0, 3, 3);
    let world = &booked.world;
    let moves = (world.base().point, world.log().len(), world.point()) == (2, 1, 3);
    told(alloc, booked, share, done && folded && stays && moves)
}

// Whether a transaction is refused for this fault.
fn is_refused<L: Books, S: Preparing<Core, L>>(
    alloc: Global,
    booked: &mut Booked<Core, L>,
    share: &mut Share<L>,
    table: &Table,
    tx: Tx<Core, S>,
    fault: CommitFault,
) -> bool {
    match booked.commit_with(alloc, table, share, STAMP, tx) {
        Ok(_receipt) => false,
        Err((_tx, again)) => again == fault,
    }
}

// What comes of a commit. A refused one is refused again, for the same fault, and the share counts nothing.
fn committed<L: Books, S: Preparing<Core, L>>(
    alloc: Global,
    booked: &mut Booked<Core, L>,
    share: &mut Share<L>,
    table: &Table,
    tx: Tx<Core, S>,
) -> Result<String, AllocError> {
    let before = (booked.world.point(), share.receipts().len());
    match booked.commit_with(alloc, table, share, STAMP, tx) {
        Ok(receipt) => format!(in alloc; "point {}", receipt.point),
        Err((tx, fault)) => {
            let again = is_refused(alloc, booked, share, table, tx, fault);
            if again && (booked.world.point(), share.receipts().len()) == before {
                fault.to_string(alloc)
            } else {
                String::from_str(alloc, "another outcome")
            }
        }
    }
}

impl Counting {
    // Makes calls on the world and the whole share that are left, and returns what is seen.
    fn look<L: Books>(
        self,
        alloc: Global,
        booked: &mut Booked<Core, L>,
        share: &mut Share<L>,
        rest: &[Event],
    ) -> Result<String, AllocError> {
        match self {
            Counting::Commit(tx, table) => committed(alloc, booked, share, &table, tx),
            Counting::Closed(tx, table) => committed(alloc, booked, share, &table, tx),
            Counting::Left => left(alloc, booked, share),
            Counting::Split => split(alloc, booked, share, rest),
            Counting::Forget => forgotten(alloc, booked, share, rest),
        }
    }
}

/// What comes of a list, and of what is done then with its world and its share.
pub(crate) fn counted(alloc: Global, row: &str, what: Counting) -> Result<String, AllocError> {
    let ScriptParts { start, events, .. } = parts_of(alloc, row)?;
    counted_in::<Brand>(alloc, &start, &events, what, Blanks::new())
}

// It plays the events before the first of actor 9.
fn counted_in<L: Books>(
    alloc: Global,
    start: &Start,
    events: &[Event],
    what: Counting,
    blanks: Blanks,
) -> Result<String, AllocError>
    requires { AreBlanks blanks L.commits L.added L.taken L.story }
{
    let Ok(mut sim) = Sim::<Core, L>::new(alloc, &FULL, start, blanks) else {
        return Err(AllocError);
    };
    let count = events.iter().position(|event| event.actor == 9);
    let count = count.unwrap_or(events.len());
    let front = events.get(..count).unwrap_or(&[]);
    let played = sim.served_by(&FULL) && sim.play(alloc, &FULL, front).is_ok();
    let (mut booked, mut share) = sim.end();
    if !played {
        return Err(AllocError);
    }
    let rest = events.get(count..).unwrap_or(&[]);
    what.look(alloc, &mut booked, &mut share, rest)
}
