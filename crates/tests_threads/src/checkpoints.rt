//! A view and checkpoints by calls of a shared world, the view read by another thread.
use crate::cases::{Case, check};
use crate::same::same;
use ref_fun::{Core, CoreFunctions};
use ref_log::{Stamp, replay_plain};
use ref_shared::Shared;
use ref_world::{Books, CheckpointFault, Front, Share, Totals, View, World};
use std::alloc::{AllocError, Global};
use std::process::Abort;
use std::sync::Wait;
use std::test::Fail;
use std::thread;
use std::thread::Threads;
use std::time::Clock;
use tests_shared::numbers::int_of;
use tests_shared::steps::commit;
use tests_shared::worlds::{Stop, add};

// Checkpoints at a point, at it again, before it, and past the last.
fn fold<R: Wait, L: Books>(
    rt: &R,
    alloc: Global,
    shared: &Shared<Core, L>,
    mut front: Front<L>,
) -> Result<Vec<Result<u64, CheckpointFault>>, AllocError> {
    let mut answers = Vec::new(alloc);
    for point in [2, 2, 1, 4] {
        answers.push(shared.checkpoint(rt, alloc, &CoreFunctions, &mut front, point))?;
    }
    Ok(answers)
}

// How many entries a view has, and what their replay gives for the first ref.
fn read(alloc: Global, view: View<Core>) -> (usize, Option<i64>) {
    let value = match replay_plain(alloc, &CoreFunctions, view.base(), view.log()) {
        Ok(state) => state.refs.get(0).and_then(int_of),
        Err(_) => None,
    };
    (view.log().len(), value)
}

// The checkpoints by one thread, and the view by another, which has the entries from before.
pub(crate) fn see<L: Books + Send + Sync, R: AllocGlobal + Threads + Wait + Clock + Abort + Sync>(
    rt: &R,
    shared: &Shared<Core, L>,
    share: &mut Share<L>,
) -> Result<(), Stop> {
    let alloc = rt.alloc();
    for step in 0..3u32 {
        commit_add(rt, alloc, shared, share, Stamp { worker: 0, step })?;
    }
    let (view, front) = (shared.view(rt)?, share.front().again());
    let (answers, viewed) = thread::join(
        rt,
        move || fold(rt, alloc, shared, front),
        move || read(alloc, view),
    );
    let none = CheckpointFault::NoSuchPoint;
    same(
        rt,
        answers?.as_slice(),
        &[Ok(2), Ok(0), Err(none), Err(none)],
    );
    same(rt, viewed, (3, Some(3)));
    Ok(())
}

fn commit_add<R: Wait, L: Books>(
    rt: &R,
    alloc: Global,
    shared: &Shared<Core, L>,
    share: &mut Share<L>,
    stamp: Stamp,
) -> Result<(), Stop> {
    let mut tx = shared.begin(rt, alloc, share)?;
    add(alloc, &mut tx, 0, "1")?;
    commit(rt, alloc, shared, share, stamp, tx).map(drop)
}

// The world's base, and how many entries there are after it.
pub(crate) fn look_at<R: AllocGlobal + Abort>(
    rt: &R,
    world: &World<Core>,
    totals: Totals,
) -> Result<(), Stop> {
    let base = world.base();
    let first = (base.refs.get(0).and_then(int_of), base.last.get(0).copied());
    same(rt, (base.point, first), (2, (Some(2), Some(2))));
    same(rt, (world.log().len(), totals.commits), (1, 3));
    Ok(())
}

#[test]
fn entries_are_folded_and_a_view_keeps_them(rt: HostRuntime) -> Result<(), Fail> {
    check(&rt, Case::Folding)
}
