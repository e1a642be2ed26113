//! The steps of each worker rise along the log.
ghost use Rattle.std.specs.Prelude.{◌≡◌, ◌+◌, ◌<◌, ◌^◌, IfOk, Some, length};
ghost use Rattle.std.specs.Bool.{OnTrue, OnFalse};
ghost use Rattle.std.specs.Ordering.{nat_cmp};
ghost use Rattle.std.specs.BTreeMap.{get, Updates};
ghost use Rattle.ref_shared.specs.Gather.{InOrder};
ghost use Rattle.ref_shared.specs.Latest.{Follows, turn_of};

use ref_log::{Entry, Transaction};
use ref_pvec::PVec;
use std::alloc::{AllocError, Global};
use std::collections::BTreeMap;

// The step of a worker's latest entry, and its point.
#[derive(Clone, Copy, Drop)]
pub(crate) struct Turn {
    pub(crate) step: u32,
    pub(crate) point: u64,
}

// Whether the steps of each worker rise along the log, with no read point before the point of its entry before.
pub(crate) fn in_order(
    alloc: Global,
    base_point: u64,
    log: &PVec<Entry>,
) -> Result<bool, AllocError>
    requires { base_point + length log.now < 2 ^ 63 }
    ensures yes { IfOk result (λ b. OnTrue b (InOrder base_point log.now)) }
    ensures no { IfOk result (λ b. OnFalse b (InOrder base_point log.now → ⊥)) }
{
    let mut latest = BTreeMap::new(alloc);
    for i in 0..log.len() {
        let Some(entry) = log.get(i) else {
            unreachable!()
        };
        if let Entry::Trans(transaction) = entry {
            if !follow(&mut latest, transaction, base_point + 1 + i as u64)? {
                return Ok(false);
            }
        }
    }
    Ok(true)
}

// Takes a worker's next entry, where it may come after the latest.
fn follow(
    latest: &mut BTreeMap<u32, Turn>,
    transaction: &Transaction,
    point: u64,
) -> Result<bool, AllocError>
    ensures yes { IfOk result (λ b. OnTrue b
        (Follows (get nat_cmp latest.old transaction.now.stamp.worker) transaction.now
        × Updates nat_cmp latest.old latest.new transaction.now.stamp.worker (Some (turn_of transaction.now point)))) }
    ensures no { IfOk result (λ b. OnFalse b
        (Follows (get nat_cmp latest.old transaction.now.stamp.worker) transaction.now → ⊥)) }
{
    let stamp = transaction.stamp;
    if let Some(turn) = latest.get(&stamp.worker) {
        if stamp.step <= turn.step || transaction.read_point < turn.point {
            return Ok(false);
        }
    }
    latest.insert(
        stamp.worker,
        Turn {
            step: stamp.step,
            point,
        },
    )?;
    Ok(true)
}
