//! The end of a shared world: its log against the receipts.
use crate::rows;
use crate::same::same;
use crate::worlds::value;
use ref_log::{Done, Entry, Op, SharedVec, Stamp, Transaction, vector_of};
use ref_shared::{GatherFault, match_receipts};
use std::alloc::{AllocError, Global};
use std::test::Fail;

const STEPS: &str = "
// Steps that rise are in order.
== 0
begin t; commit t 0 0 → 0; 1
begin t; commit t 0 1 → 1; 2
end count → 2
// Steps that fall are out of order.
== 0
begin t; commit t 0 1 → 0; 1
begin t; commit t 0 0 → 1; 2
end refused → the steps of a worker are out of order: whole true, receipts 2, commits 2
// A step that is begun before the last one ended is out of order.
== 0
begin t; begin u; commit t 0 0; commit u 0 1 → 0; 0; 1; 2
end refused → the steps of a worker are out of order: whole true, receipts 2, commits 2
";

#[test]
fn steps_of_a_worker_are_to_rise(rt: HostRuntime) -> Result<(), Fail> {
    rows::check(&rt, STEPS)
}

const STEP_0: Stamp = Stamp { worker: 0, step: 0 };

const OTHER: Stamp = Stamp { worker: 1, step: 0 };

// An entry of a log.
#[derive(Clone, Copy, Drop)]
enum Kind {
    // A transaction of `ref-set` of ref 0 to this, begun at point 0.
    Set(Stamp, &'static str),
    // `reset!` of atom 0 to 5.
    Reset,
    // A ref that was made as 5.
    MadeRef,
}

fn transaction(alloc: Global, stamp: Stamp, text: &str) -> Result<Transaction, AllocError> {
    let (new, answer) = (value(alloc, text)?, value(alloc, text)?);
    let done = Done {
        r: 0,
        op: Op::Set(new),
        answer,
    };
    Ok(Transaction {
        stamp,
        read_point: 0,
        dones: SharedVec::of(alloc, vec![in alloc; done]?)?,
        sends: SharedVec::of(alloc, Vec::new(alloc))?,
    })
}

fn entry(alloc: Global, kind: &Kind) -> Result<Entry, AllocError> {
    match kind {
        Kind::Set(stamp, text) => Ok(Entry::Trans(transaction(alloc, *stamp, text)?)),
        Kind::Reset => {
            let (new, answer) = (value(alloc, "5")?, value(alloc, "5")?);
            Ok(Entry::Atom(0, Op::Set(new), answer))
        }
        Kind::MadeRef => Ok(Entry::MadeRef(value(alloc, "5")?)),
    }
}

// Its name, the point of the base, what a log has past it, the receipts, and whether they match.
type Row = (&'static str, u32, &'static [Kind], &'static [u64], bool);

fn matched(alloc: Global, row: &Row) -> Result<bool, AllocError> {
    let mut log = Vec::new(alloc);
    for kind in row.2 {
        log.push(entry(alloc, kind)?)?;
    }
    if log.len() > 8 {
        return Err(AllocError);
    }
    let log = vector_of(alloc, &log)?;
    match match_receipts(alloc, u64::from(row.1), &log, row.3) {
        Ok(()) => Ok(true),
        Err(GatherFault::ReceiptMissing) => Ok(false),
        Err(_) => Err(AllocError),
    }
}

const FIVE: Kind = Kind::Set(STEP_0, "5");

const OTHER_SIX: Kind = Kind::Set(OTHER, "6");

const RESET: Kind = Kind::Reset;

const MADE: Kind = Kind::MadeRef;

const RECEIPTS: &[Row] = &[
    // A receipt is the point of its entry.
    ("the same", 0, &[FIVE], &[1], true),
    ("none", 0, &[FIVE], &[], false),
    ("another point", 0, &[FIVE], &[2], false),
    ("twice", 0, &[FIVE], &[1, 1], false),
    // What is made has no receipt, and atoms have one.
    ("an atom's", 0, &[RESET], &[], false),
    ("its receipt", 0, &[RESET], &[1], true),
    ("a ref that was made", 0, &[MADE], &[], true),
    ("a making's", 0, &[MADE], &[1], false),
    ("no entry", 0, &[], &[1], false),
    // Receipts match in any order, and past the base.
    ("in another order", 0, &[FIVE, OTHER_SIX], &[2, 1], true),
    ("up to the base's point", 3, &[FIVE], &[0, 3, 4], true),
];

#[test]
fn receipts_are_the_points_past_the_base(rt: HostRuntime) -> Result<(), Fail> {
    for row in RECEIPTS {
        same(&rt, (row.0, matched(rt.alloc(), row)?), (row.0, row.4));
    }
    Ok(())
}
