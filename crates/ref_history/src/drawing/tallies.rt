//! How often refs changed.
use ref_log::{Done, Entry};
use ref_verdict::reading::dumps::Dump;
use std::alloc::{AllocError, Global};

/// How many entries touched a ref or made it, and the point of the last change; what was before the base is in the latter alone.
#[derive(Clone, Copy, Debug, Drop, PartialEq, Eq)]
pub struct Tally {
    pub changes: u64,
    pub last: u64,
}

// A tally, and the point of the entry that was counted last, 0 for none. The tally's own point doesn't say that: the base may have any.
#[derive(Clone, Copy, Drop)]
struct Count {
    tally: Tally,
    counted: u64,
}

/// The tally of each ref, by number. Linear in the dump.
pub fn tallies_of(alloc: Global, dump: &Dump) -> Result<Vec<Tally>, AllocError> {
    let counts = counts_of(alloc, dump)?;
    let mut tallies = Vec::new(alloc);
    for count in &counts {
        tallies.push(count.tally)?;
    }
    Ok(tallies)
}

fn counts_of(alloc: Global, dump: &Dump) -> Result<Vec<Count>, AllocError> {
    let mut counts = Vec::new(alloc);
    for last in dump.base.last.as_slice() {
        counts.push(count_from(0, *last))?;
    }
    let mut point = dump.base.point;
    for entry in &dump.entries {
        point = point.saturating_add(1);
        match entry {
            Entry::Trans(transaction) => {
                count_dones(point, transaction.dones.as_slice(), &mut counts)
            }
            Entry::MadeRef(_) => counts.push(count_from(1, point))?,
            Entry::Atom(_, _, _) | Entry::MadeAtom(_) => {}
        }
    }
    Ok(counts)
}

fn count_from(changes: u64, last: u64) -> Count {
    Count {
        tally: Tally { changes, last },
        counted: 0,
    }
}

// A ref that is touched twice in an entry is counted once.
fn count_dones(point: u64, dones: &[Done], counts: &mut Vec<Count>) {
    for done in dones {
        if !done.op.is_ensure() {
            count_one(point, done.r as usize, counts);
        }
    }
}

fn count_one(point: u64, r: usize, counts: &mut Vec<Count>) {
    if r >= counts.len() {
        return;
    }
    let Count { tally, counted } = counts[r];
    if counted != point {
        let changes = tally.changes.saturating_add(1);
        counts[r] = Count {
            tally: Tally {
                changes,
                last: point,
            },
            counted: point,
        };
    }
}
