//! Which part of a log is drawn, and where.
use ref_log::Entry;
use ref_verdict::reading::dumps::Dump;
use std::alloc::{AllocError, Global};
use std::collections::BTreeSet;

/// How many entries a page has at most: so many that its picture is less than 20,000 pixels wide.
pub const MOST_DRAWN: u64 = 400;

/// How many it has at most where columns are wide, as they are for a dump with more than 10,000 refs or atoms.
pub const MOST_WIDE_DRAWN: u64 = 230;

/// Which entries are drawn: those from a point up to another one, as far as a page has room.
#[derive(Clone, Copy, Debug, Drop, PartialEq, Eq)]
pub struct Part {
    pub from: u64,
    pub to: u64,
}

// In pixels: the space for the names of lanes, and for points above the lanes and below them, a column of a point, a lane, and a box in it.
// A column has room for the label of a ref with up to four digits, and a wide one for each.
const LEFT: u64 = 124;

const TOP: u64 = 30;

const BOTTOM: u64 = 20;

const COLUMN: u64 = 48;

const WIDE_COLUMN: u64 = 84;

const MOST_NARROW: usize = 10_000;

const LANE: u64 = 40;

const BOX: u64 = 24;

/// The points that are drawn, and the workers, each of which has a lane. The last lane is that of atoms and makings.
#[derive(Drop)]
pub(crate) struct Frame {
    /// The first point that is drawn, and the one behind the last.
    pub first: u64,
    pub end: u64,
    /// Their numbers, in order.
    pub workers: Vec<u32>,
    /// How many entries could be drawn.
    pub most: u64,
    /// How wide a column is.
    column: u64,
}

impl Frame {
    /// The frame of a part of a dump.
    pub(crate) fn of(alloc: Global, dump: &Dump, part: Part) -> Result<Frame, AllocError> {
        let begin = dump.base.point.saturating_add(1);
        let end = begin.saturating_add(dump.entries.len() as u64);
        let first = part.from.max(begin).min(end);
        let is_wide = is_wide(dump);
        let most = if is_wide { MOST_WIDE_DRAWN } else { MOST_DRAWN };
        let end = part
            .to
            .saturating_add(1)
            .min(end)
            .min(first.saturating_add(most))
            .max(first);
        let workers = workers_in(alloc, dump, first, end)?;
        Ok(Frame {
            first,
            end,
            workers,
            most,
            column: if is_wide { WIDE_COLUMN } else { COLUMN },
        })
    }

    /// How many entries are drawn.
    pub(crate) fn count(&self) -> u64 {
        self.end.saturating_sub(self.first)
    }

    /// Whether the entry at a point is drawn.
    pub(crate) fn has(&self, point: u64) -> bool {
        self.first <= point && point < self.end
    }

    /// The lane of an entry, from 0.
    pub(crate) fn lane_of(&self, entry: &Entry) -> u64 {
        match entry {
            Entry::Trans(transaction) => {
                match self.workers.binary_search(&transaction.stamp.worker) {
                    Ok(lane) => lane as u64,
                    Err(lane) => lane as u64,
                }
            }
            Entry::Atom(_, _, _) | Entry::MadeRef(_) | Entry::MadeAtom(_) => self.last_lane(),
        }
    }

    /// The lane of atoms and makings.
    pub(crate) fn last_lane(&self) -> u64 {
        self.workers.len() as u64
    }

    /// Where a point is, from left to right. What was before the first point that is drawn is at the left edge.
    pub(crate) fn x(&self, point: u64) -> u64 {
        let columns = point.saturating_add(1).saturating_sub(self.first);
        LEFT.saturating_add(columns.saturating_mul(self.column))
    }

    /// Where lanes begin, from left to right: behind their names.
    pub(crate) fn left(&self) -> u64 {
        LEFT
    }

    /// Where a lane's boxes begin, from top to bottom.
    pub(crate) fn y(&self, lane: u64) -> u64 {
        TOP.saturating_add(lane.saturating_mul(LANE))
    }

    /// The middle of a lane's boxes.
    pub(crate) fn middle(&self, lane: u64) -> u64 {
        self.y(lane).saturating_add(BOX / 2)
    }

    /// How high a box is.
    pub(crate) fn box_height(&self) -> u64 {
        BOX
    }

    /// Where the last lane ends, from left to right.
    pub(crate) fn right(&self) -> u64 {
        self.x(self.end).saturating_add(self.column)
    }

    /// Where the last lane ends, from top to bottom.
    pub(crate) fn bottom(&self) -> u64 {
        self.y(self.last_lane().saturating_add(1))
    }

    /// How high the picture is.
    pub(crate) fn height(&self) -> u64 {
        self.bottom().saturating_add(BOTTOM)
    }
}

// Whether labels may need more room.
fn is_wide(dump: &Dump) -> bool {
    let (refs, atoms) = (dump.refs.as_slice().len(), dump.atoms.as_slice().len());
    refs.max(atoms) > MOST_NARROW
}

// The workers that committed what is drawn.
fn workers_in(alloc: Global, dump: &Dump, first: u64, end: u64) -> Result<Vec<u32>, AllocError> {
    let mut workers = BTreeSet::new(alloc);
    let mut point = dump.base.point;
    for entry in &dump.entries {
        point = point.saturating_add(1);
        if first <= point && point < end {
            if let Entry::Trans(transaction) = entry {
                workers.insert(transaction.stamp.worker)?;
            }
        }
    }
    workers.into_iter().collect(alloc)
}
