//! A mark for each step of a plan.
ghost use Rattle.std.specs.Prelude.{◌≡◌, ◌≢◌, IfOk, Some, length, map, replicate, slice_get, slice_set};
ghost use Rattle.std.specs.Bool.{MatchBool};
ghost use Rattle.ref_workload.specs.Marks.{Takes};
ghost use Rattle.ref_workload.specs.Orderly.{at_stamp};
ghost use Rattle.ref_workload.specs.declared.order.board.Mark.TheVariants.{Open};

use ref_log::{SharedVec, Stamp};
use ref_plan::Step;
use std::alloc::{AllocError, Global};
use std::marker::Model;

/// What is known of a step so far.
#[derive(Clone, Copy, Drop, PartialEq, Eq)]
pub enum Mark {
    /// It is neither refused, nor is its entry met.
    Open,
    Refused,
    Committed,
}

// The marks of a worker's steps. Contracts see a list.
#[derive(Drop)]
pub(crate) struct Row {
    marks: Vec<Mark>,
}

impl Model for Row {
    ghost use Rattle.std.specs.Prelude.{List};
    ghost use Rattle.ref_workload.specs.declared.order.board.Mark.{Mark};

    ghost Value = { List Mark };

    ghost view = { λ r. r.marks.items };
}

impl Row {
    fn open(alloc: Global, steps: usize) -> Result<Row, AllocError>
        ensures { IfOk result (λ r. r ≡ replicate steps Open) }
    {
        Ok(Row {
            marks: vec![in alloc; Mark::Open; steps]?,
        })
    }

    pub(crate) fn as_slice(&self) -> &[Mark]
        ensures { result.now ≡ self.now }
    {
        self.marks.as_slice()
    }

    fn take(&mut self, step: u32, mark: Mark) -> bool
        ensures { MatchBool result
            ((slice_get self.old step ≡ Some Open) × (self.new ≡ slice_set self.old step mark))
            ((slice_get self.old step ≢ Some Open) × (self.new ≡ self.old)) }
    {
        let at = step as usize;
        if at >= self.marks.len() || self.marks[at] != Mark::Open {
            return false;
        }
        self.marks[at] = mark;
        true
    }
}

// The marks of all steps, by worker. Contracts see a list of lists.
#[derive(Drop)]
pub(crate) struct Board {
    rows: Vec<Row>,
}

impl Model for Board {
    ghost use Rattle.std.specs.Prelude.{List};
    ghost use Rattle.ref_workload.specs.declared.order.board.Mark.{Mark};

    ghost Value = { List (List Mark) };

    ghost view = { λ b. b.rows.items };
}

impl Board {
    // With each step open.
    pub(crate) fn open(alloc: Global, workers: &[SharedVec<Step>]) -> Result<Board, AllocError>
        ensures { IfOk result (λ b. b ≡ map (λ steps. replicate (length steps) Open) workers.now) }
    {
        let mut rows = Vec::new(alloc);
        for steps in workers {
            rows.push(Row::open(alloc, steps.len())?)?;
        }
        Ok(Board { rows })
    }

    pub(crate) fn rows(&self) -> &[Row]
        ensures { result.now ≡ self.now }
    {
        self.rows.as_slice()
    }

    // Marks a step, where it is there and open.
    pub(crate) fn take(&mut self, stamp: Stamp, mark: Mark) -> bool
        ensures { MatchBool result (Takes self.old stamp mark self.new)
            ((at_stamp self.old stamp ≢ Some Open) × (self.new ≡ self.old)) }
    {
        let at = stamp.worker as usize;
        if at >= self.rows.len() {
            return false;
        }
        self.rows[at].take(stamp.step, mark)
    }
}
