//! Rows, and how they are asked.
use crate::agents::{ended, lacked};
use crate::atoms::changed;
use crate::commits::landed;
use crate::looks::{Beginning, Look, What};
use crate::replays::replayed;
use crate::shares::{Counting, counted};
use crate::tables::Table;
use crate::worlds::run;
use std::alloc::{AllocError, Global};
use std::process::Abort;
use std::test::Fail;

/// There is no point after this one.
pub(crate) const LAST: u64 = 4_611_686_018_427_387_904;

/// How a row is asked.
#[derive(Clone, Copy, Drop)]
pub(crate) enum Way {
    /// A list; before it, for the start and each event, an `f` if it is by the table with fewer functions.
    Served,
    /// Where a transaction begins, with its acts by hand, and where it is committed, by this table.
    Commit(Table),
    /// The same, where a share counts the commit.
    Counted(Table),
    /// The same, of a transaction that is closed before.
    Closed(Table),
    /// Agents that give a job, and agents where it is ended.
    Job,
    /// Agents, whose last act is by the table with fewer functions.
    Agent,
    /// As `Commit`, where it is committed in a store of refs: at a point, with so much room in the books.
    Land(u64, (u64, u64)),
    /// An atom, and a change of it at a point by a table.
    Change(u64, Table),
    /// A list, and changes of its first atom by hand.
    Changes,
    /// Entries, which are replayed by the table with fewer functions.
    Replay,
    /// A list, what is left of which is looked at.
    Left,
    /// Changes by hand, with shares.
    Split,
    Forget,
}

// The two parts of a row.
fn parted(row: &str) -> Result<(&str, &str), AllocError> {
    row.split_once(" | ").ok_or(AllocError)
}

// What comes of a row.
fn outcome(alloc: Global, way: Way, row: &str) -> Result<String, AllocError> {
    match way {
        Way::Served => {
            let (tables, row) = parted(row)?;
            run(alloc, row, Look::of(alloc, What::Nothing, tables))
        }
        Way::Commit(table) => {
            let (there, here) = parted(row)?;
            let tx = run(alloc, there, Beginning)?;
            run(alloc, here, Look::of(alloc, What::Commit(tx, table), ""))
        }
        Way::Counted(table) => {
            let (there, here) = parted(row)?;
            let tx = run(alloc, there, Beginning)?;
            counted(alloc, here, Counting::Commit(tx, table))
        }
        Way::Closed(table) => {
            let (there, here) = parted(row)?;
            let tx = run(alloc, there, Beginning)?.close(alloc)?;
            counted(alloc, here, Counting::Closed(tx, table))
        }
        Way::Job => {
            let (there, here) = parted(row)?;
            ended(alloc, there, here)
        }
        Way::Agent => lacked(alloc, row),
        Way::Land(at, room) => {
            let (there, here) = parted(row)?;
            landed(alloc, run(alloc, there, Beginning)?, here, at, room)
        }
        Way::Change(at, table) => changed(alloc, row, at, &table),
        Way::Changes => run(alloc, row, Look::of(alloc, What::Change, "")),
        Way::Replay => replayed(alloc, row),
        Way::Left => counted(alloc, row, Counting::Left),
        Way::Split => counted(alloc, row, Counting::Split),
        Way::Forget => counted(alloc, row, Counting::Forget),
    }
}

/// What comes of each row of a table is what stands in front of it. A line that begins with `//` is a remark.
pub(crate) fn check(rt: &(impl Abort + AllocGlobal), way: Way, table: &str) -> Result<(), Fail> {
    for line in table.lines() {
        let line = line.trim();
        if line.is_empty() || line.starts_with("//") {
            continue;
        }
        let (wanted, row) = parted(line)?;
        let said = outcome(rt.alloc(), way, row)?;
        assert!(rt; said.as_str() == wanted, "{said}, not {line}");
    }
    Ok(())
}
