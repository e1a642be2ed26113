//! What entries count in the books: transactions, and how far they move the tally.
ghost use Rattle.std.specs.Prelude.{◌≡◌, ◌≤◌, ◌^◌, [], ◌∷◌, IfNone, IfSome};
ghost use Rattle.ref_log.specs.Tally.{code_of, commits_in, commits_of, counted, is_tally, moved_by, moved_by_done, moved_by_dones, moved_in, moved_of};

use crate::entries::Entry;
use crate::operations::{Done, Op};
use ref_fun::codes;
use ref_pvec::PVec;
use ref_value::{Node, Value};

/// Which way an operation moves the tally. Each way has a book of its own.
#[derive(Clone, Copy, Debug, Drop, PartialEq, Eq)]
pub enum Side {
    /// Up, by `commute` of `+`.
    Added,
    /// Down, by `commute` of `-`.
    Taken,
}

impl Side {
    // The code of the function that moves it this way.
    pub(crate) fn code(self) -> u32
        ensures { result ≡ code_of self }
    {
        match self {
            Side::Added => codes::PLUS,
            Side::Taken => codes::MINUS,
        }
    }
}

/// How many of these entries are transactions. Linear in their number.
pub fn commits_of(entries: &PVec<Entry>) -> u64
    ensures { result ≡ commits_of entries.now }
{
    let mut commits: u64 = 0;
    for entry in entries {
        commits += commits_in(entry);
    }
    commits
}

fn commits_in(entry: &Entry) -> u64
    ensures value { result ≡ commits_in entry.now }
    ensures bound { result ≤ 1 }
{
    match entry {
        Entry::Trans(_) => 1,
        Entry::Atom(..) | Entry::MadeRef(_) | Entry::MadeAtom(_) => 0,
    }
}

/// How far these entries move the tally to this side; None where that is more than 64 bits. Linear in their operations.
pub fn moved_of(side: Side, tally: Option<u32>, entries: &PVec<Entry>) -> Option<u64>
    ensures some { IfSome result (λ n. n ≡ moved_of side tally entries.now) }
    ensures none { IfNone result (2 ^ 64 ≤ moved_of side tally entries.now) }
{
    let mut sum: u64 = 0;
    for entry in entries {
        sum = sum.checked_add(moved_in(side, tally, entry)?)?;
    }
    Some(sum)
}

fn moved_in(side: Side, tally: Option<u32>, entry: &Entry) -> Option<u64>
    ensures some { IfSome result (λ n. n ≡ moved_in side tally entry.now) }
    ensures none { IfNone result (2 ^ 64 ≤ moved_in side tally entry.now) }
{
    match entry {
        Entry::Trans(transaction) => moved_by_dones(side, tally, transaction.dones.as_slice()),
        Entry::Atom(..) | Entry::MadeRef(_) | Entry::MadeAtom(_) => Some(0),
    }
}

/// How far these operations move the tally to this side; None where that is more than 64 bits. Linear in their number.
pub fn moved_by_dones(side: Side, tally: Option<u32>, dones: &[Done]) -> Option<u64>
    ensures some { IfSome result (λ n. n ≡ moved_by_dones side tally dones.now) }
    ensures none { IfNone result (2 ^ 64 ≤ moved_by_dones side tally dones.now) }
{
    let mut sum: u64 = 0;
    for done in dones {
        sum = sum.checked_add(moved_by_done(side, tally, done))?;
    }
    Some(sum)
}

fn moved_by_done(side: Side, tally: Option<u32>, done: &Done) -> u64
    ensures { result ≡ moved_by_done side tally done.now }
{
    if is_tally(tally, done.r) {
        moved_by(side, &done.op)
    } else {
        0
    }
}

/// Whether the ref of this number is the tally.
pub fn is_tally(tally: Option<u32>, r: u32) -> bool
    ensures { result ≡ is_tally tally r }
{
    match tally {
        Some(t) => t == r,
        None => false,
    }
}

fn moved_by(side: Side, op: &Op) -> u64
    ensures { result ≡ moved_by side op.now }
{
    match op {
        Op::Commute(code, args) => {
            if *code == side.code() {
                counted(args.as_slice())
            } else {
                0
            }
        }
        Op::Set(_) | Op::Alter(_, _) | Op::Ensure => 0,
    }
}

// The number that arguments are where they are one count. It is 0 of all else.
fn counted(args: &[Value]) -> u64
    ensures { result ≡ counted args.now }
{
    match args {
        [by] => count(by),
        _ => 0,
    }
}

/// The number that a value is where it is a count: an integer of 0 or more. It is 0 of all else.
pub fn count(value: &Value) -> u64
    ensures { result ≡ counted (value.now ∷ []) }
{
    match value.node() {
        Node::Int(n) if *n >= 0 => *n as u64,
        _ => 0,
    }
}
