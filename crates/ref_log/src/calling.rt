//! Which functions a log calls that a table lacks.
ghost use Rattle.std.specs.Prelude.{◌≡◌, take};
ghost use Rattle.ref_log.specs.Called.{codes_called, codes_of_dones, codes_of_entry};
ghost use Rattle.ref_log.specs.Replay.{codes_of, missing};

use crate::entries::Entry;
use crate::operations::{Done, Op};
use ref_fun::{Functions, Meaning};
use ref_pvec::PVec;

/// The first function that the first entries, so many, call and the table lacks, by its code. It takes no memory, and a look-up for
/// each operation.
pub fn lacking_fun<M: Meaning, F: Functions<M>>(
    funs: &F,
    entries: &PVec<Entry>,
    count: usize,
) -> Option<u32>
    ensures { result ≡ missing (F.knows funs.now).funs (codes_called (take count entries.now)) }
{
    let mut left = count;
    for entry in entries {
        if left == 0 {
            return None;
        }
        if let Some(code) = lacking_in_entry::<M, F>(funs, entry) {
            return Some(code);
        }
        left -= 1;
    }
    None
}

fn lacking_in_entry<M: Meaning, F: Functions<M>>(funs: &F, entry: &Entry) -> Option<u32>
    ensures { result ≡ missing (F.knows funs.now).funs (codes_of_entry entry.now) }
{
    match entry {
        Entry::Trans(transaction) => {
            lacking_in_dones::<M, F>(funs, transaction.dones.as_slice())
        }
        Entry::Atom(_, op, _) => lacking_in_op::<M, F>(funs, op),
        Entry::MadeRef(_) | Entry::MadeAtom(_) => None,
    }
}

fn lacking_in_dones<M: Meaning, F: Functions<M>>(funs: &F, dones: &[Done]) -> Option<u32>
    ensures { result ≡ missing (F.knows funs.now).funs (codes_of_dones dones.now) }
{
    for done in dones {
        if let Some(code) = lacking_in_op::<M, F>(funs, &done.op) {
            return Some(code);
        }
    }
    None
}

fn lacking_in_op<M: Meaning, F: Functions<M>>(funs: &F, op: &Op) -> Option<u32>
    ensures { result ≡ missing (F.knows funs.now).funs (codes_of op.now) }
{
    match op {
        Op::Alter(code, _) | Op::Commute(code, _) if !funs.has_fun(*code) => Some(*code),
        _ => None,
    }
}
