//! The tests before a commit.
ghost use Rattle.ref_log.specs.Told.{Tells};
ghost use Rattle.std.specs.Prelude.{◌≡◌, ◌≢◌, ◌||◌, ◌&&◌, [], ◌∷◌, false, None, Some, option_copied, IfErr, IfSome, is_some, nat_lt, not, slice_get};
ghost use Rattle.ref_log.specs.Replay.{is_commute};
ghost use Rattle.ref_log.specs.Tally.{fit_tally, is_count, moved_by_dones};
ghost use Rattle.ref_refs.specs.Commit.{alien_agent, alien_ref, changed_after, differs, differs_at, first_protected, lacking};
ghost use Rattle.ref_refs.specs.declared.faults.CommitFault.TheVariants.{Memory};
ghost use Rattle.ref_refs.specs.Seen.{are_unchanged_since};
ghost use Rattle.ref_refs.specs.Smaller.{is_new, known_after, smaller};

use crate::current::Refs;
use crate::faults::{Alien, CommitFault};
use ref_fun::{Functions, Meaning, absent_agent};
use ref_log::counting::moved_by_dones;
use ref_log::{Done, Op, Sent, Side};
use ref_tx::{Beginning, Comparable, Tx};
use ref_value::{Node, Value};

// The first operation on a ref that isn't here, if there is one.
pub(crate) fn check_refs(refs: &Refs, dones: &[Done]) -> Result<(), CommitFault>
    ensures refused { Tells (alien_ref refs.now.values dones.now) result }
    ensures told { IfErr result (λ f. f ≢ Memory) }
{
    let count = refs.len();
    for done in dones {
        if done.r as usize >= count {
            return Err(CommitFault::Foreign(Alien::Ref(done.r)));
        }
    }
    Ok(())
}

// The first agent of these sends, and of what they carry, that isn't here, where there are so many.
pub(crate) fn check_agents(agents: usize, sends: &[Sent]) -> Result<(), CommitFault>
    ensures refused { Tells (alien_agent agents sends.now) result }
    ensures told { IfErr result (λ f. f ≢ Memory) }
{
    for sent in sends {
        if let Some(g) = absent_agent(agents, sent.agent, &sent.action) {
            return Err(CommitFault::Foreign(Alien::Agent(g)));
        }
    }
    Ok(())
}

// Whether the tally takes all operations on it.
pub(crate) fn fits_tally(tally: Option<u32>, dones: &[Done]) -> bool
    ensures { result ≡ fit_tally tally dones.now }
{
    let Some(tally) = tally else {
        return true;
    };
    for done in dones {
        if done.r == tally && !done.op.fits_tally() {
            return false;
        }
    }
    true
}

/// Fails with the first function that these operations commute by and that the table lacks.
pub fn check_served<M: Meaning, F: Functions<M>>(
    funs: &F,
    dones: &[Done],
) -> Result<(), CommitFault>
    ensures refused { Tells (lacking (F.knows funs.now).funs dones.now) result }
    ensures told { IfErr result (λ f. f ≢ Memory) }
{
    for done in dones {
        if let Op::Commute(code, _) = &done.op {
            if !funs.has_fun(*code) {
                return Err(CommitFault::NoSuchFun(*code));
            }
        }
    }
    Ok(())
}

// Whether somebody else changed a ref that the transaction protects, or one of these has another value than in the beginning. A ref
// costs one look-up here, one in the beginning, and a comparison; so do several operations in a row that protect it.
pub(crate) fn is_any_other<M: Meaning, S: Comparable>(refs: &Refs, tx: &Tx<M, S>) -> bool
    requires { alien_ref refs.now.values tx.now.dones ≡ None }
    ensures unchanged { result ≡ false
        → first_protected refs.now.values tx.now.dones (changed_after refs.now.lasts tx.now.read_point) ≡ None }
    ensures same { result ≡ false
        → first_protected refs.now.values tx.now.dones (differs_at refs.now.values tx.now.began) ≡ None }
{
    let dones = tx.dones();
    let (mut known, mut i) = (None, 0);
    for done in dones {
        if protects_other(refs, tx, known, i, done) {
            return true;
        }
        known = known_after(known, done);
        i += 1;
    }
    false
}

// Whether an operation, the one with this number, protects a ref, other than the known one, that has changed after the read point or has
// another value than in the beginning.
fn protects_other<M: Meaning, S: Comparable>(
    refs: &Refs,
    tx: &Tx<M, S>,
    known: Option<u32>,
    i: usize,
    done: &Done,
) -> bool
    requires { slice_get tx.now.dones i ≡ Some done.now }
    ensures { result ≡ (is_new known done.now && (changed_after refs.now.lasts tx.now.read_point done.now.r
        || differs_at refs.now.values tx.now.began done.now.r)) }
{
    is_new(known, done) && is_other(refs, tx.start_of(i), tx.read_point(), done.r)
}

// Whether an operation protects a ref, and another one than this, which is known.
fn is_new(known: Option<u32>, done: &Done) -> bool
    ensures { result ≡ is_new known done.now }
{
    if done.op.is_commute() {
        return false;
    }
    match known {
        Some(known) => known != done.r,
        None => true,
    }
}

// The ref that is known after an operation: the one that it protects, if it protects one.
fn known_after(known: Option<u32>, done: &Done) -> Option<u32>
    ensures { result ≡ known_after known done.now }
{
    if done.op.is_commute() {
        known
    } else {
        Some(done.r)
    }
}

// Whether a ref has changed after a point, or has another value than this, which it began with.
fn is_other(refs: &Refs, start: Option<&Value>, read_point: u64, r: u32) -> bool
    ensures { result ≡ (changed_after refs.now.lasts read_point r
        || differs (option_copied start.entry) (slice_get refs.now.values r)) }
{
    match refs.version(r) {
        None => false,
        Some(version) => {
            let is_changed = version.changed_at > read_point;
            is_changed | differs(start, &version.value)
        }
    }
}

// The smallest protected ref that has changed after the read point.
pub(crate) fn first_changed<M: Meaning, S: Beginning>(refs: &Refs, tx: &Tx<M, S>) -> Option<u32>
    requires { alien_ref refs.now.values tx.now.dones ≡ None }
    ensures { result ≡ first_protected refs.now.values tx.now.dones (changed_after refs.now.lasts tx.now.read_point) }
{
    let read_point = tx.read_point();
    let dones = tx.dones();
    let mut first = None;
    for done in dones {
        if protects_changed(refs, done, read_point) {
            first = Some(smaller(first, done.r));
        }
    }
    first
}

// The smallest protected ref whose value isn't the one that the transaction began with. Several operations in a row that protect a ref
// compare it once.
pub(crate) fn first_differing<M: Meaning, S: Comparable>(refs: &Refs, tx: &Tx<M, S>) -> Option<u32>
    requires { alien_ref refs.now.values tx.now.dones ≡ None }
    ensures { result ≡ first_protected refs.now.values tx.now.dones (differs_at refs.now.values tx.now.began) }
{
    let dones = tx.dones();
    let (mut first, mut known, mut i) = (None, None, 0);
    for done in dones {
        if protects_differing(refs, tx, known, i, done) {
            first = Some(smaller(first, done.r));
        }
        known = known_after(known, done);
        i += 1;
    }
    first
}

// Whether an operation protects a ref that has changed after a point.
fn protects_changed(refs: &Refs, done: &Done, point: u64) -> bool
    ensures { result ≡ (not (is_commute done.now.op) && changed_after refs.now.lasts point done.now.r) }
{
    !done.op.is_commute() && is_changed(refs, done.r, point)
}

// Whether an operation, the one with this number, protects a ref, other than the known one, that has another value than in the beginning.
fn protects_differing<M: Meaning, S: Comparable>(
    refs: &Refs,
    tx: &Tx<M, S>,
    known: Option<u32>,
    i: usize,
    done: &Done,
) -> bool
    requires { slice_get tx.now.dones i ≡ Some done.now }
    ensures { result ≡ (is_new known done.now && differs_at refs.now.values tx.now.began done.now.r) }
{
    is_new(known, done) && differs_at(refs, tx.start_of(i), done.r)
}

// Whether no ref has changed after a point.
pub(crate) fn are_unchanged_since(refs: &Refs, point: u64) -> bool
    ensures { result ≡ are_unchanged_since refs.now.lasts point }
{
    for r in 0..refs.len() {
        if is_changed(refs, r as u32, point) {
            return false;
        }
    }
    true
}

// Whether a ref has changed after a point.
fn is_changed(refs: &Refs, r: u32, point: u64) -> bool
    ensures { result ≡ changed_after refs.now.lasts point r }
{
    match refs.last_change(r) {
        Some(last) => last > point,
        None => false,
    }
}

// Whether a ref has another value now than this, which it began with.
fn differs_at(refs: &Refs, start: Option<&Value>, r: u32) -> bool
    ensures { result ≡ differs (option_copied start.entry) (slice_get refs.now.values r) }
{
    match refs.get(r) {
        None => false,
        Some(now) => differs(start, now),
    }
}

// Whether a value isn't the one of the beginning.
fn differs(began: Option<&Value>, now: &Value) -> bool
    ensures { result ≡ differs (option_copied began.entry) (Some now.now) }
{
    match began {
        None => true,
        Some(began) => began != now,
    }
}

// The smaller of two refs, the first of which may be missing.
fn smaller(first: Option<u32>, r: u32) -> u32
    ensures { result ≡ smaller first r }
{
    match first {
        Some(other) if other < r => other,
        _ => r,
    }
}

// Whether a tally can start with this value: an integer of 0 or more.
pub(crate) fn is_count(value: &Value) -> bool
    ensures { result ≡ is_count (value.now ∷ []) }
{
    match value.node() {
        Node::Int(n) => *n >= 0,
        _ => false,
    }
}

// How far these operations move the tally to a side, where that is at most so much.
pub(crate) fn moved_within(side: Side, tally: Option<u32>, dones: &[Done], most: u64) -> Option<u64>
    ensures some { IfSome result (λ n. n ≡ moved_by_dones side tally dones.now) }
    ensures within { is_some result ≡ not (nat_lt most (moved_by_dones side tally dones.now)) }
{
    let moved = moved_by_dones(side, tally, dones)?;
    if moved > most { None } else { Some(moved) }
}
