//! Where an entry stands in a log, and which entries are chosen.
ghost use Rattle.std.specs.Prelude.{◌≡◌, ◌==◌, ◌+◌, IfOk};
ghost use Rattle.std.specs.List.{list_any};
ghost use Rattle.ref_history.specs.Places.{first_place, is_about_atom, is_about_ref, is_by, is_chosen, meets, place_after};

use ref_log::{Base, Done, Entry};
use std::alloc::AllocError;

/// Where an entry stands: its point, and how many refs and atoms there are before it.
#[derive(Clone, Copy, Debug, Drop, PartialEq, Eq)]
pub struct Place {
    pub point: u64,
    pub refs: u32,
    pub atoms: u32,
}

/// Which entries are chosen: those that meet all that is asked.
#[derive(Clone, Copy, Debug, Drop, PartialEq, Eq)]
pub struct Choice {
    /// Those with an operation on the ref of this number, and the one that made it.
    pub about_ref: Option<u32>,
    /// The changes of the atom of this number, and the entry that made it.
    pub about_atom: Option<u32>,
    /// The transactions that this worker committed.
    pub by_worker: Option<u32>,
    /// From this point on.
    pub from: u64,
    /// Up to this point.
    pub to: u64,
}

impl Choice {
    /// All entries.
    pub const ALL: Choice = Choice {
        about_ref: None,
        about_atom: None,
        by_worker: None,
        from: 0,
        to: u64::MAX,
    };

    /// Whether the entry at a place is chosen. Linear in the entry's operations.
    pub fn takes(&self, place: Place, entry: &Entry) -> bool
        ensures { result ≡ is_chosen self.now place entry.now }
    {
        self.from <= place.point
            && place.point <= self.to
            && meets_ref(self.about_ref, place, entry)
            && meets_atom(self.about_atom, place, entry)
            && meets_worker(self.by_worker, entry)
    }
}

fn meets_ref(asked: Option<u32>, place: Place, entry: &Entry) -> bool
    ensures { result ≡ meets asked (is_about_ref place entry.now) }
{
    match asked {
        Some(r) => is_about_ref(place, entry, r),
        None => true,
    }
}

fn meets_atom(asked: Option<u32>, place: Place, entry: &Entry) -> bool
    ensures { result ≡ meets asked (is_about_atom place entry.now) }
{
    match asked {
        Some(a) => is_about_atom(place, entry, a),
        None => true,
    }
}

fn meets_worker(asked: Option<u32>, entry: &Entry) -> bool
    ensures { result ≡ meets asked (is_by entry.now) }
{
    match asked {
        Some(worker) => is_by(entry, worker),
        None => true,
    }
}

fn is_about_ref(place: Place, entry: &Entry, r: u32) -> bool
    ensures { result ≡ is_about_ref place entry.now r }
{
    match entry {
        Entry::Trans(transaction) => has_ref(transaction.dones.as_slice(), r),
        Entry::Atom(_, _, _) | Entry::MadeAtom(_) => false,
        Entry::MadeRef(_) => place.refs == r,
    }
}

// Whether one of these operations is on the ref.
fn has_ref(dones: &[Done], r: u32) -> bool
    ensures { result ≡ list_any (λ d. d.r == r) dones.now }
{
    for done in dones {
        if done.r == r {
            return true;
        }
    }
    false
}

fn is_about_atom(place: Place, entry: &Entry, n: u32) -> bool
    ensures { result ≡ is_about_atom place entry.now n }
{
    match entry {
        Entry::Atom(a, _, _) => *a == n,
        Entry::Trans(_) | Entry::MadeRef(_) => false,
        Entry::MadeAtom(_) => place.atoms == n,
    }
}

fn is_by(entry: &Entry, worker: u32) -> bool
    ensures { result ≡ is_by entry.now worker }
{
    match entry {
        Entry::Trans(transaction) => transaction.stamp.worker == worker,
        Entry::Atom(_, _, _) | Entry::MadeRef(_) | Entry::MadeAtom(_) => false,
    }
}

/// The place of the first entry after a base. A base with more refs than numbers for them is refused; no dump has one.
pub fn first_place(base: &Base) -> Result<Place, AllocError>
    ensures { IfOk result (λ place. place ≡ first_place base.now) }
{
    Ok(Place {
        point: one_more_point(base.point)?,
        refs: number_of(base.refs.len())?,
        atoms: number_of(base.atoms.len())?,
    })
}

/// The place of the entry behind this one. It is refused where there is no number for it.
pub fn place_after(entry: &Entry, place: Place) -> Result<Place, AllocError>
    ensures { IfOk result (λ next. next ≡ place_after entry.now place) }
{
    let point = one_more_point(place.point)?;
    let Place { refs, atoms, .. } = place;
    match entry {
        Entry::Trans(_) | Entry::Atom(_, _, _) => Ok(Place { point, refs, atoms }),
        Entry::MadeRef(_) => Ok(Place {
            point,
            refs: one_more(refs)?,
            atoms,
        }),
        Entry::MadeAtom(_) => Ok(Place {
            point,
            refs,
            atoms: one_more(atoms)?,
        }),
    }
}

fn one_more_point(point: u64) -> Result<u64, AllocError>
    ensures { IfOk result (λ next. next ≡ point + 1) }
{
    match point.checked_add(1) {
        Some(next) => Ok(next),
        None => Err(AllocError),
    }
}

fn one_more(count: u32) -> Result<u32, AllocError>
    ensures { IfOk result (λ next. next ≡ count + 1) }
{
    match count.checked_add(1) {
        Some(next) => Ok(next),
        None => Err(AllocError),
    }
}

fn number_of(count: usize) -> Result<u32, AllocError>
    ensures { IfOk result (λ n. n ≡ count) }
{
    match u32::try_from(count) {
        Ok(n) => Ok(n),
        Err(_) => Err(AllocError),
    }
}
