//! Whether a world began with what is declared.
ghost use Rattle.std.specs.Prelude.{◌≡◌, ◌≢◌, false, map, position, true};
ghost use Rattle.ref_workload.specs.Orderly.{base_declared};
ghost use Rattle.ref_agents.specs.declared.starts.AtomStart.{AtomStart};
ghost use Rattle.ref_agents.specs.declared.starts.RefStart.{RefStart};

use ref_log::{Base, Same};
use ref_value::Value;
use ref_world::{AtomStart, RefStart, Start};

// Whether a base is the declared one.
pub(crate) fn is_base(start: &Start, base: &Base) -> bool
    ensures yes { result ≡ true → base.now ≡ base_declared start.now.refs.items start.now.atoms.items }
    ensures no { result ≡ false → base.now ≢ base_declared start.now.refs.items start.now.atoms.items }
{
    let refs = start.refs.as_slice();
    if !is_new(base) || !is_tally(refs, base.tally) {
        return false;
    }
    if !are_refs(refs, base.refs.as_slice()) || !are_unchanged(refs, base.last.as_slice()) {
        return false;
    }
    are_atoms(start.atoms.as_slice(), base.atoms.as_slice())
}

// Whether nothing was done before a base.
fn is_new(base: &Base) -> bool
    ensures yes { result ≡ true → (base.now.point ≡ 0) × (base.now.commits ≡ 0) × (base.now.added ≡ 0)
        × (base.now.taken ≡ 0) }
    ensures no { result ≡ false → (base.now.point ≡ 0) × (base.now.commits ≡ 0) × (base.now.added ≡ 0)
        × (base.now.taken ≡ 0) → ⊥ }
{
    base.point == 0 && base.commits == 0 && base.added == 0 && base.taken == 0
}

// Whether the tally is the ref that is declared so, or none.
fn is_tally(refs: &[RefStart], tally: Option<u32>) -> bool
    ensures yes { result ≡ true → tally ≡ position (λ (r : RefStart). r.tally) refs.now }
    ensures no { result ≡ false → tally ≢ position (λ (r : RefStart). r.tally) refs.now }
{
    match tally_of(refs) {
        None => tally.is_none(),
        Some(declared) => match tally {
            Some(r) => r as usize == declared,
            None => false,
        },
    }
}

// The number of the ref that is declared as the tally, if one is: the first of them.
fn tally_of(refs: &[RefStart]) -> Option<usize>
    ensures { result ≡ position (λ (r : RefStart). r.tally) refs.now }
{
    refs.iter().position(|r| r.tally)
}

// Whether the values are those of the refs that are declared.
fn are_refs(refs: &[RefStart], values: &[Value]) -> bool
    ensures yes { result ≡ true → values.now ≡ map (λ (r : RefStart). r.value) refs.now }
    ensures no { result ≡ false → values.now ≢ map (λ (r : RefStart). r.value) refs.now }
{
    if refs.len() != values.len() {
        return false;
    }
    for i in 0..refs.len() {
        if !values[i].is_same(&refs[i].value) {
            return false;
        }
    }
    true
}

// Whether there is a last change at point 0 for each ref.
fn are_unchanged(refs: &[RefStart], lasts: &[u64]) -> bool
    ensures yes { result ≡ true → lasts.now ≡ map (λ (r : RefStart). 0) refs.now }
    ensures no { result ≡ false → lasts.now ≢ map (λ (r : RefStart). 0) refs.now }
{
    if refs.len() != lasts.len() {
        return false;
    }
    for i in 0..refs.len() {
        if lasts[i] != 0 {
            return false;
        }
    }
    true
}

// Whether the values are those of the atoms that are declared.
fn are_atoms(atoms: &[AtomStart], values: &[Value]) -> bool
    ensures yes { result ≡ true → values.now ≡ map (λ (a : AtomStart). a.value) atoms.now }
    ensures no { result ≡ false → values.now ≢ map (λ (a : AtomStart). a.value) atoms.now }
{
    if atoms.len() != values.len() {
        return false;
    }
    for i in 0..atoms.len() {
        if !values[i].is_same(&atoms[i].value) {
            return false;
        }
    }
    true
}
