//! The parts of a workload's map.
ghost use Rattle.std.specs.Bool.{OnFalse, OnTrue};
ghost use Rattle.std.specs.List.{list_all};
ghost use Rattle.std.specs.Option.{option_copied};
ghost use Rattle.std.specs.Prelude.{◌≡◌, ◌≢◌, ◌≤◌, ℕ, ℤ, IfErr, IfOk, IfNone, IfSome, None, OnErr, Some, length, true};
ghost use Rattle.ref_value.specs.Edn.{int};
ghost use Rattle.ref_forms.specs.Plain.{elements, forms_under, under};
ghost use Rattle.ref_plan.specs.Limits.{most_declared, most_workers};
ghost use Rattle.ref_plan.specs.Words.{agents_word, atoms_word, pool_word, refs_word, version_word, workers_word};
ghost use Rattle.ref_plan.specs.Workload.{HasParts, HasVectors, is_short_vector, is_vector, pool_in_range, pool_said};

use crate::plan_faults::PlanFault;
use crate::planning::declarations::MOST_DECLARED;
use crate::planning::steps::MOST_STEPS;
use crate::versions::version_numbered;
use ref_calls::Version;
use ref_forms::maps::{are_known, count, under, vector_under};
use ref_forms::plain::{elements_in, elements_up_to};
use ref_value::{Entries, Items, Node, Value};

/// How many workers a workload may have.
pub const MOST_WORKERS: usize = 64;

/// How many threads for actions a workload may ask for.
pub const MOST_POOL: i64 = 16;

// Where none is asked for.
const POOL: i64 = 2;

const WORDS: [&str; 6] = ["version", "refs", "atoms", "agents", "workers", "pool"];

/// The version of a workload, the forms in its vectors, where they aren't left out, and the number of threads for actions.
#[derive(Drop)]
pub struct Parts<'a> {
    pub version: Version,
    pub refs: Option<&'a Items>,
    pub atoms: Option<&'a Items>,
    pub agents: Option<&'a Items>,
    pub workers: Option<&'a Items>,
    pub pool: u32,
}

/// The version, where it is an integer.
pub fn version_of(entries: &Entries) -> Option<i64>
    ensures some { IfSome result (λ n. under entries.now version_word ≡ Some (int n)) }
    ensures none { IfNone result ((n : ℤ) → under entries.now version_word ≡ Some (int n) → ⊥) }
{
    match under(entries, b"version")?.node() {
        Node::Int(n) => Some(*n),
        _ => None,
    }
}

// How many threads for actions are asked for, in range or not.
fn pool_of(entries: &Entries) -> Option<i64>
    ensures { result ≡ pool_said (under entries.now pool_word) }
{
    match under(entries, b"pool") {
        None => Some(POOL),
        Some(value) => match value.node() {
            Node::Int(n) => Some(*n),
            _ => None,
        },
    }
}

fn pool_in_range(n: i64) -> Option<u32>
    ensures { result ≡ pool_in_range n }
{
    if n < 1 || n > MOST_POOL {
        return None;
    }
    Some(n as u32)
}

// Whether each of these is a vector.
fn are_vectors(workers: Option<&Items>) -> bool
    ensures { result ≡ list_all is_vector (elements (option_copied workers.entry)) }
{
    match workers {
        Some(workers) => workers.iter().all(|worker| elements_in(worker).is_some()),
        None => true,
    }
}

// Whether each of these is a vector of no more elements than a worker may have steps.
fn are_short_vectors(workers: Option<&Items>) -> bool
    ensures { result ≡ list_all is_short_vector (elements (option_copied workers.entry)) }
{
    match workers {
        Some(workers) => workers
            .iter()
            .all(|worker| elements_up_to(worker, MOST_STEPS).is_some()),
        None => true,
    }
}

// The parts that are vectors, and the pool, of whatever size.
#[derive(Drop)]
struct Found<'a> {
    refs: Option<&'a Items>,
    atoms: Option<&'a Items>,
    agents: Option<&'a Items>,
    workers: Option<&'a Items>,
    pool: i64,
}

fn found_in<'a>(entries: &'a Entries) -> Option<Found<'a>>
    ensures refs { IfSome result (λ f. elements (option_copied f.refs) ≡ forms_under entries.now refs_word) }
    ensures atoms { IfSome result (λ f. elements (option_copied f.atoms) ≡ forms_under entries.now atoms_word) }
    ensures agents { IfSome result (λ f. elements (option_copied f.agents) ≡ forms_under entries.now agents_word) }
    ensures workers { IfSome result (λ f. elements (option_copied f.workers) ≡ forms_under entries.now workers_word) }
    ensures vectors { IfSome result (λ _. HasVectors entries.now) }
    ensures pool { IfSome result (λ f. pool_said (under entries.now pool_word) ≡ Some f.pool) }
    ensures none { IfNone result ((n : ℤ) → HasVectors entries.now →
        pool_said (under entries.now pool_word) ≡ Some n → ⊥) }
{
    Some(Found {
        refs: vector_under(entries, b"refs")?,
        atoms: vector_under(entries, b"atoms")?,
        agents: vector_under(entries, b"agents")?,
        workers: vector_under(entries, b"workers")?,
        pool: pool_of(entries)?,
    })
}

// Whether there are no more references of a kind and no more workers than may be.
fn are_few(found: &Found<'_>) -> bool
    ensures refs { OnTrue result (length (elements (option_copied found.now.refs)) ≤ most_declared) }
    ensures atoms { OnTrue result (length (elements (option_copied found.now.atoms)) ≤ most_declared) }
    ensures agents { OnTrue result (length (elements (option_copied found.now.agents)) ≤ most_declared) }
    ensures workers { OnTrue result (length (elements (option_copied found.now.workers)) ≤ most_workers) }
    ensures no { OnFalse result (length (elements (option_copied found.now.refs)) ≤ most_declared
        → length (elements (option_copied found.now.atoms)) ≤ most_declared
        → length (elements (option_copied found.now.agents)) ≤ most_declared
        → length (elements (option_copied found.now.workers)) ≤ most_workers → ⊥) }
{
    count(found.refs) <= MOST_DECLARED
        && count(found.atoms) <= MOST_DECLARED
        && count(found.agents) <= MOST_DECLARED
        && count(found.workers) <= MOST_WORKERS
}

/// The parts of a workload's map, where its entries are those of one. It takes no memory.
#[tactic(auto, using(crate::proofs::Parts::are_vectors))]
pub fn parts_of<'a>(entries: &'a Entries) -> Result<Parts<'a>, PlanFault>
    ensures refs { IfOk result (λ p. elements (option_copied p.refs) ≡ forms_under entries.now refs_word) }
    ensures atoms { IfOk result (λ p. elements (option_copied p.atoms) ≡ forms_under entries.now atoms_word) }
    ensures agents { IfOk result (λ p. elements (option_copied p.agents) ≡ forms_under entries.now agents_word) }
    ensures workers { IfOk result (λ p. elements (option_copied p.workers) ≡ forms_under entries.now workers_word) }
    ensures ok { IfOk result (λ p. HasParts entries.now p.version p.pool) }
    ensures told { IfErr result (λ f. f ≢ PlanFault.Memory) }
    ensures none { OnErr result ((version : Version) (pool : ℕ) → HasParts entries.now version pool → ⊥) }
{
    let Some(found) = found_in(entries) else {
        return Err(PlanFault::NotWorkload);
    };
    let Some(version) = version_of(entries) else {
        return Err(PlanFault::NotWorkload);
    };
    if !are_known(entries, &WORDS) {
        return Err(PlanFault::NotWorkload);
    }
    if !are_vectors(found.workers) {
        return Err(PlanFault::NotWorkload);
    }
    let Some(version) = version_numbered(version) else {
        return Err(PlanFault::BadVersion);
    };
    if !are_few(&found) {
        return Err(PlanFault::TooMany);
    }
    if !are_short_vectors(found.workers) {
        return Err(PlanFault::TooMany);
    }
    let Some(pool) = pool_in_range(found.pool) else {
        return Err(PlanFault::TooMany);
    };
    Ok(Parts {
        version,
        refs: found.refs,
        atoms: found.atoms,
        agents: found.agents,
        workers: found.workers,
        pool,
    })
}
