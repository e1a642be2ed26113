//! The functions of vectors, maps and sets.
//!
//! Each shares the state's collection and changes the share: log n steps for an argument, or for two of `assoc`. What the
//! share and the state have in common stays shared.
ghost use Rattle.std.specs.Prelude.{◌≡◌, ◌<◌, ◌++◌, false, IfOk, IfErr, IsTrue, fold};
ghost use Rattle.ref_value.specs.Collections.{elements_without, entries_without};
ghost use Rattle.ref_value.specs.Edn.{vector, map, set, items_of, items_depth, entries_of, entries_depth};
ghost use Rattle.ref_value.specs.Lawful.{IsLawful};
ghost use Rattle.ref_value.specs.Order.{elements_ascend, keys_ascend};
ghost use Rattle.ref_value.specs.View.{edn};
ghost use Rattle.ref_fun.specs.Collections.{is_early, shallow, conj, with_elements, assoc, are_pairs, with_pairs, dissoc, disj};
ghost use Rattle.ref_fun.specs.Meaning.{Answers};
ghost use Rattle.ref_fun.specs.declared.faults.FunFault.TheVariants.{Memory};
ghost use Rattle.ref_value.specs.Limits.{most_nested};

use crate::faults::{Cause, FunFault};
use ref_value::{Elements, Entries, Items, Node, Value};
use std::alloc::{AllocError, Global};

/// How many collections may be open at a place of what a function of Core makes.
pub const MOST_NESTED_RESULT: u8 = 48;

/// The arguments appended to a vector, or put into a set.
#[tactic(auto, using(crate::proofs::Kept::conj_vector, crate::proofs::Kept::conj_set))]
pub(crate) fn conj(alloc: Global, state: &Value, args: &[Value]) -> Result<Value, FunFault>
    ensures answers { Answers (conj args.now state.now) result }
    ensures memory { IfErr result (λ f. f ≡ Memory → is_early (conj args.now state.now) ≡ false) }
{
    match state.node() {
        Node::Vector(items) => conj_items(alloc, items, args),
        Node::Set(elements) => conj_elements(alloc, elements, args),
        _ => Err(FunFault::Refused(Cause::WrongKind)),
    }
}

/// Pairs of key and value put into a map, or into nil as the empty map.
#[tactic(auto, using(crate::proofs::Kept::assoc_map))]
pub(crate) fn assoc(alloc: Global, state: &Value, args: &[Value]) -> Result<Value, FunFault>
    ensures answers { Answers (assoc args.now state.now) result }
    ensures memory { IfErr result (λ f. f ≡ Memory → is_early (assoc args.now state.now) ≡ false) }
{
    if !are_pairs(args) {
        return Err(FunFault::Refused(Cause::WrongArity));
    }
    match state.node() {
        Node::Nil => {
            let none = Entries::of(alloc, Vec::new(alloc))?;
            assoc_entries(alloc, &none, args)
        }
        Node::Map(entries) => assoc_entries(alloc, entries, args),
        _ => Err(FunFault::Refused(Cause::WrongKind)),
    }
}

/// A map without these keys.
#[tactic(auto, using(crate::proofs::Kept::dissoc_map, crate::proofs::Shallower::entries_depth_fold))]
pub(crate) fn dissoc(alloc: Global, state: &Value, args: &[Value]) -> Result<Value, FunFault>
    ensures answers { Answers (dissoc args.now state.now) result }
    ensures memory { IfErr result (λ f. f ≡ Memory → is_early (dissoc args.now state.now) ≡ false) }
{
    match state.node() {
        Node::Map(entries) => Ok(map_of(without_keys(alloc, entries, args)?)),
        _ => Err(FunFault::Refused(Cause::WrongKind)),
    }
}

/// A set without these elements.
#[tactic(auto, using(crate::proofs::Kept::disj_set, crate::proofs::Shallower::items_depth_fold))]
pub(crate) fn disj(alloc: Global, state: &Value, args: &[Value]) -> Result<Value, FunFault>
    ensures answers { Answers (disj args.now state.now) result }
    ensures memory { IfErr result (λ f. f ≡ Memory → is_early (disj args.now state.now) ≡ false) }
{
    match state.node() {
        Node::Set(elements) => Ok(set_of(without_all(alloc, elements, args)?)),
        _ => Err(FunFault::Refused(Cause::WrongKind)),
    }
}

fn are_pairs(args: &[Value]) -> bool
    ensures { result ≡ are_pairs args.now }
{
    matches!(args.len(), 2 | 4 | 6 | 8)
}

// The value of a node that is known to be lawful.
fn lawful(node: Node) -> Value
    requires { IsLawful (edn node) }
    ensures { result ≡ edn node }
{
    match Value::of(node) {
        Ok(value) => value,
        Err(_) => unreachable!(),
    }
}

fn conj_items(alloc: Global, items: &Items, args: &[Value]) -> Result<Value, FunFault>
    ensures { Answers (shallow (vector (items_of (items.now ++ args.now)))) result }
{
    Ok(shallow_vector(appended(alloc, items, args)?)?)
}

fn conj_elements(alloc: Global, elements: &Elements, args: &[Value]) -> Result<Value, FunFault>
    requires { IsTrue (elements_ascend (items_of elements.now)) }
    ensures { Answers (shallow (set (items_of (with_elements elements.now args.now)))) result }
{
    Ok(shallow_set(with_all(alloc, elements, args)?)?)
}

fn assoc_entries(alloc: Global, entries: &Entries, args: &[Value]) -> Result<Value, FunFault>
    requires { IsTrue (keys_ascend (entries_of entries.now)) }
    ensures { Answers (shallow (map (entries_of (with_pairs entries.now args.now)))) result }
{
    Ok(shallow_map(with_pairs(alloc, entries, args)?)?)
}

fn map_of(entries: Entries) -> Value
    requires ascends { IsTrue (keys_ascend (entries_of entries)) }
    requires depth { entries_depth (entries_of entries) < most_nested }
    ensures { result ≡ map (entries_of entries) }
{
    // The type says that keys and values are lawful.
    let _deepest = entries.deepest();
    lawful(Node::Map(entries))
}

fn set_of(elements: Elements) -> Value
    requires ascends { IsTrue (elements_ascend (items_of elements)) }
    requires depth { items_depth (items_of elements) < most_nested }
    ensures { result ≡ set (items_of elements) }
{
    // The type says that the elements are lawful.
    let _deepest = elements.deepest();
    lawful(Node::Set(elements))
}

fn shallow_vector(items: Items) -> Result<Value, Cause>
    ensures { result ≡ shallow (vector (items_of items)) }
{
    if items.deepest() >= MOST_NESTED_RESULT {
        return Err(Cause::TooDeep);
    }
    Ok(lawful(Node::Vector(items)))
}

fn shallow_map(entries: Entries) -> Result<Value, Cause>
    requires { IsTrue (keys_ascend (entries_of entries)) }
    ensures { result ≡ shallow (map (entries_of entries)) }
{
    if entries.deepest() >= MOST_NESTED_RESULT {
        return Err(Cause::TooDeep);
    }
    Ok(lawful(Node::Map(entries)))
}

fn shallow_set(elements: Elements) -> Result<Value, Cause>
    requires { IsTrue (elements_ascend (items_of elements)) }
    ensures { result ≡ shallow (set (items_of elements)) }
{
    if elements.deepest() >= MOST_NESTED_RESULT {
        return Err(Cause::TooDeep);
    }
    Ok(lawful(Node::Set(elements)))
}

fn appended(alloc: Global, items: &Items, args: &[Value]) -> Result<Items, AllocError>
    ensures { IfOk result (λ xs. xs ≡ items.now ++ args.now) }
{
    let mut all = items.share()?;
    for x in args {
        all.push(alloc, x.share()?)?;
    }
    Ok(all)
}

fn with_all(alloc: Global, elements: &Elements, args: &[Value]) -> Result<Elements, AllocError>
    requires { IsTrue (elements_ascend (items_of elements.now)) }
    ensures elements { IfOk result (λ xs. xs ≡ with_elements elements.now args.now) }
    ensures ascends { IfOk result (λ xs. IsTrue (elements_ascend (items_of xs))) }
{
    let mut all = elements.share()?;
    for x in args {
        all.insert(alloc, x.share()?)?;
    }
    Ok(all)
}

fn without_all(alloc: Global, elements: &Elements, args: &[Value]) -> Result<Elements, AllocError>
    requires { IsTrue (elements_ascend (items_of elements.now)) }
    ensures elements { IfOk result (λ xs. xs ≡ fold elements_without elements.now args.now) }
    ensures ascends { IfOk result (λ xs. IsTrue (elements_ascend (items_of xs))) }
{
    let mut left = elements.share()?;
    for x in args {
        left.remove(alloc, x)?;
    }
    Ok(left)
}

#[tactic(auto, using(crate::proofs::Kept::with_pairs_front))]
fn with_pairs(alloc: Global, entries: &Entries, args: &[Value]) -> Result<Entries, AllocError>
    requires { IsTrue (keys_ascend (entries_of entries.now)) }
    ensures entries { IfOk result (λ es. es ≡ with_pairs entries.now args.now) }
    ensures ascends { IfOk result (λ es. IsTrue (keys_ascend (entries_of es))) }
{
    let mut all = entries.share()?;
    let mut rest = args;
    while let [key, value, more @ ..] = rest {
        all.insert(alloc, key.share()?, value.share()?)?;
        rest = more;
    }
    Ok(all)
}

fn without_keys(alloc: Global, entries: &Entries, args: &[Value]) -> Result<Entries, AllocError>
    requires { IsTrue (keys_ascend (entries_of entries.now)) }
    ensures entries { IfOk result (λ es. es ≡ fold entries_without entries.now args.now) }
    ensures ascends { IfOk result (λ es. IsTrue (keys_ascend (entries_of es))) }
{
    let mut left = entries.share()?;
    for key in args {
        left.remove(alloc, key)?;
    }
    Ok(left)
}
