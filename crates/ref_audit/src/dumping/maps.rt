//! The map of a dump, made of its parts.
ghost use Rattle.std.specs.Prelude.{◌≡◌, ◌≤◌, ◌∷◌, [], true, map, IfErr, IfOk, OnOk};
ghost use Rattle.ref_value.specs.Edn as edn;
ghost use Rattle.ref_value.specs.Edn.{keyword, nesting};
ghost use Rattle.ref_value.specs.Order.{keys_ascend};
ghost use Rattle.ref_audit.specs.Dumped.{agents_form, base_refs_form, dump_entries, dumped, entry_form, folded_form, tally_form, values_form};
ghost use Rattle.ref_audit.specs.Made.{AreFew, AreParts, IsMakeFault, word_text};
ghost use Rattle.ref_verdict.specs.Words.{number_form, vector_form};
ghost use Rattle.ref_value.specs.Limits.{most_nested};

use crate::dumping::forms::{number, vector_of_entries, vector_of_values};
use crate::dumping::references::{base_refs, folded, tally};
use crate::dumping::worlds::{agents_now, values_now};
use crate::faults::DumpMakeFault;
use crate::kinds::RefOrAtom;
use crate::words::Word;
use ref_fun::Core;
use ref_value::{Entries, Node, Value};
use ref_world::World;
use std::alloc::{AllocError, Global};

// The values of a dump that are collections.
#[derive(Drop)]
pub(crate) struct Parts {
    agents: Value,
    atoms: Value,
    base_atoms: Value,
    base_refs: Value,
    entries: Value,
    folded: Value,
    refs: Value,
}

#[tactic(auto, using(crate::proofs::Depths::make_faults))]
pub(crate) fn parts_of(alloc: Global, world: &World<Core>) -> Result<Parts, DumpMakeFault>
    requires { AreFew world.now }
    ensures made { IfOk result (AreParts world.now) }
    ensures fault { IfErr result (IsMakeFault (nesting (dumped world.now))) }
{
    let base = world.base();
    Ok(Parts {
        agents: agents_now(alloc, world)?,
        atoms: values_now(alloc, world, RefOrAtom::Atom)?,
        base_atoms: vector_of_values(alloc, base.atoms.as_slice())?,
        base_refs: base_refs(alloc, base)?,
        entries: vector_of_entries(alloc, world.log())?,
        folded: folded(alloc, base)?,
        refs: values_now(alloc, world, RefOrAtom::Ref)?,
    })
}

fn pair(alloc: Global, key: Word, value: Value) -> Result<(Value, Value), AllocError>
    ensures { IfOk result (λ pair. (pair.0 ≡ keyword (word_text key)) × (pair.1 ≡ value)) }
{
    Ok((key.keyword(alloc)?, value))
}

// The entries of the map, from the first key on.
pub(crate) fn entries_of(
    alloc: Global,
    world: &World<Core>,
    parts: Parts,
) -> Result<Vec<(Value, Value)>, AllocError>
    requires { AreParts world.now parts }
    ensures { IfOk result (λ entries. entries.items ≡ dump_entries world.now) }
{
    let Parts {
        agents,
        atoms,
        base_atoms,
        base_refs,
        entries,
        folded,
        refs,
    } = parts;
    let base = world.base();
    let mut all = Vec::with_capacity(alloc, 13)?;
    all.push(pair(alloc, Word::Added, number(world.added())?)?)?;
    all.push(pair(alloc, Word::Agents, agents)?)?;
    all.push(pair(alloc, Word::Atoms, atoms)?)?;
    all.push(pair(alloc, Word::BaseAtoms, base_atoms)?)?;
    all.push(pair(alloc, Word::BaseRefs, base_refs)?)?;
    all.push(pair(alloc, Word::Commits, number(world.commits())?)?)?;
    all.push(pair(alloc, Word::Dump, number(3)?)?)?;
    all.push(pair(alloc, Word::Entries, entries)?)?;
    all.push(pair(alloc, Word::Folded, folded)?)?;
    all.push(pair(alloc, Word::Point, number(base.point)?)?)?;
    all.push(pair(alloc, Word::Refs, refs)?)?;
    all.push(pair(alloc, Word::Taken, number(world.taken())?)?)?;
    all.push(pair(alloc, Word::Tally, tally(base)?)?)?;
    Ok(all)
}

// The map of these entries.
#[tactic(auto, using(crate::proofs::Depths::make_faults))]
pub(crate) fn map_of(alloc: Global, entries: Vec<(Value, Value)>) -> Result<Value, DumpMakeFault>
    requires { keys_ascend (edn.entries_of entries.items) ≡ true }
    ensures made { IfOk result (λ v. v ≡ edn.map (edn.entries_of entries.items)) }
    ensures shallow { OnOk result (nesting (edn.map (edn.entries_of entries.items)) ≤ most_nested) }
    ensures fault { IfErr result (IsMakeFault (nesting (edn.map (edn.entries_of entries.items)))) }
{
    let entries = Entries::of(alloc, entries)?;
    // Keys and values are values, so only their depth can be too much.
    let _deepest = entries.deepest();
    match Value::of(Node::Map(entries)) {
        Ok(value) => Ok(value),
        Err(_) => Err(DumpMakeFault::TooDeep),
    }
}
