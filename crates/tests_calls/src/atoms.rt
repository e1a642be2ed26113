//! Atoms, and references of any kind, at the last point and by a table that lacks something; full stores.
use crate::rows::{LAST, Way, check};
use crate::tables::{FEWER, FULL, Table};
use crate::worlds::parts_of;
use ref_agents::{AtomStart, Start};
use ref_atoms::{AtomFault, AtomStore};
use ref_edn::{Node, Value, print};
use ref_events::ScriptParts;
use ref_fun::{Args, Core, Rule};
use ref_log::{Who, check_make};
use ref_play::{Act, Event};
use ref_world::World;
use std::alloc::{AllocError, Global};
use std::test::Fail;

// A comparison that answers false needs no point. The end of points comes last; what a table lacks comes behind an atom that isn't there, first the
// function, then the predicate of its rule.
#[test]
fn changes_of_atoms_at_a_limit(rt: HostRuntime) -> Result<(), Fail> {
    check(
        &rt,
        Way::Change(LAST, FULL),
        r##"
            changed | :atoms [[x 1]] :events [[9 :swap x + 1]]
            changed | :atoms [[x 1]] :events [[9 :reset x 7]]
            changed | :atoms [[x 1]] :events [[9 :cas x 1 2]]
        "##,
    )?;
    check(
        &rt,
        Way::Change(LAST + 1, FULL),
        r##"
            no point is left | :atoms [[x 1]] :events [[9 :swap x + 1]]
            no point is left | :atoms [[x 1]] :events [[9 :reset x 7]]
            no point is left | :atoms [[x 1]] :events [[9 :cas x 1 2]]
            as before | :atoms [[x 1]] :events [[9 :cas x 9 2]]
            there is no such atom | :atoms [[x 1]] :events [[9 :swap [:atom 1] + 1]]
            there is no such atom | :atoms [[x 1]] :events [[9 :reset [:atom 1] 1]]
            there is no such atom | :atoms [[x 1]] :events [[9 :cas [:atom 1] 1 1]]
            refused: wrong kind of value | :atoms [[x :k [some?]]] :events [[9 :swap x + 1]]
            refused: integer overflow | :atoms [[x 9223372036854775807 [>= 0]]] :events [[9 :swap x + 1]]
            the rule doesn't accept the value | :atoms [[x 1 [<= 5]]] :events [[9 :swap x + 5]]
            the rule doesn't accept the value | :atoms [[x 1 [<= 5]]] :events [[9 :reset x 6]]
            the rule doesn't accept the value | :atoms [[x 1 [<= 5]]] :events [[9 :cas x 9 6]]
        "##,
    )?;
    check(
        &rt,
        Way::Change(LAST + 1, FEWER),
        r##"
            the table lacks code 2 | :atoms [[x :k [some?]]] :events [[9 :swap x - 1]]
            the table lacks code 109 | :atoms [[x :k [some?]]] :events [[9 :swap x + 1]]
            the table lacks code 102 | :atoms [[x 1 [<= 5]]] :events [[9 :reset x 9]]
            the table lacks code 102 | :atoms [[x 1 [<= 5]]] :events [[9 :cas x 9 9]]
            there is no such atom | :atoms [[x 1 [<= 5]]] :events [[9 :swap [:atom 1] - 1]]
        "##,
    )?;
    check(
        &rt,
        Way::Change(LAST, FEWER),
        r##"
            changed | :atoms [[x 1 [>= 0]] [y 1 [<= 5]]] :events [[9 :swap x + 1]]
            changed | :atoms [[x 1 [>= 0]] [y 1 [<= 5]]] :events [[9 :reset x 9]]
            changed | :atoms [[x 1 [>= 0]] [y 1 [<= 5]]] :events [[9 :cas x 1 9]]
        "##,
    )
}

// The atoms of a row.
fn atoms_of(alloc: Global, atoms: Vec<AtomStart>) -> Result<AtomStore<Core>, AllocError> {
    let mut store: AtomStore<Core> = AtomStore::empty(alloc);
    for start in atoms {
        let AtomStart { value, rule } = start;
        let made = store.make(alloc, &FULL, 0, value, rule);
        made.map_err(|_| AllocError)?;
    }
    Ok(store)
}

// Whether an act changes an atom.
fn changes(
    alloc: Global,
    store: &mut AtomStore<Core>,
    table: &Table,
    at: u64,
    act: &Act,
) -> Result<bool, AtomFault> {
    match act {
        Act::Swap(x, code, args) => {
            let args = args.share()?;
            store.swap(alloc, table, at, *x, *code, args).map(|_| true)
        }
        Act::Reset(x, value) => {
            let value = value.share()?;
            store.reset(alloc, table, at, *x, value).map(|_| true)
        }
        Act::CompareAndSet(x, old, new) => {
            let new = new.share()?;
            let cas = store.compare_and_set(alloc, table, at, *x, old, new)?;
            Ok(cas.done)
        }
        _ => Err(AtomFault::Memory),
    }
}

/// What comes of a change of an atom.
pub(crate) fn changed(
    alloc: Global,
    row: &str,
    at: u64,
    table: &Table,
) -> Result<String, AllocError> {
    let ScriptParts { start, events, .. } = parts_of(alloc, row)?;
    let Start { atoms, .. } = start;
    let mut store = atoms_of(alloc, atoms)?;
    let Some(event) = events.first() else {
        return Err(AllocError);
    };
    said(alloc, changes(alloc, &mut store, table, at, &event.act))
}

// What is said: what comes of each change, what the atom holds then, and the point.
#[test]
fn changes_of_atoms_of_a_world_without_books(rt: HostRuntime) -> Result<(), Fail> {
    check(
        &rt,
        Way::Changes,
        r##"
            changed, changed, changed; 8 at 3 | :atoms [[x 1]] :events [[9 :swap x + 1] [9 :reset x 7] [9 :cas x 7 8]]
            // Where the values are equal there is an entry too, and where a comparison answers false there is none.
            changed, as before; 1 at 1 | :atoms [[x 1]] :events [[9 :reset x 1] [9 :cas x 2 3]]
            // What is refused changes nothing.
            there is no such atom, there is no such atom, there is no such atom; 1 at 0 | :atoms [[x 1]] :events [[9 :swap [:atom 1] + 1] [9 :reset [:atom 1] 2] [9 :cas [:atom 1] 1 2]]
            the rule doesn't accept the value, the rule doesn't accept the value, the rule doesn't accept the value; 1 at 0 | :atoms [[x 1 [<= 5]]] :events [[9 :swap x + 5] [9 :reset x 6] [9 :cas x 1 6]]
            refused: wrong kind of value, changed; :l at 1 | :atoms [[x :k]] :events [[9 :swap x + 1] [9 :reset x :l]]
        "##,
    )
}

// Whether an act changes an atom of a world.
fn changes_in(alloc: Global, world: &mut World<Core>, act: &Act) -> Result<bool, AtomFault> {
    match act {
        Act::Swap(x, code, args) => {
            let args = args.share()?;
            world.swap(alloc, &FULL, *x, *code, args).map(|_| true)
        }
        Act::Reset(x, value) => {
            let value = value.share()?;
            world.reset(alloc, &FULL, *x, value).map(|_| true)
        }
        Act::CompareAndSet(x, old, new) => {
            let new = new.share()?;
            let cas = world.compare_and_set(alloc, &FULL, *x, old, new)?;
            Ok(cas.done)
        }
        _ => Err(AtomFault::Memory),
    }
}

fn said(alloc: Global, changes: Result<bool, AtomFault>) -> Result<String, AllocError> {
    match changes {
        Ok(true) => String::from_str(alloc, "changed"),
        Ok(false) => String::from_str(alloc, "as before"),
        Err(fault) => fault.to_string(alloc),
    }
}

// The text of the value of the first atom.
fn first_of(alloc: Global, world: &World<Core>) -> Result<String, AllocError> {
    let mut bytes = Vec::new(alloc);
    if let Some(value) = world.value_of(Who::Atom(0)) {
        print(alloc, value, &mut bytes)?;
    }
    String::from_utf8(bytes).map_err(|_| AllocError)
}

/// What comes of these changes of atoms of a world, what the first atom holds then, and the point.
pub(crate) fn changed_in(
    alloc: Global,
    world: &mut World<Core>,
    events: &[Event],
) -> Result<String, AllocError> {
    let mut all = String::new(alloc);
    for event in events {
        if !all.is_empty() {
            all.push_str(", ")?;
        }
        all.push_str(&said(alloc, changes_in(alloc, world, &event.act))?)?;
    }
    let first = first_of(alloc, world)?;
    format!(in alloc; "{all}; {first} at {}", world.point())
}

// How many references there are, whether one more would be a tally that can't be one, a point, the predicate of its rule, if it has one, and what
// is said of it. Each kind asks this in the one place that is asked here: to make so many takes minutes.
const ONE_MORE: &[(usize, bool, u64, Option<u32>, &str)] = &[
    (0, false, LAST, None, "can be made"),
    (1_048_575, false, 0, None, "can be made"),
    (1_048_576, false, 0, None, "there are too many references"),
    (1_048_577, false, 0, None, "there are too many references"),
    // The predicate comes first, then the number, the tally, the rule, and the point.
    (
        1_048_576,
        true,
        LAST + 1,
        Some(102),
        "no predicate has code 102",
    ),
    (
        1_048_576,
        true,
        LAST + 1,
        Some(101),
        "there are too many references",
    ),
    (1_048_575, true, LAST + 1, Some(101), BAD_TALLY),
    (
        1_048_575,
        false,
        LAST + 1,
        Some(101),
        "the rule doesn't accept the value",
    ),
    (1_048_575, false, LAST + 1, None, "no point is left"),
];

const BAD_TALLY: &str = "a tally has to be the only one, and to start with an integer of 0 or more";

fn nil() -> Result<Value, AllocError> {
    Value::of(Node::Nil).map_err(|_| AllocError)
}

fn rule_of(alloc: Global, code: Option<u32>) -> Result<Option<Rule>, AllocError> {
    let args = Args::of(alloc, vec![in alloc; nil()?]?)?;
    Ok(code.map(|code| Rule { code, args }))
}

#[test]
fn one_more_reference(rt: HostRuntime) -> Result<(), Fail> {
    let alloc = rt.alloc();
    for (count, is_bad_tally, at, code, wanted) in ONE_MORE {
        let rule = rule_of(alloc, *code)?;
        let said = match check_make::<Core, Table>(
            &FEWER,
            *count,
            *is_bad_tally,
            *at,
            &nil()?,
            &rule,
        ) {
            Ok(()) => String::from_str(alloc, "can be made")?,
            Err(fault) => fault.to_string(alloc)?,
        };
        assert!(rt; said.as_str() == *wanted, "{count} {at} {code:?}: {said}");
    }
    Ok(())
}
