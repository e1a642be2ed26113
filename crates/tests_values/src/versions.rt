//! Drawn changes of vectors, maps and sets, in all of whose versions everything is right at the end.
use crate::same::same;
use ref_edn::{Elements, Entries, Items, Node, Value};
use std::alloc::{AllocError, Global};
use std::collections::BTreeMap;
use std::test::Fail;

// How many versions are stored, how many changes are drawn between two, and about how many members a map or a set has at most.
const VERSIONS: usize = 40;

const CHANGES: usize = 1_000;

const MOST: usize = 5_000;

// More members than a tree of chunks could hold without balance: its height ends at 255, and a chunk at 32 members.
const MANY: i64 = 20_000;

// From this number on one stands for a vector of it. So values are in the order of their numbers.
const NESTED: i64 = 100_000;

// A vector, a map and a set, and the numbers of what they are to hold.
#[derive(Drop)]
struct Version {
    items: Items,
    list: Vec<i64>,
    entries: Entries,
    map: BTreeMap<i64, i64>,
    elements: Elements,
    set: BTreeMap<i64, i64>,
}

// A number below a bound. The same seed always gives the same row of them.
fn draw(seed: &mut u64, below: usize) -> usize {
    *seed = seed
        .wrapping_mul(6364136223846793005)
        .wrapping_add(1442695040888963407);
    let high = (*seed >> 33) as usize;
    if below == 0 { 0 } else { high % below }
}

pub(crate) fn value_of(node: Node) -> Result<Value, Fail> {
    match Value::of(node) {
        Ok(value) => Ok(value),
        Err(_) => Err(Fail::from("not lawful")),
    }
}

fn member(alloc: Global, n: i64) -> Result<Value, Fail> {
    let number = value_of(Node::Int(n))?;
    if n < NESTED {
        return Ok(number);
    }
    value_of(Node::Vector(Items::of(alloc, vec![in alloc; number]?)?))
}

fn depth_of(n: i64) -> u8 {
    if n < NESTED { 0 } else { 1 }
}

fn is_int(value: &Value, n: i64) -> bool {
    match value.node() {
        Node::Int(m) => *m == n,
        _ => false,
    }
}

// Whether a value is the one that stands for a number.
fn stands_for(value: &Value, n: i64) -> bool {
    match value.node() {
        Node::Vector(items) => match items.get(0) {
            Some(first) => items.len() == 1 && n >= NESTED && is_int(first, n),
            None => false,
        },
        _ => n < NESTED && is_int(value, n),
    }
}

// A number below a bound, and now and then one that stands for a vector.
fn drawn_number(seed: &mut u64, below: usize) -> i64 {
    let n = i64::try_from(draw(seed, below)).unwrap_or(0);
    if draw(seed, 500) == 0 {
        n.saturating_add(NESTED)
    } else {
        n
    }
}

fn push(alloc: Global, version: &mut Version, n: i64) -> Result<(), Fail> {
    version.items.push(alloc, member(alloc, n)?)?;
    version.list.push(n)?;
    Ok(())
}

fn change_map(alloc: Global, version: &mut Version, key: i64, n: Option<i64>) -> Result<(), Fail> {
    if !version.entries.ascends() {
        return Err(Fail::from("not in order"));
    }
    let k = member(alloc, key)?;
    match n {
        Some(n) => {
            version.entries.insert(alloc, k, member(alloc, n)?)?;
            version.map.insert(key, n)?;
        }
        None => {
            version.entries.remove(alloc, &k)?;
            version.map.remove(&key);
        }
    }
    Ok(())
}

fn change_set(alloc: Global, version: &mut Version, n: i64, comes: bool) -> Result<(), Fail> {
    if !version.elements.ascends() {
        return Err(Fail::from("not in order"));
    }
    let x = member(alloc, n)?;
    if comes {
        version.elements.insert(alloc, x)?;
        version.set.insert(n, n)?;
    } else {
        version.elements.remove(alloc, &x)?;
        version.set.remove(&n);
    }
    Ok(())
}

// In eight changes of nine a member comes while a collection grows, and in two of nine while it shrinks.
fn change(alloc: Global, seed: &mut u64, version: &mut Version, grows: bool) -> Result<(), Fail> {
    let kind = draw(seed, 5);
    let n = drawn_number(seed, 2 * MOST);
    let comes = draw(seed, 9) < if grows { 8 } else { 2 };
    match kind {
        0 => push(alloc, version, n),
        1 | 2 if comes => change_map(alloc, version, n, Some(drawn_number(seed, 10))),
        1 | 2 => change_map(alloc, version, n, None),
        _ => change_set(alloc, version, n, comes),
    }
}

fn share(version: &Version) -> Result<Version, AllocError> {
    Ok(Version {
        items: version.items.share()?,
        list: version.list.clone()?,
        entries: version.entries.share()?,
        map: version.map.clone()?,
        elements: version.elements.share()?,
        set: version.set.clone()?,
    })
}

fn is_right_vector(version: &Version) -> bool {
    let mut left = version.items.iter();
    let mut deepest = 0;
    for n in &version.list {
        let Some(x) = left.next() else {
            return false;
        };
        if !stands_for(x, *n) {
            return false;
        }
        deepest = depth_of(*n).max(deepest);
    }
    left.next().is_none()
        && version.items.len() == version.list.len()
        && version.items.deepest() == deepest
}

fn is_right_map(entries: &Entries, map: &BTreeMap<i64, i64>) -> bool {
    let mut left = entries.iter();
    let mut deepest = 0;
    for (key, n) in map {
        let Some((k, x)) = left.next() else {
            return false;
        };
        if !stands_for(k, *key) || !stands_for(x, *n) {
            return false;
        }
        deepest = depth_of(*key).max(depth_of(*n)).max(deepest);
    }
    left.next().is_none() && entries.ascends() && entries.deepest() == deepest
}

fn is_right_set(elements: &Elements, set: &BTreeMap<i64, i64>) -> bool {
    let mut left = elements.iter();
    let mut deepest = 0;
    for (n, _) in set {
        let Some(x) = left.next() else {
            return false;
        };
        if !stands_for(x, *n) {
            return false;
        }
        deepest = depth_of(*n).max(deepest);
    }
    left.next().is_none() && elements.ascends() && elements.deepest() == deepest
}

// Whether one member is found, or not, as it should be.
fn is_found(alloc: Global, version: &Version, n: i64) -> Result<bool, Fail> {
    let x = member(alloc, n)?;
    if !version.entries.ascends() || !version.elements.ascends() {
        return Ok(false);
    }
    let in_map = match (version.entries.get(&x), version.map.get(&n)) {
        (Some(value), Some(m)) => stands_for(value, *m),
        (None, None) => true,
        _ => false,
    };
    let in_set = version.elements.contains(&x) == version.set.contains_key(&n);
    Ok(in_map && in_set)
}

fn is_right(alloc: Global, seed: &mut u64, version: &Version) -> Result<bool, Fail> {
    for _ in 0..100 {
        let n = drawn_number(seed, 2 * MOST);
        if !is_found(alloc, version, n)? {
            return Ok(false);
        }
    }
    Ok(
        is_right_vector(version)
            && is_right_map(&version.entries, &version.map)
            && is_right_set(&version.elements, &version.set),
    )
}

// So many members in each, made at once.
fn start(alloc: Global, count: i64) -> Result<Version, Fail> {
    let mut values = Vec::new(alloc);
    let mut list = Vec::new(alloc);
    let mut pairs = Vec::new(alloc);
    let mut map = BTreeMap::new(alloc);
    let mut elements = Vec::new(alloc);
    let mut set = BTreeMap::new(alloc);
    for n in 0..count {
        values.push(member(alloc, n)?)?;
        list.push(n)?;
        pairs.push((member(alloc, n)?, member(alloc, 7)?))?;
        map.insert(n, 7)?;
        elements.push(member(alloc, n)?)?;
        set.insert(n, n)?;
    }
    Ok(Version {
        items: Items::of(alloc, values)?,
        list,
        entries: Entries::of(alloc, pairs)?,
        map,
        elements: Elements::of(alloc, elements)?,
        set,
    })
}

// Changes the last version so often, from one of the stored ones on now and then.
fn go_on(
    alloc: Global,
    seed: &mut u64,
    versions: &mut Vec<Version>,
    grows: bool,
) -> Result<(), Fail> {
    let count = versions.len();
    let place = match draw(seed, 4) {
        0 => draw(seed, count),
        _ => count.saturating_sub(1),
    };
    let Some(version) = versions.get(place) else {
        return Err(Fail::from("no version"));
    };
    let mut next = share(version)?;
    for _ in 0..CHANGES {
        change(alloc, seed, &mut next, grows)?;
    }
    versions.push(next)?;
    Ok(())
}

#[test]
fn old_versions_stay(rt: HostRuntime) -> Result<(), Fail> {
    let alloc = rt.alloc();
    let mut versions = vec![in alloc; start(alloc, 3_000)?]?;
    let mut seed: u64 = 17;
    for round in 0..VERSIONS {
        go_on(alloc, &mut seed, &mut versions, round % 20 < 10)?;
    }
    let mut longest: usize = 0;
    for (i, version) in versions.iter().enumerate() {
        same(&rt, (i, is_right(alloc, &mut seed, version)?), (i, true));
        longest = longest.max(version.map.len()).max(version.set.len());
    }
    same(&rt, (longest > 4_000, longest), (true, longest));
    Ok(())
}

fn grow(alloc: Global, version: &mut Version) -> Result<(), Fail> {
    for n in 0..MANY {
        push(alloc, version, n)?;
        change_map(alloc, version, n, Some(n))?;
        change_set(alloc, version, n, true)?;
    }
    Ok(())
}

// In ascending order, which is the worst one for balance.
#[test]
fn many_members_come_one_by_one(rt: HostRuntime) -> Result<(), Fail> {
    let alloc = rt.alloc();
    let mut version = start(alloc, 0)?;
    grow(alloc, &mut version)?;
    same(&rt, is_right(alloc, &mut 17, &version)?, true);
    Ok(())
}

#[test]
fn values_are_nested_64_deep_at_most(rt: HostRuntime) -> Result<(), Fail> {
    let alloc = rt.alloc();
    let mut node = Node::Int(5);
    for _ in 0..64 {
        node = Node::Vector(Items::of(alloc, vec![in alloc; value_of(node)?]?)?);
    }
    let deepest = value_of(node)?;
    same(&rt, deepest.depth(), 64);
    let deeper = Node::Vector(Items::of(alloc, vec![in alloc; deepest]?)?);
    same(&rt, Value::of(deeper).is_err(), true);
    Ok(())
}
