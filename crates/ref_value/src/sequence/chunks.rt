//! Chunks: a few members side by side, either values or pairs of a key and its value.
ghost use Rattle.std.specs.Prelude.{◌≡◌, ◌+◌, ◌-◌, ◌<◌, ◌≤◌, List, [], ◌∷◌, ◌++◌, length, insert, remove, slice_set, slice_index_or, take, drop, IsTrue, IfOk, IfErr, IfSome, OnOk, OnErr};
ghost use Rattle.ref_value.specs.Edn.{Edn, entries_of};
ghost use Rattle.ref_value.specs.Chunks.{members_of};
ghost use Rattle.ref_value.specs.Collections.{IsFoundAt, IsGapAt};
ghost use Rattle.ref_value.specs.Deepest.{IsDeepestEntry};
ghost use Rattle.ref_value.specs.Members.{twins};
ghost use Rattle.ref_value.specs.Moves.{member_of, rest_of, rest_len, run_of};
ghost use Rattle.ref_value.specs.Order.{edn_cmp, keys_ascend};

use crate::changing::{
    insert_pair, insert_value, remove_pair, remove_value, replace_pair, share_pairs, share_values,
    shared_pairs, shared_values,
};
use crate::data::{Node, Value};
use crate::maps::deepest_of as deepest_pair_of;
use crate::order::compare;
use crate::vectors::deepest_of as deepest_value_of;
use std::alloc::{AllocError, Global};
use std::slice::from_ref;

/// How many members a chunk has room for. No contract names it: another width makes the same lists.
pub(crate) const WIDTH: usize = 32;

/// Members side by side. A tree has chunks of one kind alone, but that the only value of a tree may be a chunk without a
/// block of its own. Such a chunk isn't changed: its copy can be.
#[cycle(value)]
#[derive(Drop)]
pub(crate) enum Chunk {
    Values(Vec<Value>),
    Pairs(Vec<(Value, Value)>),
    One(Value),
}

/// A member on its way into a chunk of its kind.
#[derive(Drop)]
pub(crate) enum Member {
    One(Value),
    Two(Value, Value),
}

/// Members that are moved into chunks, the last ones first.
#[derive(Drop)]
pub(crate) enum Rest {
    Values(Vec<Value>),
    Pairs(Vec<(Value, Value)>),
}

/// Some members of a chunk, side by side.
#[derive(Drop)]
pub(crate) enum Run<'a> {
    Values(&'a [Value]),
    Pairs(&'a [(Value, Value)]),
}

impl Chunk {
    #[tactic(auto, using(crate::proofs::Pairing::length_twins))]
    pub(crate) fn len(&self) -> usize
        ensures { result ≡ length (members_of self.now) }
    {
        match self {
            Chunk::Values(values) => values.len(),
            Chunk::Pairs(pairs) => pairs.len(),
            Chunk::One(_) => 1,
        }
    }

    /// The depth of the deepest member. Linear time.
    #[tactic(auto, using(crate::proofs::Pairing::twins_deepest))]
    pub(crate) fn deepest(&self) -> u8
        ensures { IsDeepestEntry result (members_of self.now) }
    {
        match self {
            Chunk::Values(values) => deepest_value_of(values),
            Chunk::Pairs(pairs) => deepest_pair_of(pairs),
            Chunk::One(x) => deepest_value_of(from_ref(x)),
        }
    }

    #[tactic(auto, using(crate::proofs::Pairing::length_twins, crate::proofs::Pairing::twins_at))]
    pub(crate) fn pair_at(&self, i: usize) -> (&Value, &Value)
        requires { i < length (members_of self.now) }
        ensures { let entry : Edn × Edn = (result.0.now, result.1.now)
            in entry ≡ slice_index_or (members_of self.now) i entry }
    {
        match self {
            Chunk::Values(values) => {
                let x = &values[i];
                (x, x)
            }
            Chunk::Pairs(pairs) => {
                let (key, x) = &pairs[i];
                (key, x)
            }
            Chunk::One(x) => (x, x),
        }
    }

    /// The members from a place on.
    #[tactic(auto, using(crate::proofs::Pairing::length_twins, crate::proofs::Pairing::twins_rest, crate::proofs::Pairing::pairs_rest))]
    pub(crate) fn run_from(&self, i: usize) -> Run<'_>
        requires { i ≤ length (members_of self.now) }
        ensures { run_of result ≡ drop i (members_of self.now) }
    {
        match self {
            Chunk::Values(values) => Run::Values(&values[i..]),
            Chunk::Pairs(pairs) => Run::Pairs(&pairs[i..]),
            Chunk::One(x) => Run::Values(&from_ref(x)[i..]),
        }
    }

    /// How many of the first members are seen to be the same in both at a glance: none of them is a collection.
    pub(crate) fn same_first(&self, other: &Chunk) -> usize
        ensures there { (result ≤ length (members_of self.now)) × (result ≤ length (members_of other.now)) }
        ensures same { take result (members_of self.now) ≡ take result (members_of other.now) }
    {
        let run = self.run_from(0);
        let others = other.run_from(0);
        run.same_first(&others)
    }

    /// The first members, shared, in a chunk with room for so many.
    #[tactic(auto, using(crate::proofs::Pairing::length_twins, crate::proofs::Pairing::twins_take, crate::proofs::Pieces::length_taken))]
    pub(crate) fn front(
        &self,
        alloc: Global,
        n: usize,
        capacity: usize,
    ) -> Result<Chunk, AllocError>
        requires { n ≤ length (members_of self.now) }
        ensures { IfOk result (λ c. members_of c ≡ take n (members_of self.now)) }
    {
        Ok(match self {
            Chunk::Values(values) => Chunk::Values(shared_values(alloc, &values[..n], capacity)?),
            Chunk::Pairs(pairs) => Chunk::Pairs(shared_pairs(alloc, &pairs[..n], capacity)?),
            Chunk::One(x) => Chunk::Values(shared_values(alloc, &from_ref(x)[..n], capacity)?),
        })
    }

    /// The members behind the first ones, shared, in a chunk with room for so many.
    #[tactic(auto, using(crate::proofs::Pairing::length_twins, crate::proofs::Pairing::twins_rest, crate::proofs::Pairing::pairs_rest))]
    pub(crate) fn back(&self, alloc: Global, n: usize, capacity: usize) -> Result<Chunk, AllocError>
        requires { n ≤ length (members_of self.now) }
        ensures { IfOk result (λ c. members_of c ≡ drop n (members_of self.now)) }
    {
        Ok(match self {
            Chunk::Values(values) => Chunk::Values(shared_values(alloc, &values[n..], capacity)?),
            Chunk::Pairs(pairs) => Chunk::Pairs(shared_pairs(alloc, &pairs[n..], capacity)?),
            Chunk::One(x) => Chunk::Values(shared_values(alloc, &from_ref(x)[n..], capacity)?),
        })
    }

    /// All members, shared, in a chunk with room for one more.
    pub(crate) fn copied(&self, alloc: Global) -> Result<Chunk, AllocError>
        ensures { IfOk result (λ c. members_of c ≡ members_of self.now) }
    {
        Ok(match self {
            Chunk::Values(values) => {
                Chunk::Values(shared_values(alloc, values, values.len().saturating_add(1))?)
            }
            Chunk::Pairs(pairs) => {
                Chunk::Pairs(shared_pairs(alloc, pairs, pairs.len().saturating_add(1))?)
            }
            Chunk::One(x) => Chunk::Values(shared_values(alloc, from_ref(x), 2)?),
        })
    }

    /// The members of both, shared. One that is alone in its tree has no other next to it.
    #[tactic(auto, using(crate::proofs::Pairing::twins_append))]
    pub(crate) fn joined(alloc: Global, a: &Chunk, b: &Chunk) -> Result<Chunk, AllocError>
        ensures { IfOk result (λ c. members_of c ≡ members_of a.now ++ members_of b.now) }
    {
        match a {
            Chunk::Values(values) => {
                let Chunk::Values(others) = b else {
                    return Err(AllocError);
                };
                let mut all = shared_values(alloc, values, WIDTH)?;
                share_values(others, &mut all)?;
                Ok(Chunk::Values(all))
            }
            Chunk::Pairs(pairs) => {
                let Chunk::Pairs(others) = b else {
                    return Err(AllocError);
                };
                let mut all = shared_pairs(alloc, pairs, WIDTH)?;
                share_pairs(others, &mut all)?;
                Ok(Chunk::Pairs(all))
            }
            Chunk::One(_) => Err(AllocError),
        }
    }
}

/// Puts one more member at a place. One of the other kind is refused.
pub(crate) fn insert_in(
    deepest: &mut u8,
    chunk: &mut Chunk,
    i: usize,
    member: Member,
) -> Result<(), AllocError>
    requires in_range { i ≤ length (members_of chunk.old) }
    requires deepest { IsDeepestEntry deepest.old (members_of chunk.old) }
    ensures ok { OnOk result (members_of chunk.new ≡ insert (members_of chunk.old) i (member_of member)) }
    ensures err { OnErr result (members_of chunk.new ≡ members_of chunk.old) }
    ensures deepest { IsDeepestEntry deepest.new (members_of chunk.new) }
{
    match chunk {
        Chunk::Values(values) => {
            let Member::One(x) = member else {
                return Err(AllocError);
            };
            insert_value(deepest, values, i, x)
        }
        Chunk::Pairs(pairs) => {
            let Member::Two(key, x) = member else {
                return Err(AllocError);
            };
            insert_pair(deepest, pairs, i, (key, x))
        }
        Chunk::One(_) => Err(AllocError),
    }
}

/// Replaces a pair by another. A chunk of values refuses that.
#[tactic(auto, using(crate::proofs::Pairing::length_twins))]
pub(crate) fn replace_in(
    deepest: &mut u8,
    chunk: &mut Chunk,
    i: usize,
    key: Value,
    x: Value,
) -> Result<(), AllocError>
    requires in_range { i < length (members_of chunk.old) }
    requires deepest { IsDeepestEntry deepest.old (members_of chunk.old) }
    ensures ok { OnOk result (members_of chunk.new ≡ slice_set (members_of chunk.old) i (key, x)) }
    ensures err { OnErr result (members_of chunk.new ≡ members_of chunk.old) }
    ensures deepest { IsDeepestEntry deepest.new (members_of chunk.new) }
{
    match chunk {
        Chunk::Values(_) | Chunk::One(_) => Err(AllocError),
        Chunk::Pairs(pairs) => {
            replace_pair(deepest, pairs, i, (key, x));
            Ok(())
        }
    }
}

/// Takes the member at a place out.
pub(crate) fn remove_in(deepest: &mut u8, chunk: &mut Chunk, i: usize) -> Result<(), AllocError>
    requires in_range { i < length (members_of chunk.old) }
    requires deepest { IsDeepestEntry deepest.old (members_of chunk.old) }
    ensures ok { OnOk result (members_of chunk.new ≡ remove (members_of chunk.old) i) }
    ensures err { OnErr result (members_of chunk.new ≡ members_of chunk.old) }
    ensures deepest { IsDeepestEntry deepest.new (members_of chunk.new) }
{
    match chunk {
        Chunk::Values(values) => {
            remove_value(deepest, values, i);
            Ok(())
        }
        Chunk::Pairs(pairs) => {
            remove_pair(deepest, pairs, i);
            Ok(())
        }
        Chunk::One(_) => Err(AllocError),
    }
}

// The last items of a `Vec`, in one with no more room.
#[tactic(auto, using(crate::proofs::Pieces::cut_at, crate::proofs::Pieces::length_taken))]
fn last_of<T: Drop>(items: &mut Vec<T>, n: usize) -> Result<Vec<T>, AllocError>
    requires { n ≤ length items.old.items }
    ensures items { IfOk result (λ v. items.old.items ≡ items.new.items ++ v.items) }
    ensures len { OnOk result (length items.new.items + n ≡ length items.old.items) }
{
    let at = items.len() - n;
    items.split_off(at)
}

impl Rest {
    /// The last members, as a chunk with no more room.
    #[tactic(auto, using(crate::proofs::Pairing::twins_append))]
    pub(crate) fn chunk(&mut self, n: usize) -> Result<Chunk, AllocError>
        requires { n ≤ rest_len self.old }
        ensures members { IfOk result (λ c. rest_of self.old ≡ rest_of self.new ++ members_of c) }
        ensures len { OnOk result (rest_len self.new + n ≡ rest_len self.old) }
    {
        match self {
            Rest::Values(values) => {
                let values = last_of(values, n)?;
                Ok(Chunk::Values(values))
            }
            Rest::Pairs(pairs) => {
                let pairs = last_of(pairs, n)?;
                Ok(Chunk::Pairs(pairs))
            }
        }
    }

    /// Gives back the room that is left behind the members.
    pub(crate) fn trim(&mut self)
        ensures members { rest_of self.new ≡ rest_of self.old }
        ensures len { rest_len self.new ≡ rest_len self.old }
    {
        match self {
            Rest::Values(values) => values.shrink_to_fit(),
            Rest::Pairs(pairs) => pairs.shrink_to_fit(),
        }
    }
}

impl<'a> Run<'a> {
    #[tactic(auto, using(crate::proofs::Pairing::length_twins))]
    pub(crate) fn len(&self) -> usize
        ensures { result ≡ length (run_of self.now) }
    {
        match self {
            Run::Values(values) => values.len(),
            Run::Pairs(pairs) => pairs.len(),
        }
    }

    #[tactic(auto, using(crate::proofs::Pairing::length_twins, crate::proofs::Pairing::twins_at))]
    pub(crate) fn first(&self) -> (&'a Value, &'a Value)
        requires { 0 < length (run_of self.now) }
        ensures { let entry : Edn × Edn = (result.0.now, result.1.now)
            in entry ≡ slice_index_or (run_of self.now) 0 entry }
    {
        match self {
            Run::Values(values) => {
                let values: &'a [Value] = values;
                let x = &values[0];
                (x, x)
            }
            Run::Pairs(pairs) => {
                let pairs: &'a [(Value, Value)] = pairs;
                let (key, x) = &pairs[0];
                (key, x)
            }
        }
    }

    /// The members behind the first ones.
    #[tactic(auto, using(crate::proofs::Pairing::length_twins, crate::proofs::Pairing::twins_rest, crate::proofs::Pairing::pairs_rest))]
    pub(crate) fn behind(&self, n: usize) -> Run<'a>
        requires { n ≤ length (run_of self.now) }
        ensures { run_of result ≡ drop n (run_of self.now) }
    {
        match self {
            Run::Values(values) => {
                let values: &'a [Value] = values;
                Run::Values(&values[n..])
            }
            Run::Pairs(pairs) => {
                let pairs: &'a [(Value, Value)] = pairs;
                Run::Pairs(&pairs[n..])
            }
        }
    }

    /// How many of the first members are seen to be the same in both at a glance: none of them is a collection.
    #[tactic(auto, using(crate::proofs::Pairing::length_twins, crate::proofs::Pairing::twins_same))]
    pub(crate) fn same_first(&self, other: &Run<'_>) -> usize
        ensures there { (result ≤ length (run_of self.now)) × (result ≤ length (run_of other.now)) }
        ensures same { take result (run_of self.now) ≡ take result (run_of other.now) }
    {
        match self {
            Run::Values(values) => match other {
                Run::Values(others) => same_values(values, others),
                Run::Pairs(_) => 0,
            },
            Run::Pairs(pairs) => match other {
                Run::Values(_) => 0,
                Run::Pairs(others) => same_pairs(pairs, others),
            },
        }
    }
}

// Whether two values are seen to be the same at a glance. Of collections it isn't asked.
#[inline(always)]
fn are_same(a: &Value, b: &Value) -> bool
    ensures { IsTrue result → a.now ≡ b.now }
{
    match a.node() {
        Node::Int(m) => match b.node() {
            Node::Int(n) => *m == *n,
            _ => false,
        },
        _ => are_same_texts(a, b),
    }
}

// The same of all but integers.
fn are_same_texts(a: &Value, b: &Value) -> bool
    ensures { IsTrue result → a.now ≡ b.now }
{
    match (a.node(), b.node()) {
        (Node::ShortKeyword(x), Node::ShortKeyword(y)) => x.is_same(y),
        (Node::ShortStr(x), Node::ShortStr(y)) => x.is_same(y),
        (Node::ShortSymbol(x), Node::ShortSymbol(y)) => x.is_same(y),
        (Node::Keyword(x), Node::Keyword(y)) => x.is_same(y),
        (Node::Str(x), Node::Str(y)) => x.is_same(y),
        (Node::Symbol(x), Node::Symbol(y)) => x.is_same(y),
        (Node::Bool(x), Node::Bool(y)) => *x == *y,
        (Node::Nil, Node::Nil) => true,
        _ => false,
    }
}

// How many of the first values are the same at a glance.
fn same_values(a: &[Value], b: &[Value]) -> usize
    ensures there { (result ≤ length a.now) × (result ≤ length b.now) }
    ensures same { take result a.now ≡ take result b.now }
{
    let most = a.len().min(b.len());
    for n in 0..most {
        if !are_same(&a[n], &b[n]) {
            return n;
        }
    }
    most
}

// How many of the first keys and values are the same at a glance.
fn same_pairs(a: &[(Value, Value)], b: &[(Value, Value)]) -> usize
    ensures there { (result ≤ length a.now) × (result ≤ length b.now) }
    ensures same { take result a.now ≡ take result b.now }
{
    let most = a.len().min(b.len());
    for n in 0..most {
        let (key, value) = &a[n];
        let (other_key, other_value) = &b[n];
        if !are_same(key, other_key) || !are_same(value, other_value) {
            return n;
        }
    }
    most
}
