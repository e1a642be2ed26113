//! Where a key is in a tree whose keys ascend, or where it would go.
ghost use Rattle.std.specs.Prelude.{◌≡◌, ◌<◌, IsTrue, length, IfOk, IfErr};
ghost use Rattle.ref_value.specs.Chunks.{members_of};
ghost use Rattle.ref_value.specs.Collections.{IsFoundAt, IsGapAt};
ghost use Rattle.ref_value.specs.Edn.{items_of, entries_of};
ghost use Rattle.ref_value.specs.Order.{edn_cmp, elements_ascend, keys_ascend};
ghost use Rattle.ref_value.specs.Sides.{are_behind};

use crate::data::Value;
use crate::order::compare;
use crate::sequence::chunks::Chunk;
use crate::sequence::trees::{Limb, Tree};
use std::cmp::Ordering;
use std::slice::from_ref;

// By halves of a chunk of values.
fn search_values(values: &[Value], key: &Value) -> Result<usize, usize>
    requires { IsTrue (elements_ascend (items_of values.now)) }
    ensures found { IfOk result (IsFoundAt (λ y. edn_cmp y key.now) values.now) }
    ensures absent { IfErr result (IsGapAt (λ y. edn_cmp y key.now) values.now) }
{
    values.binary_search(key)
}

// By halves of a chunk of pairs.
fn search_pairs(pairs: &[(Value, Value)], key: &Value) -> Result<usize, usize>
    requires { IsTrue (keys_ascend (entries_of pairs.now)) }
    ensures found { IfOk result (IsFoundAt (λ e. edn_cmp e.0 key.now) pairs.now) }
    ensures absent { IfErr result (IsGapAt (λ e. edn_cmp e.0 key.now) pairs.now) }
{
    pairs.binary_search_by(|(other, _)| compare(other, key))
}

#[tactic(auto, using(crate::proofs::Searched::twins_ascend, crate::proofs::Searched::twins_found, crate::proofs::Searched::twins_missed))]
fn search_in(chunk: &Chunk, key: &Value) -> Result<usize, usize>
    requires { IsTrue (keys_ascend (entries_of (members_of chunk.now))) }
    ensures found { IfOk result (IsFoundAt (λ e. edn_cmp e.0 key.now) (members_of chunk.now)) }
    ensures absent { IfErr result (IsGapAt (λ e. edn_cmp e.0 key.now) (members_of chunk.now)) }
{
    match chunk {
        Chunk::Values(values) => search_values(values, key),
        Chunk::Pairs(pairs) => search_pairs(pairs, key),
        Chunk::One(x) => search_values(from_ref(x), key),
    }
}

impl Tree {
    // Whether all of these stand behind a key: the first does, or there is none.
    fn is_behind(&self, key: &Value) -> bool
        ensures { result ≡ are_behind self.now.0 key.now }
    {
        if self.len() == 0 {
            return true;
        }
        compare(key, self.pair_at(0).0) == Ordering::Less
    }

    /// Where the key is, or where it would go. It takes log n comparisons.
    pub(crate) fn search(&self, key: &Value) -> Result<usize, usize>
        requires { IsTrue (keys_ascend (entries_of self.now.0)) }
        ensures found { IfOk result (IsFoundAt (λ e. edn_cmp e.0 key.now) self.now.0) }
        ensures absent { IfErr result (IsGapAt (λ e. edn_cmp e.0 key.now) self.now.0) }
    {
        match &*self.limb {
            Limb::Leaf(_, _, chunk) => search_in(chunk, key),
            Limb::Fork {
                len,
                left,
                right,
                ..
            } => {
                // The type says that it fits.
                let _len = *len;
                if right.is_behind(key) {
                    return left.search(key);
                }
                let before = left.len();
                match right.search(key) {
                    Ok(i) => Ok(before + i),
                    Err(i) => Err(before + i),
                }
            }
        }
    }
}
