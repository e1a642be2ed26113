//! References that an entry touches, with their values before it.
ghost use Rattle.std.specs.Prelude.{◌≡◌, ◌++◌, [], IfOk, OnOk, slice_get};
ghost use Rattle.ref_history.specs.Changes.{before_of, befores_from};

use ref_log::Done;
use ref_value::Value;
use std::alloc::{AllocError, Global};
use std::collections::BTreeSet;

/// A reference by its number, and its value before an entry that touches it.
#[derive(Drop)]
pub struct Before {
    pub number: u32,
    pub old: Value,
}

/// The refs that the operations of a transaction touch, each once, with its value before. Linear in the operations but for look-ups.
#[tactic(auto, using(crate::proofs::Touched::befores_at))]
pub(crate) fn befores(
    alloc: Global,
    values: &[Value],
    dones: &[Done],
) -> Result<Vec<Before>, AllocError>
    ensures { IfOk result (λ befores. befores.items ≡ befores_from values.now [] dones.now) }
{
    let mut befores = Vec::new(alloc);
    let mut touched = BTreeSet::new(alloc);
    for done in dones {
        if !done.op.is_ensure() && !touched.contains(&done.r) {
            push_before(values, done.r, &mut befores)?;
            touched.insert(done.r)?;
        }
    }
    Ok(befores)
}

/// Adds a reference with its value, if it is there.
pub(crate) fn push_before(
    values: &[Value],
    number: u32,
    befores: &mut Vec<Before>,
) -> Result<(), AllocError>
    ensures { OnOk result (befores.new.items
        ≡ befores.old.items ++ before_of number (slice_get values.now number)) }
{
    match values.get(number as usize) {
        Some(value) => {
            befores.push(Before {
                number,
                old: value.share()?,
            })?;
            Ok(())
        }
        None => Ok(()),
    }
}
