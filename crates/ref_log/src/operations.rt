//! What a transaction does to a ref.
ghost use Rattle.std.specs.BTreeSet.{contains};
ghost use Rattle.std.specs.Ordering.{nat_cmp};
ghost use Rattle.std.specs.Prelude.{◌≡◌, ℕ, IfOk, IfErr};
ghost use Rattle.ref_fun.specs.declared.faults.CallFault.TheVariants.{Memory};
ghost use Rattle.ref_log.specs.Replay.{PlaceAnswers, codes_of, is_commute, is_ensure, is_protected, is_set, missing, place};
ghost use Rattle.ref_log.specs.Tally.{fits_side, fits_tally, is_count};

use crate::counting::Side;
use ref_fun::{Args, CallFault, Functions, Meaning, Shareable};
use ref_value::{Node, Value};
use std::alloc::{AllocError, Global};
use std::collections::BTreeSet;

/// An operation on one ref.
pub enum Op {
    /// Clojure's `ref-set`: the ref gets this value.
    Set(Value),
    /// Clojure's `alter`: the ref gets what the function of this code gives for the arguments and the ref's value.
    Alter(u32, Args),
    /// Clojure's `commute`: as `alter` in the transaction; at the commit the function is called again, with the latest
    /// value.
    Commute(u32, Args),
    /// Clojure's `ensure`: the value of the ref stays. Where somebody else changes it before the commit, the transaction is in
    /// conflict.
    Ensure,
}

// A function of its own, which each place that drops one calls; a derived one would be written out there.
impl Drop for Op {
    fn drop(self) {
        match self {
            Op::Set(_value) => {}
            Op::Alter(_, _args) | Op::Commute(_, _args) => {}
            Op::Ensure => {}
        }
    }
}

/// An operation on the ref of number `r`, and what it answered.
#[derive(Drop)]
pub struct Done {
    pub r: u32,
    pub op: Op,
    pub answer: Value,
}

impl Op {
    /// What the operation makes of a ref's value, by the functions of a table.
    pub fn place<M: Meaning, F: Functions<M>>(
        &self,
        alloc: Global,
        funs: &F,
        value: &Value,
    ) -> Result<Value, CallFault>
        ensures { PlaceAnswers (missing (F.knows funs.now).funs (codes_of self.now))
            (place M.means self.now value.now) result }
    {
        match self {
            Op::Set(new) => shared(new),
            Op::Alter(code, args) | Op::Commute(code, args) => {
                funs.call(alloc, *code, value, args.as_slice())
            }
            Op::Ensure => shared(value),
        }
    }

    /// Whether it is called again at the commit: `commute` is.
    pub fn is_commute(&self) -> bool
        ensures { result ≡ is_commute self.now }
    {
        matches!(self, Op::Commute(_, _))
    }

    /// Whether it changes nothing: `ensure` doesn't.
    pub fn is_ensure(&self) -> bool
        ensures { result ≡ is_ensure self.now }
    {
        matches!(self, Op::Ensure)
    }

    /// Whether it sets the ref in the transaction: `ref-set` and `alter` do.
    pub fn is_set(&self) -> bool
        ensures { result ≡ is_set self.now }
    {
        matches!(self, Op::Set(_) | Op::Alter(_, _))
    }

    /// Whether it may be made on the tally: `commute` of `+` or `-` with one integer of 0 or more, and `ensure`.
    pub fn fits_tally(&self) -> bool
        ensures { result ≡ fits_tally self.now }
    {
        self.fits_side(Side::Added) || self.fits_side(Side::Taken)
    }

    /// Whether it may be made on a tally that moves to this side alone: `commute` of `+` or of `-` with one integer of 0 or more,
    /// and `ensure`.
    pub fn fits_side(&self, side: Side) -> bool
        ensures { result ≡ fits_side side self.now }
    {
        match self {
            Op::Commute(code, args) => *code == side.code() && is_count(args.as_slice()),
            Op::Ensure => true,
            Op::Set(_) | Op::Alter(_, _) => false,
        }
    }

    /// One more owner of all that the operation holds. It takes no memory; only the count of owners can refuse.
    pub fn share(&self) -> Result<Op, AllocError>
        ensures { IfOk result (λ op. op ≡ self.now) }
    {
        match self {
            Op::Set(value) => Ok(Op::Set(value.share()?)),
            Op::Alter(code, args) => Ok(Op::Alter(*code, args.share()?)),
            Op::Commute(code, args) => Ok(Op::Commute(*code, args.share()?)),
            Op::Ensure => Ok(Op::Ensure),
        }
    }
}

impl Shareable for Done {
    fn share(&self) -> Result<Done, AllocError> {
        Ok(Done {
            r: self.r,
            op: self.op.share()?,
            answer: self.answer.share()?,
        })
    }
}

/// The refs that a transaction of these operations protects.
pub fn protected_refs(alloc: Global, dones: &[Done]) -> Result<BTreeSet<u32>, AllocError>
    ensures { IfOk result (λ refs. (r : ℕ) → contains nat_cmp refs r ≡ is_protected dones.now r) }
{
    let mut refs = BTreeSet::new(alloc);
    for done in dones {
        if !done.op.is_commute() {
            refs.insert(done.r)?;
        }
    }
    Ok(refs)
}

fn shared(value: &Value) -> Result<Value, CallFault>
    ensures ok { IfOk result (λ v. v ≡ value.now) }
    ensures err { IfErr result (λ f. f ≡ Memory) }
{
    match value.share() {
        Ok(value) => Ok(value),
        Err(_) => Err(CallFault::Memory),
    }
}

// Whether the arguments are one integer of 0 or more.
fn is_count(args: &[Value]) -> bool
    ensures { result ≡ is_count args.now }
{
    match args {
        [by] => match by.node() {
            Node::Int(n) => *n >= 0,
            _ => false,
        },
        _ => false,
    }
}
