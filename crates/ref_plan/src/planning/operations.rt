//! The operations of a transaction.
ghost use Rattle.std.specs.Prelude.{◌≡◌, ◌≢◌, None, Some, IfErr, IfOk};
ghost use Rattle.ref_forms.specs.Reading.{Reads};
ghost use Rattle.ref_plan.specs.Operations.{op_of, op_said, ops_said, tagged_op};

use crate::planning::names::Declared;
use crate::plans::{PlannedOp, PlannedOps};
use ref_calls::{OperationWord, Version, operation_named};
use ref_forms::carrying::carrying_on;
use ref_forms::plain::tagged_in;
use ref_forms::references::{call_on, number_alone, requirement_on, value_on};
use ref_forms::{Kind, Wrong};
use ref_fun::Action;
use ref_log::{Op, Sent};
use ref_value::Value;
use ref_value::vectors::Iter;
use std::alloc::Global;

/// How many operations a transaction may have.
pub const MOST_OPERATIONS: usize = 256;

// What stands behind the word of an operation.
fn operation_of(
    alloc: Global,
    declared: &Declared,
    word: OperationWord,
    parts: Iter<'_>,
) -> Result<PlannedOp, Wrong>
    ensures { Reads (op_said declared.now word parts.entry) result }
{
    match word {
        OperationWord::Set => {
            let (r, value) = value_on(declared, Kind::Ref, parts)?;
            Ok(PlannedOp::On(r, Op::Set(value)))
        }
        OperationWord::Alter => {
            let (r, action) = call_on(alloc, declared, Kind::Ref, parts)?;
            Ok(PlannedOp::On(r, Op::Alter(action.code, action.args)))
        }
        OperationWord::Commute => {
            let (r, action) = call_on(alloc, declared, Kind::Ref, parts)?;
            Ok(PlannedOp::On(r, Op::Commute(action.code, action.args)))
        }
        OperationWord::Ensure => {
            let r = number_alone(declared, Kind::Ref, parts)?;
            Ok(PlannedOp::On(r, Op::Ensure))
        }
        OperationWord::Require => {
            let (r, rule) = requirement_on(alloc, declared, parts)?;
            Ok(PlannedOp::Require(r, rule))
        }
        OperationWord::Send => {
            let (agent, action) = call_on(alloc, declared, Kind::Agent, parts)?;
            Ok(PlannedOp::Send(Sent { agent, action }))
        }
        OperationWord::SendCarry => {
            let (agent, action) = carrying_on(alloc, declared, parts)?;
            Ok(PlannedOp::Send(Sent { agent, action }))
        }
    }
}

// The operation of this word, if the version has it.
fn tagged_operation(
    alloc: Global,
    version: Version,
    declared: &Declared,
    word: &[u8],
    parts: Iter<'_>,
) -> Result<PlannedOp, Wrong>
    ensures { Reads (tagged_op version declared.now word.now parts.entry) result }
{
    match operation_named(version, word) {
        Some(word) => operation_of(alloc, declared, word, parts),
        None => Err(Wrong::Form),
    }
}

/// `[WORD NAME REST ..]`.
fn operation(
    alloc: Global,
    version: Version,
    declared: &Declared,
    form: &Value,
) -> Result<PlannedOp, Wrong>
    ensures { Reads (op_of version declared.now form.now) result }
{
    match tagged_in(form) {
        Some((word, parts)) => tagged_operation(alloc, version, declared, word, parts),
        None => Err(Wrong::Form),
    }
}

/// The operations that these forms say, at most 256. A wrong form of any of them comes first, then a wrong name, then a wrong function.
#[tactic(auto, using(ref_forms::specs::Laws::known_more))]
pub fn operations(
    alloc: Global,
    version: Version,
    declared: &Declared,
    forms: Iter<'_>,
) -> Result<PlannedOps, Wrong>
    ensures ok { IfOk result (λ ops. ops_said version declared.now forms.entry ≡ Some ops) }
    ensures wrong { IfErr result (λ w. w ≢ Wrong.Memory → ops_said version declared.now forms.entry ≡ None) }
{
    let mut ops = PlannedOps::none();
    let mut worst = None;
    let mut seen = 0;
    for form in forms {
        if seen >= MOST_OPERATIONS {
            return Err(Wrong::Form);
        }
        seen += 1;
        match operation(alloc, version, declared, form) {
            Ok(op) => ops = ops.with(alloc, op)?,
            Err(wrong) => worst = Some(wrong.worse(worst)),
        }
    }
    match worst {
        None => {
            ops.shrink_to_fit();
            Ok(ops)
        }
        Some(wrong) => Err(wrong),
    }
}
