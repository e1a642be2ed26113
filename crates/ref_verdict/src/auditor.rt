//! The audit of a dump.
ghost use Rattle.ref_fun.specs.Calls.{HasCore};
ghost use Rattle.ref_log.specs.Told.{AnswersOrMemory};
ghost use Rattle.ref_verdict.specs.DumpForm.{dump_of};
ghost use Rattle.ref_verdict.specs.Early.{first_fault};
ghost use Rattle.ref_verdict.specs.Verdict.{verdict_on};
ghost use Rattle.ref_verdict.specs.declared.reading.faults.DumpFault.TheVariants.{Memory};

use crate::reading::faults::DumpFault;
use crate::reading::read_dump;
use crate::reports::Verdict;
use crate::verdicts::verdict;
use ref_fun::{Core, Functions};
use ref_value::Value;
use std::alloc::Global;

/// The verdict on a dump: whether its entries, replayed one by one on its base, give its values, its rules accept them, its agents'
/// states are their starts folded over their done actions, and its books are those of its entries. docs/DUMPS.md has the form of
/// a dump, and the lines of a verdict.
///
/// It rests on nothing that the dump was made by but the functions of the table. Linear in the dump and in what its functions cost,
/// but for look-ups. That a value is no dump, or one of another version, that its first part is no number or its second no list, is
/// reported before any memory is taken.
pub fn audit<F: Functions<Core>>(
    alloc: Global,
    funs: &F,
    value: &Value,
) -> Result<Verdict, DumpFault>
    requires { HasCore (F.knows funs.now) }
    ensures { AnswersOrMemory Memory (first_fault value.now) (verdict_on (dump_of value.now)) result }
{
    match read_dump(alloc, value) {
        Ok(dump) => verdict(alloc, funs, &dump),
        Err(fault) => Err(fault),
    }
}
