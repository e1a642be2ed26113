//! An input that is read whole, and an output that is written whole.
ghost use Rattle.std.specs.Prelude.{◌+◌, ◌≡◌, ◌<◌, ◌≤◌, IfOk, IfErr, IfSome, OnOk, OnErr, length, vec_len};
ghost use Rattle.std.specs.Io.KnownBytes.{Appends, IsAtEnd};
ghost use Rattle.ref_edn.specs.Streams.{AppendsPart, ConsumesUpTo, Counts};
ghost use Rattle.ref_workload.specs.Streams.{CountsReads, IsOfInput};
ghost use Rattle.ref_workload.specs.Streams.{most_input};

use crate::faults::RunFault;
use ref_edn::{Failed, InputFault, Sink, Source, read_to_end, write_all};
use std::alloc::Global;

/// How many bytes an input may have.
pub const MOST_INPUT: usize = 16_777_216;

/// Reads an input to its end, or to one byte more than it may have.
pub fn read_input<R: Source>(alloc: Global, reader: &mut R) -> Result<Vec<u8>, RunFault>
    ensures all { IfOk result (λ text. IfSome (R.left reader.old) (λ all. text.items ≡ all)) }
    ensures end { OnOk result (IsAtEnd (R.left reader.new)) }
    ensures short { IfOk result (λ text. vec_len text ≤ most_input) }
    ensures kinds { IfErr result IsOfInput }
    ensures too_long { IfErr result (λ f. f ≡ RunFault.InputTooLong
        → IfSome (R.left reader.old) (λ all. most_input < length all)) }
    ensures taken { ConsumesUpTo (R.left reader.old) (R.left reader.new) (most_input + 1) }
    ensures reads { CountsReads (R.failures reader.old) (R.failures reader.new) result }
{
    match read_to_end(alloc, reader, MOST_INPUT) {
        Ok(input) => Ok(input),
        Err(InputFault::Read) => Err(RunFault::Read),
        Err(InputFault::TooLong) => Err(RunFault::InputTooLong),
        Err(InputFault::Memory) => Err(RunFault::Memory),
    }
}

/// Writes all of an output, and stops at the first write that fails.
pub fn write_output<W: Sink>(writer: &mut W, output: &[u8]) -> Result<(), RunFault>
    ensures ok { OnOk result (Appends (W.written writer.old) (W.written writer.new) output.now) }
    ensures err { OnErr result (AppendsPart (W.written writer.old) (W.written writer.new) output.now) }
    ensures fault { IfErr result (λ f. f ≡ RunFault.Write) }
    ensures writes { Counts (W.failures writer.old) (W.failures writer.new) result }
{
    match write_all(writer, output) {
        Ok(()) => Ok(()),
        Err(Failed) => Err(RunFault::Write),
    }
}
