//! Whether a text is a workload.
ghost use Rattle.std.specs.Prelude.{◌+◌, ◌≡◌, ◌≢◌, IfErr, IfSome, OnOk};
ghost use Rattle.ref_edn.specs.Streams.{ConsumesUpTo};
ghost use Rattle.ref_workload.specs.Run.{IsAtFault, IsOfText};
ghost use Rattle.ref_workload.specs.Streams.{CountsReads, CountsWrites, HasBrokenOff, HasWritten};
ghost use Rattle.refrun.specs.Checking.{IsCheckOf, IsOfChecking, writes_workload};
ghost use Rattle.ref_workload.specs.Streams.{most_input};

use ref_edn::{Sink, Source, read_one};
use ref_workload::RunFault;
use ref_workload::plan::plan;
use ref_workload::streams::{read_input, write_output};
use std::alloc::Global;
use std::mem;

// What is written of a workload.
const WORKLOAD_OK: &[u8] = b"workload ok\n";

/// Reads a text to its end, and writes `workload ok` and a newline where it is a workload. Nothing is run.
///
/// The reader is read to its end or to one byte more than a workload may have.
pub fn check_text<R: Source, W: Sink>(
    alloc: Global,
    reader: &mut R,
    writer: &mut W,
) -> Result<(), RunFault>
    // It reads no further than one byte past what a workload may have.
    ensures taken { ConsumesUpTo (R.left reader.old) (R.left reader.new) (most_input + 1) }
    ensures ok { OnOk result (HasWritten IsCheckOf (R.left reader.old) (R.left reader.new) (W.written writer.old)
        (W.written writer.new)) }
    // The text, its value or its length is at fault, where the fault says so.
    ensures fault { IfErr result (λ f. IfSome (R.left reader.old) (λ text. IsAtFault text f)) }
    ensures kinds { IfErr result IsOfChecking }
    ensures write { IfErr result (λ f. f ≡ RunFault.Write
        → HasBrokenOff IsCheckOf (R.left reader.old) (R.left reader.new) (W.written writer.old)
        (W.written writer.new)) }
    // Before any other fault nothing was written.
    ensures silent { IfErr result (λ f. f ≢ RunFault.Write → W.written writer.new ≡ W.written writer.old) }
    ensures reads { CountsReads (R.failures reader.old) (R.failures reader.new) result }
    ensures writes { CountsWrites (W.failures writer.old) (W.failures writer.new) result }
{
    let input = read_input(alloc, reader)?;
    check(alloc, &input)?;
    write_output(writer, WORKLOAD_OK)
}

// Whether a text is a workload.
fn check(alloc: Global, text: &[u8]) -> Result<(), RunFault>
    ensures ok { OnOk result (IsCheckOf text.now writes_workload) }
    ensures fault { IfErr result (λ f. IsAtFault text.now f) }
    ensures kinds { IfErr result IsOfChecking }
    ensures inner { IfErr result IsOfText }
{
    let value = read_one(alloc, text)?;
    let plan = plan(alloc, &value)?;
    // The program ends next, and its memory with it. To free each block before that would take a seventh of its time.
    mem::forget(plan);
    mem::forget(value);
    Ok(())
}
