//! The audit of a dump's text.
ghost use Rattle.std.specs.Prelude.{◌+◌, ◌≡◌, ◌≢◌, ◌<◌, ◌≤◌, ℕ, IfOk, IfErr, IfSome, OnOk, OnErr, length, vec_len};
ghost use Rattle.std.specs.Io.KnownBytes.{Appends, IsAtEnd};
ghost use Rattle.ref_edn.specs.Streams.{AppendsPart, ConsumesUpTo, Counts};
ghost use Rattle.ref_fun.specs.Calls.{HasCore};
ghost use Rattle.refrun.specs.Auditing.{CountsReads, CountsWrites, IsAtFault, IsAudit, IsAuditOf, IsOfInput, IsOfText};
ghost use Rattle.refrun.specs.Inputs.{HasBrokenOff, HasWritten, most_of};

use crate::faults::AuditRunFault;
use crate::limits::most_of;
use ref_audit::{Verdict, audit, line_of};
use ref_edn::{Failed, InputFault, Sink, Source, read_one, read_to_end, write_all};
use ref_fun::{Core, Functions};
use std::alloc::Global;

/// Reads a dump to its end, audits it by a table of Core's functions, and writes the verdict's line.
///
/// Nothing is written before the audit has ended. The reader is read to its end or to one byte more than an input may have.
pub fn audit_text<F: Functions<Core>, R: Source, W: Sink>(
    alloc: Global,
    funs: &F,
    is_large: bool,
    reader: &mut R,
    writer: &mut W,
) -> Result<Verdict, AuditRunFault>
    requires { HasCore (F.knows funs.now) }
    ensures taken { ConsumesUpTo (R.left reader.old) (R.left reader.new) (most_of is_large + 1) }
    ensures ok { IfOk result (λ verdict.
        HasWritten (most_of is_large) (IsAuditOf verdict) (R.left reader.old) (R.left reader.new) (W.written writer.old)
        (W.written writer.new)) }
    // The text, its value or its length is at fault, where the fault says so.
    ensures fault { IfErr result (λ f. IfSome (R.left reader.old) (λ text. IsAtFault (most_of is_large) text f)) }
    ensures write { IfErr result (λ f. f ≡ AuditRunFault.Write
        → HasBrokenOff (most_of is_large) IsAudit (R.left reader.old) (R.left reader.new) (W.written writer.old) (W.written writer.new)) }
    // Before any other fault nothing was written.
    ensures silent { IfErr result (λ f. f ≢ AuditRunFault.Write → W.written writer.new ≡ W.written writer.old) }
    ensures reads { CountsReads (R.failures reader.old) (R.failures reader.new) result }
    ensures writes { CountsWrites (W.failures writer.old) (W.failures writer.new) result }
{
    let input = read_text(alloc, is_large, reader)?;
    let (line, verdict) = audit_of(alloc, funs, &input)?;
    write_text(writer, &line)?;
    Ok(verdict)
}

// The verdict on the dump that a text writes, and its line.
fn audit_of<F: Functions<Core>>(
    alloc: Global,
    funs: &F,
    text: &[u8],
) -> Result<(Vec<u8>, Verdict), AuditRunFault>
    requires { HasCore (F.knows funs.now) }
    ensures ok { IfOk result (λ r. IsAuditOf r.1 text.now r.0.items) }
    ensures fault { IfErr result (λ f. (most : ℕ) → IsAtFault most text.now f) }
    ensures inner { IfErr result IsOfText }
{
    let value = read_one(alloc, text)?;
    let verdict = audit(alloc, funs, &value)?;
    match line_of(alloc, &verdict) {
        Ok(line) => Ok((line, verdict)),
        Err(_) => Err(AuditRunFault::Memory),
    }
}

/// Reads a dump to its end, or to one byte more than it may have.
pub(crate) fn read_text<R: Source>(
    alloc: Global,
    is_large: bool,
    reader: &mut R,
) -> Result<Vec<u8>, AuditRunFault>
    ensures all { IfOk result (λ text. IfSome (R.left reader.old) (λ all. text.items ≡ all)) }
    ensures end { OnOk result (IsAtEnd (R.left reader.new)) }
    ensures short { IfOk result (λ text. vec_len text ≤ most_of is_large) }
    ensures kinds { IfErr result IsOfInput }
    ensures too_long { IfErr result (λ f. f ≡ AuditRunFault.InputTooLong
        → IfSome (R.left reader.old) (λ all. most_of is_large < length all)) }
    ensures taken { ConsumesUpTo (R.left reader.old) (R.left reader.new) (most_of is_large + 1) }
    ensures reads { CountsReads (R.failures reader.old) (R.failures reader.new) result }
{
    match read_to_end(alloc, reader, most_of(is_large)) {
        Ok(input) => Ok(input),
        Err(InputFault::Read) => Err(AuditRunFault::Read),
        Err(InputFault::TooLong) => Err(AuditRunFault::InputTooLong),
        Err(InputFault::Memory) => Err(AuditRunFault::Memory),
    }
}

/// Writes all of a text, and stops at the first write that fails.
pub(crate) fn write_text<W: Sink>(writer: &mut W, text: &[u8]) -> Result<(), AuditRunFault>
    ensures ok { OnOk result (Appends (W.written writer.old) (W.written writer.new) text.now) }
    ensures err { OnErr result (AppendsPart (W.written writer.old) (W.written writer.new) text.now) }
    ensures fault { IfErr result (λ f. f ≡ AuditRunFault.Write) }
    ensures writes { Counts (W.failures writer.old) (W.failures writer.new) result }
{
    match write_all(writer, text) {
        Ok(()) => Ok(()),
        Err(Failed) => Err(AuditRunFault::Write),
    }
}
