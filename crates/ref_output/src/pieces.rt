//! What waits to be written, and is written in pieces.
ghost use Rattle.std.specs.Prelude.{◌≡◌, [], IfErr, OnOk};
ghost use Rattle.std.specs.Io.KnownBytes.{Appends};
ghost use Rattle.ref_output.specs.Pieces.{BreaksOff, CountsWrites, Remains};

use crate::faults::OutputFault;
use ref_edn::{Sink, write_all};

/// From how many bytes on what waits is written.
pub const PIECE: usize = 64 * 1024;

/// Writes what waits, if that is at least a [`PIECE`], and stops at the first write that fails.
pub fn write_piece<W: Sink>(writer: &mut W, waiting: &mut Vec<u8>) -> Result<(), OutputFault>
    ensures ok { OnOk result (Remains (W.written writer.old) (W.written writer.new) waiting.old.items waiting.new.items) }
    ensures err { IfErr result (λ f. BreaksOff f (W.written writer.old) (W.written writer.new) waiting.old.items) }
    ensures fault { IfErr result (λ f. f ≡ OutputFault.Write) }
    ensures writes { CountsWrites (W.failures writer.old) (W.failures writer.new) result }
{
    if waiting.len() < PIECE {
        return Ok(());
    }
    write_rest(writer, waiting)
}

/// Writes what waits, and stops at the first write that fails.
pub fn write_rest<W: Sink>(writer: &mut W, waiting: &mut Vec<u8>) -> Result<(), OutputFault>
    ensures ok { OnOk result (Appends (W.written writer.old) (W.written writer.new) waiting.old.items) }
    ensures none { OnOk result (waiting.new.items ≡ []) }
    ensures err { IfErr result (λ f. BreaksOff f (W.written writer.old) (W.written writer.new) waiting.old.items) }
    ensures fault { IfErr result (λ f. f ≡ OutputFault.Write) }
    ensures writes { CountsWrites (W.failures writer.old) (W.failures writer.new) result }
{
    write_all(writer, waiting)?;
    waiting.clear();
    Ok(())
}
