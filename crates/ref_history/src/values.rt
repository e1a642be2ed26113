//! The values at a point.
ghost use Rattle.std.specs.Prelude.{◌≡◌, ◌≢◌, ◌<◌, ◌^◌, ◌++◌, Ok, Err, IfOk, IfErr, OnOk, slice_get, true};
ghost use Rattle.std.specs.Io.KnownBytes.{Appends};
ghost use Rattle.ref_output.specs.Pieces.{BreaksOff, CountsWrites, Remains};
ghost use Rattle.ref_fun.specs.Calls.{HasCore};
ghost use Rattle.ref_log.specs.Replay.{point_after};
ghost use Rattle.ref_verdict.specs.OfCore.{IsOfCore};
ghost use Rattle.ref_history.specs.Values.{end_line, has_point, name_or_number, value_line, value_lines, values_at, values_text};

use crate::shown::{append_name, append_number};
use crate::visible::{ROOM_OF_LINE, append_visible_line};
use ref_edn::{Sink, print};
use ref_forms::Names;
use ref_fun::{Core, Functions};
use ref_log::{AuditFault, PlainState, replay_plain};
use ref_output::{OutputFault, write_piece, write_rest};
use ref_value::{Text, Value};
use ref_verdict::reading::dumps::Dump;
use std::alloc::{AllocError, Global};

/// Whether the base of a dump, or an entry after it, has this point.
pub fn has_point(dump: &Dump, point: u64) -> bool
    requires { point_after dump.now.base dump.now.entries < 2 ^ 64 }
    ensures { result ≡ has_point dump.now point }
{
    let last = dump.base.point + dump.entries.len() as u64;
    dump.base.point <= point && point <= last
}

/// The values of refs and atoms at a point that the dump has, by the replay of the entries up to it. Where the replay comes to a fault on the way, it is returned. Linear in the base and in the operations up to
/// there, but for the functions that they call.
#[tactic(auto, using(crate::proofs::Needed::nothing_missing_up_to))]
pub fn values_at<F: Functions<Core>>(
    alloc: Global,
    funs: &F,
    dump: &Dump,
    point: u64,
) -> Result<PlainState, AuditFault>
    requires core { HasCore (F.knows funs.now) }
    requires dump { IsOfCore dump.now }
    requires points { point_after dump.now.base dump.now.entries < 2 ^ 64 }
    requires there { has_point dump.now point ≡ true }
    ensures ok { IfOk result (λ state. values_at dump.now point ≡ Ok state) }
    ensures err { IfErr result (λ fault. fault ≢ AuditFault.Memory → values_at dump.now point ≡ Err fault) }
{
    let count = point.saturating_sub(dump.base.point) as usize;
    let first = dump.entries.first(alloc, count)?;
    match replay_plain(alloc, funs, &dump.base, &first) {
        // The table has all functions of Core, and the entries call no others.
        Err(AuditFault::NoSuchFun(_)) => unreachable!(),
        replayed => replayed,
    }
}

/// Writes the lines of values at a point, as a report has them: each with a name, or with its number where there is none. A last line says
/// that these are all. Linear in the text.
pub fn write_values<W: Sink>(
    alloc: Global,
    names: &Names,
    point: u64,
    state: &PlainState,
    writer: &mut W,
) -> Result<(), OutputFault>
    ensures ok { OnOk result (Appends (W.written writer.old) (W.written writer.new)
        (values_text names.now point state.now)) }
    ensures err { IfErr result (λ f. BreaksOff f (W.written writer.old) (W.written writer.new)
        (values_text names.now point state.now)) }
    ensures writes { CountsWrites (W.failures writer.old) (W.failures writer.new) result }
{
    let (refs, atoms) = (state.refs.as_slice(), state.atoms.as_slice());
    let mut text = Vec::new(alloc);
    write_kind(alloc, "ref", names.refs(), refs, writer, &mut text)?;
    write_kind(alloc, "atom", names.atoms(), atoms, writer, &mut text)?;
    append_end(alloc, point, &mut text)?;
    write_rest(writer, &mut text)
}

// The line behind all values.
fn append_end(alloc: Global, point: u64, out: &mut Vec<u8>) -> Result<(), AllocError>
    ensures { OnOk result (out.new.items ≡ out.old.items ++ end_line point) }
{
    let mut text = Vec::new(alloc);
    text.extend_from_slice(b"at ")?;
    append_number(point, &mut text)?;
    text.extend_from_slice(b" ok")?;
    append_visible_line(alloc, &text, out)
}

// Writes the lines of all values of a kind, behind what waits.
fn write_kind<W: Sink>(
    alloc: Global,
    kind: &str,
    names: &[Text],
    values: &[Value],
    writer: &mut W,
    waiting: &mut Vec<u8>,
) -> Result<(), OutputFault>
    ensures ok { OnOk result (Remains (W.written writer.old) (W.written writer.new)
        (waiting.old.items ++ value_lines kind.now names.now 0 values.now) waiting.new.items) }
    ensures err { IfErr result (λ f. BreaksOff f (W.written writer.old) (W.written writer.new)
        (waiting.old.items ++ value_lines kind.now names.now 0 values.now)) }
    ensures writes { CountsWrites (W.failures writer.old) (W.failures writer.new) result }
{
    for (n, value) in values.iter().enumerate() {
        append_value(alloc, kind, names, n, value, waiting)?;
        write_piece(writer, waiting)?;
    }
    Ok(())
}

fn append_value(
    alloc: Global,
    kind: &str,
    names: &[Text],
    n: usize,
    value: &Value,
    out: &mut Vec<u8>,
) -> Result<(), AllocError>
    ensures { OnOk result (out.new.items ≡ out.old.items ++ value_line kind.now names.now n value.now) }
{
    let mut text = Vec::with_capacity(alloc, ROOM_OF_LINE)?;
    text.extend_from_slice(kind.as_bytes())?;
    text.extend_from_slice(b" ")?;
    append_name_or_number(names, n, &mut text)?;
    text.extend_from_slice(b" ")?;
    print(alloc, value, &mut text)?;
    append_visible_line(alloc, &text, out)
}

// A name, or the number where there is none.
fn append_name_or_number(names: &[Text], n: usize, out: &mut Vec<u8>) -> Result<(), AllocError>
    ensures { OnOk result (out.new.items ≡ out.old.items ++ name_or_number n (slice_get names.now n)) }
{
    match names.get(n) {
        Some(name) => append_name(name.as_bytes(), out),
        None => append_number(n as u64, out),
    }
}
