//! The history of a dump.
ghost use Rattle.std.specs.Prelude.{◌≡◌, ◌+◌, ◌++◌, [], IfErr, IfOk, OnOk, if◌then◌else◌};
ghost use Rattle.std.specs.Io.KnownBytes.{Appends};
ghost use Rattle.ref_output.specs.Pieces.{BreaksOff, CountsWrites};
ghost use Rattle.ref_history.specs.History.{count_line, entry_line, entry_text, history_text, made_text, stamp_text, transaction_text};
ghost use Rattle.ref_history.specs.Places.{is_chosen};

use crate::places::{Choice, Place, first_place, place_after};
use crate::shown::{append_change, append_dones, append_number, append_reference, append_sends};
use crate::visible::{ROOM_OF_LINE, append_visible_line};
use ref_edn::{Sink, print};
use ref_forms::Names;
use ref_log::{Entry, Transaction, Who};
use ref_output::{OutputFault, write_piece, write_rest};
use ref_value::Value;
use ref_verdict::reading::dumps::Dump;
use std::alloc::{AllocError, Global};

/// Writes the history of a dump: a line for each entry that is chosen, in order, and a last one with how many entries there are and how many
/// were chosen. docs/HISTORY.md describes the lines. References without a name are printed as `ref 3`. Linear in the dump and in the text.
pub fn write_history<W: Sink>(
    alloc: Global,
    names: &Names,
    choice: &Choice,
    dump: &Dump,
    writer: &mut W,
) -> Result<(), OutputFault>
    ensures ok { OnOk result (Appends (W.written writer.old) (W.written writer.new)
        (history_text names.now choice.now dump.now)) }
    ensures err { IfErr result (λ f. BreaksOff f (W.written writer.old) (W.written writer.new)
        (history_text names.now choice.now dump.now)) }
    ensures writes { CountsWrites (W.failures writer.old) (W.failures writer.new) result }
{
    let mut text = Vec::new(alloc);
    let mut place = first_place(&dump.base)?;
    let mut chosen = 0;
    for entry in &dump.entries {
        let is_chosen = append_if_chosen(alloc, names, choice, place, entry, &mut text)?;
        write_piece(writer, &mut text)?;
        chosen = counted(is_chosen, chosen)?;
        place = place_after(entry, place)?;
    }
    append_count(alloc, dump.entries.len() as u64, chosen, &mut text)?;
    write_rest(writer, &mut text)
}

/// A count of one more, if there is one more.
pub(crate) fn counted(is_one: bool, count: u64) -> Result<u64, AllocError>
    ensures { IfOk result (λ next. next ≡ (if is_one then 1 else 0) + count) }
{
    if !is_one {
        return Ok(count);
    }
    match count.checked_add(1) {
        Some(next) => Ok(next),
        None => Err(AllocError),
    }
}

// Appends the line of an entry if it is chosen, and returns whether it is.
fn append_if_chosen(
    alloc: Global,
    names: &Names,
    choice: &Choice,
    place: Place,
    entry: &Entry,
    out: &mut Vec<u8>,
) -> Result<bool, AllocError>
    ensures text { OnOk result (out.new.items ≡ out.old.items
        ++ (if is_chosen choice.now place entry.now then entry_line names.now place entry.now else [])) }
    ensures chosen { IfOk result (λ chosen. chosen ≡ is_chosen choice.now place entry.now) }
{
    if !choice.takes(place, entry) {
        return Ok(false);
    }
    append_line(alloc, names, place, entry, out)?;
    Ok(true)
}

/// Appends the line of an entry.
pub(crate) fn append_line(
    alloc: Global,
    names: &Names,
    place: Place,
    entry: &Entry,
    out: &mut Vec<u8>,
) -> Result<(), AllocError>
    ensures { OnOk result (out.new.items ≡ out.old.items ++ entry_line names.now place entry.now) }
{
    let mut text = Vec::with_capacity(alloc, ROOM_OF_LINE)?;
    append_number(place.point, &mut text)?;
    append_entry(alloc, names, place, entry, &mut text)?;
    append_visible_line(alloc, &text, out)
}

fn append_entry(
    alloc: Global,
    names: &Names,
    place: Place,
    entry: &Entry,
    out: &mut Vec<u8>,
) -> Result<(), AllocError>
    ensures { OnOk result (out.new.items ≡ out.old.items ++ entry_text names.now place entry.now) }
{
    match entry {
        Entry::Trans(transaction) => append_transaction(alloc, names, transaction, out),
        Entry::Atom(a, op, answer) => {
            out.extend_from_slice(b" atom ")?;
            append_change(alloc, names, *a, op, answer, out)
        }
        Entry::MadeRef(value) => append_made(alloc, names, Who::Ref(place.refs), value, out),
        Entry::MadeAtom(value) => append_made(alloc, names, Who::Atom(place.atoms), value, out),
    }
}

/// Appends who committed a transaction, and at which point it began.
pub(crate) fn append_stamp(transaction: &Transaction, out: &mut Vec<u8>) -> Result<(), AllocError>
    ensures { OnOk result (out.new.items ≡ out.old.items ++ stamp_text transaction.now) }
{
    out.extend_from_slice(b" ")?;
    append_number(u64::from(transaction.stamp.worker), out)?;
    out.extend_from_slice(b" ")?;
    append_number(u64::from(transaction.stamp.step), out)?;
    out.extend_from_slice(b" read ")?;
    append_number(transaction.read_point, out)
}

fn append_transaction(
    alloc: Global,
    names: &Names,
    transaction: &Transaction,
    out: &mut Vec<u8>,
) -> Result<(), AllocError>
    ensures { OnOk result (out.new.items ≡ out.old.items ++ transaction_text names.now transaction.now) }
{
    append_stamp(transaction, out)?;
    append_dones(alloc, names, transaction.dones.as_slice(), out)?;
    append_sends(alloc, names, transaction.sends.as_slice(), out)
}

/// Appends that a reference was made with a value.
pub(crate) fn append_made(
    alloc: Global,
    names: &Names,
    who: Who,
    value: &Value,
    out: &mut Vec<u8>,
) -> Result<(), AllocError>
    ensures { OnOk result (out.new.items ≡ out.old.items ++ made_text names.now who value.now) }
{
    out.extend_from_slice(b" made ")?;
    append_reference(names, who, out)?;
    out.extend_from_slice(b" -> ")?;
    print(alloc, value, out)
}

/// Appends how many entries there are, and how many were chosen.
pub(crate) fn append_count(
    alloc: Global,
    entries: u64,
    chosen: u64,
    out: &mut Vec<u8>,
) -> Result<(), AllocError>
    ensures { OnOk result (out.new.items ≡ out.old.items ++ count_line entries chosen) }
{
    let mut text = Vec::new(alloc);
    text.extend_from_slice(b"entries ")?;
    append_number(entries, &mut text)?;
    text.extend_from_slice(b" chosen ")?;
    append_number(chosen, &mut text)?;
    append_visible_line(alloc, &text, out)
}
