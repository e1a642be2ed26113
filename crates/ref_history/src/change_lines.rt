//! The history of a dump by its changes.
ghost use Rattle.std.specs.Prelude.{◌≡◌, ◌≢◌, ◌<◌, ◌^◌, ◌++◌, [], Some, Ok, Err, decimal, IfOk, IfErr, OnOk, if◌then◌else◌};
ghost use Rattle.std.specs.List.{flat_map};
ghost use Rattle.ref_fun.specs.Calls.{HasCore};
ghost use Rattle.ref_fun.specs.Core.{core_means};
ghost use Rattle.ref_log.specs.Replay.{point_after, replay, step};
ghost use Rattle.ref_verdict.specs.OfCore.{IsOfCore};
ghost use Rattle.std.specs.Io.KnownBytes.{Appends};
ghost use Rattle.ref_output.specs.Pieces.{BreaksOff, CountsWrites, WritesOne};
ghost use Rattle.ref_history.specs.Changes.{all_changes, change_line, change_of, change_text, changes_text, entry_befores, entry_changes};
ghost use Rattle.ref_history.specs.Written.{CountsLook, IsLeft, IsLooked};
ghost use Rattle.ref_history.specs.Shown.{reference_text};
ghost use Rattle.ref_history.specs.Visible.{line};

use crate::befores::{Before, befores, push_before};
use crate::entry_lines::{append_count, append_made, append_stamp, counted};
use crate::faults::LookFault;
use crate::places::{Choice, Place, first_place, place_after};
use crate::shown::{append_number, append_reference, append_sends, append_spaced};
use crate::steps::Values;
use crate::visible::{ROOM_OF_LINE, append_visible_line};
use ref_edn::{Sink, print};
use ref_forms::kinds::of_kind;
use ref_forms::{Kind, Names};
use ref_fun::{Core, Functions};
use ref_log::{AuditFault, Entry, PlainState, Who, replay_plain};
use ref_output::{OutputFault, write_piece, write_rest};
use ref_value::Value;
use ref_verdict::reading::dumps::Dump;
use std::alloc::{AllocError, Global};

/// Writes the history of a dump by its changes: as [`write_history`](crate::entry_lines::write_history), but in place of the operations
/// of an entry stand the references that it touched, with the values before and after. The log is replayed twice, first for the fault of
/// its replay, which is returned if there is one. Linear in the dump and in the text, but for the functions that a replay calls.
pub fn write_changes<F: Functions<Core>, W: Sink>(
    alloc: Global,
    funs: &F,
    names: &Names,
    choice: &Choice,
    dump: &Dump,
    writer: &mut W,
) -> Result<(), LookFault>
    requires core { HasCore (F.knows funs.now) }
    requires dump { IsOfCore dump.now }
    requires points { point_after dump.now.base dump.now.entries < 2 ^ 64 }
    ensures ok { OnOk result (WritesOne (IsLooked (changes_text names.now choice.now dump.now))
        (W.written writer.old) (W.written writer.new)) }
    ensures err { IfErr result (λ f. IsLeft (changes_text names.now choice.now dump.now) f
        (W.written writer.old) (W.written writer.new)) }
    ensures writes { CountsLook (W.failures writer.old) (W.failures writer.new) result }
{
    match replayed(alloc, funs, dump) {
        Ok(_end) => match write_lines(alloc, funs, names, choice, dump, writer) {
            Ok(()) => Ok(()),
            Err(fault) => Err(LookFault::Output(fault)),
        },
        Err(fault) => Err(LookFault::of_replay(fault)),
    }
}

// The values at the end, or the first fault.
#[tactic(auto, using(crate::proofs::Needed::nothing_missing))]
fn replayed<F: Functions<Core>>(
    alloc: Global,
    funs: &F,
    dump: &Dump,
) -> Result<PlainState, AuditFault>
    requires core { HasCore (F.knows funs.now) }
    requires dump { IsOfCore dump.now }
    requires points { point_after dump.now.base dump.now.entries < 2 ^ 64 }
    ensures ok { IfOk result (λ state. replay core_means dump.now.base dump.now.entries ≡ Ok state) }
    ensures err { IfErr result (λ fault. fault ≢ AuditFault.Memory
        → replay core_means dump.now.base dump.now.entries ≡ Err fault) }
{
    match replay_plain(alloc, funs, &dump.base, &dump.entries) {
        // The table has all functions of Core, and the entries call no others.
        Err(AuditFault::NoSuchFun(_)) => unreachable!(),
        replayed => replayed,
    }
}

// Writes the lines of a dump whose replay comes to its end.
fn write_lines<F: Functions<Core>, W: Sink>(
    alloc: Global,
    funs: &F,
    names: &Names,
    choice: &Choice,
    dump: &Dump,
    writer: &mut W,
) -> Result<(), OutputFault>
    ensures ok { OnOk result (Appends (W.written writer.old) (W.written writer.new)
        (all_changes names.now choice.now dump.now)) }
    ensures err { IfErr result (λ f. BreaksOff f (W.written writer.old) (W.written writer.new)
        (all_changes names.now choice.now dump.now)) }
    ensures writes { CountsWrites (W.failures writer.old) (W.failures writer.new) result }
{
    let mut text = Vec::new(alloc);
    let mut values = Values::of(alloc, &dump.base)?;
    let mut place = first_place(&dump.base)?;
    let mut chosen = 0;
    for entry in &dump.entries {
        let is_chosen = choice.takes(place, entry);
        append_step(
            alloc,
            funs,
            names,
            is_chosen,
            place,
            entry,
            &mut values,
            &mut text,
        )?;
        write_piece(writer, &mut text)?;
        chosen = counted(is_chosen, chosen)?;
        place = place_after(entry, place)?;
    }
    append_count(alloc, dump.entries.len() as u64, chosen, &mut text)?;
    write_rest(writer, &mut text)
}

// Applies an entry to the values, and appends its line if it is chosen.
fn append_step<F: Functions<Core>>(
    alloc: Global,
    funs: &F,
    names: &Names,
    is_chosen: bool,
    place: Place,
    entry: &Entry,
    values: &mut Values,
    out: &mut Vec<u8>,
) -> Result<(), AllocError>
    ensures step { OnOk result (step core_means place.point entry.now values.old ≡ Ok values.new) }
    ensures text { OnOk result (out.new.items ≡ out.old.items
        ++ (if is_chosen then change_line names.now place entry.now values.old values.new else [])) }
{
    if !is_chosen {
        return values.apply(alloc, funs, place.point, entry);
    }
    let befores = befores_of(alloc, values, entry)?;
    values.apply(alloc, funs, place.point, entry)?;
    append_change_line(alloc, names, place, entry, &befores, values, out)
}

// The line of an entry, by what it touched with the values before, and the values after.
fn append_change_line(
    alloc: Global,
    names: &Names,
    place: Place,
    entry: &Entry,
    befores: &[Before],
    values: &Values,
    out: &mut Vec<u8>,
) -> Result<(), AllocError>
    ensures { OnOk result (out.new.items ≡ out.old.items
        ++ line (decimal place.point ++ entry_changes names.now place entry.now befores.now values.now)) }
{
    let mut text = Vec::with_capacity(alloc, ROOM_OF_LINE)?;
    append_number(place.point, &mut text)?;
    append_changes(alloc, names, place, entry, befores, values, &mut text)?;
    append_visible_line(alloc, &text, out)
}

// What an entry touches, with the values before it.
fn befores_of(alloc: Global, values: &Values, entry: &Entry) -> Result<Vec<Before>, AllocError>
    ensures { IfOk result (λ befores. befores.items ≡ entry_befores values.now entry.now) }
{
    match entry {
        Entry::Trans(transaction) => befores(alloc, values.refs(), transaction.dones.as_slice()),
        Entry::Atom(a, _, _) => {
            let mut befores = Vec::new(alloc);
            push_before(values.atoms(), *a, &mut befores)?;
            Ok(befores)
        }
        Entry::MadeRef(_) | Entry::MadeAtom(_) => Ok(Vec::new(alloc)),
    }
}

// What stands behind the point of an entry.
fn append_changes(
    alloc: Global,
    names: &Names,
    place: Place,
    entry: &Entry,
    befores: &[Before],
    values: &Values,
    out: &mut Vec<u8>,
) -> Result<(), AllocError>
    ensures { OnOk result (out.new.items ≡ out.old.items
        ++ entry_changes names.now place entry.now befores.now values.now) }
{
    match entry {
        Entry::Trans(transaction) => {
            append_stamp(transaction, out)?;
            append_befores(alloc, names, Kind::Ref, befores, values.refs(), out)?;
            append_sends(alloc, names, transaction.sends.as_slice(), out)
        }
        Entry::Atom(_, _, _) => {
            out.extend_from_slice(b" atom")?;
            append_befores(alloc, names, Kind::Atom, befores, values.atoms(), out)
        }
        Entry::MadeRef(value) => append_made(alloc, names, Who::Ref(place.refs), value, out),
        Entry::MadeAtom(value) => append_made(alloc, names, Who::Atom(place.atoms), value, out),
    }
}

// Each reference with its value before, and the one after.
#[tactic(auto, using(crate::proofs::Lists::flat_map_at))]
fn append_befores(
    alloc: Global,
    names: &Names,
    kind: Kind,
    befores: &[Before],
    values: &[Value],
    out: &mut Vec<u8>,
) -> Result<(), AllocError>
    ensures { OnOk result (out.new.items ≡ out.old.items
        ++ flat_map (change_of names.now kind values.now) befores.now) }
{
    for before in befores {
        append_before(alloc, names, kind, before, values, out)?;
    }
    Ok(())
}

fn append_before(
    alloc: Global,
    names: &Names,
    kind: Kind,
    before: &Before,
    values: &[Value],
    out: &mut Vec<u8>,
) -> Result<(), AllocError>
    ensures { OnOk result (out.new.items ≡ out.old.items ++ change_of names.now kind values.now before.now) }
{
    match values.get(before.number as usize) {
        Some(new) => {
            let who = of_kind(kind, before.number);
            append_change(alloc, names, who, &before.old, new, out)
        }
        None => Ok(()),
    }
}

// ` REFERENCE OLD -> NEW`
fn append_change(
    alloc: Global,
    names: &Names,
    who: Who,
    old: &Value,
    new: &Value,
    out: &mut Vec<u8>,
) -> Result<(), AllocError>
    ensures { OnOk result (out.new.items ≡ out.old.items
        ++ change_text (reference_text names.now who) old.now (Some new.now)) }
{
    out.extend_from_slice(b" ")?;
    append_reference(names, who, out)?;
    append_spaced(alloc, old, out)?;
    out.extend_from_slice(b" -> ")?;
    print(alloc, new, out)
}
