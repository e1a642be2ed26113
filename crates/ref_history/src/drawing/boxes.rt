//! The picture: lanes, points, boxes, and lines to what overtook them.
ghost use Rattle.std.specs.Prelude.{IfErr, OnOk};
ghost use Rattle.ref_output.specs.Pieces.{CountsWrites};
ghost use Rattle.ref_history.specs.Written.{Draws, DrawsPart};

use crate::drawing::escaping::append_escaped;
use crate::drawing::frames::Frame;
use crate::entry_lines::append_line;
use crate::places::{Place, first_place, place_after};
use ref_edn::Sink;
use ref_forms::Names;
use ref_log::{Entry, Transaction};
use ref_output::{OutputFault, write_piece};
use ref_verdict::reading::dumps::Dump;
use std::alloc::{AllocError, Global};

// Each point of this many has its number.
const NUMBERED: usize = 5;

// How many lines to others a box has at most: to the transactions that overtook it last.
const MOST_LINES: u64 = 16;

/// Writes the picture, behind what waits: the names of the lanes, which stay where they are when the rest is moved sideways, and the rest.
pub(crate) fn write_picture<W: Sink>(
    alloc: Global,
    names: &Names,
    frame: &Frame,
    dump: &Dump,
    writer: &mut W,
    waiting: &mut Vec<u8>,
) -> Result<(), OutputFault>
    ensures ok { OnOk result (Draws (W.written writer.old) (W.written writer.new)) }
    ensures err { IfErr result (λ f. DrawsPart f (W.written writer.old) (W.written writer.new)) }
    ensures writes { CountsWrites (W.failures writer.old) (W.failures writer.new) result }
{
    append_ground(alloc, frame, waiting)?;
    write_entries(alloc, names, frame, dump, true, writer, waiting)?;
    write_entries(alloc, names, frame, dump, false, writer, waiting)?;
    waiting.extend_from_slice(b"</svg>\n")?;
    Ok(())
}

// The names of the lanes, and the lanes and points on which the entries are drawn.
fn append_ground(alloc: Global, frame: &Frame, out: &mut Vec<u8>) -> Result<(), AllocError> {
    let (left, right) = (frame.left(), frame.right());
    append_head(alloc, frame, "names", 0, left, out)?;
    append_lane_names(alloc, frame, out)?;
    out.extend_from_slice(b"</svg>\n")?;
    append_head(alloc, frame, "entries", left, right, out)?;
    append_lanes(alloc, frame, out)?;
    append_points(alloc, frame, out)
}

// The beginning of a part of the picture, from `left` to `right`.
fn append_head(
    alloc: Global,
    frame: &Frame,
    class: &str,
    left: u64,
    right: u64,
    out: &mut Vec<u8>,
) -> Result<(), AllocError> {
    let (width, height) = (right.saturating_sub(left), frame.height());
    let head = format!(in alloc;
        "<svg xmlns=\"http://www.w3.org/2000/svg\" role=\"img\" class=\"{class}\" width=\"{width}\" height=\"{height}\" viewBox=\"{left} 0 {width} {height}\">\n"
    )?;
    out.extend_from_slice(head.as_bytes())
}

fn append_lane_names(alloc: Global, frame: &Frame, out: &mut Vec<u8>) -> Result<(), AllocError> {
    for (lane, worker) in frame.workers.iter().enumerate() {
        let name = format!(in alloc; "worker {worker}")?;
        append_lane_name(alloc, frame, lane as u64, name.as_str(), out)?;
    }
    append_lane_name(alloc, frame, frame.last_lane(), "atoms, made", out)
}

fn append_lane_name(
    alloc: Global,
    frame: &Frame,
    lane: u64,
    name: &str,
    out: &mut Vec<u8>,
) -> Result<(), AllocError> {
    let y = frame.middle(lane).saturating_add(4);
    let text = format!(in alloc; "<text x=\"4\" y=\"{y}\">{name}</text>\n")?;
    out.extend_from_slice(text.as_bytes())
}

fn append_lanes(alloc: Global, frame: &Frame, out: &mut Vec<u8>) -> Result<(), AllocError> {
    for lane in 0..frame.last_lane().saturating_add(1) {
        let (y, left, right) = (frame.middle(lane), frame.left(), frame.right());
        let line = format!(in alloc;
            "<line class=\"lane\" x1=\"{left}\" y1=\"{y}\" x2=\"{right}\" y2=\"{y}\"/>\n"
        )?;
        out.extend_from_slice(line.as_bytes())?;
    }
    Ok(())
}

fn append_points(alloc: Global, frame: &Frame, out: &mut Vec<u8>) -> Result<(), AllocError> {
    for column in 0..frame.count() as usize {
        if column % NUMBERED == 0 {
            append_point(alloc, frame, frame.first.saturating_add(column as u64), out)?;
        }
    }
    Ok(())
}

// A point, with its number above the lanes and below them.
fn append_point(
    alloc: Global,
    frame: &Frame,
    point: u64,
    out: &mut Vec<u8>,
) -> Result<(), AllocError> {
    let (x, bottom) = (frame.x(point), frame.bottom());
    let below = bottom.saturating_add(12);
    let mark = format!(in alloc;
        "<line class=\"point\" x1=\"{x}\" y1=\"18\" x2=\"{x}\" y2=\"{bottom}\"/>\n<text class=\"point\" x=\"{x}\" y=\"14\">{point}</text>\n<text class=\"point\" x=\"{x}\" y=\"{below}\">{point}</text>\n"
    )?;
    out.extend_from_slice(mark.as_bytes())
}

// Writes what is drawn of each entry: first the lines to what overtook it, which lie below, then the boxes.
fn write_entries<W: Sink>(
    alloc: Global,
    names: &Names,
    frame: &Frame,
    dump: &Dump,
    are_lines: bool,
    writer: &mut W,
    waiting: &mut Vec<u8>,
) -> Result<(), OutputFault>
    ensures ok { OnOk result (Draws (W.written writer.old) (W.written writer.new)) }
    ensures err { IfErr result (λ f. DrawsPart f (W.written writer.old) (W.written writer.new)) }
    ensures writes { CountsWrites (W.failures writer.old) (W.failures writer.new) result }
{
    let mut place = first_place(&dump.base)?;
    for entry in &dump.entries {
        append_entry(alloc, names, frame, dump, are_lines, place, entry, waiting)?;
        write_piece(writer, waiting)?;
        place = place_after(entry, place)?;
    }
    Ok(())
}

// What is drawn of an entry, if it has a place in the frame.
fn append_entry(
    alloc: Global,
    names: &Names,
    frame: &Frame,
    dump: &Dump,
    are_lines: bool,
    place: Place,
    entry: &Entry,
    out: &mut Vec<u8>,
) -> Result<(), AllocError> {
    if !frame.has(place.point) {
        Ok(())
    } else if are_lines {
        append_overtakers(alloc, frame, dump, place.point, entry, out)
    } else {
        append_box(alloc, names, frame, place, entry, out)
    }
}

// The lines of a transaction to the last of those of other workers that were committed between its read point and its commit.
fn append_overtakers(
    alloc: Global,
    frame: &Frame,
    dump: &Dump,
    point: u64,
    entry: &Entry,
    out: &mut Vec<u8>,
) -> Result<(), AllocError> {
    let Entry::Trans(transaction) = entry else {
        return Ok(());
    };
    let from = transaction.read_point.saturating_add(1).max(frame.first);
    let mut left = MOST_LINES;
    for at in (from..point).rev() {
        if left == 0 {
            break;
        }
        if let Some(worker) = other_worker(dump, at, transaction.stamp.worker) {
            append_line_to(alloc, frame, transaction, worker, at, out)?;
            left = left.saturating_sub(1);
        }
    }
    Ok(())
}

// Who committed the transaction at a point, if there is one and it was another worker.
fn other_worker(dump: &Dump, point: u64, worker: u32) -> Option<u32> {
    let index = point.saturating_sub(dump.base.point).saturating_sub(1);
    match dump.entries.get(index as usize) {
        Some(Entry::Trans(other)) if other.stamp.worker != worker => Some(other.stamp.worker),
        _ => None,
    }
}

fn append_line_to(
    alloc: Global,
    frame: &Frame,
    transaction: &Transaction,
    other: u32,
    at: u64,
    out: &mut Vec<u8>,
) -> Result<(), AllocError> {
    let (x1, x2) = (frame.x(transaction.read_point), frame.x(at));
    let y1 = frame.middle(lane_of_worker(frame, transaction.stamp.worker));
    let y2 = frame.middle(lane_of_worker(frame, other));
    let line = format!(in alloc;
        "<line class=\"over\" x1=\"{x1}\" y1=\"{y1}\" x2=\"{x2}\" y2=\"{y2}\"/>\n"
    )?;
    out.extend_from_slice(line.as_bytes())
}

fn lane_of_worker(frame: &Frame, worker: u32) -> u64 {
    match frame.workers.binary_search(&worker) {
        Ok(lane) => lane as u64,
        Err(lane) => lane as u64,
    }
}

// A box from the point at which an entry began to its own.
fn append_box(
    alloc: Global,
    names: &Names,
    frame: &Frame,
    place: Place,
    entry: &Entry,
    out: &mut Vec<u8>,
) -> Result<(), AllocError> {
    let begun = begun_of(entry, place.point);
    let (left, right) = (frame.x(begun), frame.x(place.point));
    let (x, width) = (
        left.saturating_add(1),
        right.saturating_sub(left).saturating_sub(2),
    );
    let lane = frame.lane_of(entry);
    let (y, height) = (frame.y(lane), frame.box_height());
    let (text_x, text_y) = (right.saturating_sub(4), y.saturating_add(16));
    out.extend_from_slice(b"<g><title>")?;
    append_title(alloc, names, place, entry, out)?;
    let label = label_of(alloc, place, entry)?;
    let colour = colour_of(entry);
    let drawn = format!(in alloc;
        "</title><rect class=\"{colour}\" x=\"{x}\" y=\"{y}\" width=\"{width}\" height=\"{height}\"/><text class=\"box\" x=\"{text_x}\" y=\"{text_y}\">{label}</text></g>\n"
    )?;
    out.extend_from_slice(drawn.as_bytes())
}

// The point at which an entry began: of a transaction its read point, of others the one before.
fn begun_of(entry: &Entry, point: u64) -> u64 {
    let before = point.saturating_sub(1);
    match entry {
        Entry::Trans(transaction) => transaction.read_point.min(before),
        Entry::Atom(_, _, _) | Entry::MadeRef(_) | Entry::MadeAtom(_) => before,
    }
}

// The line of a history, escaped.
fn append_title(
    alloc: Global,
    names: &Names,
    place: Place,
    entry: &Entry,
    out: &mut Vec<u8>,
) -> Result<(), AllocError> {
    let mut line = Vec::new(alloc);
    append_line(alloc, names, place, entry, &mut line)?;
    append_escaped(line.as_slice(), out)
}

// What stands in a box: the first ref that was touched, or the atom, or what was made.
fn label_of(alloc: Global, place: Place, entry: &Entry) -> Result<String, AllocError> {
    match entry {
        Entry::Trans(transaction) => match first_ref(transaction) {
            Some(r) => format!(in alloc; "r{r}"),
            None => String::from_str(alloc, "-"),
        },
        Entry::Atom(a, _, _) => format!(in alloc; "a{a}"),
        Entry::MadeRef(_) => format!(in alloc; "+r{}", place.refs),
        Entry::MadeAtom(_) => format!(in alloc; "+a{}", place.atoms),
    }
}

// The first ref that a transaction touched, or else the first that it ensured.
fn first_ref(transaction: &Transaction) -> Option<u32> {
    for done in transaction.dones.as_slice() {
        if !done.op.is_ensure() {
            return Some(done.r);
        }
    }
    match transaction.dones.as_slice().first() {
        Some(done) => Some(done.r),
        None => None,
    }
}

fn colour_of(entry: &Entry) -> &'static str {
    match entry {
        Entry::Trans(transaction) => match first_ref(transaction) {
            Some(r) => colour(r),
            None => "none",
        },
        Entry::Atom(_, _, _) | Entry::MadeRef(_) | Entry::MadeAtom(_) => "none",
    }
}

/// The class of a ref's colour. There are eight, so the label says which ref it is.
pub(crate) fn colour(r: u32) -> &'static str {
    match r % 8 {
        0 => "c0",
        1 => "c1",
        2 => "c2",
        3 => "c3",
        4 => "c4",
        5 => "c5",
        6 => "c6",
        _ => "c7",
    }
}
