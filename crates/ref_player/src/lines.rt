//! The lines of a play.
ghost use Rattle.std.specs.Prelude.{◌≡◌, ◌++◌, IfErr, IfOk, OnOk};
ghost use Rattle.ref_output.specs.Pieces.{BreaksOff, CountsWrites, Remains};
ghost use Rattle.ref_player.specs.Lines.{event_line, event_lines, form_text, spaced, start_line};

use crate::fault_words::make_word;
use crate::replies::{append_reply, append_who};
use ref_audit::append_number;
use ref_edn::{Sink, print};
use ref_log::{MakeFault, Who};
use ref_output::{OutputFault, write_piece};
use ref_play::Reply;
use ref_value::{Items, Node, Value};
use std::alloc::{AllocError, Global};

// Each element, with a space in front.
fn append_spaced(alloc: Global, elements: &Items, out: &mut Vec<u8>) -> Result<(), AllocError>
    ensures { OnOk result (out.new.items ≡ out.old.items ++ spaced elements.now) }
{
    for element in elements {
        out.extend_from_slice(b" ")?;
        print(alloc, element, out)?;
    }
    Ok(())
}

// How an event is written, without the brackets.
#[tactic(auto, using(crate::proofs::Written::form_text_vector))]
fn append_form(alloc: Global, form: &Value, out: &mut Vec<u8>) -> Result<(), AllocError>
    ensures { OnOk result (out.new.items ≡ out.old.items ++ form_text form.now) }
{
    match form.node() {
        Node::Vector(elements) => append_spaced(alloc, elements, out),
        _ => {
            out.extend_from_slice(b" ")?;
            print(alloc, form, out)
        }
    }
}

fn append_line(
    alloc: Global,
    number: u64,
    form: &Value,
    reply: &Reply,
    out: &mut Vec<u8>,
) -> Result<(), AllocError>
    ensures { OnOk result (out.new.items ≡ out.old.items ++ event_line number form.now reply.now) }
{
    append_number(number, out)?;
    append_form(alloc, form, out)?;
    out.extend_from_slice(b" -> ")?;
    append_reply(alloc, reply, out)?;
    out.extend_from_slice(b"\n")
}

/// The line of a start that is refused: the reference that can't begin so, and why.
pub fn start_line(alloc: Global, who: Who, fault: MakeFault) -> Result<Vec<u8>, AllocError>
    ensures { IfOk result (λ text. text.items ≡ start_line who fault) }
{
    let mut text = Vec::new(alloc);
    text.extend_from_slice(b"start -> ")?;
    append_who(who, &mut text)?;
    text.extend_from_slice(b" ")?;
    text.extend_from_slice(make_word(fault).as_bytes())?;
    text.extend_from_slice(b"\n")?;
    Ok(text)
}

/// Writes a line for each event that was answered, behind what waits: its number, how it is written, and the reply to its actor. What is
/// less than a piece waits at the end. Linear in the text.
pub fn write_lines<W: Sink>(
    alloc: Global,
    forms: &Items,
    replies: &[Reply],
    writer: &mut W,
    waiting: &mut Vec<u8>,
) -> Result<(), OutputFault>
    ensures ok { OnOk result (Remains (W.written writer.old) (W.written writer.new)
        (waiting.old.items ++ event_lines 0 forms.now replies.now) waiting.new.items) }
    ensures err { IfErr result (λ f. BreaksOff f (W.written writer.old) (W.written writer.new)
        (waiting.old.items ++ event_lines 0 forms.now replies.now)) }
    ensures writes { CountsWrites (W.failures writer.old) (W.failures writer.new) result }
{
    for (i, reply) in replies.iter().enumerate() {
        match forms.get(i) {
            Some(form) => append_line(alloc, i as u64, form, reply, waiting)?,
            None => return Ok(()),
        }
        write_piece(writer, waiting)?;
    }
    Ok(())
}
