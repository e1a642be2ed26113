//! How references, operations and sends are written.
ghost use Rattle.std.specs.Prelude.{◌≡◌, ◌≤◌, ◌<◌, ◌++◌, [], OnOk, decimal, length, slice_get, unwrap_or};
ghost use Rattle.std.specs.List.{flat_map};
ghost use Rattle.ref_fun.specs.Names.{core_names, name_in};
ghost use Rattle.ref_history.specs.Shown.{answered_text, atom_word, begin_of, bracketed, call_text, carry_text, carrying_head, carrying_send, done_text, goes_on, name_or, operation_text, plain_send, ref_word, reference_text, rest_text, send_text, shown_name, spaced};

use itoa::Buffer;
use ref_edn::print;
use ref_forms::Names;
use ref_fun::{Carry, name_of};
use ref_log::{Done, Op, Sent, Who};
use ref_value::{Text, Value};
use std::alloc::{AllocError, Global};

/// Appends a number in decimal.
pub(crate) fn append_number(n: u64, out: &mut Vec<u8>) -> Result<(), AllocError>
    ensures { OnOk result (out.new.items ≡ out.old.items ++ decimal n) }
{
    out.extend_from_slice(Buffer::new().format(n).as_bytes())
}

/// How many bytes of a name are shown at most.
pub const MOST_OF_NAME: usize = 256;

/// Appends a name, or as many of its characters as have room in [`MOST_OF_NAME`] bytes, and an ellipsis.
pub(crate) fn append_name(name: &[u8], out: &mut Vec<u8>) -> Result<(), AllocError>
    ensures { OnOk result (out.new.items ≡ out.old.items ++ shown_name name.now) }
{
    if name.len() <= MOST_OF_NAME {
        return out.extend_from_slice(name);
    }
    let end = begin_of(name, MOST_OF_NAME);
    out.extend_from_slice(&name[..end])?;
    out.extend_from_slice("…".as_bytes())
}

// Where the character begins that has the byte at a place. A character has at most four.
fn begin_of(text: &[u8], n: usize) -> usize
    requires first { 3 ≤ n }
    requires within { n < length text.now }
    ensures value { result ≡ begin_of text.now n }
    ensures before { result ≤ n }
{
    if !goes_on(text[n]) {
        n
    } else if !goes_on(text[n - 1]) {
        n - 1
    } else if !goes_on(text[n - 2]) {
        n - 2
    } else {
        n - 3
    }
}

// Whether a byte in UTF-8 goes on with a character.
fn goes_on(byte: u8) -> bool
    ensures { result ≡ goes_on byte }
{
    0x80 <= byte && byte <= 0xBF
}

/// Appends a reference by its name, or by its kind and number where it has none.
pub(crate) fn append_reference(names: &Names, who: Who, out: &mut Vec<u8>) -> Result<(), AllocError>
    ensures { OnOk result (out.new.items ≡ out.old.items ++ reference_text names.now who) }
{
    match who {
        Who::Ref(n) => append_named("ref", names.refs(), n, out),
        Who::Atom(n) => append_named("atom", names.atoms(), n, out),
        Who::Agent(n) => append_named("agent", names.agents(), n, out),
    }
}

fn append_named(kind: &str, names: &[Text], n: u32, out: &mut Vec<u8>) -> Result<(), AllocError>
    ensures { OnOk result (out.new.items ≡ out.old.items ++ name_or kind.now n (slice_get names.now n)) }
{
    match names.get(n as usize) {
        Some(name) => append_name(name.as_bytes(), out),
        None => {
            out.extend_from_slice(kind.as_bytes())?;
            out.extend_from_slice(b" ")?;
            append_number(u64::from(n), out)
        }
    }
}

/// Appends a value, with a space in front.
pub(crate) fn append_spaced(
    alloc: Global,
    value: &Value,
    out: &mut Vec<u8>,
) -> Result<(), AllocError>
    ensures { OnOk result (out.new.items ≡ out.old.items ++ spaced value.now) }
{
    out.extend_from_slice(b" ")?;
    print(alloc, value, out)
}

#[tactic(auto, using(crate::proofs::Lists::flat_map_at))]
fn append_args(alloc: Global, args: &[Value], out: &mut Vec<u8>) -> Result<(), AllocError>
    ensures { OnOk result (out.new.items ≡ out.old.items ++ flat_map spaced args.now) }
{
    for value in args {
        append_spaced(alloc, value, out)?;
    }
    Ok(())
}

// The name of a function of Core. Other codes have none.
fn function_name(code: u32) -> &'static str
    ensures { result.now ≡ unwrap_or (name_in core_names code) [] }
{
    match name_of(code) {
        Some(name) => name,
        None => "",
    }
}

// `F ARG ..`
fn append_call(
    alloc: Global,
    code: u32,
    args: &[Value],
    out: &mut Vec<u8>,
) -> Result<(), AllocError>
    ensures { OnOk result (out.new.items ≡ out.old.items ++ call_text code args.now) }
{
    out.extend_from_slice(function_name(code).as_bytes())?;
    append_args(alloc, args, out)
}

// What stands behind the reference of an operation.
fn append_rest(alloc: Global, op: &Op, out: &mut Vec<u8>) -> Result<(), AllocError>
    ensures { OnOk result (out.new.items ≡ out.old.items ++ rest_text op.now) }
{
    match op {
        Op::Set(value) => append_spaced(alloc, value, out),
        Op::Alter(code, args) | Op::Commute(code, args) => {
            out.extend_from_slice(b" ")?;
            append_call(alloc, *code, args.as_slice(), out)
        }
        Op::Ensure => Ok(()),
    }
}

fn ref_word(op: &Op) -> &'static str
    ensures { result.now ≡ ref_word op.now }
{
    match op {
        Op::Set(_) => "set",
        Op::Alter(_, _) => "alter",
        Op::Commute(_, _) => "commute",
        Op::Ensure => "ensure",
    }
}

fn atom_word(op: &Op) -> &'static str
    ensures { result.now ≡ atom_word op.now }
{
    match op {
        Op::Set(_) => "reset",
        Op::Alter(_, _) | Op::Commute(_, _) | Op::Ensure => "swap",
    }
}

// `[:WORD REFERENCE ..]`
fn append_operation(
    alloc: Global,
    names: &Names,
    word: &str,
    who: Who,
    op: &Op,
    out: &mut Vec<u8>,
) -> Result<(), AllocError>
    ensures { OnOk result (out.new.items
        ≡ out.old.items ++ operation_text word.now (reference_text names.now who) op.now) }
{
    out.extend_from_slice(b"[:")?;
    out.extend_from_slice(word.as_bytes())?;
    out.extend_from_slice(b" ")?;
    append_reference(names, who, out)?;
    append_rest(alloc, op, out)?;
    out.extend_from_slice(b"]")
}

fn append_answered(
    alloc: Global,
    names: &Names,
    word: &str,
    who: Who,
    op: &Op,
    answer: &Value,
    out: &mut Vec<u8>,
) -> Result<(), AllocError>
    ensures { OnOk result (out.new.items
        ≡ out.old.items ++ answered_text word.now (reference_text names.now who) op.now answer.now) }
{
    append_operation(alloc, names, word, who, op, out)?;
    out.extend_from_slice(b" -> ")?;
    print(alloc, answer, out)
}

/// Appends an operation on an atom and its answer.
pub(crate) fn append_change(
    alloc: Global,
    names: &Names,
    a: u32,
    op: &Op,
    answer: &Value,
    out: &mut Vec<u8>,
) -> Result<(), AllocError>
    ensures { OnOk result (out.new.items ≡ out.old.items
        ++ answered_text (atom_word op.now) (reference_text names.now (Who.Atom a)) op.now answer.now) }
{
    append_answered(alloc, names, atom_word(op), Who::Atom(a), op, answer, out)
}

// An operation of a transaction, with a space in front.
fn append_done(
    alloc: Global,
    names: &Names,
    done: &Done,
    out: &mut Vec<u8>,
) -> Result<(), AllocError>
    ensures { OnOk result (out.new.items ≡ out.old.items ++ done_text names.now done.now) }
{
    let who = Who::Ref(done.r);
    out.extend_from_slice(b" ")?;
    append_answered(
        alloc,
        names,
        ref_word(&done.op),
        who,
        &done.op,
        &done.answer,
        out,
    )
}

/// Appends the operations of a transaction, each with a space in front.
#[tactic(auto, using(crate::proofs::Lists::flat_map_at))]
pub(crate) fn append_dones(
    alloc: Global,
    names: &Names,
    dones: &[Done],
    out: &mut Vec<u8>,
) -> Result<(), AllocError>
    ensures { OnOk result (out.new.items ≡ out.old.items ++ flat_map (done_text names.now) dones.now) }
{
    for done in dones {
        append_done(alloc, names, done, out)?;
    }
    Ok(())
}

// A send that an action carries, with a space in front.
fn append_carry(
    alloc: Global,
    names: &Names,
    carry: &Carry,
    out: &mut Vec<u8>,
) -> Result<(), AllocError>
    ensures { OnOk result (out.new.items ≡ out.old.items ++ carry_text names.now carry.now) }
{
    out.extend_from_slice(b" [")?;
    append_reference(names, Who::Agent(carry.g), out)?;
    out.extend_from_slice(b" ")?;
    append_call(alloc, carry.code, carry.args.as_slice(), out)?;
    out.extend_from_slice(b"]")
}

#[tactic(auto, using(crate::proofs::Lists::flat_map_at))]
fn append_carries(
    alloc: Global,
    names: &Names,
    carries: &[Carry],
    out: &mut Vec<u8>,
) -> Result<(), AllocError>
    ensures { OnOk result (out.new.items ≡ out.old.items ++ flat_map (carry_text names.now) carries.now) }
{
    for carry in carries {
        append_carry(alloc, names, carry, out)?;
    }
    Ok(())
}

// A send of an action that carries none.
fn append_plain_send(
    alloc: Global,
    names: &Names,
    sent: &Sent,
    out: &mut Vec<u8>,
) -> Result<(), AllocError>
    ensures { OnOk result (out.new.items ≡ out.old.items
        ++ plain_send (reference_text names.now (Who.Agent sent.now.agent))
        (call_text sent.now.action.code sent.now.action.args)) }
{
    out.extend_from_slice(b" [:send ")?;
    append_reference(names, Who::Agent(sent.agent), out)?;
    out.extend_from_slice(b" ")?;
    append_call(alloc, sent.action.code, sent.action.args.as_slice(), out)?;
    out.extend_from_slice(b"]")
}

// ` [CALL]`
fn append_bracketed(
    alloc: Global,
    code: u32,
    args: &[Value],
    out: &mut Vec<u8>,
) -> Result<(), AllocError>
    ensures { OnOk result (out.new.items ≡ out.old.items ++ bracketed (call_text code args.now)) }
{
    out.extend_from_slice(b" [")?;
    append_call(alloc, code, args, out)?;
    out.extend_from_slice(b"]")
}

// ` [:send-carry AGENT [CALL]`
fn append_carrying_head(
    alloc: Global,
    names: &Names,
    sent: &Sent,
    out: &mut Vec<u8>,
) -> Result<(), AllocError>
    ensures { OnOk result (out.new.items ≡ out.old.items
        ++ carrying_head (reference_text names.now (Who.Agent sent.now.agent))
        (call_text sent.now.action.code sent.now.action.args)) }
{
    out.extend_from_slice(b" [:send-carry ")?;
    append_reference(names, Who::Agent(sent.agent), out)?;
    append_bracketed(alloc, sent.action.code, sent.action.args.as_slice(), out)?;
    Ok(())
}

// A send of an action that carries some, with these.
fn append_carrying_send(
    alloc: Global,
    names: &Names,
    sent: &Sent,
    out: &mut Vec<u8>,
) -> Result<(), AllocError>
    ensures { OnOk result (out.new.items ≡ out.old.items
        ++ carrying_send names.now (reference_text names.now (Who.Agent sent.now.agent))
        (call_text sent.now.action.code sent.now.action.args) sent.now.action.carries) }
{
    append_carrying_head(alloc, names, sent, out)?;
    append_carries(alloc, names, sent.action.carries.as_slice(), out)?;
    out.extend_from_slice(b"]")
}

#[tactic(auto, using(crate::proofs::Sends::carrying_none, crate::proofs::Sends::carrying_some))]
fn append_send(
    alloc: Global,
    names: &Names,
    sent: &Sent,
    out: &mut Vec<u8>,
) -> Result<(), AllocError>
    ensures { OnOk result (out.new.items ≡ out.old.items ++ send_text names.now sent.now) }
{
    if sent.action.carries.as_slice().is_empty() {
        append_plain_send(alloc, names, sent, out)
    } else {
        append_carrying_send(alloc, names, sent, out)
    }
}

/// Appends what a transaction sent, each send with a space in front.
#[tactic(auto, using(crate::proofs::Lists::flat_map_at))]
pub(crate) fn append_sends(
    alloc: Global,
    names: &Names,
    sends: &[Sent],
    out: &mut Vec<u8>,
) -> Result<(), AllocError>
    ensures { OnOk result (out.new.items ≡ out.old.items ++ flat_map (send_text names.now) sends.now) }
{
    for sent in sends {
        append_send(alloc, names, sent, out)?;
    }
    Ok(())
}
