//! Replies to actors, as text.
ghost use Rattle.std.specs.Prelude.{◌≡◌, ◌++◌, OnOk, codes};
ghost use Rattle.ref_player.specs.Lines.{cas_text, checkpoint_fault_text, commit_fault_text, done_text, either, error_text, finish_fault_text, finished_text, flag_text, job_fault_text, make_fault_text, mode_fault_text, notice_text, notices_text, numbered, atom_fault_text, out_of_memory, point_text, predicate_name, receipt_text, reply_text, restart_fault_text, rule_fault_text, rule_if_there, rule_text, send_fault_text, spaced, swapped_text, taken_text, tx_fault_text, value_if_there, value_text, valued, watch_fault_text, who_text};

use crate::fault_words::{
    atom_word, cause_word, checkpoint_word, error_word, finish_word, job_word, make_word,
    mode_word, restart_word, rule_word, send_word, tx_word, watch_word,
};
use ref_agents::{AgentError, FinishFault, Finished, JobFault, ModeFault, RestartFault, SendFault};
use ref_atoms::{AtomFault, Cas, Swapped};
use ref_audit::append_number;
use ref_edn::print;
use ref_fun::Rule;
use ref_fun::names::name_of;
use ref_log::{MakeFault, Notice, RuleFault, WatchFault, Who};
use ref_play::Reply;
use ref_refs::CommitFault;
use ref_tx::TxFault;
use ref_value::Value;
use ref_world::{CheckpointFault, Receipt};
use std::alloc::{AllocError, Global};

// ---- words and what stands behind them

fn append_word(word: &str, out: &mut Vec<u8>) -> Result<(), AllocError>
    ensures { OnOk result (out.new.items ≡ out.old.items ++ word.now) }
{
    out.extend_from_slice(word.as_bytes())
}

fn append_numbered(word: &str, n: u64, out: &mut Vec<u8>) -> Result<(), AllocError>
    ensures { OnOk result (out.new.items ≡ out.old.items ++ numbered word.now n) }
{
    append_word(word, out)?;
    out.extend_from_slice(b" ")?;
    append_number(n, out)
}

fn append_valued(
    alloc: Global,
    word: &str,
    value: &Value,
    out: &mut Vec<u8>,
) -> Result<(), AllocError>
    ensures { OnOk result (out.new.items ≡ out.old.items ++ valued word.now value.now) }
{
    append_word(word, out)?;
    out.extend_from_slice(b" ")?;
    print(alloc, value, out)
}

fn flag_word(flag: bool) -> &'static str
    ensures { result.now ≡ flag_text flag }
{
    if flag { "true" } else { "false" }
}

// ---- notices

/// Appends a reference, by its kind and number.
pub(crate) fn append_who(who: Who, out: &mut Vec<u8>) -> Result<(), AllocError>
    ensures { OnOk result (out.new.items ≡ out.old.items ++ who_text who) }
{
    match who {
        Who::Ref(n) => append_numbered("ref", u64::from(n), out),
        Who::Atom(n) => append_numbered("atom", u64::from(n), out),
        Who::Agent(n) => append_numbered("agent", u64::from(n), out),
    }
}

fn append_notice(alloc: Global, notice: &Notice, out: &mut Vec<u8>) -> Result<(), AllocError>
    ensures { OnOk result (out.new.items ≡ out.old.items ++ notice_text notice.now) }
{
    out.extend_from_slice(b" watch ")?;
    print(alloc, &notice.key, out)?;
    out.extend_from_slice(b" ")?;
    append_who(notice.who, out)?;
    out.extend_from_slice(b" ")?;
    print(alloc, &notice.before, out)?;
    out.extend_from_slice(b" ")?;
    print(alloc, &notice.after, out)
}

fn append_notices(alloc: Global, notices: &[Notice], out: &mut Vec<u8>) -> Result<(), AllocError>
    ensures { OnOk result (out.new.items ≡ out.old.items ++ notices_text notices.now) }
{
    for notice in notices {
        append_notice(alloc, notice, out)?;
    }
    Ok(())
}

// ---- calls that answer nothing

fn tx_done(told: &Result<(), TxFault>) -> &'static str
    ensures { result.now ≡ done_text tx_fault_text told.now }
{
    match told {
        Ok(()) => "ok",
        Err(fault) => tx_word(*fault),
    }
}

fn send_done(told: &Result<(), SendFault>) -> &'static str
    ensures { result.now ≡ done_text send_fault_text told.now }
{
    match told {
        Ok(()) => "ok",
        Err(fault) => send_word(*fault),
    }
}

fn job_done(told: &Result<(), JobFault>) -> &'static str
    ensures { result.now ≡ done_text job_fault_text told.now }
{
    match told {
        Ok(()) => "ok",
        Err(fault) => job_word(*fault),
    }
}

fn restart_done(told: &Result<(), RestartFault>) -> &'static str
    ensures { result.now ≡ done_text restart_fault_text told.now }
{
    match told {
        Ok(()) => "ok",
        Err(fault) => restart_word(*fault),
    }
}

fn mode_done(told: &Result<(), ModeFault>) -> &'static str
    ensures { result.now ≡ done_text mode_fault_text told.now }
{
    match told {
        Ok(()) => "ok",
        Err(fault) => mode_word(*fault),
    }
}

fn rule_done(told: &Result<(), RuleFault>) -> &'static str
    ensures { result.now ≡ done_text rule_fault_text told.now }
{
    match told {
        Ok(()) => "ok",
        Err(fault) => rule_word(*fault),
    }
}

fn watch_told(told: &Result<bool, WatchFault>) -> &'static str
    ensures { result.now ≡ either flag_text watch_fault_text told.now }
{
    match told {
        Ok(is_new) => flag_word(*is_new),
        Err(fault) => watch_word(*fault),
    }
}

fn fold_told(told: &Result<bool, AllocError>) -> &'static str
    ensures { result.now ≡ either flag_text (λ _. out_of_memory) told.now }
{
    match told {
        Ok(done) => flag_word(*done),
        Err(_) => "out-of-memory",
    }
}

fn error_told(error: &Option<AgentError>) -> &'static str
    ensures { result.now ≡ error_text error.now }
{
    match error {
        None => "none",
        Some(error) => error_word(*error),
    }
}

// ---- calls that answer something

fn append_begun(told: &Result<u64, AllocError>, out: &mut Vec<u8>) -> Result<(), AllocError>
    ensures { OnOk result (out.new.items ≡ out.old.items ++ either point_text (λ _. out_of_memory) told.now) }
{
    match told {
        Ok(point) => append_numbered("point", *point, out),
        Err(_) => append_word("out-of-memory", out),
    }
}

fn append_value(
    alloc: Global,
    told: &Result<Value, TxFault>,
    out: &mut Vec<u8>,
) -> Result<(), AllocError>
    ensures { OnOk result (out.new.items ≡ out.old.items ++ either value_text tx_fault_text told.now) }
{
    match told {
        Ok(value) => append_valued(alloc, "value", value, out),
        Err(fault) => append_word(tx_word(*fault), out),
    }
}

fn append_commit_fault(fault: CommitFault, out: &mut Vec<u8>) -> Result<(), AllocError>
    ensures { OnOk result (out.new.items ≡ out.old.items ++ commit_fault_text fault) }
{
    match fault {
        CommitFault::Foreign(_) => append_word("foreign", out),
        CommitFault::Conflict(conflict) => {
            append_numbered("conflict", u64::from(conflict.r), out)?;
            append_numbered("", conflict.read_point, out)?;
            append_numbered("", conflict.changed_at, out)
        }
        CommitFault::Refused(r, cause) => {
            append_numbered("refused", u64::from(r), out)?;
            out.extend_from_slice(b" ")?;
            append_word(cause_word(cause), out)
        }
        CommitFault::Invalid(r) => append_numbered("invalid", u64::from(r), out),
        CommitFault::PointLimit => append_word("point-limit", out),
        CommitFault::BookFull => append_word("book-full", out),
        CommitFault::Memory => append_word("out-of-memory", out),
        CommitFault::NoSuchFun(_) => append_word("no-such-fun", out),
    }
}

fn append_committed(
    alloc: Global,
    told: &Result<Receipt, CommitFault>,
    out: &mut Vec<u8>,
) -> Result<(), AllocError>
    ensures { OnOk result (out.new.items ≡ out.old.items ++ either receipt_text commit_fault_text told.now) }
{
    match told {
        Ok(receipt) => {
            append_numbered("point", receipt.point, out)?;
            append_notices(alloc, receipt.notices.as_slice(), out)
        }
        Err(fault) => append_commit_fault(*fault, out),
    }
}

fn append_swapped(
    alloc: Global,
    told: &Result<Swapped, AtomFault>,
    out: &mut Vec<u8>,
) -> Result<(), AllocError>
    ensures { OnOk result (out.new.items ≡ out.old.items ++ either swapped_text atom_fault_text told.now) }
{
    match told {
        Ok(swapped) => {
            append_valued(alloc, "swapped", &swapped.old, out)?;
            append_valued(alloc, "", &swapped.new, out)?;
            append_notices(alloc, swapped.notices.as_slice(), out)
        }
        Err(fault) => append_word(atom_word(*fault), out),
    }
}

fn append_compared(
    alloc: Global,
    told: &Result<Cas, AtomFault>,
    out: &mut Vec<u8>,
) -> Result<(), AllocError>
    ensures { OnOk result (out.new.items ≡ out.old.items ++ either cas_text atom_fault_text told.now) }
{
    match told {
        Ok(cas) => {
            append_word(flag_word(cas.done), out)?;
            append_notices(alloc, cas.notices.as_slice(), out)
        }
        Err(fault) => append_word(atom_word(*fault), out),
    }
}

fn append_taken(
    told: &Result<Option<(u32, u64)>, AllocError>,
    out: &mut Vec<u8>,
) -> Result<(), AllocError>
    ensures { OnOk result (out.new.items ≡ out.old.items ++ either taken_text (λ _. out_of_memory) told.now) }
{
    match told {
        Ok(None) => append_word("none", out),
        Ok(Some((g, number))) => {
            append_numbered("job", u64::from(*g), out)?;
            append_numbered("", *number, out)
        }
        Err(_) => append_word("out-of-memory", out),
    }
}

fn append_finished(
    alloc: Global,
    told: &Result<Finished, FinishFault>,
    out: &mut Vec<u8>,
) -> Result<(), AllocError>
    ensures { OnOk result (out.new.items ≡ out.old.items ++ either finished_text finish_fault_text told.now) }
{
    match told {
        Ok(Finished::Changed(notices)) => {
            append_word("changed", out)?;
            append_notices(alloc, notices.as_slice(), out)
        }
        Ok(Finished::Failed(error)) => {
            append_word("failed ", out)?;
            append_word(error_word(*error), out)
        }
        Ok(Finished::Continued(error)) => {
            append_word("continued ", out)?;
            append_word(error_word(*error), out)
        }
        Err(fault) => append_word(finish_word(*fault), out),
    }
}

// The number of what was made, behind the word of its kind.
fn append_made(
    word: &str,
    told: &Result<u32, MakeFault>,
    out: &mut Vec<u8>,
) -> Result<(), AllocError>
    ensures { OnOk result (out.new.items ≡ out.old.items ++ either (numbered word.now) make_fault_text told.now) }
{
    match told {
        Ok(number) => append_numbered(word, u64::from(*number), out),
        Err(fault) => append_word(make_word(*fault), out),
    }
}

fn append_folded(told: &Result<u64, CheckpointFault>, out: &mut Vec<u8>) -> Result<(), AllocError>
    ensures { OnOk result (out.new.items
        ≡ out.old.items ++ either (numbered (codes "folded")) checkpoint_fault_text told.now) }
{
    match told {
        Ok(count) => append_numbered("folded", *count, out),
        Err(fault) => append_word(checkpoint_word(*fault), out),
    }
}

fn append_value_of(
    alloc: Global,
    told: &Result<Option<Value>, AllocError>,
    out: &mut Vec<u8>,
) -> Result<(), AllocError>
    ensures { OnOk result (out.new.items ≡ out.old.items ++ either value_if_there (λ _. out_of_memory) told.now) }
{
    match told {
        Ok(None) => append_word("none", out),
        Ok(Some(value)) => append_valued(alloc, "value", value, out),
        Err(_) => append_word("out-of-memory", out),
    }
}

// The name of a predicate of Core. Other codes have none.
fn predicate_name(code: u32) -> &'static str
    ensures { result.now ≡ predicate_name code }
{
    match name_of(code) {
        Some(name) => name,
        None => "",
    }
}

// Each argument, with a space in front.
fn append_args(alloc: Global, args: &[Value], out: &mut Vec<u8>) -> Result<(), AllocError>
    ensures { OnOk result (out.new.items ≡ out.old.items ++ spaced args.now) }
{
    for arg in args {
        out.extend_from_slice(b" ")?;
        print(alloc, arg, out)?;
    }
    Ok(())
}

fn append_rule(alloc: Global, rule: &Rule, out: &mut Vec<u8>) -> Result<(), AllocError>
    ensures { OnOk result (out.new.items ≡ out.old.items ++ rule_text rule.now) }
{
    append_word("rule [", out)?;
    append_word(predicate_name(rule.code), out)?;
    append_args(alloc, rule.args.as_slice(), out)?;
    append_word("]", out)
}

fn append_rule_of(
    alloc: Global,
    told: &Result<Option<Rule>, AllocError>,
    out: &mut Vec<u8>,
) -> Result<(), AllocError>
    ensures { OnOk result (out.new.items ≡ out.old.items ++ either rule_if_there (λ _. out_of_memory) told.now) }
{
    match told {
        Ok(None) => append_word("none", out),
        Ok(Some(rule)) => append_rule(alloc, rule, out),
        Err(_) => append_word("out-of-memory", out),
    }
}

/// Appends the reply to an actor.
pub(crate) fn append_reply(
    alloc: Global,
    reply: &Reply,
    out: &mut Vec<u8>,
) -> Result<(), AllocError>
    ensures { OnOk result (out.new.items ≡ out.old.items ++ reply_text reply.now) }
{
    match reply {
        Reply::NoTx => append_word("no-tx", out),
        Reply::NoJob => append_word("no-job", out),
        Reply::Busy => append_word("busy", out),
        Reply::Begin(told) => append_begun(told, out),
        Reply::Deref(told)
        | Reply::RefSet(told)
        | Reply::Alter(told)
        | Reply::Commute(told)
        | Reply::Ensure(told) => append_value(alloc, told, out),
        Reply::SendInTx(told) | Reply::Require(told) => append_word(tx_done(told), out),
        Reply::ReadPoint(point) => append_numbered("point", *point, out),
        Reply::Commit(told) => append_committed(alloc, told, out),
        Reply::Abort | Reply::PutBack => append_word("ok", out),
        Reply::Release(flag) | Reply::ReleaseCarried(flag) | Reply::RemoveWatch(flag) => {
            append_word(flag_word(*flag), out)
        }
        Reply::Swap(told) | Reply::Reset(told) => append_swapped(alloc, told, out),
        Reply::CompareAndSet(told) => append_compared(alloc, told, out),
        Reply::Send(told) => append_word(send_done(told), out),
        Reply::Take(told) => append_taken(told, out),
        Reply::Run(told) => append_word(job_done(told), out),
        Reply::Finish(told) => append_finished(alloc, told, out),
        Reply::Restart(told) => append_word(restart_done(told), out),
        Reply::SetErrorMode(told) => append_word(mode_done(told), out),
        Reply::Fold(told) => append_word(fold_told(told), out),
        Reply::SetValidator(told) => append_word(rule_done(told), out),
        Reply::AddWatch(told) => append_word(watch_told(told), out),
        Reply::MakeRef(told) => append_made("ref", told, out),
        Reply::MakeAtom(told) => append_made("atom", told, out),
        Reply::MakeAgent(told) => append_made("agent", told, out),
        Reply::Checkpoint(told) => append_folded(told, out),
        Reply::ValueOf(told) => append_value_of(alloc, told, out),
        Reply::RuleOf(told) => append_rule_of(alloc, told, out),
        Reply::ErrorOf(error) => append_word(error_told(error), out),
    }
}
