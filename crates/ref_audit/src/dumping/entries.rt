//! The forms of entries.
ghost use Rattle.std.specs.Prelude.{◌≡◌, IfErr, IfOk};
ghost use Rattle.ref_value.specs.Edn.{nesting};
ghost use Rattle.ref_audit.specs.Dumped.{atom_form, call_form, done_form, entry_form, made_form, op_form, reset_form, sent_form};
ghost use Rattle.ref_audit.specs.Made.{IsMakeFault, word_text};
ghost use Rattle.ref_verdict.specs.Words.{carry_form};

use crate::dumping::forms::{Form, name, number, vector_of, vector_of_all, vector_of_values};
use crate::faults::DumpMakeFault;
use crate::words::Word;
use ref_fun::{Args, Carry};
use ref_log::{Done, Entry, Op, Sent, Transaction};
use ref_value::Value;
use std::alloc::Global;

impl Form for Entry {
    ghost form = { entry_form };

    fn to_value(&self, alloc: Global) -> Result<Value, DumpMakeFault> {
        match self {
            Entry::Trans(transaction) => transaction_form(alloc, transaction),
            Entry::Atom(a, op, answer) => atom_form(alloc, *a, op, answer),
            Entry::MadeRef(value) => made_form(alloc, Word::MadeRef, value),
            Entry::MadeAtom(value) => made_form(alloc, Word::MadeAtom, value),
        }
    }
}

impl Form for Done {
    ghost form = { done_form };

    fn to_value(&self, alloc: Global) -> Result<Value, DumpMakeFault> {
        match &self.op {
            Op::Set(value) => set_form(alloc, self.r, value, &self.answer),
            Op::Alter(code, args) => call_form(
                alloc,
                Word::Alter,
                self.r,
                *code,
                args,
                &self.answer,
            ),
            Op::Commute(code, args) => call_form(
                alloc,
                Word::Commute,
                self.r,
                *code,
                args,
                &self.answer,
            ),
            Op::Ensure => ensure_form(alloc, self.r, &self.answer),
        }
    }
}

impl Form for Sent {
    ghost form = { sent_form };

    #[tactic(auto, using(crate::proofs::Depths::make_faults))]
    fn to_value(&self, alloc: Global) -> Result<Value, DumpMakeFault> {
        let agent = number(u64::from(self.agent))?;
        let name = name(alloc, self.action.code)?;
        let args = vector_of_values(alloc, self.action.args.as_slice())?;
        let carries = vector_of_all(alloc, self.action.carries.as_slice())?;
        vector_of(alloc, vec![in alloc; agent, name, args, carries]?)
    }
}

impl Form for Carry {
    ghost form = { carry_form };

    #[tactic(auto, using(crate::proofs::Depths::make_faults))]
    fn to_value(&self, alloc: Global) -> Result<Value, DumpMakeFault> {
        let agent = number(u64::from(self.g))?;
        let name = name(alloc, self.code)?;
        let args = vector_of_values(alloc, self.args.as_slice())?;
        vector_of(alloc, vec![in alloc; agent, name, args]?)
    }
}

#[tactic(auto, using(crate::proofs::Depths::make_faults))]
fn transaction_form(alloc: Global, transaction: &Transaction) -> Result<Value, DumpMakeFault>
    ensures made { IfOk result (λ v. v ≡ entry_form (Entry.Trans transaction.now)) }
    ensures fault { IfErr result (IsMakeFault (nesting (entry_form (Entry.Trans transaction.now)))) }
{
    let tag = Word::Tx.keyword(alloc)?;
    let worker = number(u64::from(transaction.stamp.worker))?;
    let step = number(u64::from(transaction.stamp.step))?;
    let read_point = number(transaction.read_point)?;
    let dones = vector_of_all(alloc, transaction.dones.as_slice())?;
    let sends = vector_of_all(alloc, transaction.sends.as_slice())?;
    vector_of(
        alloc,
        vec![in alloc; tag, worker, step, read_point, dones, sends]?,
    )
}

fn atom_form(alloc: Global, a: u32, op: &Op, answer: &Value) -> Result<Value, DumpMakeFault>
    ensures made { IfOk result (λ v. v ≡ atom_form a answer.now op.now) }
    ensures fault { IfErr result (IsMakeFault (nesting (atom_form a answer.now op.now))) }
{
    match op {
        Op::Set(value) => reset_form(alloc, a, value),
        Op::Alter(code, args) | Op::Commute(code, args) => {
            call_form(alloc, Word::Swap, a, *code, args, answer)
        }
        Op::Ensure => reset_form(alloc, a, answer),
    }
}

#[tactic(auto, using(crate::proofs::Depths::make_faults))]
fn reset_form(alloc: Global, a: u32, value: &Value) -> Result<Value, DumpMakeFault>
    ensures made { IfOk result (λ v. v ≡ reset_form a value.now) }
    ensures fault { IfErr result (IsMakeFault (nesting (reset_form a value.now))) }
{
    let tag = Word::Reset.keyword(alloc)?;
    let number = number(u64::from(a))?;
    let value = value.share()?;
    vector_of(alloc, vec![in alloc; tag, number, value]?)
}

// The form of a reference that was made.
#[tactic(auto, using(crate::proofs::Depths::make_faults))]
fn made_form(alloc: Global, tag: Word, value: &Value) -> Result<Value, DumpMakeFault>
    ensures made { IfOk result (λ v. v ≡ made_form (word_text tag) value.now) }
    ensures fault { IfErr result (IsMakeFault (nesting (made_form (word_text tag) value.now))) }
{
    let tag = tag.keyword(alloc)?;
    let value = value.share()?;
    vector_of(alloc, vec![in alloc; tag, value]?)
}

#[tactic(auto, using(crate::proofs::Depths::make_faults))]
fn set_form(alloc: Global, r: u32, value: &Value, answer: &Value) -> Result<Value, DumpMakeFault>
    ensures made { IfOk result (λ v. v ≡ op_form r answer.now (Op.Set value.now)) }
    ensures fault { IfErr result (IsMakeFault (nesting (op_form r answer.now (Op.Set value.now)))) }
{
    let tag = Word::Set.keyword(alloc)?;
    let number = number(u64::from(r))?;
    let value = value.share()?;
    let answer = answer.share()?;
    vector_of(alloc, vec![in alloc; tag, number, value, answer]?)
}

#[tactic(auto, using(crate::proofs::Depths::make_faults))]
fn ensure_form(alloc: Global, r: u32, answer: &Value) -> Result<Value, DumpMakeFault>
    ensures made { IfOk result (λ v. v ≡ op_form r answer.now Op.Ensure) }
    ensures fault { IfErr result (IsMakeFault (nesting (op_form r answer.now Op.Ensure))) }
{
    let tag = Word::Ensure.keyword(alloc)?;
    let number = number(u64::from(r))?;
    let answer = answer.share()?;
    vector_of(alloc, vec![in alloc; tag, number, answer]?)
}

// The form of a function's call, for the reference of this number.
#[tactic(auto, using(crate::proofs::Depths::make_faults))]
fn call_form(
    alloc: Global,
    tag: Word,
    n: u32,
    code: u32,
    args: &Args,
    answer: &Value,
) -> Result<Value, DumpMakeFault>
    ensures made { IfOk result (λ v. v ≡ call_form (word_text tag) n code args.now answer.now) }
    ensures fault { IfErr result (IsMakeFault (nesting (call_form (word_text tag) n code args.now answer.now))) }
{
    let tag = tag.keyword(alloc)?;
    let number = number(u64::from(n))?;
    let name = name(alloc, code)?;
    let args = vector_of_values(alloc, args.as_slice())?;
    let answer = answer.share()?;
    vector_of(alloc, vec![in alloc; tag, number, name, args, answer]?)
}
