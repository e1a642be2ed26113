//! What has a form in a dump, and the forms that others are made of.
ghost use Rattle.std.specs.Prelude.{◌≡◌, ◌<◌, true, map, IfErr, IfOk, OnErr, option_copied};
ghost use Rattle.ref_value.specs.Edn.{Edn, nesting, nil, symbol};
ghost use Rattle.ref_value.specs.Lawful.{IsLawful};
ghost use Rattle.ref_value.specs.Names.{is_symbol};
ghost use Rattle.ref_value.specs.View.{edn};
ghost use Rattle.ref_audit.specs.Dumped.{entry_form};
ghost use Rattle.ref_audit.specs.Made.{IsMakeFault};
ghost use Rattle.ref_verdict.specs.Words.{name_form, number_form, rule_form, vector_form};

use crate::faults::DumpMakeFault;
use ref_fun::{Rule, name_of};
use ref_log::{Entry, share_all};
use ref_pvec::PVec;
use ref_value::{Items, Node, Value};
use std::alloc::{AllocError, Global};

// What has a form in a dump.
pub(crate) trait Form {
    ghost form: { Self → Edn };

    fn to_value(&self, alloc: Global) -> Result<Value, DumpMakeFault>
        ensures made { IfOk result (λ v. v ≡ form self.now) }
        ensures fault { IfErr result (IsMakeFault (nesting (form self.now))) };
}

// The value of a node that is known to be lawful.
fn plain(node: Node) -> Value
    requires { IsLawful (edn node) }
    ensures { result ≡ edn node }
{
    match Value::of(node) {
        Ok(value) => value,
        Err(_) => unreachable!(),
    }
}

pub(crate) fn nil() -> Value
    ensures { result ≡ nil }
{
    plain(Node::Nil)
}

// The integer of a number. Points end at 2^62, and no count of a world passes that; a number past an integer's, and no other, would
// be reported as out of memory.
pub(crate) fn number(n: u64) -> Result<Value, AllocError>
    ensures ok { IfOk result (λ v. v ≡ number_form n) }
    ensures err { OnErr result (9223372036854775807 < n) }
{
    match i64::try_from(n) {
        Ok(n) => Ok(plain(Node::Int(n))),
        Err(_) => Err(AllocError),
    }
}

// The name of a function or a predicate, as a symbol.
#[tactic(auto, using(crate::proofs::WordNames::is_symbol_name))]
pub(crate) fn name(alloc: Global, code: u32) -> Result<Value, AllocError>
    ensures { IfOk result (λ v. v ≡ name_form code) }
{
    match name_of(code) {
        Some(name) => symbol_of(alloc, name),
        None => Ok(nil()),
    }
}

// A symbol of this name.
fn symbol_of(alloc: Global, name: &str) -> Result<Value, AllocError>
    requires { is_symbol name.now ≡ true }
    ensures { IfOk result (λ v. v ≡ symbol name.now) }
{
    match Value::of(Node::symbol(alloc, name)?) {
        Ok(value) => Ok(value),
        Err(_) => unreachable!(),
    }
}

// The vector of these.
#[tactic(auto, using(crate::proofs::Depths::make_faults))]
pub(crate) fn vector_of(alloc: Global, forms: Vec<Value>) -> Result<Value, DumpMakeFault>
    ensures made { IfOk result (λ v. v ≡ vector_form forms.items) }
    ensures fault { IfErr result (IsMakeFault (nesting (vector_form forms.items))) }
{
    let items = Items::of(alloc, forms)?;
    // Each of them is a value, so only their depth can be too much.
    let _deepest = items.deepest();
    match Value::of(Node::Vector(items)) {
        Ok(value) => Ok(value),
        Err(_) => Err(DumpMakeFault::TooDeep),
    }
}

// The vector of these values.
pub(crate) fn vector_of_values(alloc: Global, values: &[Value]) -> Result<Value, DumpMakeFault>
    ensures made { IfOk result (λ v. v ≡ vector_form values.now) }
    ensures fault { IfErr result (IsMakeFault (nesting (vector_form values.now))) }
{
    vector_of(alloc, share_all(alloc, values)?)
}

// The vector of the forms of these.
#[tactic(auto, using(crate::proofs::Depths::make_faults))]
pub(crate) fn vector_of_all<T: Form>(alloc: Global, items: &[T]) -> Result<Value, DumpMakeFault>
    ensures made { IfOk result (λ v. v ≡ vector_form (map T.form items.now)) }
    ensures fault { IfErr result (IsMakeFault (nesting (vector_form (map T.form items.now)))) }
{
    let mut forms = Vec::with_capacity(alloc, items.len())?;
    for item in items {
        forms.push(item.to_value(alloc)?)?;
    }
    vector_of(alloc, forms)
}

// The vector of the forms of a log's entries.
#[tactic(auto, using(crate::proofs::Depths::make_faults))]
pub(crate) fn vector_of_entries(alloc: Global, log: &PVec<Entry>) -> Result<Value, DumpMakeFault>
    ensures made { IfOk result (λ v. v ≡ vector_form (map entry_form log.now)) }
    ensures fault { IfErr result (IsMakeFault (nesting (vector_form (map entry_form log.now)))) }
{
    let mut forms = Vec::with_capacity(alloc, log.len())?;
    for entry in log {
        forms.push(entry.to_value(alloc)?)?;
    }
    vector_of(alloc, forms)
}

// The rule of a reference, if it has one.
#[tactic(auto, using(crate::proofs::Depths::make_faults))]
pub(crate) fn rule(alloc: Global, by: Option<&Rule>) -> Result<Value, DumpMakeFault>
    ensures made { IfOk result (λ v. v ≡ rule_form (option_copied by.entry)) }
    ensures fault { IfErr result (IsMakeFault (nesting (rule_form (option_copied by.entry)))) }
{
    match by {
        None => Ok(nil()),
        Some(rule) => {
            let args = rule.args.as_slice();
            let mut forms = Vec::with_capacity(alloc, args.len() + 1)?;
            forms.push(name(alloc, rule.code)?)?;
            forms.append(&mut share_all(alloc, args)?)?;
            vector_of(alloc, forms)
        }
    }
}
