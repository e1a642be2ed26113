//! The steps of workers.
ghost use Rattle.std.specs.List.{list_all};
ghost use Rattle.std.specs.Prelude.{◌≡◌, ◌≢◌, ◌≤◌, None, Some, IfErr, IfOk, length, true};
ghost use Rattle.ref_forms.specs.Plain.{all_said};
ghost use Rattle.ref_forms.specs.Reading.{Reads};
ghost use Rattle.ref_plan.specs.Limits.{most_steps, most_workers};
ghost use Rattle.ref_plan.specs.Steps.{step_of, step_said, tagged_step, worker_of};
ghost use Rattle.ref_plan.specs.Workload.{is_short_vector};

use crate::plan_faults::PlanFault;
use crate::planning::names::Declared;
use crate::planning::operations::operations;
use crate::plans::Step;
use ref_calls::{StepWord, Version, step_named};
use ref_forms::carrying::carrying_on;
use ref_forms::plain::{elements_up_to, tagged_in};
use ref_forms::references::{call_on, mode_on, setting_on, state_on, two_values_on, value_on};
use ref_forms::{Kind, Wrong};
use ref_log::{Sent, SharedVec};
use ref_value::vectors::Iter;
use ref_value::{Items, Value};
use std::alloc::Global;

/// How many steps a worker may have.
pub const MOST_STEPS: usize = 10_000;

// What stands behind the word of a step.
fn step_of(
    alloc: Global,
    version: Version,
    declared: &Declared,
    word: StepWord,
    parts: Iter<'_>,
) -> Result<Step, Wrong>
    ensures { Reads (step_said version declared.now word parts.entry) result }
{
    match word {
        StepWord::Tx => Ok(Step::Tx(operations(alloc, version, declared, parts)?)),
        StepWord::Swap => {
            let (atom, action) = call_on(alloc, declared, Kind::Atom, parts)?;
            Ok(Step::Swap(atom, action))
        }
        StepWord::Reset => {
            let (atom, value) = value_on(declared, Kind::Atom, parts)?;
            Ok(Step::Reset(atom, value))
        }
        StepWord::CompareAndSet => {
            let (atom, (old, new)) = two_values_on(declared, parts)?;
            Ok(Step::CompareAndSet(atom, old, new))
        }
        StepWord::Send => {
            let (agent, action) = call_on(alloc, declared, Kind::Agent, parts)?;
            Ok(Step::Send(Sent { agent, action }))
        }
        StepWord::SendCarry => {
            let (agent, action) = carrying_on(alloc, declared, parts)?;
            Ok(Step::Send(Sent { agent, action }))
        }
        StepWord::Restart => {
            let (agent, (state, clear)) = state_on(declared, parts)?;
            Ok(Step::Restart(agent, state, clear))
        }
        StepWord::Mode => {
            let (agent, mode) = mode_on(declared, parts)?;
            Ok(Step::Mode(agent, mode))
        }
        StepWord::Validator => {
            let (who, rule) = setting_on(alloc, declared, parts)?;
            Ok(Step::Validator(who, rule))
        }
    }
}

// The step of this word, if the version has it.
fn tagged_step(
    alloc: Global,
    version: Version,
    declared: &Declared,
    word: &[u8],
    parts: Iter<'_>,
) -> Result<Step, Wrong>
    ensures { Reads (tagged_step version declared.now word.now parts.entry) result }
{
    match step_named(version, word) {
        Some(word) => step_of(alloc, version, declared, word, parts),
        None => Err(Wrong::Form),
    }
}

/// `[WORD REST ..]`.
fn step(alloc: Global, version: Version, declared: &Declared, form: &Value) -> Result<Step, Wrong>
    ensures { Reads (step_of version declared.now form.now) result }
{
    match tagged_in(form) {
        Some((word, parts)) => tagged_step(alloc, version, declared, word, parts),
        None => Err(Wrong::Form),
    }
}

fn plan_fault(wrong: Wrong, worker: u32, step: u32) -> PlanFault
    ensures { result ≢ PlanFault.Memory → wrong ≢ Wrong.Memory }
{
    match wrong {
        Wrong::Form => PlanFault::BadStep { worker, step },
        Wrong::Name => PlanFault::UnknownName { worker, step },
        Wrong::Function => PlanFault::UnknownFun { worker, step },
        Wrong::Memory => PlanFault::Memory,
    }
}

/// The steps of a worker.
#[tactic(auto, using(ref_forms::specs::Laws::in_front_and_said))]
fn steps(
    alloc: Global,
    version: Version,
    declared: &Declared,
    worker: u32,
    forms: &Items,
) -> Result<Vec<Step>, PlanFault>
    requires { length forms.now ≤ most_steps }
    ensures ok { IfOk result (λ steps. all_said (step_of version declared.now) forms.now ≡ Some steps.items) }
    ensures none { IfErr result (λ f. f ≢ PlanFault.Memory → all_said (step_of version declared.now) forms.now ≡ None) }
{
    let mut steps = Vec::with_capacity(alloc, forms.len())?;
    for form in forms {
        match step(alloc, version, declared, form) {
            Ok(step) => steps.push(step)?,
            Err(wrong) => return Err(plan_fault(wrong, worker, steps.len() as u32)),
        }
    }
    Ok(steps)
}

fn worker(
    alloc: Global,
    version: Version,
    declared: &Declared,
    worker: u32,
    form: &Value,
) -> Result<SharedVec<Step>, PlanFault>
    requires { is_short_vector form.now ≡ true }
    ensures ok { IfOk result (λ steps. worker_of version declared.now form.now ≡ Some steps) }
    ensures none { IfErr result (λ f. f ≢ PlanFault.Memory → worker_of version declared.now form.now ≡ None) }
{
    let Some(forms) = elements_up_to(form, MOST_STEPS) else {
        unreachable!()
    };
    let steps = steps(alloc, version, declared, worker, forms)?;
    Ok(SharedVec::of(alloc, steps)?)
}

/// The steps of all workers. Each of these forms is a vector of at most 10,000 elements.
#[tactic(auto, using(ref_forms::specs::Laws::in_front_and_said))]
pub fn workers(
    alloc: Global,
    version: Version,
    declared: &Declared,
    forms: &Items,
) -> Result<Vec<SharedVec<Step>>, PlanFault>
    requires few { length forms.now ≤ most_workers }
    requires vectors { list_all is_short_vector forms.now ≡ true }
    ensures ok { IfOk result (λ workers. all_said (worker_of version declared.now) forms.now ≡ Some workers.items) }
    ensures none { IfErr result (λ f. f ≢ PlanFault.Memory →
        all_said (worker_of version declared.now) forms.now ≡ None) }
{
    let mut workers = Vec::new(alloc);
    for form in forms {
        let steps = worker(alloc, version, declared, workers.len() as u32, form)?;
        workers.push(steps)?;
    }
    Ok(workers)
}
