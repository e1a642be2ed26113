//! The references that a world begins with, and their base.
ghost use Rattle.std.specs.Prelude.{◌≡◌, ◌≢◌, [], true, None, Ok, Err, IfOk, IfErr, OnOk, Option, length};
ghost use Rattle.ref_log.specs.Tally.{IsMoved, start_of};
ghost use Rattle.ref_log.specs.declared.faults.MakeFault.{MakeFault};
ghost use Rattle.ref_log.specs.declared.faults.MakeFault.TheVariants as makes;
ghost use Rattle.ref_log.specs.declared.notices.Who.{Who};
ghost use Rattle.ref_refs.specs.Seen.{are_unchanged_since};
ghost use Rattle.ref_world.specs.Starts.{base_of, declared_agents, declared_atoms, declared_refs, first_refused, no_agents, no_atoms, no_refs, refusal_of, with_agent, with_atom, with_ref};

use ref_agents::{AgentStart, AgentStore, AtomStart, RefStart};
use ref_atoms::AtomStore;
use ref_fun::{Functions, Meaning, Rule};
use ref_log::counting::count;
use ref_log::{Base, MakeFault, SharedVec, Who};
use ref_refs::RefStore;
use ref_value::Value;
use std::alloc::{AllocError, Global};

// The refs, made one by one.
pub(crate) fn declared_refs<M: Meaning, F: Functions<M>>(
    alloc: Global,
    funs: &F,
    starts: &[RefStart],
) -> Result<RefStore<M>, (Who, MakeFault)>
    ensures ok { IfOk result (λ refs. declared_refs M.accepts (F.knows funs.now).preds starts.now ≡ Ok refs) }
    ensures since { IfOk result (λ refs. are_unchanged_since refs.lasts 0 ≡ true) }
    ensures counts { IfOk result (λ refs. IsMoved refs.tally refs.values (start_of refs.tally refs.values) 0 0) }
    ensures fault { IfErr result (λ e. e.1 ≢ makes.Memory
        → declared_refs M.accepts (F.knows funs.now).preds starts.now ≡ Err e) }
    ensures memory { IfErr result (λ e. e.1 ≡ makes.Memory → (next : Option (Who × MakeFault))
        → first_refused (with_ref M.accepts (F.knows funs.now).preds) starts.now no_refs next ≡ None) }
{
    let mut refs = RefStore::empty(alloc);
    for start in starts {
        if let Err(refused) = declare_ref(alloc, funs, start, &mut refs) {
            return Err(refused);
        }
    }
    Ok(refs)
}

#[tactic(auto, using(crate::proofs::Starting::begins))]
fn declare_ref<M: Meaning, F: Functions<M>>(
    alloc: Global,
    funs: &F,
    start: &RefStart,
    refs: &mut RefStore<M>,
) -> Result<(), (Who, MakeFault)>
    requires since { are_unchanged_since refs.old.lasts 0 ≡ true }
    requires counts { IsMoved refs.old.tally refs.old.values (start_of refs.old.tally refs.old.values) 0 0 }
    ensures ok { OnOk result (with_ref M.accepts (F.knows funs.now).preds start.now refs.old ≡ Ok refs.new) }
    ensures since { are_unchanged_since refs.new.lasts 0 ≡ true }
    ensures counts { IsMoved refs.new.tally refs.new.values (start_of refs.new.tally refs.new.values) 0 0 }
    ensures fault { IfErr result (λ e. e.1 ≢ makes.Memory
        → with_ref M.accepts (F.knows funs.now).preds start.now refs.old ≡ Err e) }
    ensures memory { IfErr result (λ e. e.1 ≡ makes.Memory
        → refusal_of (with_ref M.accepts (F.knows funs.now).preds start.now refs.old) ≡ None) }
{
    let who = Who::Ref(refs.len() as u32);
    if let Err(fault) = refs.check_make(funs, 0, &start.value, &start.rule, start.tally) {
        return Err((who, fault));
    }
    let Ok((value, rule)) = shared(&start.value, &start.rule) else {
        return Err((who, MakeFault::Memory));
    };
    match refs.add(alloc, 0, value, rule, start.tally) {
        Ok(_) => Ok(()),
        Err(_) => Err((who, MakeFault::Memory)),
    }
}

// The atoms, made one by one.
pub(crate) fn declared_atoms<M: Meaning, F: Functions<M>>(
    alloc: Global,
    funs: &F,
    starts: &[AtomStart],
) -> Result<AtomStore<M>, (Who, MakeFault)>
    ensures ok { IfOk result (λ atoms. declared_atoms M.accepts (F.knows funs.now).preds starts.now ≡ Ok atoms) }
    ensures fault { IfErr result (λ e. e.1 ≢ makes.Memory
        → declared_atoms M.accepts (F.knows funs.now).preds starts.now ≡ Err e) }
    ensures memory { IfErr result (λ e. e.1 ≡ makes.Memory → (next : Option (Who × MakeFault))
        → first_refused (with_atom M.accepts (F.knows funs.now).preds) starts.now no_atoms next ≡ None) }
{
    let mut atoms = AtomStore::empty(alloc);
    for start in starts {
        if let Err(refused) = declare_atom(alloc, funs, start, &mut atoms) {
            return Err(refused);
        }
    }
    Ok(atoms)
}

fn declare_atom<M: Meaning, F: Functions<M>>(
    alloc: Global,
    funs: &F,
    start: &AtomStart,
    atoms: &mut AtomStore<M>,
) -> Result<(), (Who, MakeFault)>
    ensures ok { OnOk result (with_atom M.accepts (F.knows funs.now).preds start.now atoms.old ≡ Ok atoms.new) }
    ensures fault { IfErr result (λ e. e.1 ≢ makes.Memory
        → with_atom M.accepts (F.knows funs.now).preds start.now atoms.old ≡ Err e) }
    ensures memory { IfErr result (λ e. e.1 ≡ makes.Memory
        → refusal_of (with_atom M.accepts (F.knows funs.now).preds start.now atoms.old) ≡ None) }
{
    let who = Who::Atom(atoms.len() as u32);
    if let Err(fault) = atoms.check_make(funs, 0, &start.value, &start.rule) {
        return Err((who, fault));
    }
    let Ok((value, rule)) = shared(&start.value, &start.rule) else {
        return Err((who, MakeFault::Memory));
    };
    match atoms.add(alloc, value, rule) {
        Ok(_) => Ok(()),
        Err(_) => Err((who, MakeFault::Memory)),
    }
}

// The agents, made one by one.
pub(crate) fn declared_agents<M: Meaning, F: Functions<M>>(
    alloc: Global,
    funs: &F,
    starts: &[AgentStart],
) -> Result<AgentStore<M>, (Who, MakeFault)>
    ensures ok { IfOk result (λ agents. declared_agents M.accepts (F.knows funs.now).preds starts.now ≡ Ok agents) }
    ensures held { IfOk result (λ agents. agents.unreleased ≡ []) }
    ensures fault { IfErr result (λ e. e.1 ≢ makes.Memory
        → declared_agents M.accepts (F.knows funs.now).preds starts.now ≡ Err e) }
    ensures memory { IfErr result (λ e. e.1 ≡ makes.Memory → (next : Option (Who × MakeFault))
        → first_refused (with_agent M.accepts (F.knows funs.now).preds) starts.now no_agents next ≡ None) }
{
    let mut agents = AgentStore::empty(alloc);
    for start in starts {
        if let Err(refused) = declare_agent(alloc, funs, start, &mut agents) {
            return Err(refused);
        }
    }
    Ok(agents)
}

fn declare_agent<M: Meaning, F: Functions<M>>(
    alloc: Global,
    funs: &F,
    start: &AgentStart,
    agents: &mut AgentStore<M>,
) -> Result<(), (Who, MakeFault)>
    ensures ok { OnOk result (with_agent M.accepts (F.knows funs.now).preds start.now agents.old ≡ Ok agents.new) }
    ensures held { agents.new.unreleased ≡ agents.old.unreleased }
    ensures fault { IfErr result (λ e. e.1 ≢ makes.Memory
        → with_agent M.accepts (F.knows funs.now).preds start.now agents.old ≡ Err e) }
    ensures memory { IfErr result (λ e. e.1 ≡ makes.Memory
        → refusal_of (with_agent M.accepts (F.knows funs.now).preds start.now agents.old) ≡ None) }
{
    let who = Who::Agent(agents.len() as u32);
    if let Err(fault) = agents.check_make(funs, &start.value, &start.rule) {
        return Err((who, fault));
    }
    let Ok((value, rule)) = shared(&start.value, &start.rule) else {
        return Err((who, MakeFault::Memory));
    };
    match agents.add(alloc, value, rule, start.mode) {
        Ok(_) => Ok(()),
        Err(_) => Err((who, MakeFault::Memory)),
    }
}

// One more owner of a value and of a rule.
fn shared(value: &Value, rule: &Option<Rule>) -> Result<(Value, Option<Rule>), AllocError>
    ensures { IfOk result (λ p. (p.0 ≡ value.now) × (p.1 ≡ rule.now)) }
{
    let rule = match rule {
        Some(rule) => Some(rule.share()?),
        None => None,
    };
    Ok((value.share()?, rule))
}

// The base of a world that begins with these.
pub(crate) fn base_of<M: Meaning>(
    alloc: Global,
    refs: &RefStore<M>,
    atoms: &AtomStore<M>,
) -> Result<Base, AllocError>
    ensures base { IfOk result (λ base. base ≡ base_of refs.now atoms.now) }
    ensures lasts { OnOk result (length refs.now.lasts ≡ length refs.now.values) }
{
    Ok(Base {
        point: 0,
        refs: SharedVec::of(alloc, values_of_refs(alloc, refs)?)?,
        last: SharedVec::of(alloc, lasts_of_refs(alloc, refs)?)?,
        atoms: SharedVec::of(alloc, values_of_atoms(alloc, atoms)?)?,
        tally: refs.tally(),
        commits: 0,
        added: 0,
        taken: 0,
    })
}

// What the tally begins with; 0 where there is none.
pub(crate) fn start_of<M: Meaning>(refs: &RefStore<M>) -> u64
    ensures { result ≡ start_of refs.now.tally refs.now.values }
{
    match refs.tally() {
        Some(t) => match refs.value_of(t) {
            Some(value) => count(value),
            None => 0,
        },
        None => 0,
    }
}

#[tactic(auto, using(crate::proofs::Starting::take_next))]
fn values_of_refs<M: Meaning>(alloc: Global, refs: &RefStore<M>) -> Result<Vec<Value>, AllocError>
    ensures { IfOk result (λ all. all.items ≡ refs.now.values) }
{
    let mut all = Vec::with_capacity(alloc, refs.len())?;
    for r in 0..refs.len() {
        match refs.value_of(r as u32) {
            Some(value) => all.push(value.share()?)?,
            None => unreachable!(),
        }
    }
    Ok(all)
}

fn lasts_of_refs<M: Meaning>(alloc: Global, refs: &RefStore<M>) -> Result<Vec<u64>, AllocError>
    ensures lasts { IfOk result (λ all. all.items ≡ refs.now.lasts) }
    ensures all { OnOk result (length refs.now.lasts ≡ length refs.now.values) }
{
    let mut all = Vec::with_capacity(alloc, refs.len())?;
    for r in 0..refs.len() {
        all.push(refs.changed_at(r as u32))?;
    }
    Ok(all)
}

#[tactic(auto, using(crate::proofs::Starting::take_next))]
fn values_of_atoms<M: Meaning>(
    alloc: Global,
    atoms: &AtomStore<M>,
) -> Result<Vec<Value>, AllocError>
    ensures { IfOk result (λ all. all.items ≡ atoms.now.values) }
{
    let mut all = Vec::with_capacity(alloc, atoms.len())?;
    for a in 0..atoms.len() {
        match atoms.value_of(a as u32) {
            Some(value) => all.push(value.share()?)?,
            None => unreachable!(),
        }
    }
    Ok(all)
}
