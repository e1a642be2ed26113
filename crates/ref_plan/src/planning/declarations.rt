//! The references that a workload or a list of events declares.
ghost use Rattle.std.specs.Prelude.{◌≡◌, ◌≢◌, ◌≤◌, ◌&&◌, ◌||◌, ℕ, [], List, IfErr, IfOk, length};
ghost use Rattle.ref_forms.specs.Names.{NamesSeen};
ghost use Rattle.ref_agents.specs.declared.starts.AgentStart.{AgentStart as AnyAgent};
ghost use Rattle.ref_agents.specs.declared.starts.AtomStart.{AtomStart as AnyAtom};
ghost use Rattle.ref_agents.specs.declared.starts.RefStart.{RefStart as AnyRef};
ghost use Rattle.ref_plan.specs.Declarations.{AreDeclared, AreReferences, agent_of, atom_of, ref_of, tallies};
ghost use Rattle.ref_plan.specs.Limits.{most_declared};
ghost use Rattle.ref_plan.specs.Named.{AreApart};
ghost use Rattle.ref_plan.specs.Tables.{Knows, refs_alone, refs_and_atoms};

use crate::plan_faults::PlanFault;
use crate::planning::hashing::NameHashing;
use crate::planning::names::{Declared, NameTable};
use crate::planning::references::{Refused, agent_in, atom_in, ref_in};
use ref_agents::{AgentStart, AtomStart, RefStart, Start};
use ref_forms::Names;
use ref_log::Who;
use ref_value::{Items, Text};
use std::alloc::Global;

/// How many references of a kind a workload may declare.
pub const MOST_DECLARED: usize = 4096;

fn plan_fault(refused: Refused, who: Who) -> PlanFault
    ensures { result ≢ PlanFault.Memory → refused ≢ Refused.Memory }
{
    match refused {
        Refused::Form => PlanFault::BadReference(who),
        Refused::Taken => PlanFault::NameTwice(who),
        Refused::Tally => PlanFault::BadTally(who),
        Refused::Start => PlanFault::StartInvalid(who),
        Refused::Memory => PlanFault::Memory,
    }
}

// Whether there is a tally with this ref, if that is judged.
fn tally_with(has_tally: bool, start: &RefStart, judged: bool) -> bool
    ensures { result ≡ (has_tally || (judged && start.now.tally)) }
{
    has_tally || (judged && start.tally)
}

/// The refs that these forms declare, the first of all references, with their names, which go into the table.
pub fn refs(
    alloc: Global,
    forms: &Items,
    table: &mut NameTable,
    judged: bool,
) -> Result<(Vec<Text>, Vec<RefStart>), PlanFault>
    requires few { length forms.now ≤ most_declared }
    requires empty { table.old ≡ [] }
    ensures ok { IfOk result (λ r. AreDeclared (ref_of judged) forms.now r.0.items r.1.items) }
    ensures one_tally { IfOk result (λ r. tallies judged r.1.items ≤ 1) }
    ensures known { IfOk result (λ r. Knows table.new (refs_alone r.0.items)) }
    ensures none { IfErr result (λ f. f ≢ PlanFault.Memory → (names : NamesSeen) (starts : List AnyRef)
        → AreDeclared (ref_of judged) forms.now names.refs starts → AreApart names → tallies judged starts ≤ 1 → ⊥) }
{
    let mut names = Vec::new(alloc);
    let mut starts = Vec::new(alloc);
    let mut has_tally = false;
    for i in 0..forms.len() {
        let who = Who::Ref(i as u32);
        match ref_in(alloc, forms.at(i), who, table, has_tally, judged) {
            Ok((name, start)) => {
                has_tally = tally_with(has_tally, &start, judged);
                names.push(name)?;
                starts.push(start)?;
            }
            Err(refused) => return Err(plan_fault(refused, who)),
        }
    }
    Ok((names, starts))
}

/// The atoms that these forms declare, behind all refs, with their names, which go into the table.
pub fn atoms(
    alloc: Global,
    forms: &Items,
    table: &mut NameTable,
    judged: bool,
) -> Result<(Vec<Text>, Vec<AtomStart>), PlanFault>
    requires { length forms.now ≤ most_declared }
    ensures ok { IfOk result (λ r. AreDeclared (atom_of judged) forms.now r.0.items r.1.items) }
    ensures known { IfOk result (λ r. (refs : List (List ℕ))
        → Knows table.old (refs_alone refs) → Knows table.new (refs_and_atoms refs r.0.items)) }
    ensures none { IfErr result (λ f. f ≢ PlanFault.Memory → (names : NamesSeen) (starts : List AnyAtom)
        → Knows table.old (refs_alone names.refs)
        → AreDeclared (atom_of judged) forms.now names.atoms starts → AreApart names → ⊥) }
{
    let mut names = Vec::new(alloc);
    let mut starts = Vec::new(alloc);
    for i in 0..forms.len() {
        let who = Who::Atom(i as u32);
        match atom_in(alloc, forms.at(i), who, table, judged) {
            Ok((name, start)) => {
                names.push(name)?;
                starts.push(start)?;
            }
            Err(refused) => return Err(plan_fault(refused, who)),
        }
    }
    Ok((names, starts))
}

/// The agents that these forms declare, behind all refs and atoms, with their names, which go into the table.
pub fn agents(
    alloc: Global,
    forms: &Items,
    table: &mut NameTable,
    judged: bool,
) -> Result<(Vec<Text>, Vec<AgentStart>), PlanFault>
    requires { length forms.now ≤ most_declared }
    ensures ok { IfOk result (λ r. AreDeclared (agent_of judged) forms.now r.0.items r.1.items) }
    ensures known { IfOk result (λ r. (refs atoms : List (List ℕ))
        → Knows table.old (refs_and_atoms refs atoms)
        → Knows table.new (record { refs = refs; atoms = atoms; agents = r.0.items })) }
    ensures none { IfErr result (λ f. f ≢ PlanFault.Memory → (names : NamesSeen) (starts : List AnyAgent)
        → Knows table.old (refs_and_atoms names.refs names.atoms)
        → AreDeclared (agent_of judged) forms.now names.agents starts → AreApart names → ⊥) }
{
    let mut names = Vec::new(alloc);
    let mut starts = Vec::new(alloc);
    for i in 0..forms.len() {
        let who = Who::Agent(i as u32);
        match agent_in(alloc, forms.at(i), who, table, judged) {
            Ok((name, start)) => {
                names.push(name)?;
                starts.push(start)?;
            }
            Err(refused) => return Err(plan_fault(refused, who)),
        }
    }
    Ok((names, starts))
}

/// The references that these forms declare, with their names. What they begin with may be judged: whether the rules accept the values, and
/// whether the tally, of which there is at most one, is an integer of 0 or more.
pub fn declarations(
    alloc: Global,
    ref_forms: &Items,
    atom_forms: &Items,
    agent_forms: &Items,
    judged: bool,
) -> Result<(Declared, Start), PlanFault>
    requires few_refs { length ref_forms.now ≤ most_declared }
    requires few_atoms { length atom_forms.now ≤ most_declared }
    requires few_agents { length agent_forms.now ≤ most_declared }
    ensures ok { IfOk result (λ r. AreReferences judged ref_forms.now atom_forms.now agent_forms.now r.0
        r.1.refs.items r.1.atoms.items r.1.agents.items) }
    ensures none { IfErr result (λ f. f ≢ PlanFault.Memory
        → (names : NamesSeen) (refs : List AnyRef) (atoms : List AnyAtom) (agents : List AnyAgent)
        → AreReferences judged ref_forms.now atom_forms.now agent_forms.now names refs atoms agents → ⊥) }
{
    let hashing = NameHashing::of(ref_forms, atom_forms, agent_forms);
    let mut table = NameTable::empty(alloc, hashing);
    let (ref_names, refs) = refs(alloc, ref_forms, &mut table, judged)?;
    let (atom_names, atoms) = atoms(alloc, atom_forms, &mut table, judged)?;
    let (agent_names, agents) = agents(alloc, agent_forms, &mut table, judged)?;
    let names = Names::of(ref_names, atom_names, agent_names);
    let start = Start {
        refs,
        atoms,
        agents,
    };
    Ok((Declared::of(names, table), start))
}
