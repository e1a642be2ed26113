//! What a dump says of a world's references now.
ghost use Rattle.std.specs.Prelude.{◌≡◌, ◌≤◌, length, IfErr, IfOk};
ghost use Rattle.ref_value.specs.Edn.{nesting};
ghost use Rattle.ref_world.specs.References.{guards_of, values_of};
ghost use Rattle.ref_audit.specs.Dumped.{agents_form, lesser, unnamed, values_form};
ghost use Rattle.ref_audit.specs.Made.{AreFew, IsMakeFault, who_of};
ghost use Rattle.ref_log.specs.Limits.{most_references};

use crate::dumping::agents::agent;
use crate::dumping::forms::vector_of;
use crate::dumping::references::value_now;
use crate::dumping::unnamed::{least_in_account, least_in_log, lesser};
use crate::faults::DumpMakeFault;
use crate::kinds::RefOrAtom;
use ref_fun::Core;
use ref_log::{MOST_REFERENCES, Who};
use ref_value::Value;
use ref_world::World;
use std::alloc::Global;

// The refs or the atoms now, with their rules.
#[tactic(auto, using(crate::proofs::Depths::make_faults))]
pub(crate) fn values_now(
    alloc: Global,
    world: &World<Core>,
    kind: RefOrAtom,
) -> Result<Value, DumpMakeFault>
    requires { length (values_of world.now (who_of kind 0)) ≤ most_references }
    ensures made { IfOk result (λ v. v
        ≡ values_form (guards_of world.now (who_of kind 0)) (values_of world.now (who_of kind 0))) }
    ensures fault { IfErr result (IsMakeFault
        (nesting (values_form (guards_of world.now (who_of kind 0)) (values_of world.now (who_of kind 0))))) }
{
    let mut forms = Vec::new(alloc);
    for n in 0..=MOST_REFERENCES as u32 {
        let who = kind.who(n);
        match world.value_of(who) {
            Some(value) => forms.push(value_now(alloc, value, world.rule_of(who))?)?,
            None => return vector_of(alloc, forms),
        }
    }
    unreachable!()
}

// The agents now, with their accounts.
#[tactic(auto, using(crate::proofs::Depths::make_faults))]
pub(crate) fn agents_now(alloc: Global, world: &World<Core>) -> Result<Value, DumpMakeFault>
    requires { AreFew world.now }
    ensures made { IfOk result (λ v. v ≡ agents_form world.now.agents.guards world.now.agents.agents) }
    ensures fault { IfErr result (IsMakeFault (nesting (agents_form world.now.agents.guards world.now.agents.agents))) }
{
    let mut forms = Vec::new(alloc);
    for g in 0..=MOST_REFERENCES as u32 {
        let who = Who::Agent(g);
        let Some(account) = world.account(g) else {
            return vector_of(alloc, forms);
        };
        let Some(state) = world.value_of(who) else {
            unreachable!()
        };
        let failed = world.error_of(g).is_some();
        forms.push(agent(alloc, account, state, failed, world.rule_of(who))?)?;
    }
    unreachable!()
}

// The least code of the log's sends and the agents' accounts that no function of Core has.
pub(crate) fn unnamed_in(world: &World<Core>) -> Option<u32>
    requires { AreFew world.now }
    ensures { result ≡ unnamed world.now }
{
    let mut found = least_in_log(world.log());
    for g in 0..=MOST_REFERENCES as u32 {
        match world.account(g) {
            Some(account) => found = lesser(found, least_in_account(account)),
            None => return found,
        }
    }
    unreachable!()
}
