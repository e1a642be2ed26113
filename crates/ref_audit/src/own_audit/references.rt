//! What is always so of a world's references, and what the types of rules and accounts say, stated of all. These calls change nothing.
ghost use Rattle.std.specs.Prelude.{◌≡◌, ◌≤◌, ℕ, true, is_some, length, option_copied, slice_get};
ghost use Rattle.ref_agents.specs.Agents.{account_at, values_of};
ghost use Rattle.ref_log.specs.Guards as guards;
ghost use Rattle.ref_world.specs.References.{rule_at, value_at};
ghost use Rattle.ref_audit.specs.OwnDump.{account_fact, is_small_rule, rule_fact};
ghost use Rattle.ref_log.specs.Limits.{most_references};

use crate::own_audit::parts::{tell_account, tell_args};
use ref_fun::{Core, Rule};
use ref_log::{MOST_REFERENCES, Who};
use ref_world::World;

fn tell_rule(rule: Option<&Rule>)
    ensures { is_small_rule (option_copied rule.entry) ≡ true }
{
    match rule {
        Some(rule) => tell_args(&rule.args),
        None => {}
    }
}

// Whether a reference is here. Its rule accepts its value.
#[tactic(auto, using(crate::proofs::OwnFacts::fact_of))]
fn tell_reference(world: &World<Core>, who: Who) -> bool
    ensures here { result ≡ is_some (value_at world.now who) }
    ensures fact { rule_fact (value_at world.now who) (rule_at world.now who) ≡ true }
{
    tell_rule(world.rule_of(who));
    world.value_of(who).is_some()
}

pub(crate) fn tell_refs(world: &World<Core>)
    requires { length world.now.refs.values ≤ most_references }
    ensures { (n : ℕ) → rule_fact (slice_get world.now.refs.values n) (guards.rule_at world.now.refs.guards n) ≡ true }
{
    for r in 0..MOST_REFERENCES as u32 {
        if !tell_reference(world, Who::Ref(r)) {
            return;
        }
    }
}

pub(crate) fn tell_atoms(world: &World<Core>)
    requires { length world.now.atoms.values ≤ most_references }
    ensures { (n : ℕ) → rule_fact (slice_get world.now.atoms.values n) (guards.rule_at world.now.atoms.guards n)
        ≡ true }
{
    for a in 0..MOST_REFERENCES as u32 {
        if !tell_reference(world, Who::Atom(a)) {
            return;
        }
    }
}

pub(crate) fn tell_agents(world: &World<Core>)
    requires { length world.now.agents.agents ≤ most_references }
    ensures { (n : ℕ) → rule_fact (slice_get (values_of world.now.agents.agents) n)
        (guards.rule_at world.now.agents.guards n) ≡ true }
{
    for g in 0..MOST_REFERENCES as u32 {
        if !tell_reference(world, Who::Agent(g)) {
            return;
        }
    }
}

// Whether an agent is here.
fn tell_account_of(world: &World<Core>, g: u32) -> bool
    ensures here { result ≡ is_some (account_at world.now.agents.agents g) }
    ensures fact { account_fact (account_at world.now.agents.agents g) ≡ true }
{
    match world.account(g) {
        Some(account) => {
            tell_account(account);
            true
        }
        None => false,
    }
}

pub(crate) fn tell_accounts(world: &World<Core>)
    requires { length world.now.agents.agents ≤ most_references }
    ensures { (g : ℕ) → account_fact (account_at world.now.agents.agents g) ≡ true }
{
    for g in 0..MOST_REFERENCES as u32 {
        if !tell_account_of(world, g) {
            return;
        }
    }
}
