//! Acts on references of all kinds: rules, watches, and reads.
ghost use Rattle.std.specs.Prelude.{ℕ, []};
ghost use Rattle.ref_fun.specs.Calls.{Known};
ghost use Rattle.ref_play.specs.Present.{ReadsError, ReadsRule, ReadsValue};
ghost use Rattle.ref_play.specs.Sims.{HaveSameBooks, Serves, SimSeen, present};
ghost use Rattle.ref_play.specs.declared.events.Act.TheVariants as acts;

use crate::events::Reply;
use ref_fun::{Functions, Meaning, Rule, share_rule};
use ref_log::{RuleFault, WatchFault, Who};
use ref_value::Value;
use ref_world::World;
use std::alloc::AllocError;

// Gives a reference another rule, or none.
pub(crate) fn set_validator<M: Meaning, F: Functions<M>>(
    funs: &F,
    world: &mut World<M>,
    who: Who,
    rule: &Option<Rule>,
) -> Reply
    ensures serves { (s : SimSeen) (actor : ℕ) → Serves M.means M.accepts (F.knows funs.now) (record s { world = world.old })
        actor (acts.SetValidator who rule.now) result
        (record s { world = world.new }) }
    ensures books { HaveSameBooks world.old world.new }
{
    let Ok(rule) = share_rule(rule) else {
        return Reply::SetValidator(Err(RuleFault::Memory));
    };
    match world.set_validator(funs, who, rule) {
        Ok(()) => Reply::SetValidator(Ok(())),
        Err(fault) => Reply::SetValidator(Err(fault)),
    }
}

// Adds a watch to a reference.
pub(crate) fn add_watch<M: Meaning>(world: &mut World<M>, who: Who, key: &Value) -> Reply
    ensures serves { (s : SimSeen) (knows : Known) (actor : ℕ) → Serves M.means M.accepts knows
        (record s { world = world.old }) actor (acts.AddWatch who key.now) result
        (record s { world = world.new }) }
    ensures books { HaveSameBooks world.old world.new }
{
    let Ok(key) = key.share() else {
        return Reply::AddWatch(Err(WatchFault::Memory));
    };
    match world.add_watch(who, key) {
        Ok(is_new) => Reply::AddWatch(Ok(is_new)),
        Err(fault) => Reply::AddWatch(Err(fault)),
    }
}

// Takes a watch away from a reference.
pub(crate) fn remove_watch<M: Meaning>(world: &mut World<M>, who: Who, key: &Value) -> Reply
    ensures serves { (s : SimSeen) (knows : Known) (actor : ℕ) → Serves M.means M.accepts knows
        (record s { world = world.old }) actor (acts.RemoveWatch who key.now) result
        (record s { world = world.new }) }
    ensures books { HaveSameBooks world.old world.new }
{
    Reply::RemoveWatch(world.remove_watch(who, key))
}

// The value of a reference now, if it is there.
pub(crate) fn value_of<M: Meaning>(world: &World<M>, who: Who) -> Reply
    ensures { (s : SimSeen) → ReadsValue (present (record s { world = world.now })) who result []
        (present (record s { world = world.now })) }
{
    let Some(value) = world.value_of(who) else {
        return Reply::ValueOf(Ok(None));
    };
    match value.share() {
        Ok(value) => Reply::ValueOf(Ok(Some(value))),
        Err(_) => Reply::ValueOf(Err(AllocError)),
    }
}

// The rule of a reference now, if it has one.
pub(crate) fn rule_of<M: Meaning>(world: &World<M>, who: Who) -> Reply
    ensures { (s : SimSeen) → ReadsRule (present (record s { world = world.now })) who result []
        (present (record s { world = world.now })) }
{
    let Some(rule) = world.rule_of(who) else {
        return Reply::RuleOf(Ok(None));
    };
    match rule.share() {
        Ok(rule) => Reply::RuleOf(Ok(Some(rule))),
        Err(_) => Reply::RuleOf(Err(AllocError)),
    }
}

// The error of a failed agent.
pub(crate) fn error_of<M: Meaning>(world: &World<M>, g: u32) -> Reply
    ensures { (s : SimSeen) → ReadsError (present (record s { world = world.now })) g result []
        (present (record s { world = world.now })) }
{
    Reply::ErrorOf(world.error_of(g))
}
