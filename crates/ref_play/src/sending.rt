//! What actors do with agents.
ghost use Rattle.std.specs.Prelude.{◌≡◌, []};
ghost use Rattle.ref_play.specs.Present.{FoldsAgent, MakesAgent, Releases, ReleasesCarried, Restarts, Sends, SetsMode};
ghost use Rattle.ref_play.specs.Sims.{SimSeen, present};
ghost use Rattle.ref_world.specs.World.{with_agents};

use crate::events::Reply;
use ref_agents::{ErrorMode, RestartFault, SendFault};
use ref_fun::{Action, Functions, Meaning, Rule, share_rule};
use ref_log::MakeFault;
use ref_value::Value;
use ref_world::World;
use std::alloc::{AllocError, Global};

// Sends an action to an agent.
pub(crate) fn send<M: Meaning>(world: &mut World<M>, g: u32, action: &Action) -> Reply
    ensures acts { (s : SimSeen) → Sends (present (record s { world = world.old })) g action.now result []
        (present (record s { world = world.new })) }
    ensures rest { world.new ≡ with_agents world.old world.new.agents }
{
    let Ok(action) = action.share() else {
        return Reply::Send(Err(SendFault::Memory));
    };
    match world.send(g, action) {
        Ok(()) => Reply::Send(Ok(())),
        Err(fault) => Reply::Send(Err(fault)),
    }
}

// Lets the sends of a commit be taken.
pub(crate) fn release<M: Meaning>(world: &mut World<M>, point: u64) -> Reply
    ensures acts { (s : SimSeen) → Releases (present (record s { world = world.old })) point result []
        (present (record s { world = world.new })) }
    ensures rest { world.new ≡ with_agents world.old world.new.agents }
{
    Reply::Release(world.release(point))
}

// Releases what the last action of an agent carried.
pub(crate) fn release_carried<M: Meaning>(world: &mut World<M>, g: u32) -> Reply
    ensures acts { (s : SimSeen) → ReleasesCarried (present (record s { world = world.old })) g result []
        (present (record s { world = world.new })) }
    ensures rest { world.new ≡ with_agents world.old world.new.agents }
{
    Reply::ReleaseCarried(world.release_carried(g))
}

// Restarts a failed agent.
pub(crate) fn restart<M: Meaning, F: Functions<M>>(
    funs: &F,
    world: &mut World<M>,
    g: u32,
    state: &Value,
    clear: bool,
) -> Reply
    ensures acts { (s : SimSeen) → Restarts M.accepts (F.knows funs.now) (present (record s { world = world.old })) g
        state.now clear result []
        (present (record s { world = world.new })) }
    ensures rest { world.new ≡ with_agents world.old world.new.agents }
{
    let Ok(state) = state.share() else {
        return Reply::Restart(Err(RestartFault::Memory));
    };
    match world.restart(funs, g, state, clear) {
        Ok(()) => Reply::Restart(Ok(())),
        Err(fault) => Reply::Restart(Err(fault)),
    }
}

// Sets what happens where an action of an agent fails.
pub(crate) fn set_error_mode<M: Meaning>(world: &mut World<M>, g: u32, mode: ErrorMode) -> Reply
    ensures acts { (s : SimSeen) → SetsMode (present (record s { world = world.old })) g mode result []
        (present (record s { world = world.new })) }
    ensures rest { world.new ≡ with_agents world.old world.new.agents }
{
    match world.set_error_mode(g, mode) {
        Ok(()) => Reply::SetErrorMode(Ok(())),
        Err(fault) => Reply::SetErrorMode(Err(fault)),
    }
}

// Folds the account of an agent.
pub(crate) fn fold_agent<M: Meaning>(world: &mut World<M>, g: u32) -> Reply
    ensures acts { (s : SimSeen) → FoldsAgent (present (record s { world = world.old })) g result []
        (present (record s { world = world.new })) }
    ensures rest { world.new ≡ with_agents world.old world.new.agents }
{
    match world.fold_agent(g) {
        Ok(done) => Reply::Fold(Ok(done)),
        Err(_) => Reply::Fold(Err(AllocError)),
    }
}

// Makes an agent.
pub(crate) fn make_agent<M: Meaning, F: Functions<M>>(
    alloc: Global,
    funs: &F,
    world: &mut World<M>,
    value: &Value,
    rule: &Option<Rule>,
    mode: ErrorMode,
) -> Reply
    ensures acts { (s : SimSeen) → MakesAgent M.accepts (F.knows funs.now) (present (record s { world = world.old }))
        value.now rule.now mode result []
        (present (record s { world = world.new })) }
    ensures rest { world.new ≡ with_agents world.old world.new.agents }
{
    let Ok(value) = value.share() else {
        return Reply::MakeAgent(Err(MakeFault::Memory));
    };
    let Ok(rule) = share_rule(rule) else {
        return Reply::MakeAgent(Err(MakeFault::Memory));
    };
    match world.make_agent(alloc, funs, value, rule, mode) {
        Ok(g) => Reply::MakeAgent(Ok(g)),
        Err(fault) => Reply::MakeAgent(Err(fault)),
    }
}
