//! What a world's dump says, without the dump.
ghost use Rattle.std.specs.Prelude.{◌≡◌, ◌≤◌, length, map, IfOk, option_copied};
ghost use Rattle.ref_world.specs.References.{guards_of, values_of};
ghost use Rattle.ref_audit.specs.Made.{AreFew, who_of};
ghost use Rattle.ref_audit.specs.OwnDump.{agents_seen, dump_seen, kepts_seen};
ghost use Rattle.ref_log.specs.Limits.{most_references};

use crate::kinds::RefOrAtom;
use ref_agents::{Account, Handled};
use ref_fun::{Action, Core, Rule};
use ref_log::{Base, MOST_REFERENCES, SharedVec, Who};
use ref_verdict::reading::dumps::{Dump, Kept, KeptAgent, Version};
use ref_world::World;
use std::alloc::{AllocError, Global};

/// What the dump of a world says. Values, entries and actions are shared: it is linear in the numbers of references and of actions,
/// whatever the length of the log.
pub(crate) fn dump_seen(alloc: Global, world: &World<Core>) -> Result<Dump, AllocError>
    requires { AreFew world.now }
    ensures { IfOk result (λ dump. dump ≡ dump_seen world.now) }
{
    Ok(Dump {
        version: Version::Three,
        base: share_base(world.base())?,
        entries: world.log().share()?,
        refs: kepts_seen(alloc, world, RefOrAtom::Ref)?,
        atoms: kepts_seen(alloc, world, RefOrAtom::Atom)?,
        agents: agents_seen(alloc, world)?,
        commits: world.commits(),
        added: world.added(),
        taken: world.taken(),
    })
}

fn share_base(base: &Base) -> Result<Base, AllocError>
    ensures { IfOk result (λ same. same ≡ base.now) }
{
    Ok(Base {
        point: base.point,
        refs: base.refs.share()?,
        last: base.last.share()?,
        atoms: base.atoms.share()?,
        tally: base.tally,
        commits: base.commits,
        added: base.added,
        taken: base.taken,
    })
}

fn share_lent_rule(rule: Option<&Rule>) -> Result<Option<Rule>, AllocError>
    ensures { IfOk result (λ same. same ≡ option_copied rule.entry) }
{
    match rule {
        Some(rule) => Ok(Some(rule.share()?)),
        None => Ok(None),
    }
}

// The refs or the atoms now, with their rules.
fn kepts_seen(
    alloc: Global,
    world: &World<Core>,
    kind: RefOrAtom,
) -> Result<SharedVec<Kept>, AllocError>
    requires { length (values_of world.now (who_of kind 0)) ≤ most_references }
    ensures { IfOk result (λ all. all
        ≡ kepts_seen (guards_of world.now (who_of kind 0)) (values_of world.now (who_of kind 0))) }
{
    let mut all = Vec::new(alloc);
    for n in 0..=MOST_REFERENCES as u32 {
        let who = kind.who(n);
        let Some(value) = world.value_of(who) else {
            return SharedVec::of(alloc, all);
        };
        all.push(Kept {
            value: value.share()?,
            rule: share_lent_rule(world.rule_of(who))?,
        })?;
    }
    unreachable!()
}

// The agents now, with what they did and what waits.
fn agents_seen(alloc: Global, world: &World<Core>) -> Result<SharedVec<KeptAgent>, AllocError>
    requires { AreFew world.now }
    ensures { IfOk result (λ all. all ≡ agents_seen world.now.agents.guards world.now.agents.agents) }
{
    let mut all = Vec::new(alloc);
    for g in 0..=MOST_REFERENCES as u32 {
        let who = Who::Agent(g);
        let Some(account) = world.account(g) else {
            return SharedVec::of(alloc, all);
        };
        let Some(state) = world.value_of(who) else {
            unreachable!()
        };
        all.push(KeptAgent {
            start: account.start().share()?,
            handled: share_handled(alloc, account.handled())?,
            queue: share_waiting(alloc, account)?,
            value: state.share()?,
            failed: world.error_of(g).is_some(),
            rule: share_lent_rule(world.rule_of(who))?,
        })?;
    }
    unreachable!()
}

fn share_handled(alloc: Global, handled: &[Handled]) -> Result<SharedVec<Handled>, AllocError>
    ensures { IfOk result (λ all. all ≡ handled.now) }
{
    let mut all = Vec::with_capacity(alloc, handled.len())?;
    for ended in handled {
        all.push(Handled {
            action: ended.action.share()?,
            mark: ended.mark,
        })?;
    }
    SharedVec::of(alloc, all)
}

// The actions that wait, in order.
fn share_waiting(alloc: Global, account: &Account) -> Result<SharedVec<Action>, AllocError>
    ensures { IfOk result (λ all. all ≡ map (λ q. q.action) account.now.queue) }
{
    let mut all = Vec::with_capacity(alloc, account.waiting())?;
    for i in 0..account.waiting() {
        let Some(queued) = account.waiting_at(i) else {
            unreachable!()
        };
        all.push(queued.action.share()?)?;
    }
    SharedVec::of(alloc, all)
}
