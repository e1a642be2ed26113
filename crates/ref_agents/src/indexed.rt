//! The agents, with an index of those that are ready.
ghost use Rattle.std.specs.Prelude.{◌≡◌, ◌≢◌, ◌<◌, ◌-◌, ◌==◌, ◌++◌, ◌∷◌, if◌then◌else◌, ℕ, [], false, true, None, IfSome, OnOk, OnErr, length, option_copied, slice_get, slice_set, take};
ghost use Rattle.std.specs.BTreeMap.{is_at};
ghost use Rattle.std.specs.BTreeSet.{insert_key, keys};
ghost use Rattle.std.specs.Ordering.{nat_cmp};
ghost use Rattle.std.specs.Set.{remove_key};
ghost use Rattle.ref_agents.specs.Account.{has_head, has_point};
ghost use Rattle.ref_agents.specs.Agents.{is_ready_if_here};
ghost use Rattle.ref_agents.specs.Indexed.{AreMarked, HaveHeads, IsNext, is_headed, is_sent_at, sent_by_at, with_items};
ghost use Rattle.ref_agents.specs.Marks.{is_set};
ghost use Rattle.ref_agents.specs.Places.{has_pair};

use crate::accounts::SentBy;
use crate::agents::Agent;
use crate::marks::Marks;
use crate::pairs::Pairs;
use std::alloc::{AllocError, Global};
use std::collections::BTreeSet;
use std::marker::Model;

/// Agents, numbered from 0, and the points of the commits whose sends may not be taken yet. An agent that is ready is found by an
/// index of marks. Contracts see lists.
#[derive(Drop)]
pub(crate) struct IndexedAgents {
    pub(crate) agents: Vec<Agent>,
    pub(crate) unreleased: BTreeSet<u64>,
    // Which agents are ready.
    pub(crate) ready: Marks,
    // Each agent whose first action that waits was sent by a commit, behind the commit's point; and perhaps others.
    pub(crate) heads: Pairs,
}

impl Model for IndexedAgents {
    ghost use Rattle.std.specs.BTreeSet.{keys};
    ghost use Rattle.std.specs.Coded.{codes};
    ghost use Rattle.ref_value.specs.Code.{edn_code};
    ghost use Rattle.ref_agents.specs.Indexed.{IndexedSeen, IsIndexed};

    ghost Value = { IndexedSeen };

    ghost coded = { Prim.hlevel (codes, edn_code) };

    ghost view = { λ a. record { items = a.agents.items; unreleased = keys a.unreleased } };

    ghost invariant = { λ a. IsIndexed a.agents.items (keys a.unreleased) a.ready a.heads };
}

impl IndexedAgents {
    /// No agents. It takes no memory.
    pub(crate) fn empty(alloc: Global) -> IndexedAgents
        ensures { result ≡ record { items = []; unreleased = [] } }
    {
        IndexedAgents {
            agents: Vec::new(alloc),
            unreleased: BTreeSet::new(alloc),
            ready: Marks::new(alloc),
            heads: Pairs::new(alloc),
        }
    }

    /// How many agents there are.
    pub(crate) fn len(&self) -> usize
        ensures { result ≡ length self.now.items }
    {
        self.agents.len()
    }

    /// All agents.
    pub(crate) fn as_slice(&self) -> &[Agent]
        ensures { result.now ≡ self.now.items }
    {
        self.agents.as_slice()
    }

    /// An agent, if it is here.
    pub(crate) fn get(&self, g: u32) -> Option<&Agent>
        ensures { option_copied result ≡ slice_get self.now.items g }
    {
        self.agents.get(g as usize)
    }

    /// One more agent, for which nothing waits. A refused call changes nothing.
    pub(crate) fn push(&mut self, agent: Agent) -> Result<(), AllocError>
        requires { has_head agent.account.queue ≡ false }
        ensures ok { OnOk result (self.new ≡ with_items self.old (self.old.items ++ agent ∷ [])) }
        ensures err { OnErr result (self.new ≡ self.old) }
    {
        self.agents.reserve(1)?;
        self.ready.push()?;
        self.agents.push_reserved(agent);
        Ok(())
    }

    /// Takes the last agent away.
    pub(crate) fn pop(&mut self)
        ensures { self.new ≡ with_items self.old (take (length self.old.items - 1) self.old.items) }
    {
        self.agents.pop();
        self.ready.pop();
    }

    /// The next agent that is ready, from a number on and then from 0 on. None only where none is ready.
    pub(crate) fn next_ready(&mut self, first: usize) -> Option<usize>
        ensures next { IfSome result (IsNext self.old first) }
        ensures none { result ≡ None
            → (g : ℕ) → is_ready_if_here self.old.unreleased (slice_get self.old.items g) ≡ false }
        ensures same { self.new ≡ self.old }
    {
        if let Some(g) = self.ready.first_from(first) {
            return Some(g);
        }
        self.ready.first_from(0)
    }

    /// The sends of the commit at this point may not be taken from now on. A refused call changes nothing.
    pub(crate) fn hold(&mut self, point: u64) -> Result<(), AllocError>
        ensures ok { OnOk result (self.new
            ≡ record self.old { unreleased = insert_key nat_cmp self.old.unreleased point }) }
        ensures err { OnErr result (self.new ≡ self.old) }
    {
        if self.unreleased.insert(point)? {
            mark_sent(
                &self.agents,
                &self.unreleased,
                &self.heads,
                &mut self.ready,
                point,
            );
        }
        Ok(())
    }

    /// The sends of the commit at this point may be taken from now on. Returns whether they might not.
    pub(crate) fn release(&mut self, point: u64) -> bool
        ensures was { result ≡ has_point self.old.unreleased point }
        ensures releases { self.new
            ≡ record self.old { unreleased = remove_key (is_at (nat_cmp point)) self.old.unreleased } }
        ensures held { (at : ℕ) → has_point self.new.unreleased at
            ≡ (if point == at then false else has_point self.old.unreleased at) }
    {
        if !self.unreleased.remove(&point) {
            return false;
        }
        mark_sent(
            &self.agents,
            &self.unreleased,
            &self.heads,
            &mut self.ready,
            point,
        );
        true
    }
}

// Marks the agents whose first action the commit at this point sent, where all others are marked as they are.
fn mark_sent(
    agents: &[Agent],
    unreleased: &BTreeSet<u64>,
    heads: &Pairs,
    ready: &mut Marks,
    point: u64,
)
    requires count { length ready.old ≡ length agents.now }
    requires heads { HaveHeads agents.now heads.now }
    requires others { (g : ℕ) → is_headed point (slice_get agents.now g) ≡ false
        → is_set ready.old g ≡ is_ready_if_here (keys unreleased.now) (slice_get agents.now g) }
    ensures { AreMarked agents.now (keys unreleased.now) ready.new }
{
    let mut from = 0;
    while let Some(g) = heads.first_from(point, from) {
        if g >= agents.len() as u64 {
            return;
        }
        mark(agents, unreleased, ready, g as usize);
        from = g + 1;
    }
}

// Marks an agent.
fn mark(agents: &[Agent], unreleased: &BTreeSet<u64>, ready: &mut Marks, g: usize)
    requires { g < length ready.old }
    ensures { ready.new ≡ slice_set ready.old g (is_ready_if_here (keys unreleased.now) (slice_get agents.now g)) }
{
    let is_ready = is_ready(agents, unreleased, g);
    ready.set(g, is_ready);
}

// Brings the index up to date where an agent was changed whose first action was sent by this before.
pub(crate) fn index(
    agents: &[Agent],
    unreleased: &BTreeSet<u64>,
    heads: &mut Pairs,
    ready: &mut Marks,
    g: u32,
    before: Option<SentBy>,
)
    requires here { g < length agents.now }
    requires count { length ready.old ≡ length agents.now }
    requires heads { HaveHeads agents.now heads.old }
    requires others { (h : ℕ) → h ≢ g
        → is_set ready.old h ≡ is_ready_if_here (keys unreleased.now) (slice_get agents.now h) }
    ensures marked { AreMarked agents.now (keys unreleased.now) ready.new }
    ensures heads { HaveHeads agents.now heads.new }
{
    forget_head(agents, heads, g, before);
    mark(agents, unreleased, ready, g as usize);
}

// Takes a pair away, if this doesn't send the first action of the agent any more.
pub(crate) fn forget_head(agents: &[Agent], heads: &mut Pairs, g: u32, before: Option<SentBy>)
    requires { HaveHeads agents.now heads.old }
    ensures { HaveHeads agents.now heads.new }
{
    let Some(SentBy::Commit(point)) = before else {
        return;
    };
    if is_headed(agents, g, point) {
        return;
    }
    heads.remove(point, g as u64);
}

// Makes room for an agent whose first action will have been sent by this.
pub(crate) fn add_head(heads: &mut Pairs, g: u32, by: Option<SentBy>) -> Result<(), AllocError>
    ensures kept { OnOk result ((point h : ℕ) → has_pair heads.old point h ≡ true → has_pair heads.new point h ≡ true) }
    ensures here { OnOk result ((point : ℕ) → is_sent_at point by ≡ true → has_pair heads.new point g ≡ true) }
    ensures err { OnErr result (heads.new ≡ heads.old) }
{
    match by {
        Some(SentBy::Commit(point)) => heads.insert(point, g as u64),
        _ => Ok(()),
    }
}

// What sent the action that waits for an agent at this place, from 0.
pub(crate) fn sent_by_at(agents: &[Agent], g: u32, i: usize) -> Option<SentBy>
    ensures { result ≡ sent_by_at (slice_get agents.now g) i }
{
    Some(agents.get(g as usize)?.account.waiting_at(i)?.by)
}

// Whether the commit at this point sent the first action that waits for an agent.
fn is_headed(agents: &[Agent], g: u32, point: u64) -> bool
    ensures { result ≡ is_headed point (slice_get agents.now g) }
{
    match sent_by_at(agents, g, 0) {
        Some(SentBy::Commit(at)) => at == point,
        _ => false,
    }
}

fn is_ready(agents: &[Agent], unreleased: &BTreeSet<u64>, g: usize) -> bool
    ensures { result ≡ is_ready_if_here (keys unreleased.now) (slice_get agents.now g) }
{
    let Some(agent) = agents.get(g) else {
        return false;
    };
    if agent.error.is_some() || agent.is_out || agent.is_carrying {
        return false;
    }
    match agent.account.waiting_at(0) {
        None => false,
        Some(queued) => match queued.by {
            SentBy::Outside => true,
            SentBy::Commit(point) => !unreleased.contains(&point),
            SentBy::Carried(_) => false,
        },
    }
}
