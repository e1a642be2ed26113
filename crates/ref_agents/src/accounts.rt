//! An agent's account.
ghost use Rattle.std.specs.Prelude.{◌≡◌, ◌<◌, ◌==◌, ◌&&◌, ◌||◌, ℕ, [], false, if◌then◌else◌, length, OnErr, OnOk, slice_get, option_copied};
ghost use Rattle.std.specs.Iterator.Runs.{YieldsRefsInOrder, YieldsRefsInReverse};
ghost use Rattle.std.specs.VecDeque.Iter.{deque_iter_rest, deque_iter_steps, deque_iter_steps_back};
ghost use Rattle.ref_agents.specs.Account.{folded, is_carried_by, is_failed_mark, last_carries, most_folded, number_of, restarted, with_ended, with_queued, with_released, without_last};
ghost use Rattle.ref_agents.specs.Places.{has_pair};

use crate::pairs::Pairs;
use ref_fun::{Action, Carry};
use ref_value::Value;
use std::alloc::{AllocError, Global};
use std::collections::VecDeque;
use std::collections::vec_deque::Iter;
use std::marker::Model;

/// An account is folded while fewer actions than these ended: 2^62.
pub(crate) const MOST_FOLDED: u64 = 4_611_686_018_427_387_904;

// So many actions may have left a queue at its front: 2^62.
const MOST_ENDED: u64 = 4_611_686_018_427_387_904;

/// How an action ended.
#[derive(Clone, Copy, Debug, Drop, PartialEq, Eq)]
pub enum Mark {
    /// Its value became the agent's state.
    Done,
    /// It failed, or the rule refused its value, and so the agent failed.
    Failed,
    /// It failed, or the rule refused its value, and the agent went on.
    Passed,
}

impl Mark {
    fn is_failed(self) -> bool
        ensures { result ≡ is_failed_mark self }
    {
        match self {
            Mark::Failed => true,
            Mark::Done | Mark::Passed => false,
        }
    }
}

/// An action that ended.
#[derive(Drop)]
pub struct Handled {
    pub action: Action,
    pub mark: Mark,
}

/// What an action was sent by.
#[derive(Clone, Copy, Debug, Drop, PartialEq, Eq)]
pub enum SentBy {
    /// It was sent outside of a transaction, or an action carried it and it was released since.
    Outside,
    /// The commit at this point sent it.
    Commit(u64),
    /// The last action that this agent handled carried it, and it isn't released yet.
    Carried(u32),
}

/// An action that waits.
#[derive(Drop)]
pub struct Queued {
    pub action: Action,
    pub by: SentBy,
}

/// What an agent was given to do: its start, the actions that ended since then, and those that wait. The start is the state at the
/// last restart, fold or making. Contracts see lists.
#[derive(Drop)]
pub struct Account {
    start: Value,
    // How many of the actions that ended since the last restart, or the making, were folded into the start.
    past: u64,
    handled: Vec<Handled>,
    queue: VecDeque<Queued>,
    // How many actions left the queue at its front since it was cleared: that is the place of the first one there.
    ended: u64,
    // The place of each action in the queue that an action carried which isn't released, behind that one's agent.
    carried: Pairs,
}

impl Model for Account {
    ghost use Rattle.std.specs.Prelude.{◌≤◌};
    ghost use Rattle.std.specs.Coded.{codes};
    ghost use Rattle.ref_value.specs.Code.{edn_code};
    ghost use Rattle.ref_agents.specs.Account.{AccountSeen, most_folded};
    ghost use Rattle.ref_agents.specs.Places.{ArePlaced};

    ghost Value = { AccountSeen };

    ghost coded = { Prim.hlevel (codes, edn_code) };

    ghost view = { λ a. record { start = a.start; past = a.past; handled = a.handled.items; queue = a.queue.items } };

    ghost invariant = { λ a. (a.past ≤ most_folded) × (a.ended ≤ most_folded) × ArePlaced a.queue.items a.ended a.carried };
}

impl Account {
    /// An account that begins with this state. It takes no memory.
    pub fn new(alloc: Global, start: Value) -> Account
        ensures { result ≡ record { start = start; past = 0; handled = []; queue = [] } }
    {
        Account {
            start,
            past: 0,
            handled: Vec::new(alloc),
            queue: VecDeque::new(alloc),
            ended: 0,
            carried: Pairs::new(alloc),
        }
    }

    /// The state at the last restart, fold or making.
    pub fn start(&self) -> &Value
        ensures { result.now ≡ self.now.start }
    {
        &self.start
    }

    /// The actions that ended since then, in order; after a fold first the one that failed the agent, if it is failed.
    pub fn handled(&self) -> &[Handled]
        ensures { result.now ≡ self.now.handled }
    {
        self.handled.as_slice()
    }

    /// How many actions ended since the last restart, or the making, with those that were folded.
    pub fn number(&self) -> u64
        ensures { result ≡ number_of self.now }
    {
        self.past + self.handled.len() as u64
    }

    /// The actions that wait, in order. The first may be on its way.
    pub fn queue(&self) -> Iter<'_, Queued>
        ensures rest { deque_iter_rest result ≡ self.now.queue }
        ensures runs { YieldsRefsInOrder (deque_iter_steps {X = Queued}) deque_iter_rest }
        ensures runs_back { YieldsRefsInReverse (deque_iter_steps_back {X = Queued}) deque_iter_rest }
    {
        self.queue.iter()
    }

    /// How many actions wait. The first may be on its way.
    pub fn waiting(&self) -> usize
        ensures { result ≡ length self.now.queue }
    {
        self.queue.len()
    }

    /// The action that waits at this place, from 0.
    pub fn waiting_at(&self, i: usize) -> Option<&Queued>
        ensures { option_copied result ≡ slice_get self.now.queue i }
    {
        self.queue.get(i)
    }

    // One more action waits.
    pub(crate) fn push(&mut self, queued: Queued) -> Result<(), AllocError>
        ensures ok { OnOk result (self.new ≡ with_queued self.old queued) }
        ensures err { OnErr result (self.new ≡ self.old) }
    {
        self.queue.reserve(1)?;
        add_place(
            &mut self.carried,
            queued.by,
            self.ended + self.queue.len() as u64,
        )?;
        self.queue.push_back_reserved(queued);
        Ok(())
    }

    // The last action that waits is taken away again.
    pub(crate) fn pop(&mut self)
        ensures { self.new ≡ without_last self.old }
    {
        if let Some(queued) = self.queue.pop_back() {
            forget_place(
                &mut self.carried,
                queued.by,
                self.ended + self.queue.len() as u64,
            );
        }
    }

    // The first action that waits ended with this mark.
    pub(crate) fn end(&mut self, mark: Mark) -> Result<(), AllocError>
        ensures ok { OnOk result (self.new ≡ with_ended self.old mark) }
        ensures err { OnErr result (self.new ≡ self.old) }
    {
        if self.ended >= MOST_ENDED {
            return Err(AllocError);
        }
        self.handled.reserve(1)?;
        if let Some(Queued { action, by }) = self.queue.pop_front() {
            self.handled.push_reserved(Handled { action, mark });
            forget_place(&mut self.carried, by, self.ended);
            self.ended += 1;
        }
        Ok(())
    }

    // What the last action that ended carried.
    pub(crate) fn carries(&self) -> &[Carry]
        ensures { result.now ≡ last_carries self.now.handled }
    {
        match self.handled.as_slice() {
            [.., last] => last.action.carries.as_slice(),
            [] => &[],
        }
    }

    // The last action that waits and that an action of this agent carried may be taken, if there is one.
    pub(crate) fn release(&mut self, g: u32)
        ensures { self.new ≡ with_released g self.old }
    {
        let Some(place) = self.carried.last_of(g as u64) else {
            return;
        };
        let i = (place - self.ended) as usize;
        self.carried.remove(g as u64, place);
        self.queue[i].by = SentBy::Outside;
    }

    // Begins anew with this state, with an empty queue or with the same.
    pub(crate) fn restart(&mut self, state: Value, clear: bool)
        ensures { self.new ≡ restarted self.old state clear }
    {
        self.start = state;
        self.past = 0;
        self.handled.clear();
        if clear {
            self.queue.clear();
            self.carried.clear();
            self.ended = 0;
        }
    }

    // Begins with this state. Of the actions that ended the one that failed the agent stays.
    pub(crate) fn fold(&mut self, state: Value)
        requires { number_of self.old < most_folded }
        ensures { self.new ≡ folded self.old state }
    {
        let before = self.handled.len();
        self.handled.retain(|handled| handled.mark.is_failed());
        self.past += (before - self.handled.len()) as u64;
        self.start = state;
    }
}

// The action at this place was sent by this.
fn add_place(carried: &mut Pairs, by: SentBy, place: u64) -> Result<(), AllocError>
    ensures ok { OnOk result ((g n : ℕ) → has_pair carried.new g n ≡ ((is_carried_by g by && place == n) || has_pair carried.old g n)) }
    ensures err { OnErr result (carried.new ≡ carried.old) }
{
    match by {
        SentBy::Carried(g) => carried.insert(g as u64, place),
        SentBy::Outside | SentBy::Commit(_) => Ok(()),
    }
}

// The action at this place, which was sent by this, isn't there any more.
fn forget_place(carried: &mut Pairs, by: SentBy, place: u64)
    ensures { (g n : ℕ) → has_pair carried.new g n ≡ (if is_carried_by g by && place == n then false else has_pair carried.old g n) }
{
    if let SentBy::Carried(g) = by {
        carried.remove(g as u64, place);
    }
}
