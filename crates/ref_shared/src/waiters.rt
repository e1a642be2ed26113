//! Who waits, and for what: the part of what the lock holds that isn't the world.
ghost use Rattle.std.specs.Prelude.{◌≡◌, ◌==◌, ℕ, false, None, Some, IfOk, IfErr, IsSome, OnErr, OnOk, map};
ghost use Rattle.ref_shared.specs.Waits.{NamesNoOther, NamesOneOf, Stores, after_end, awaited_at, fails, gone_at, is_through, look_of, queued_at, target_of, wakes, with_waiter, without_waiter, woken_at};

use crate::faults::AwaitFault;
use crate::shared::Held;
use ref_agents::Finished;
use ref_fun::Meaning;
use ref_world::Books;
use std::alloc::{AllocError, Global};
use std::collections::BTreeMap;

// Of an agent that is waited for.
#[derive(Clone, Copy, Drop)]
pub(crate) struct Awaited {
    // How many of its actions are gone since the first of those who wait for it came: they ended, or a restart dropped them.
    pub(crate) gone: u64,
    // How many wait for it.
    pub(crate) waiters: u64,
    // Those who wait are woken once so many are gone.
    pub(crate) next: u64,
}

// An agent, and how many of its actions have to be gone.
#[derive(Clone, Copy, Drop)]
pub(crate) struct Target {
    pub(crate) g: u32,
    pub(crate) count: u64,
}

// What a look at all targets finds.
#[derive(Clone, Copy, Drop)]
pub(crate) enum Look {
    // All is gone that is waited for.
    Through,
    // Something isn't.
    Left,
    // Something isn't, and its agent is failed.
    Failed(u32),
}

// What the lock holds for those who wait.
#[derive(Drop)]
pub(crate) struct Waiters {
    // How many threads wait for an entry.
    pub(crate) for_entries: u64,
    // The agents that are waited for.
    pub(crate) agents: Option<BTreeMap<u32, Awaited>>,
}

impl Waiters {
    pub(crate) fn none() -> Waiters {
        Waiters {
            for_entries: 0,
            agents: None,
        }
    }

    // What is stored of an agent, if it is waited for.
    fn at(&self, g: u32) -> Option<Awaited>
        ensures { result ≡ awaited_at self.now.agents g }
    {
        match &self.agents {
            Some(agents) => agents.get(&g).copied(),
            None => None,
        }
    }

    // Stores this of an agent that is waited for. It takes no memory.
    fn put(&mut self, g: u32, awaited: Awaited)
        requires { IsSome (awaited_at self.old.agents g) }
        ensures { Stores self.old.agents self.new.agents g (Some awaited) }
    {
        let Some(agents) = &mut self.agents else {
            unreachable!()
        };
        if agents.insert(g, awaited).is_err() {
            unreachable!()
        }
    }

    // One more waits for this agent. Returns how many of its actions are gone so far.
    fn enter(&mut self, alloc: Global, g: u32) -> Result<u64, AllocError>
        ensures gone { IfOk result (λ gone. gone ≡ gone_at self.old.agents g) }
        ensures stored { OnOk result (Stores self.old.agents self.new.agents g
            (Some (with_waiter (awaited_at self.old.agents g)))) }
        ensures counts { (h : ℕ) → gone_at self.new.agents h ≡ gone_at self.old.agents h }
        ensures err { OnErr result ((h : ℕ) → awaited_at self.new.agents h ≡ awaited_at self.old.agents h) }
    {
        let found = self.at(g);
        if let Some(awaited) = found {
            let waiters = awaited.waiters.saturating_add(1);
            self.put(
                g,
                Awaited {
                    waiters,
                    gone: awaited.gone,
                    next: awaited.next,
                },
            );
            return Ok(awaited.gone);
        }
        let awaited = Awaited {
            gone: 0,
            waiters: 1,
            next: u64::MAX,
        };
        self.add(alloc, g, awaited)?;
        Ok(0)
    }

    // Stores this of an agent.
    fn add(&mut self, alloc: Global, g: u32, awaited: Awaited) -> Result<(), AllocError>
        ensures ok { OnOk result (Stores self.old.agents self.new.agents g (Some awaited)) }
        ensures err { OnErr result ((h : ℕ) → awaited_at self.new.agents h ≡ awaited_at self.old.agents h) }
    {
        if self.agents.is_none() {
            self.agents = Some(BTreeMap::new(alloc));
        }
        let Some(agents) = &mut self.agents else {
            unreachable!()
        };
        match agents.insert(g, awaited) {
            Ok(_) => Ok(()),
            Err(_) => Err(AllocError),
        }
    }

    // One fewer waits for this agent. The last to leave takes its count away.
    fn leave(&mut self, g: u32)
        ensures { Stores self.old.agents self.new.agents g (without_waiter (awaited_at self.old.agents g)) }
    {
        let Some(awaited) = self.at(g) else {
            return;
        };
        let waiters = awaited.waiters.saturating_sub(1);
        if waiters > 0 {
            self.put(
                g,
                Awaited {
                    waiters,
                    gone: awaited.gone,
                    next: awaited.next,
                },
            );
            return;
        }
        if let Some(agents) = &mut self.agents {
            let _ = agents.remove(&g);
        }
    }

    // So many more actions of this agent are gone. Returns whether those who wait are to be woken: those for whom it was enough, or all of
    // its own if asked.
    pub(crate) fn end(&mut self, g: u32, many: u64, all: bool) -> bool
        ensures result { result ≡ wakes many all (awaited_at self.old.agents g) }
        ensures stored { Stores self.old.agents self.new.agents g (after_end many all (awaited_at self.old.agents g)) }
    {
        let Some(awaited) = self.at(g) else {
            return false;
        };
        let gone = awaited.gone.saturating_add(many);
        let wakes = all || awaited.next <= gone;
        let next = if wakes { u64::MAX } else { awaited.next };
        self.put(
            g,
            Awaited {
                gone,
                next,
                waiters: awaited.waiters,
            },
        );
        wakes
    }

    // Who waits for this target is to be woken once it is through.
    fn wake_at(&mut self, target: &Target)
        ensures stored { Stores self.old.agents self.new.agents target.now.g
            (woken_at target.now.count (awaited_at self.old.agents target.now.g)) }
        ensures counts { (h : ℕ) → gone_at self.new.agents h ≡ gone_at self.old.agents h }
    {
        let Some(awaited) = self.at(target.g) else {
            return;
        };
        if target.count < awaited.next {
            self.put(
                target.g,
                Awaited {
                    next: target.count,
                    gone: awaited.gone,
                    waiters: awaited.waiters,
                },
            );
        }
    }

    // Whether all is gone that is waited for.
    fn is_through(&self, target: &Target) -> bool
        ensures { result ≡ is_through self.now.agents target.now }
    {
        let gone = match self.at(target.g) {
            Some(awaited) => awaited.gone,
            None => 0,
        };
        target.count <= gone
    }
}

impl<M: Meaning, L: Books> Held<M, L> {
    // How many actions wait for an agent, if it is there; the one that is on its way counts.
    pub(crate) fn queued(&self, g: u32) -> Option<u64>
        ensures { result ≡ queued_at self.now.booked.world.agents.agents g }
    {
        match self.booked.world.account(g) {
            Some(account) => Some(account.waiting() as u64),
            None => None,
        }
    }

    // One more waits for these agents. Where it is refused none does.
    pub(crate) fn enter_all(
        &mut self,
        alloc: Global,
        agents: &[u32],
    ) -> Result<Vec<Target>, AwaitFault>
        ensures targets { IfOk result (λ targets. targets.items
            ≡ map (target_of self.old.waiters.agents self.old.booked.world.agents.agents) agents.now) }
        ensures counts { OnOk result ((h : ℕ) → gone_at self.new.waiters.agents h ≡ gone_at self.old.waiters.agents h) }
        ensures fault { IfErr result (λ f. NamesOneOf agents.now f) }
    {
        let mut targets = Vec::new(alloc);
        for g in agents {
            let target = match self.enter(alloc, *g) {
                Ok(target) => target,
                Err(fault) => {
                    self.leave_all(targets.as_slice());
                    return Err(fault);
                }
            };
            if targets.push(target).is_err() {
                self.waiters.leave(*g);
                self.leave_all(targets.as_slice());
                return Err(AwaitFault::Memory);
            }
        }
        Ok(targets)
    }

    // One more waits for this agent.
    fn enter(&mut self, alloc: Global, g: u32) -> Result<Target, AwaitFault>
        ensures target { IfOk result (λ t. t ≡ target_of self.old.waiters.agents self.old.booked.world.agents.agents g) }
        ensures fault { IfErr result (NamesNoOther g) }
        ensures counts { (h : ℕ) → gone_at self.new.waiters.agents h ≡ gone_at self.old.waiters.agents h }
        ensures world { self.new.booked.world ≡ self.old.booked.world }
    {
        let Some(queued) = self.queued(g) else {
            return Err(AwaitFault::NoSuchAgent(g));
        };
        match self.waiters.enter(alloc, g) {
            Ok(gone) => Ok(Target {
                g,
                count: gone.saturating_add(queued),
            }),
            Err(AllocError) => Err(AwaitFault::Memory),
        }
    }

    // One fewer waits for the agents of these targets.
    pub(crate) fn leave_all(&mut self, targets: &[Target]) {
        for target in targets {
            self.waiters.leave(target.g);
        }
    }

    // Asks to be woken as soon as one of these targets that isn't through yet is.
    pub(crate) fn wake_all(&mut self, targets: &[Target])
        ensures counts { (h : ℕ) → gone_at self.new.waiters.agents h ≡ gone_at self.old.waiters.agents h }
        ensures world { self.new.booked.world ≡ self.old.booked.world }
    {
        for target in targets {
            if !self.waiters.is_through(target) {
                self.waiters.wake_at(target);
            }
        }
    }

    // Looks at what is waited for.
    pub(crate) fn look(&self, targets: &[Target]) -> Look
        ensures { result ≡ look_of self.now.waiters.agents self.now.booked.world.agents.agents targets.now }
    {
        let mut is_left = false;
        for target in targets {
            if !self.waiters.is_through(target) {
                if self.booked.world.error_of(target.g).is_some() {
                    return Look::Failed(target.g);
                }
                is_left = true;
            }
        }
        if is_left { Look::Left } else { Look::Through }
    }

    // An action of this agent ended so, or it is on its way still. Returns whether those who wait for the agent are to be woken: those for
    // whom it is enough, and all of them if it failed the agent.
    pub(crate) fn note_end<E>(&mut self, g: u32, finished: &Result<Finished, E>) -> bool
        ensures ended { IfOk finished.now (λ f. Stores self.old.waiters.agents self.new.waiters.agents g
            (after_end 1 (fails f) (awaited_at self.old.waiters.agents g))) }
        ensures wakes { IfOk finished.now (λ f. result ≡ wakes 1 (fails f) (awaited_at self.old.waiters.agents g)) }
        ensures stays { OnErr finished.now (self.new ≡ self.old) }
    {
        match finished {
            Ok(finished) => self
                .waiters
                .end(g, 1, matches!(finished, Finished::Failed(_))),
            Err(_) => false,
        }
    }
    // A restart of this agent, in whose queue so many actions were. If it was made and dropped them, they are gone. It wakes nobody: who
    // waited for a failed agent was woken when it failed.
    pub(crate) fn note_restart<E>(&mut self, g: u32, dropped: u64, restarted: &Result<(), E>)
        ensures dropped { OnOk restarted.now (Stores self.old.waiters.agents self.new.waiters.agents g
            (after_end dropped false (awaited_at self.old.waiters.agents g))) }
        ensures stays { OnErr restarted.now (self.new ≡ self.old) }
    {
        if restarted.is_ok() {
            let _ = self.waiters.end(g, dropped, false);
        }
    }
}
