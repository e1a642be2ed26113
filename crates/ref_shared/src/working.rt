//! The actions of agents, run by any thread that has time.
ghost use Rattle.std.specs.Prelude.{◌≡◌, IfOk, OnErr};
ghost use Rattle.ref_shared.specs.Sinks.{Tells};

use crate::faults::WorkFault;
use crate::gates::{Gate, Spot, WatchSink, tell_end};
use crate::shared::Shared;
use ref_agents::{FinishFault, Finished, Job};
use ref_fun::{Functions, Meaning};
use ref_world::Books;
use std::alloc::{AllocError, Global};
use std::sync::Wait;

/// What a call of [`Shared::work_once`] did.
#[derive(Clone, Copy, Debug, Drop, PartialEq, Eq)]
pub enum Worked {
    /// It ran an action of the agent of this number, which changed the agent, failed it or was passed over.
    Did(u32),
    /// The shared world was closed, and no agent is ready.
    Closed,
}

impl<M: Meaning, L: Books> Shared<M, L> {
    /// Waits for a ready agent, runs its next action with the lock free, ends it, gives the sink the notices for the watches and then
    /// how the action ended ([`WatchSink::ended`]), and at last releases what the action carried, if its value became the state.
    /// Where [`Shared::close`] was called and no agent is ready, it says so and does nothing. A thread that calls this in
    /// a loop until then is one of a pool; as many of them as there are may run side by side, and no two of them run
    /// actions of one agent at a time.
    ///
    /// A refused call has changed no agent. The action that was taken waits again, but where the fault is
    /// [`WorkFault::Foreign`]: there the job is forsaken.
    pub fn work_once<R: Wait, F: Functions<M>, G: Gate, S: WatchSink>(
        &self,
        rt: &R,
        alloc: Global,
        funs: &F,
        gate: &mut G,
        sink: &mut S,
    ) -> Result<Worked, WorkFault>
        ensures told { IfOk result (Tells S.takes S.ends M.means sink.old sink.new) }
        ensures untold { OnErr result (sink.new ≡ sink.old) }
    {
        let Ok(taken) = self.next_job(rt) else {
            return Err(WorkFault::Memory);
        };
        let Some(job) = taken else {
            return Ok(Worked::Closed);
        };
        let agent = job.agent();
        let carries = !job.action().carries.as_slice().is_empty();
        gate.pass(Spot::BeforeAction);
        let ran = match job.run(alloc, funs) {
            Ok(ran) => ran,
            Err((job, fault)) => return Err(self.give_up(rt, job, WorkFault::from(fault))),
        };
        gate.pass(Spot::AfterAction);
        let mut held = self.lock(rt);
        let finished = held.booked.world.finish(alloc, funs, ran);
        let wakes = held.note_end(agent, &finished);
        self.free_and_wake(held, wakes);
        match finished {
            Ok(finished) => {
                let is_carrying = carries && matches!(&finished, Finished::Changed(_));
                if !is_carrying {
                    // The agent's next action may be taken.
                    self.ready.notify_one();
                }
                tell_end(sink, agent, &finished);
                if is_carrying {
                    self.release_carried(rt, agent);
                }
                Ok(Worked::Did(agent))
            }
            Err((ran, fault)) => {
                let job = ran.into_job();
                match fault {
                    FinishFault::Foreign => {
                        job.forsake();
                        Err(WorkFault::Foreign)
                    }
                    FinishFault::Memory => Err(self.give_up(rt, job, WorkFault::Memory)),
                    FinishFault::NoSuchFun(code) => {
                        Err(self.give_up(rt, job, WorkFault::NoSuchFun(code)))
                    }
                }
            }
        }
    }

    /// Ends the waiting: from now on [`Shared::work_once`] returns [`Worked::Closed`] where no agent is ready,
    /// [`Shared::await_agents`] fails unless all is gone that it waits for, and [`Shared::transact_when`] unless its body is ready. All
    /// who wait are woken. Sends are still taken, and a commit's sends are still released.
    pub fn close<R: Wait>(&self, rt: &R) {
        self.lock(rt).is_closed = true;
        self.ready.notify_all();
        self.moved.notify_all();
    }

    // A job of a ready agent, waited for; none where all is closed and no agent is ready.
    fn next_job<R: Wait>(&self, rt: &R) -> Result<Option<Job>, AllocError> {
        let mut held = self.lock(rt);
        for _ in rt.forever() {
            match held.booked.world.take() {
                Ok(Some(job)) => return Ok(Some(job)),
                Ok(None) => {}
                Err(e) => {
                    // Somebody else may take it.
                    drop(held);
                    self.ready.notify_one();
                    return Err(e);
                }
            }
            if held.is_closed {
                return Ok(None);
            }
            held = self.ready.wait(rt, held);
        }
        unreachable!()
    }

    // Puts a job back, and returns the fault for which it is; where it isn't taken back it is forsaken.
    fn give_up<R: Wait>(&self, rt: &R, job: Job, fault: WorkFault) -> WorkFault {
        let put_back = self.lock(rt).booked.world.put_back(job);
        match put_back {
            Ok(()) => {
                self.ready.notify_one();
                fault
            }
            Err(job) => {
                job.forsake();
                WorkFault::Foreign
            }
        }
    }
}
