//! The calls on a shared world that is lent, and what later calls show of it.
use crate::refusing::{refuse, was_refused};
use crate::worlds::{G, H, I, J, SENT_TO, action_for, body};
use ref_fun::{Core, CoreFunctions};
use ref_log::Stamp;
use ref_refs::CommitFault;
use ref_shared::{AwaitFault, Open, Quiet, Shared, TransactFault, WaitFault, WorkFault, Worked};
use ref_tx::Tx;
use ref_world::{Books, Receipt, Share};
use std::alloc::Global;
use std::sync::Wait;
use tests_shared::jobs::work;
use tests_shared::worlds::{STAMP, Stop};

/// A call on a shared world. It is closed, so no call waits for anybody.
#[derive(Clone, Copy, Drop, PartialEq)]
pub(crate) enum Call {
    Transact,
    TransactWhen,
    Commit,
    /// `work_once`, where an action of this agent waits, which carries sends or doesn't.
    Work(u32, bool),
    Await,
    Finish,
    /// No call on a shared world: the end of what lists of events are played on, where a job has run.
    End,
}

/// All calls. That of `+` makes no request before the end of the action.
pub(crate) const CASES: &[(&str, Call)] = &[
    ("transact", Call::Transact),
    ("transact_when", Call::TransactWhen),
    ("commit", Call::Commit),
    ("work_once, +", Call::Work(G, false)),
    ("work_once, conj", Call::Work(I, false)),
    ("work_once, conj that carries", Call::Work(I, true)),
    ("await_agents", Call::Await),
    ("finish", Call::Finish),
];

/// What a call returned; none if it was out of memory. It is the point of a commit and its notices, or the number of an agent.
pub(crate) type Answer = Option<(u64, usize)>;

type Said = Result<Answer, Stop>;

type Begun = Option<Tx<Core>>;

// What is returned where nothing is to be done.
const CLOSED: Answer = Some((99, 0));

// No call has a later point, and fewer actions wait.
const LAST_POINT: u64 = 50;

/// What is tried.
#[derive(Clone, Copy, Drop)]
pub(crate) struct Trial {
    pub(crate) call: Call,
    pub(crate) state: u32,
    /// How often the call is made: a second time only if the first one was refused.
    pub(crate) times: u32,
    /// Which request of the first call is refused; 0 for none.
    pub(crate) number: usize,
}

/// What came of the call: what it returned at last, whether a request was refused, whether the first call was, and what came later: of
/// transactions that were open, of the share, and of further calls.
#[derive(Drop)]
pub(crate) struct Made {
    pub(crate) answer: Answer,
    pub(crate) was_hit: bool,
    pub(crate) was_refused: bool,
    pub(crate) later: Vec<Answer>,
}

/// A shared world that is lent.
pub(crate) struct Lent<'a, R, L: Books> {
    pub(crate) rt: &'a R,
    pub(crate) alloc: Global,
    pub(crate) shared: &'a Shared<Core, L>,
}

impl<'a, R, L: Books> Drop for Lent<'a, R, L> {
    fn drop(self) {
        let Lent {
            rt: _,
            alloc: _,
            shared: _,
        } = self;
    }
}

// What a transaction came to. Its body is refused for memory alone.
fn transacted(answer: Result<((), Receipt), TransactFault<Stop>>) -> Said {
    match answer {
        Ok((_, receipt)) => Ok(Some((receipt.point, receipt.notices.len()))),
        Err(TransactFault::Memory) | Err(TransactFault::Body(_)) => Ok(None),
        Err(_) => Err(Stop::Refused),
    }
}

impl<'a, R: Input + Wait, L: Books> Lent<'a, R, L> {
    // A transaction in which something was done.
    fn begun(&self, share: &mut Share<L>, r: u32) -> Result<Begun, Stop> {
        let mut tx = self.shared.begin(self.rt, self.alloc, share)?;
        body(self.alloc, &mut tx, r, SENT_TO)?;
        Ok(Some(tx))
    }

    fn transact(&self, share: &mut Share<L>) -> Said {
        let (rt, alloc, funs, shared) = (self.rt, self.alloc, &CoreFunctions, self.shared);
        let work = |tx: &mut Tx<Core>| body(alloc, tx, 0, SENT_TO);
        let (gate, sink) = (&mut Open, &mut Quiet);
        transacted(shared.transact(rt, alloc, funs, share, STAMP, 3, gate, sink, work))
    }

    // With a body that is ready at once.
    fn transact_when(&self, share: &mut Share<L>) -> Said {
        let (rt, alloc, funs, shared) = (self.rt, self.alloc, &CoreFunctions, self.shared);
        let work = |tx: &mut Tx<Core>| body(alloc, tx, 0, SENT_TO).map(Some);
        let (gate, sink) = (&mut Open, &mut Quiet);
        match shared.transact_when(rt, alloc, funs, share, STAMP, 3, gate, sink, work) {
            Ok(landed) => transacted(Ok(landed)),
            Err(WaitFault::Transact(fault)) => transacted(Err(fault)),
            Err(WaitFault::Closed) => Err(Stop::Refused),
        }
    }

    // Commits a transaction, if there is one. A refused one is open still.
    fn commit(&self, share: &mut Share<L>, stamp: Stamp, open: &mut Begun) -> Said {
        let Some(tx) = open.take() else {
            return Ok(CLOSED);
        };
        let (rt, alloc, funs) = (self.rt, self.alloc, &CoreFunctions);
        match self.shared.commit(rt, alloc, funs, share, stamp, tx) {
            Ok(receipt) => Ok(Some((receipt.point, receipt.notices.len()))),
            Err((tx, CommitFault::Memory)) => {
                let _ = open.insert(tx);
                Ok(None)
            }
            Err(_) => Err(Stop::Refused),
        }
    }

    fn work(&self) -> Said {
        match work(self.rt, self.alloc, self.shared) {
            Ok(Worked::Did(agent)) => Ok(Some((u64::from(agent), 0))),
            Ok(Worked::Closed) => Ok(CLOSED),
            Err(WorkFault::Memory) => Ok(None),
            Err(_) => Err(Stop::Refused),
        }
    }

    fn wait(&self) -> Said {
        match self.shared.await_agents(self.rt, self.alloc, &[I, G, H, J]) {
            Ok(()) => Ok(Some((0, 0))),
            Err(AwaitFault::Failed(g)) => Ok(Some((u64::from(g), 0))),
            Err(AwaitFault::Closed) => Ok(CLOSED),
            Err(AwaitFault::Memory) => Ok(None),
            Err(AwaitFault::NoSuchAgent(_)) => Err(Stop::Refused),
        }
    }

    // Makes a call, but for `finish`, which takes the shared world.
    fn make(&self, share: &mut Share<L>, own: &mut Begun, call: Call) -> Said {
        match call {
            Call::Transact => self.transact(share),
            Call::TransactWhen => self.transact_when(share),
            Call::Commit => self.commit(share, STAMP, own),
            Call::Work(_, _) => self.work(),
            Call::Await => self.wait(),
            Call::Finish | Call::End => Ok(CLOSED),
        }
    }

    // Sends an action to each agent, and runs all that are ready. It shows which agents are failed, and whose turn it is.
    fn send_all(&self, all: &mut Vec<Answer>) -> Result<(), Stop> {
        for g in G..=J {
            let sent = self.shared.send(self.rt, g, action_for(self.alloc, g)?);
            all.push(Some((u64::from(sent.is_ok()), 0)))?;
        }
        for _ in 0..LAST_POINT {
            let answer = self.work()?;
            all.push(answer)?;
            if answer == CLOSED {
                return Ok(());
            }
        }
        Err(Stop::Late)
    }

    // Releases all that is held. It shows which sends were.
    fn release_all(&self, all: &mut Vec<Answer>) -> Result<(), Stop> {
        for g in G..=J {
            let had_carries = self.shared.release_carried(self.rt, g);
            all.push(Some((u64::from(had_carries), 0)))?;
        }
        for point in 1..LAST_POINT {
            let had_sends = self.shared.release(self.rt, point);
            all.push(Some((u64::from(had_sends), 0)))?;
        }
        self.send_all(all)
    }

    /// Makes the calls of a trial, and later ones.
    pub(crate) fn try_it(self, share: &mut Share<L>, trial: Trial) -> Result<Made, Stop> {
        self.shared.close(self.rt);
        let (is_commit, is_full) = (trial.call == Call::Commit, trial.state > 0);
        let mut own = if is_commit {
            self.begun(share, 0)?
        } else {
            None
        };
        let mut other = if is_full { self.begun(share, 2)? } else { None };
        let (mut answer, mut was_hit) = (Ok(CLOSED), false);
        if trial.times > 0 && trial.call != Call::Finish {
            refuse(self.rt, trial.number);
            answer = self.make(share, &mut own, trial.call);
            was_hit = was_refused(self.rt);
        }
        let mut answer = answer?;
        let was_refused = answer.is_none();
        if trial.times > 1 && was_refused {
            answer = self.make(share, &mut own, trial.call)?;
        }
        let mut later = Vec::new(self.alloc);
        self.send_all(&mut later)?;
        later.push(self.commit(share, Stamp { worker: 8, step: 0 }, &mut own)?)?;
        later.push(self.commit(share, Stamp { worker: 9, step: 0 }, &mut other)?)?;
        later.push(Some((share.parts(), share.receipts().len())))?;
        self.release_all(&mut later)?;
        Ok(Made {
            answer,
            was_hit,
            was_refused,
            later,
        })
    }
}
