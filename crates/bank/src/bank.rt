//! The bank: its world, its transfers, and the work of its journal.
use ref_agents::{ErrorMode, FinishFault, Job};
use ref_edn::{Value, read_one};
use ref_fun::codes::{AT_LEAST, CONJ, INC, MINUS, PLUS};
use ref_fun::{Action, Args, Core, FunTable, Rule};
use ref_log::{Stamp, Who};
use ref_refs::CommitFault;
use ref_tx::{Tx, TxFault};
use ref_world::{AgentStart, AtomStart, Receipt, RefStart, Start, World};
use std::alloc::{AllocError, Global};
use thiserror::Error;

// References are numbered from 0 by kind, in the order in which they are declared.
pub(crate) const FIRST: u32 = 0;

pub(crate) const SECOND: u32 = 1;

const REFUSED: u32 = 0;

const JOURNAL: u32 = 0;

/// Why a transfer isn't made. Nothing of it stands then.
#[derive(Clone, Copy, Debug, Drop, Error)]
pub(crate) enum Refusal {
    /// One of its operations was refused.
    #[error("{0}")]
    Body(TxFault),
    /// All of it could be done, and it can't be committed.
    #[error("{0}")]
    Commit(CommitFault),
}

/// A world with the functions that it names. The bank alone changes it.
#[derive(Drop)]
pub(crate) struct Bank<'a> {
    alloc: Global,
    funs: &'a FunTable,
    world: World<Core>,
}

fn value(alloc: Global, edn: &str) -> Result<Value, AllocError> {
    match read_one(alloc, edn.as_bytes()) {
        Ok(value) => Ok(value),
        Err(_) => Err(AllocError),
    }
}

fn args(value: &Value) -> Result<Args, AllocError> {
    Ok(Args::one(value.share()?))
}

// An account, whose rule `[>= 0]` refuses less than 0.
fn account(alloc: Global, balance: &str) -> Result<RefStart, AllocError> {
    Ok(RefStart {
        value: value(alloc, balance)?,
        rule: Some(Rule {
            code: AT_LEAST,
            args: args(&value(alloc, "0")?)?,
        }),
        tally: false,
    })
}

// What the world begins with.
fn start(alloc: Global) -> Result<Start, AllocError> {
    let accounts = vec![in alloc; account(alloc, "100")?, account(alloc, "0")?]?;
    let refused = AtomStart {
        value: value(alloc, "0")?,
        rule: None,
    };
    let journal = AgentStart {
        value: value(alloc, "[]")?,
        rule: None,
        mode: ErrorMode::Fail,
    };
    Ok(Start {
        refs: accounts,
        atoms: vec![in alloc; refused]?,
        agents: vec![in alloc; journal]?,
    })
}

impl<'a> Bank<'a> {
    /// A bank with two accounts, each of which has a watch.
    pub(crate) fn open(alloc: Global, funs: &'a FunTable) -> Result<Bank<'a>, AllocError> {
        let Ok(world) = World::new(alloc, funs, &start(alloc)?) else {
            return Err(AllocError);
        };
        let mut bank = Bank { alloc, funs, world };
        for r in [FIRST, SECOND] {
            bank.watch(Who::Ref(r))?;
        }
        Ok(bank)
    }

    fn watch(&mut self, who: Who) -> Result<(), AllocError> {
        let key = value(self.alloc, ":teller")?;
        match self.world.add_watch(who, key) {
            Ok(_) => Ok(()),
            Err(_) => Err(AllocError),
        }
    }

    /// Moves a sum from one account to another and sends a note of it to the journal, or changes nothing. The step goes into the log.
    pub(crate) fn transfer(
        &mut self,
        step: u32,
        from: u32,
        to: u32,
        sum: &str,
    ) -> Result<Receipt, Refusal> {
        let tx = self.body(from, to, sum).map_err(Refusal::Body)?;
        let stamp = Stamp { worker: 0, step };
        let (alloc, funs) = (self.alloc, self.funs);
        match self.world.commit(alloc, funs, stamp, tx) {
            Ok(receipt) => Ok(receipt),
            // The transaction comes back and could be committed once more. Here it is dropped, with what it would have sent.
            Err((_tx, fault)) => Err(Refusal::Commit(fault)),
        }
    }

    // The body of a transfer. It sees the accounts as they were when it began, and nobody sees what it does.
    fn body(&self, from: u32, to: u32, sum: &str) -> Result<Tx<Core>, TxFault> {
        let (alloc, funs) = (self.alloc, self.funs);
        let sum = value(alloc, sum)?;
        let mut tx = self.world.begin(alloc)?;
        tx.alter(alloc, funs, from, MINUS, args(&sum)?)?;
        tx.alter(alloc, funs, to, PLUS, args(&sum)?)?;
        tx.send(alloc, funs, JOURNAL, Action::new(CONJ, args(&sum)?))?;
        Ok(tx)
    }

    /// Releases what a transfer sent, once its watches were called, and runs it.
    pub(crate) fn settle(&mut self, receipt: &Receipt) -> Result<(), AllocError> {
        self.world.release(receipt.point);
        match self.world.take()? {
            Some(job) => self.work(job),
            None => Ok(()),
        }
    }

    // Runs an action, without the world, and finishes it. What can't be done now goes back to the head of its queue.
    fn work(&mut self, job: Job) -> Result<(), AllocError> {
        let ran = match job.run(self.alloc, self.funs) {
            Ok(ran) => ran,
            Err((job, _fault)) => return self.put_back(job),
        };
        match self.world.finish(self.alloc, self.funs, ran) {
            Ok(_finished) => Ok(()),
            Err((ran, FinishFault::Foreign)) => {
                ran.into_job().forsake();
                Err(AllocError)
            }
            Err((ran, _fault)) => self.put_back(ran.into_job()),
        }
    }

    fn put_back(&mut self, job: Job) -> Result<(), AllocError> {
        if let Err(job) = self.world.put_back(job) {
            job.forsake();
        }
        Err(AllocError)
    }

    /// Counts a transfer that was refused.
    pub(crate) fn count_refused(&mut self) -> Result<(), AllocError> {
        let none = Args::of(self.alloc, Vec::new(self.alloc))?;
        let (alloc, funs) = (self.alloc, self.funs);
        match self.world.swap(alloc, funs, REFUSED, INC, none) {
            Ok(_) => Ok(()),
            Err(_) => Err(AllocError),
        }
    }

    /// What an account has.
    pub(crate) fn balance(&self, account: u32) -> Option<&Value> {
        self.world.value_of(Who::Ref(account))
    }

    /// The sums that were moved, in order.
    pub(crate) fn journal(&self) -> Option<&Value> {
        self.world.value_of(Who::Agent(JOURNAL))
    }

    /// How many transfers were refused.
    pub(crate) fn refused(&self) -> Option<&Value> {
        self.world.value_of(Who::Atom(REFUSED))
    }

    /// How many transfers were made.
    pub(crate) fn transfers(&self) -> u64 {
        self.world.commits()
    }
}
