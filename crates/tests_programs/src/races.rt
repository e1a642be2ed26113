//! A transaction that is overtaken each time gives up after as many tries as its crew has, and ends the run.
use crate::same::same;
use ref_program::prelude::*;
use std::sync::atomic::{AtomicBool, Ordering};
use std::test::Fail;
use std::thread;
use std::time::{Clock, Duration};

// One worker adds 1 to a ref, held in its first body until the other one has added 10.
#[derive(Drop)]
struct Race<'a, Q: Clock> {
    rt: &'a Q,
    began: AtomicBool,
    changed: AtomicBool,
}

impl<'a, Q: Clock> Race<'a, Q> {
    fn new(rt: &'a Q) -> Race<'a, Q> {
        Race {
            rt,
            began: AtomicBool::new(false),
            changed: AtomicBool::new(false),
        }
    }

    // Waits until somebody has set a flag, for some seconds at most.
    fn wait_for(&self, flag: &AtomicBool) -> Result<(), Fault> {
        for _ in 0..200_000u32 {
            if flag.load(Ordering::SeqCst) {
                return Ok(());
            }
            thread::sleep(self.rt, Duration::from_micros(1));
        }
        Err(Fault::Own("somebody wasn't there in time"))
    }

    fn be_overtaken(&self, tx: &mut Dosync) -> Result<(), Fault> {
        tx.alter(0, PLUS, 1)?;
        self.began.store(true, Ordering::SeqCst);
        self.wait_for(&self.changed)
    }
}

impl<'a, Q: Clock> Program for Race<'a, Q> {
    fn start(&self, world: &mut Declared) -> Result<(), Fault> {
        world.make_ref("0")?;
        Ok(())
    }

    fn work<L: Books, R: Wait>(&self, worker: &mut Worker<'_, L, R>) -> Result<(), Fault> {
        if worker.number() == 0 {
            return Ok(worker.transact(|tx| self.be_overtaken(tx))?);
        }
        self.wait_for(&self.began)?;
        let overtook = worker.transact(|tx| add_ten(tx));
        self.changed.store(true, Ordering::SeqCst);
        Ok(overtook?)
    }
}

fn add_ten(tx: &mut Dosync) -> Result<(), Fault> {
    tx.alter(0, PLUS, 10)?;
    Ok(())
}

// The tries, and what the ref holds then, or the fault. No number of tries stands for one.
const ROWS: &[(u32, &str)] = &[
    (1, "given up after 1 tries: ref 0 has changed"),
    (0, "given up after 1 tries: ref 0 has changed"),
    (2, "11"),
];

#[test]
fn who_is_overtaken_has_as_many_tries_as_its_crew(rt: HostRuntime) -> Result<(), Fail> {
    let alloc = rt.alloc();
    for (tries, wanted) in ROWS {
        let crew = Crew::of(2, 0).with_tries(*tries);
        let said = match run(&rt, &Race::new(&rt), crew) {
            Ok(end) => text(alloc, end.value_of(Who::Ref(0))?)?,
            Err(fault) => fault.to_string(alloc)?,
        };
        same(&rt, (*tries, said.as_str()), (*tries, *wanted));
    }
    Ok(())
}
