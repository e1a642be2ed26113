//! The stamps of a worker, one after the other.
ghost use Rattle.std.specs.Prelude.{◌≡◌, ◌↔◌, ◌<◌, ◌≤◌, ◌+◌, ◌-◌, ◌^◌, IfSome, IsNone, MatchOption};
ghost use Rattle.ref_program.specs.Stamps.{HasNoStamp, IsNext};

use ref_log::Stamp;

/// What stamps a worker makes: the next one, and how many workers there are.
#[derive(Clone, Copy, Debug, Drop)]
pub(crate) struct Stamps {
    pub(crate) next: Stamp,
    pub(crate) workers: u32,
}

impl Stamps {
    /// The stamps of the worker of this number, of so many.
    pub(crate) fn of(worker: u32, workers: u32) -> Stamps
        ensures { result ≡ record { next = record { worker = worker; step = 0 }; workers = workers } }
    {
        Stamps {
            next: Stamp { worker, step: 0 },
            workers,
        }
    }

    /// The next stamp. A step has 32 bits: after the last one the worker goes on under the number of another worker, which no other worker
    /// of its crew comes to. None if there is no such number.
    pub(crate) fn next(&mut self) -> Option<Stamp>
        ensures { MatchOption result ((self.new ≡ self.old) × HasNoStamp self.old.next self.old.workers)
            (λ stamp. (stamp ≡ self.old.next) × (self.new.workers ≡ self.old.workers)
            × IsNext self.old.workers stamp self.new.next) }
    {
        let stamp = self.next;
        self.next = after(stamp, self.workers)?;
        Some(stamp)
    }
}

// The stamp after this one.
fn after(stamp: Stamp, workers: u32) -> Option<Stamp>
    ensures some { IfSome result (IsNext workers stamp) }
    ensures none { IsNone result ↔ HasNoStamp stamp workers }
{
    match stamp.step.checked_add(1) {
        Some(step) => Some(Stamp {
            worker: stamp.worker,
            step,
        }),
        None => Some(Stamp {
            worker: stamp.worker.checked_add(workers)?,
            step: 0,
        }),
    }
}
