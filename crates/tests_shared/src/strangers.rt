//! Transactions that were begun in another shared world than the one in which they are committed.
use crate::acting::On;
use crate::rows::check;
use crate::scenarios::{CommitCount, Scenario, run_to_end};
use crate::steps::commit_set;
use crate::texts::{Said, at, number_at, text};
use crate::transacting::{Acts, fault_text};
use crate::worlds::{STAMP, Stop, done, plain_start, value};
use ref_fun::{Core, CoreFunctions};
use ref_log::Stamp;
use ref_shared::{Open, Quiet, Shared};
use ref_tx::{Tx, TxFault};
use ref_world::{Books, Share};
use std::alloc::Global;
use std::mem::replace;
use std::sync::Wait;
use std::test::Fail;

// Begins a transaction that sets r0, which is 0, to 7, after so many commits of `ref-set r0 0`.
#[derive(Drop)]
struct Begun {
    commits: u32,
}

impl<R: Wait> Scenario<R> for Begun {
    type Outcome = Tx<Core>;

    fn run<L: Books>(
        &self,
        rt: &R,
        alloc: Global,
        shared: &Shared<Core, L>,
        share: &mut Share<L>,
    ) -> Result<Tx<Core>, Stop> {
        for step in 0..self.commits {
            let _ = commit_set(rt, alloc, shared, share, Stamp { worker: 0, step }, "0")?;
        }
        let mut tx = shared.begin(rt, alloc, share)?;
        let _ = done(tx.ref_set(alloc, 0, value(alloc, "7")?))?;
        Ok(tx)
    }
}

impl<'a, 'b, R: Wait, L: Books> On<'a, 'b, R, L> {
    // What comes of a `transact` whose body leaves a transaction in the place of its own.
    fn leave(&self, share: &mut Share<L>, stranger: Option<Tx<Core>>) -> Said {
        let (rt, alloc, funs, mut stranger) = (self.rt, self.alloc, &CoreFunctions, stranger);
        let (shared, gate, sink) = (self.shared, &mut Open, &mut Quiet);
        let body = |tx: &mut Tx<Core>| {
            *tx = stranger.take().ok_or(TxFault::NotMet)?;
            Ok(())
        };
        match shared.transact(rt, alloc, funs, share, STAMP, 3, gate, sink, body) {
            Ok(_) => text(alloc, "committed"),
            Err(fault) => fault_text(alloc, fault),
        }
    }

    // A transaction of a world with so many commits, if it can be made.
    fn stranger(&self, commits: u32) -> Option<Tx<Core>> {
        let start = plain_start(self.alloc, "0", "").ok()?;
        let begun = Begun { commits };
        let ended = run_to_end(self.rt, self.alloc, start, &begun, &CommitCount).ok();
        ended.map(|ended| ended.0)
    }

    pub(crate) fn foreign(&self, share: &mut Share<L>, acts: &mut Acts, call: &[&str]) -> Said {
        if at(call, 0) == "leave" {
            return self.leave(share, acts.t.take());
        }
        drop(replace(&mut acts.t, self.stranger(number_at(call, 1))));
        text(self.alloc, "ok")
    }
}

// A transaction that is refused comes back, and is refused again. So is one that a body leaves.
const FOREIGN: &str = "
== |
stranger 0; commit t → a transaction of another store: there is no ref 0 here
commit t → a transaction of another store: there is no ref 0 here
leave t → the commit was refused: a transaction of another store: there is no ref 0 here
receipts; value r0 → 0; none
== 5
stranger 0; commit t → a transaction of another store: ref 0 had another value here
commit t → a transaction of another store: ref 0 had another value here
leave t → the commit was refused: a transaction of another store: ref 0 had another value here
receipts; value r0 → 0; 5
== 0
stranger 1; commit t → a transaction of another store: point 1 is still to come
commit t → a transaction of another store: point 1 is still to come
leave t → the commit was refused: a transaction of another store: point 1 is still to come
receipts; value r0 → 0; 0
== a tally
stranger 0; commit t → a transaction of another store: the tally here can only be added to and taken from
commit t → a transaction of another store: the tally here can only be added to and taken from
leave t → the commit was refused: a transaction of another store: the tally here can only be added to and taken from
receipts; value r0 → 0; 0
";

#[test]
fn what_is_foreign_is_refused(rt: HostRuntime) -> Result<(), Fail> {
    check(&rt, FOREIGN)
}
