//! Calls on an open transaction, `transact` and `transact_when`.
use crate::acting::On;
use crate::numbers::int_of;
use crate::steps::commit_set;
use crate::texts::{
    Ear, NO_CALL, Said, action_of, at, code_at, count_at, index_at, number_at, said, table_at,
    text, with_heard, with_notices, words,
};
use crate::worlds::{one_arg, value};
use ref_fun::{Core, CoreFunctions};
use ref_log::Stamp;
use ref_shared::{Gate, Shared, Spot, TransactFault, WaitFault};
use ref_tx::{Tx, TxFault};
use ref_world::{Books, Receipt, Share};
use std::alloc::{AllocError, Global};
use std::mem::replace;
use std::sync::Wait;

// What the calls of a world have open: the transactions `t` and `u`. Of the last `transact` or `when` how many bodies it began and called, and
// how many receipts the share had then, without the other caller's. The step of the next one is how many there were.
#[derive(Drop)]
pub(crate) struct Acts {
    pub(crate) t: Option<Tx<Core>>,
    pub(crate) u: Option<Tx<Core>>,
    pub(crate) step: u32,
    pub(crate) begun: u32,
    pub(crate) called: u32,
    pub(crate) receipts: usize,
}

// An operation, and the number that it answers.
fn operate(alloc: Global, tx: &mut Tx<Core>, call: &[&str]) -> Result<i64, TxFault> {
    let (n, funs, last) = (index_at(call, 1), &CoreFunctions, at(call, 3));
    let answer = match at(call, 0) {
        "deref" => tx.deref(n)?.share()?,
        "ensure" => tx.ensure(alloc, n)?,
        "set" => tx.ref_set(alloc, n, value(alloc, at(call, 2))?)?,
        "alter" => tx.alter(alloc, funs, n, code_at(call, 2), one_arg(alloc, last)?)?,
        "commute" => tx.commute(alloc, funs, n, code_at(call, 2), one_arg(alloc, last)?)?,
        "send" => {
            tx.send(alloc, funs, n, action_of(alloc, call)?)?;
            return Ok(0);
        }
        _ => return Err(TxFault::NotMet),
    };
    Ok(int_of(&answer).unwrap_or(-1))
}

// All operations of a text, and the number that the last one answers: 0 for a send.
fn operate_all(alloc: Global, tx: &mut Tx<Core>, operations: &str) -> Result<i64, TxFault> {
    let mut last = 0;
    for operation in operations.split(", ") {
        last = operate(alloc, tx, &words(alloc, operation)?)?;
    }
    Ok(last)
}

pub(crate) fn fault_text(alloc: Global, fault: TransactFault<TxFault>) -> Said {
    match fault {
        TransactFault::GaveUp { tries, conflict } => format!(in alloc;
            "gave up after {tries}: r{} read at {}, changed at {}",
            conflict.r, conflict.read_point, conflict.changed_at
        ),
        fault => format!(in alloc; "{fault}"),
    }
}

// What the last call of the body answered, and what the sink heard, which is to be what the receipt has.
fn landed(alloc: Global, answer: i64, receipt: Receipt, ear: Ear) -> Said {
    let wanted = with_notices(text(alloc, ""), alloc, &receipt.notices)?;
    if wanted != ear.heard {
        return format!(in alloc;
            "the receipt has {wanted}, and the sink heard {}",
            ear.heard
        );
    }
    with_heard(format!(in alloc; "{answer}"), &ear)
}

// A gate that lets another caller set r0 to 10 at the first bodies, before or after them, and counts the bodies.
#[derive(Drop)]
struct Between<'a, 'b, R: Wait, L: Books> {
    rt: &'a R,
    alloc: Global,
    shared: &'b Shared<Core, L>,
    share: Share<L>,
    at: Spot,
    left: u32,
    step: u32,
    bodies: u32,
}

impl<'a, 'b, R: Wait, L: Books> Gate for Between<'a, 'b, R, L> {
    fn pass(&mut self, spot: Spot) {
        if spot == Spot::BeforeBody {
            self.bodies = self.bodies.saturating_add(1);
        }
        if spot == self.at && self.left > 0 {
            self.left -= 1;
            let (worker, step) = (1, self.step);
            let (rt, alloc, stamp) = (self.rt, self.alloc, Stamp { worker, step });
            drop(commit_set(rt, alloc, self.shared, &mut self.share, stamp, "10"));
            self.step = step.saturating_add(1);
        }
    }
}

impl<'a, 'b, R: Wait, L: Books> On<'a, 'b, R, L> {
    fn transact(
        &self,
        share: &mut Share<L>,
        acts: &mut Acts,
        call: &[&str],
        body: &str,
        gate: &mut Between<'_, '_, R, L>,
    ) -> Said {
        let (rt, alloc, shared, funs) = (self.rt, self.alloc, self.shared, table_at(call, 3));
        let (worker, step, tries) = (0, acts.step, count_at(call, 1));
        let (heard, mut called) = (text(alloc, "")?, 0u32);
        let (mut ear, stamp) = (Ear { alloc, heard }, Stamp { worker, step });
        let work = |tx: &mut Tx<Core>| {
            called = called.saturating_add(1);
            operate_all(alloc, tx, body)
        };
        let sink = &mut ear;
        let answer = shared.transact(rt, alloc, &funs, share, stamp, tries, gate, sink, work);
        acts.called = called;
        match answer {
            Ok((answer, receipt)) => landed(alloc, answer, receipt, ear),
            Err(fault) => with_heard(fault_text(alloc, fault), &ear),
        }
    }

    // The word for a body is behind that for the one before.
    fn when(
        &self,
        share: &mut Share<L>,
        acts: &mut Acts,
        call: &[&str],
        body: &str,
        gate: &mut Between<'_, '_, R, L>,
    ) -> Said {
        let (rt, alloc, shared, funs) = (self.rt, self.alloc, self.shared, &CoreFunctions);
        let (worker, step, tries) = (0, acts.step, count_at(call, 1));
        let (heard, mut called) = (text(alloc, "")?, 0u32);
        let (mut ear, stamp) = (Ear { alloc, heard }, Stamp { worker, step });
        let work = |tx: &mut Tx<Core>| {
            called = called.saturating_add(1);
            let last = operate_all(alloc, tx, body)?;
            match at(call, (called as usize).saturating_add(2)) {
                "ready" => Ok(Some(last)),
                "refused" => Err(TxFault::NotMet),
                _ => Ok(None),
            }
        };
        let sink = &mut ear;
        let answer = shared.transact_when(rt, alloc, funs, share, stamp, tries, gate, sink, work);
        acts.called = called;
        match answer {
            Ok((answer, receipt)) => landed(alloc, answer, receipt, ear),
            Err(WaitFault::Transact(fault)) => with_heard(fault_text(alloc, fault), &ear),
            Err(WaitFault::Closed) => with_heard(text(alloc, "closed before it was ready"), &ear),
        }
    }

    // Makes one of these two next to a gate, which has a part of the share, and gives it back.
    pub(crate) fn transacted(
        &self,
        share: &mut Share<L>,
        acts: &mut Acts,
        call: &[&str],
        body: &str,
    ) -> Said {
        let Some(other) = share.split(1) else {
            return text(self.alloc, "no share");
        };
        let mut gate = Between {
            rt: self.rt,
            alloc: self.alloc,
            shared: self.shared,
            share: other,
            at: match at(call, 3) {
                "before" => Spot::BeforeBody,
                _ => Spot::AfterBody,
            },
            left: number_at(call, 2),
            step: 0,
            bodies: 0,
        };
        let said = match at(call, 0) {
            "when" => self.when(share, acts, call, body, &mut gate),
            _ => self.transact(share, acts, call, body, &mut gate),
        };
        let Between {
            share: other,
            bodies,
            ..
        } = gate;
        acts.begun = bodies;
        acts.step = acts.step.saturating_add(1);
        acts.receipts = share.receipts().len();
        match share.join(other) {
            Ok(()) => said,
            Err(_) => Err(AllocError),
        }
    }

    // Commits a transaction, which comes back where it is refused.
    fn commit(
        &self,
        share: &mut Share<L>,
        call: &[&str],
        tx: Tx<Core>,
    ) -> (Said, Option<Tx<Core>>) {
        let (rt, alloc, shared, funs) = (self.rt, self.alloc, self.shared, &CoreFunctions);
        let (worker, step) = (number_at(call, 2), number_at(call, 3));
        match shared.commit(rt, alloc, funs, share, Stamp { worker, step }, tx) {
            Ok(receipt) => {
                let point = format!(in alloc; "{}", receipt.point);
                (with_notices(point, alloc, &receipt.notices), None)
            }
            Err((tx, fault)) => (format!(in alloc; "{fault}"), Some(tx)),
        }
    }

    // A call on an open transaction, or none, and what is open then.
    fn on_tx(
        &self,
        share: &mut Share<L>,
        call: &[&str],
        body: &str,
        tx: Option<Tx<Core>>,
    ) -> (Said, Option<Tx<Core>>) {
        let alloc = self.alloc;
        match (at(call, 0), tx) {
            ("begin", _) => match self.shared.begin(self.rt, alloc, share) {
                Ok(tx) => (format!(in alloc; "{}", tx.read_point()), Some(tx)),
                Err(e) => (Err(e), None),
            },
            ("commit", Some(tx)) => self.commit(share, call, tx),
            (_, Some(mut tx)) => {
                let answer = operate_all(alloc, &mut tx, body);
                (said(alloc, answer), Some(tx))
            }
            (_, None) => (text(alloc, NO_CALL), None),
        }
    }

    // A call on `t` or `u`.
    pub(crate) fn open(
        &self,
        share: &mut Share<L>,
        acts: &mut Acts,
        call: &[&str],
        body: &str,
    ) -> Said {
        let is_u = at(call, 0) == "u" || at(call, 1) == "u";
        let tx = if is_u { acts.u.take() } else { acts.t.take() };
        let (said, tx) = self.on_tx(share, call, body, tx);
        let place = if is_u { &mut acts.u } else { &mut acts.t };
        drop(replace(place, tx));
        said
    }
}
