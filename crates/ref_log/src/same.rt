//! Equality of whole entries, and of what they are made of: of two transactions of a log, say, who made them, their read points,
//! their operations with the answers, and their sends, each in order.
use crate::entries::{Entry, Transaction};
use crate::operations::{Done, Op};
use crate::sends::Sent;
use ref_fun::Same;

impl Same for Sent {
    fn is_same(&self, other: &Sent) -> bool {
        self.agent == other.agent && Same::is_same(&self.action, &other.action)
    }
}

impl Same for Op {
    fn is_same(&self, other: &Op) -> bool {
        match (self, other) {
            (Op::Set(a), Op::Set(b)) => a.is_same(b),
            (Op::Alter(code, args), Op::Alter(other, others)) => {
                *code == *other && args.is_same(others)
            }
            (Op::Commute(code, args), Op::Commute(other, others)) => {
                *code == *other && args.is_same(others)
            }
            (Op::Ensure, Op::Ensure) => true,
            _ => false,
        }
    }
}

impl Same for Done {
    fn is_same(&self, other: &Done) -> bool {
        self.r == other.r && self.op.is_same(&other.op) && self.answer.is_same(&other.answer)
    }
}

impl Same for Transaction {
    fn is_same(&self, other: &Transaction) -> bool {
        self.stamp == other.stamp
            && self.read_point == other.read_point
            && self.dones.is_same(&other.dones)
            && self.sends.is_same(&other.sends)
    }
}

impl Same for Entry {
    fn is_same(&self, other: &Entry) -> bool {
        match (self, other) {
            (Entry::Trans(a), Entry::Trans(b)) => a.is_same(b),
            (Entry::Atom(a, op, answer), Entry::Atom(b, other, others)) => {
                *a == *b && op.is_same(other) && answer.is_same(others)
            }
            (Entry::MadeRef(a), Entry::MadeRef(b)) => a.is_same(b),
            (Entry::MadeAtom(a), Entry::MadeAtom(b)) => a.is_same(b),
            _ => false,
        }
    }
}
