//! What the faults of shared worlds say.
use crate::same::same;
use ref_refs::{CommitFault, Conflict};
use ref_shared::{AwaitFault, GatherFault, TransactFault, WaitFault, WorkFault};
use ref_tx::TxFault;
use ref_world::CheckpointFault;
use std::fmt::Display;
use std::process::Abort;
use std::test::Fail;

// Each fault says these words.
fn check<F: Display>(rt: &(impl Abort + AllocGlobal), faults: &[(F, &str)]) -> Result<(), Fail> {
    for (fault, words) in faults {
        same(
            rt,
            fault.to_string(rt.alloc())?,
            String::from_str(rt.alloc(), words)?,
        );
    }
    Ok(())
}

const CONFLICT: Conflict = Conflict {
    r: 4,
    read_point: 1,
    changed_at: 2,
};

const TRANSACT_FAULTS: &[(TransactFault<TxFault>, &str)] = &[
    (
        TransactFault::GaveUp {
            tries: 3,
            conflict: CONFLICT,
        },
        "given up after 3 tries: ref 4 has changed",
    ),
    (
        TransactFault::Body(TxFault::NoSuchRef),
        "the body ended it: no such ref",
    ),
    (
        TransactFault::Commit(CommitFault::Invalid(4)),
        "the commit was refused: the rule of ref 4 doesn't accept its value",
    ),
    (TransactFault::Memory, "out of memory"),
];

const WORK_FAULTS: &[(WorkFault, &str)] = &[
    (WorkFault::NoSuchFun(7), "the table lacks code 7"),
    (WorkFault::Memory, "out of memory"),
    (WorkFault::Foreign, "the job isn't on its way here"),
];

const GATHER_FAULTS: &[(GatherFault, &str)] = &[
    (GatherFault::ReceiptMissing, "log and receipts differ"),
    (
        GatherFault::OutOfOrder,
        "the steps of a worker are out of order",
    ),
    (GatherFault::Memory, "out of memory"),
];

const CHECKPOINT_FAULTS: &[(CheckpointFault, &str)] = &[
    (
        CheckpointFault::NoSuchPoint,
        "there is no such point in the log",
    ),
    (CheckpointFault::Memory, "out of memory"),
    (CheckpointFault::NoSuchFun(7), "no function has code 7"),
];

const AWAIT_FAULTS: &[(AwaitFault, &str)] = &[
    (AwaitFault::NoSuchAgent(7), "there is no agent 7"),
    (AwaitFault::Failed(7), "agent 7 is failed"),
    (AwaitFault::Closed, "closed before all was done"),
    (AwaitFault::Memory, "out of memory"),
];

const WAIT_FAULTS: &[(WaitFault<TxFault>, &str)] = &[
    (WaitFault::Closed, "closed before it was ready"),
    (
        WaitFault::Transact(TransactFault::GaveUp {
            tries: 3,
            conflict: CONFLICT,
        }),
        "given up after 3 tries: ref 4 has changed",
    ),
    (
        WaitFault::Transact(TransactFault::Body(TxFault::NoSuchRef)),
        "the body ended it: no such ref",
    ),
    (WaitFault::Transact(TransactFault::Memory), "out of memory"),
];

#[test]
fn faults_of_shared_worlds_say_what_they_are(rt: HostRuntime) -> Result<(), Fail> {
    check(&rt, TRANSACT_FAULTS)?;
    check(&rt, WORK_FAULTS)?;
    check(&rt, GATHER_FAULTS)?;
    check(&rt, CHECKPOINT_FAULTS)?;
    check(&rt, AWAIT_FAULTS)?;
    check(&rt, WAIT_FAULTS)
}
