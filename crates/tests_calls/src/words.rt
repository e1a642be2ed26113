//! What faults say. The rows of other modules show what else those of replays, commits, atoms, makings, ends of jobs and restarts say.
use ref_agents::{AgentError, FinishFault, JobFault, ModeFault, RestartFault, SendFault};
use ref_atoms::AtomFault;
use ref_events::ScriptFault;
use ref_fun::Cause;
use ref_log::{AuditFault, MakeFault, RuleFault, WatchFault, Who};
use ref_plan::PlanFault;
use ref_refs::CommitFault;
use ref_tx::TxFault;
use std::fmt::Display;
use std::process::Abort;
use std::test::Fail;

// Each fault says these words.
fn check<F: Display>(rt: &(impl Abort + AllocGlobal), faults: &[(F, &str)]) -> Result<(), Fail> {
    for (fault, words) in faults {
        let said = fault.to_string(rt.alloc())?;
        assert!(rt; said.as_str() == *words, "{said}, not {words}");
    }
    Ok(())
}

const TX_FAULTS: &[(TxFault, &str)] = &[
    (TxFault::NoSuchRef, "no such ref"),
    (TxFault::SetAfterCommute, "set after commute"),
    (
        TxFault::TallyOnly,
        "the tally can only be added to and taken from",
    ),
    (
        TxFault::Refused(Cause::Overflow),
        "refused: integer overflow",
    ),
    (TxFault::NoSuchFun(4), "no function has code 4"),
    (TxFault::NoSuchAgent, "no such agent"),
    (TxFault::NotMet, "the requirement is not met"),
    (TxFault::Memory, "out of memory"),
];

const RULE_FAULTS: &[(RuleFault, &str)] = &[
    (RuleFault::NoSuch, "there is no such reference"),
    (RuleFault::Invalid, "the rule doesn't accept the value"),
    (RuleFault::Memory, "out of memory"),
    (RuleFault::NoSuchFun(3), "no predicate has code 3"),
];

const WATCH_FAULTS: &[(WatchFault, &str)] = &[
    (WatchFault::NoSuch, "there is no such reference"),
    (WatchFault::Memory, "out of memory"),
];

const AGENT_ERRORS: &[(AgentError, &str)] = &[
    (
        AgentError::Refused(Cause::TooDeep),
        "refused: nested too deep",
    ),
    (
        AgentError::Refused(Cause::WrongArity),
        "refused: wrong number of arguments",
    ),
    (AgentError::Invalid, "the rule doesn't accept the value"),
];

const SEND_FAULTS: &[(SendFault, &str)] = &[
    (SendFault::NoSuchAgent, "there is no such agent"),
    (SendFault::Failed, "the agent is failed"),
    (SendFault::Memory, "out of memory"),
];

const JOB_FAULTS: &[(JobFault, &str)] = &[
    (JobFault::NoSuchFun(3), "the table lacks code 3"),
    (JobFault::Memory, "out of memory"),
];

const RESTART_FAULTS: &[(RestartFault, &str)] = &[
    (RestartFault::Invalid, "the rule doesn't accept the value"),
    (RestartFault::Memory, "out of memory"),
];

const SCRIPT_FAULTS: &[(ScriptFault, &str)] = &[
    (ScriptFault::NotEvents, "not a list of events"),
    (ScriptFault::BadVersion, "a version other than 1"),
    (ScriptFault::TooMany, "too many references or events"),
    (
        ScriptFault::Reference(PlanFault::BadTally(Who::Ref(3))),
        "ref 3 can't be the tally",
    ),
    (ScriptFault::BadEvent(4), "event 4 is not an event"),
    (
        ScriptFault::UnknownName(5),
        "event 5 names an unknown reference",
    ),
    (
        ScriptFault::UnknownFun(6),
        "event 6 names an unknown function",
    ),
    (ScriptFault::Memory, "out of memory"),
];

#[test]
fn faults_say_what_they_are(rt: HostRuntime) -> Result<(), Fail> {
    check(&rt, TX_FAULTS)?;
    check(&rt, RULE_FAULTS)?;
    check(&rt, WATCH_FAULTS)?;
    check(&rt, AGENT_ERRORS)?;
    check(&rt, SEND_FAULTS)?;
    check(&rt, &[(ModeFault::NoSuchAgent, "there is no such agent")])?;
    check(&rt, JOB_FAULTS)?;
    check(&rt, RESTART_FAULTS)?;
    check(&rt, SCRIPT_FAULTS)?;
    check(&rt, &[(AuditFault::Memory, "out of memory")])?;
    check(&rt, &[(CommitFault::Memory, "out of memory")])?;
    check(&rt, &[(AtomFault::Memory, "out of memory")])?;
    check(&rt, &[(MakeFault::Memory, "out of memory")])?;
    check(&rt, &[(FinishFault::Memory, "out of memory")])
}
