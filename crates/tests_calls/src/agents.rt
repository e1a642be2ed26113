//! Agents by themselves: jobs that aren't on their way, and ends of jobs and restarts by a table that lacks a predicate.
//!
//! The lists have sends, which are made; `:take`, of a job that never comes back; `:finish`, before which a job is taken and run; and `:restart`.
use crate::rows::{Way, check};
use crate::tables::{FEWER, FULL, Table};
use crate::worlds::parts_of;
use ref_agents::{AgentStart, AgentStore, Finished, Job, Ran, Start};
use ref_events::ScriptParts;
use ref_fun::Core;
use ref_play::{Act, Event};
use std::alloc::{AllocError, Global};
use std::test::Fail;

#[test]
fn jobs_of_other_agents(rt: HostRuntime) -> Result<(), Fail> {
    check(
        &rt,
        Way::Job,
        r##"
            // None is on its way.
            no such job is on its way here | :agents [[g 0]] :events [[0 :send g + 1]] | :agents [[g 0]]
            no such job is on its way here | :agents [[g 0]] :events [[0 :send g + 2]] | :agents [[g 0]] :events [[0 :send g + 2]]
            // That of another agent is, of another number, with another action, or with another state.
            no such job is on its way here | :agents [[g 0] [h 0]] :events [[0 :send h + 2]] | :agents [[g 0] [h 0]] :events [[0 :send g + 2] [0 :take]]
            no such job is on its way here | :agents [[g 0]] :events [[0 :send g + 2]] | :agents [[g 0]] :events [[0 :send g + 0] [0 :finish] [0 :send g + 2] [0 :take]]
            no such job is on its way here | :agents [[g 0]] :events [[0 :send g + 1]] | :agents [[g 0]] :events [[0 :send g + 2] [0 :take]]
            no such job is on its way here | :agents [[g 1]] :events [[0 :send g + 2]] | :agents [[g 0]] :events [[0 :send g + 2] [0 :take]]
            // One whose action carries something else is.
            no such job is on its way here | :agents [[g 0] [h 0]] :events [[0 :send g + 1]] | :agents [[g 0] [h 0]] :events [[0 :send-carry g [+ 1] [h + 10]] [0 :take]]
            no such job is on its way here | :agents [[g 0] [h 0]] :events [[0 :send-carry g [+ 1] [h + 11]]] | :agents [[g 0] [h 0]] :events [[0 :send-carry g [+ 1] [h + 10]] [0 :take]]
            no such job is on its way here | :agents [[g 0] [h 0]] :events [[0 :send-carry g [+ 1] [g + 10]]] | :agents [[g 0] [h 0]] :events [[0 :send-carry g [+ 1] [h + 10]] [0 :take]]
            no such job is on its way here | :agents [[g 0] [h 0]] :events [[0 :send-carry g [+ 1] [h + 10] [h + 10]]] | :agents [[g 0] [h 0]] :events [[0 :send-carry g [+ 1] [h + 10]] [0 :take]]
            // The very one is, wherever it was taken.
            changed | :agents [[g 0]] :events [[0 :send g + 2]] | :agents [[g 0]] :events [[0 :send g + 2] [0 :take]]
            changed | :agents [[g 5]] :events [[0 :send g - 5] [0 :finish] [0 :send g + 2]] | :agents [[g 0]] :events [[0 :send g + 0] [0 :finish] [0 :send g + 2] [0 :take]]
            changed | :agents [[g 0] [h 0]] :events [[0 :send-carry g [+ 1] [h + 10]]] | :agents [[g 0] [h 0]] :events [[0 :send-carry g [+ 1] [h + 10]] [0 :take]]
        "##,
    )
}

// The last act is by the table that has `+` and `>=` alone.
#[test]
fn agents_lack(rt: HostRuntime) -> Result<(), Fail> {
    check(
        &rt,
        Way::Agent,
        r##"
            // At the end of a job: of this agent, before the action fails. The job stays on its way.
            the table lacks code 102, and back | :agents [[g 0 [<= 0]]] :events [[0 :send g + 1] [0 :finish]]
            the table lacks code 102, and back | :agents [[g 0 [<= 0]]] :events [[0 :send g + :k] [0 :finish]]
            changed | :agents [[g 0] [h 0 [<= 0]]] :events [[0 :send g - 1] [0 :finish]]
            failed | :agents [[g 0 [>= 0]]] :events [[0 :send g - 1] [0 :finish]]
            // At a restart: after an agent that isn't there, before one that isn't failed and before the state.
            there is no such agent | :agents [[g 0 [<= 0]]] :events [[0 :restart [:agent 1] 1]]
            the table lacks code 102 | :agents [[g 0 [<= 0]]] :events [[0 :restart g 1]]
            the table lacks code 102 | :agents [[g 0 [<= 0]]] :events [[0 :send g + 1] [0 :finish] [0 :restart g 1]]
            the agent is not failed | :agents [[g 0 [>= 0]]] :events [[0 :restart g -1]]
            the rule doesn't accept the value | :agents [[g 0 [>= 0]]] :events [[0 :send g - 1] [0 :finish] [0 :restart g -1]]
            restarted | :agents [[g 0 [>= 0]]] :events [[0 :send g - 1] [0 :finish] [0 :restart g 1]]
        "##,
    )
}

fn taken(store: &mut AgentStore<Core>) -> Result<Job, AllocError> {
    match store.take()? {
        Some(job) => Ok(job),
        None => Err(AllocError),
    }
}

// The next job, which has run.
fn ran(alloc: Global, store: &mut AgentStore<Core>) -> Result<Ran<Core>, AllocError> {
    match taken(store)?.run(alloc, &FULL) {
        Ok(ran) => Ok(ran),
        Err((job, _fault)) => {
            job.forsake();
            Err(AllocError)
        }
    }
}

// How a job ends. One that is refused is put back, where it is on its way.
fn end(
    alloc: Global,
    store: &mut AgentStore<Core>,
    table: &Table,
    ran: Ran<Core>,
) -> Result<String, AllocError> {
    let (ran, fault) = match store.finish(alloc, table, ran) {
        Ok(Finished::Changed(_)) => return String::from_str(alloc, "changed"),
        Ok(_) => return String::from_str(alloc, "failed"),
        Err(refused) => refused,
    };
    match store.put_back(ran.into_job()) {
        Ok(()) => format!(in alloc; "{fault}, and back"),
        Err(job) => {
            job.forsake();
            fault.to_string(alloc)
        }
    }
}

// What comes of an act by a table.
fn act(
    alloc: Global,
    store: &mut AgentStore<Core>,
    table: &Table,
    act: &Act,
) -> Result<String, AllocError> {
    match act {
        Act::Send(g, action) => match store.send(*g, action.share()?) {
            Ok(()) => String::from_str(alloc, "sent"),
            Err(fault) => fault.to_string(alloc),
        },
        Act::Restart(g, state, clears) => match store.restart(table, *g, state.share()?, *clears) {
            Ok(()) => String::from_str(alloc, "restarted"),
            Err(fault) => fault.to_string(alloc),
        },
        Act::Take => {
            taken(store)?.forsake();
            String::from_str(alloc, "taken")
        }
        _ => {
            let job = ran(alloc, store)?;
            end(alloc, store, table, job)
        }
    }
}

// The agents of a list, on which all acts but the last ones were made; how many these are is said.
fn store_of(
    alloc: Global,
    row: &str,
    left: usize,
) -> Result<(AgentStore<Core>, Vec<Event>), AllocError> {
    let ScriptParts { start, events, .. } = parts_of(alloc, row)?;
    let Start { agents, .. } = start;
    let mut store: AgentStore<Core> = AgentStore::empty(alloc);
    for agent in agents {
        let AgentStart { value, rule, mode } = agent;
        let made = store.make(alloc, &FULL, value, rule, mode);
        made.map_err(|_| AllocError)?;
    }
    for event in events.iter().take(events.len().saturating_sub(left)) {
        act(alloc, &mut store, &FULL, &event.act).map(drop)?;
    }
    Ok((store, events))
}

/// How a job that was taken there ends here.
pub(crate) fn ended(alloc: Global, there: &str, here: &str) -> Result<String, AllocError> {
    let (mut there, _) = store_of(alloc, there, 0)?;
    let (mut here, _) = store_of(alloc, here, 0)?;
    let job = ran(alloc, &mut there)?;
    end(alloc, &mut here, &FULL, job)
}

/// What comes of the last act of a list by the table with fewer functions.
pub(crate) fn lacked(alloc: Global, row: &str) -> Result<String, AllocError> {
    let (mut store, events) = store_of(alloc, row, 1)?;
    match events.last() {
        Some(event) => act(alloc, &mut store, &FEWER, &event.act),
        None => Err(AllocError),
    }
}
