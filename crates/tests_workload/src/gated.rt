//! Plans whose threads are held by gates, so that a test decides which of them comes first.
use crate::gates::Role;
use crate::runs::{How, run};
use crate::same::same;
use crate::tables::CoreWithout;
use ref_workload::Progress;
use std::process::Abort;
use std::sync::Wait;
use std::test::Fail;
use std::thread::Threads;
use std::time::Clock;

// A number of a row, or 0.
fn number(word: Option<&str>) -> u32 {
    word.and_then(|word| word.parse::<u32>().ok()).unwrap_or(0)
}

// A row is how often a transaction is tried; the code of a function or a predicate that the table lacks, and that of a function which is
// refused memory, if there are such; a workload; and its report, with strokes between the lines, or the fault that ends its run. Returns
// what comes of it, and what is wanted.
fn run_row<'a, R: AllocGlobal + Threads + Wait + Clock + Sync>(
    rt: &R,
    row: &'a str,
    roles: &[Role],
    progress: &Progress,
) -> Result<(String, &'a str), Fail> {
    let alloc = rt.alloc();
    let (numbers, rest) = row.split_once(" | ").ok_or("a row has numbers")?;
    let (workload, wanted) = rest.split_once(" | ").ok_or("a row has a report")?;
    let mut words = numbers.split_whitespace();
    let tries = number(words.next());
    let code = number(words.next());
    let starved = number(words.next());
    let funs = CoreWithout { code, starved };
    let text = format!(in alloc; "{{:version 1 {workload}}}")?;
    match run(rt, alloc, &text, How { funs, tries, roles }, progress)? {
        Ok(report) => {
            let lines = str::from_utf8(report.as_slice())?.trim();
            Ok((lines.replace(alloc, "\n", " / ")?, wanted))
        }
        Err(fault) => Ok((format!(in alloc; "{fault:?}")?, wanted)),
    }
}

fn check_rows<R: AllocGlobal + Threads + Wait + Clock + Sync + Abort>(
    rt: &R,
    rows: &str,
    roles: &[Role],
) -> Result<(), Fail> {
    for row in rows.trim().lines() {
        if !row.starts_with("// ") {
            let (said, wanted) = run_row(rt, row, roles, &Progress::new())?;
            same(rt, (row, said.as_str()), (row, wanted));
        }
    }
    Ok(())
}

const OVERTAKEN_ROWS: &str = "
// One try is in conflict, and there is no other. No number of tries stands for one. The second try sees what the other left.
1 | :refs [[a 0]] :workers [[[:tx [:alter a + 1]]] [[:tx [:alter a + 10]]]] | ref a 10 / refused 0 0 gave-up / commits 1 / audit ok
0 | :refs [[a 0]] :workers [[[:tx [:alter a + 1]]] [[:tx [:alter a + 10]]]] | ref a 10 / refused 0 0 gave-up / commits 1 / audit ok
2 | :refs [[a 0]] :workers [[[:tx [:alter a + 1]]] [[:tx [:alter a + 10]]]] | ref a 11 / commits 2 / audit ok
2 | :refs [[a 0] [b 0]] :workers [[[:tx [:ensure a] [:require a = 0] [:set b 1]]] [[:tx [:set a 1]]]] | ref a 1 / ref b 0 / refused 0 0 not-met / commits 1 / audit ok
// Who gave up goes on with the next step.
1 | :refs [[a 0] [b 0]] :workers [[[:tx [:alter a + 1]] [:tx [:alter b + 1]]] [[:tx [:alter a + 10]]]] | ref a 10 / ref b 1 / refused 0 0 gave-up / commits 2 / audit ok
// What a try that was in conflict sent isn't sent.
2 | :refs [[a 0]] :agents [[g 0]] :workers [[[:tx [:send g + 1] [:alter a + 1]]] [[:tx [:alter a + 10]]]] | ref a 11 / agent g 1 ready / commits 2 / audit ok
// A ref that is only commuted is in no conflict: its commit begins with what the other left, of whatever kind that is.
1 | :refs [[b 10]] :workers [[[:tx [:commute b - 7]]] [[:tx [:commute b - 7]]]] | ref b -4 / commits 2 / audit ok
9 | :refs [[b 10 [>= 0]]] :workers [[[:tx [:commute b - 7]]] [[:tx [:commute b - 7]]]] | ref b 3 / refused 0 0 invalid / commits 1 / audit ok
9 | :refs [[a 9223372036854775806] [b 0]] :agents [[g 0]] :workers [[[:tx [:commute a + 1] [:set b 1] [:send g + 1]]] [[:tx [:commute a + 1]]]] | ref a 9223372036854775807 / ref b 0 / agent g 0 ready / refused 0 0 overflow / commits 1 / audit ok
9 | :refs [[a 0]] :workers [[[:tx [:commute a + 1]]] [[:tx [:set a :k]]]] | ref a :k / refused 0 0 wrong-kind / commits 1 / audit ok
// A ref that is only read is in no conflict either, but one that is ensured is, also where the other sets it to what it was.
1 | :refs [[a 0] [b 0]] :workers [[[:tx [:require a = 0] [:set b 1]]] [[:tx [:set a 1]]]] | ref a 1 / ref b 1 / commits 2 / audit ok
1 | :refs [[a 0] [b 0]] :workers [[[:tx [:ensure a] [:set b 1]]] [[:tx [:set a 0]]]] | ref a 0 / ref b 0 / refused 0 0 gave-up / commits 1 / audit ok
";

const THRICE_ROWS: &str = "
3 | :refs [[a 0]] :workers [[[:tx [:alter a + 1]]] [[:tx [:alter a + 10]] [:tx [:alter a + 10]] [:tx [:alter a + 10]]]] | ref a 30 / refused 0 0 gave-up / commits 3 / audit ok
4 | :refs [[a 0]] :workers [[[:tx [:alter a + 1]]] [[:tx [:alter a + 10]] [:tx [:alter a + 10]] [:tx [:alter a + 10]]]] | ref a 31 / commits 4 / audit ok
";

// The first worker's body has ended, then the second worker commits, and then the first one may commit.
const OVERTAKEN: &[Role] = &[Role::Overtaken(1), Role::Overtaker];

// The same three times over.
const OVERTAKEN_THRICE: &[Role] = &[Role::Overtaken(3), Role::Overtaker];

#[test]
fn what_comes_of_being_overtaken(rt: HostRuntime) -> Result<(), Fail> {
    check_rows(&rt, OVERTAKEN_ROWS, OVERTAKEN)?;
    check_rows(&rt, THRICE_ROWS, OVERTAKEN_THRICE)
}

// The worker's first two transactions each wait for the pool to begin one more action.
const SENDER: &[Role] = &[Role::Sender(2), Role::Server];

// The pool has one thread. When it has begun to add to h, it has ended what failed g.
const SENDER_ROWS: &str = "
1 | :pool 1 :agents [[g 0 [>= 0]] [h 0]] :workers [[[:send g - 5] [:tx] [:send h + 1] [:tx] [:send g + 2]]] | agent g 0 failed / agent h 1 ready / refused 0 4 agent-failed / commits 2 / audit ok
// What a transaction sends is held, and is run after a restart, which needs a state that the rule accepts.
1 | :pool 1 :agents [[g 0 [>= 0]] [h 0]] :workers [[[:send g - 5] [:tx] [:send h + 1] [:tx] [:send g + 2] [:tx [:send g + 1]] [:restart g -1] [:restart g 7] [:send g + 3]]] | agent g 11 ready / agent h 1 ready / refused 0 4 agent-failed / refused 0 6 invalid / commits 3 / audit ok
// With `:clear` it is dropped.
1 | :pool 1 :agents [[g 0 [>= 0]] [h 0]] :workers [[[:send g - 5] [:tx] [:send h + 1] [:tx] [:tx [:send g + 1]] [:restart g 7 :clear] [:send g + 3]]] | agent g 10 ready / agent h 1 ready / commits 3 / audit ok
// An agent isn't failed any less by another mode.
1 | :pool 1 :agents [[g 0 [>= 0]] [h 0]] :workers [[[:send g - 5] [:tx] [:send h + 1] [:tx] [:mode g :continue] [:send g + 2]]] | agent g 0 failed / agent h 1 ready / refused 0 5 agent-failed / commits 2 / audit ok
";

#[test]
fn what_a_failed_agent_refuses(rt: HostRuntime) -> Result<(), Fail> {
    check_rows(&rt, SENDER_ROWS, SENDER)
}

// The actions of a pool of two wait for one another.
const MEETING: &[Role] = &[Role::Open, Role::Meeting(2), Role::Meeting(2)];

const MEETING_ROWS: &str = "
1 | :pool 2 :agents [[g 0] [h 0]] :workers [[[:send g + 1] [:send h + 2]]] | agent g 1 ready / agent h 2 ready / commits 0 / audit ok
";

#[test]
fn a_pool_runs_actions_side_by_side(rt: HostRuntime) -> Result<(), Fail> {
    check_rows(&rt, MEETING_ROWS, MEETING)
}

// A function that is lacking, or has no memory, ends the run. Of two workers the first one's fault is returned.
const ENDING_ROWS: &str = "
1 2 0 | :refs [[a 0]] :workers [[[:tx [:alter a + 1]]] [[:tx [:alter a - 1]] [:tx [:alter a + 1]]]] | Internal
1 2 0 | :agents [[g 0] [h 0]] :workers [[[:send h + 1] [:send g - 1] [:send h + 1]]] | Internal
1 101 0 | :refs [[a 0 [>= 0]]] :workers [[[:tx]]] | Internal
1 0 1 | :refs [[a 0]] :workers [[[:tx [:alter a + 1]]]] | Memory
1 0 1 | :agents [[g 0]] :workers [[[:send g + 1]]] | Memory
1 2 1 | :refs [[a 0]] :workers [[[:tx [:alter a - 1]]] [[:tx [:alter a + 1]]]] | Internal
1 2 1 | :refs [[a 0]] :workers [[[:tx [:alter a + 1]]] [[:tx [:alter a - 1]]]] | Memory
";

#[test]
fn a_function_that_is_lacking_or_has_no_memory_ends_the_run(rt: HostRuntime) -> Result<(), Fail> {
    check_rows(&rt, ENDING_ROWS, &[])
}

// Rows whose last part is how far a run came: its steps, those that have ended, the refused ones, and the commits. In the second one two
// commits, a step that is refused and one of an atom come before what the table lacks, and two steps behind it.
const PROGRESS_ROWS: &str = "
1 | :refs [[a 0]] :atoms [[x 0]] :workers [[[:tx [:alter a + 1]] [:tx [:alter a + :k]] [:swap x inc]] [[:tx] [:swap x conj 1] [:tx]] []] | 6 6 2 3
1 2 | :refs [[a 0]] :atoms [[x 0]] :workers [[[:tx [:alter a + 1]] [:tx [:alter a + :k]] [:swap x inc] [:tx] [:tx [:alter a - 1]] [:tx] [:swap x inc]]] | 7 4 1 2
";

#[test]
fn a_run_tells_how_far_it_came(rt: HostRuntime) -> Result<(), Fail> {
    for row in PROGRESS_ROWS.trim().lines() {
        let progress = Progress::new();
        let (_said, wanted) = run_row(&rt, row, &[], &progress)?;
        let (steps, ended) = (progress.steps(), progress.ended());
        let (refused, commits) = (progress.refused(), progress.commits());
        let counts = format!(in rt.alloc(); "{steps} {ended} {refused} {commits}")?;
        same(&rt, counts.as_str(), wanted);
    }
    Ok(())
}
