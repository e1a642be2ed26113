//! Agents whose actions one thread runs, what it gets where none is ready, and how a sink hears of their ends: after their notices, and not of
//! one that is put back.
use crate::rows::check;
use std::test::Fail;

const WORK: &str = "
// Where no agent is ready a closed world says so.
== two agents
close; work → closed
// A closed world still takes what is sent.
== two agents
close; send g1 + 1; work → g1, g1 changed
work → closed
// A failed agent holds its queue.
== two agents
send g0 + 1; send g0 - 5; send g0 + 2; work → g0, g0 changed
work → g0, g0 failed: the rule doesn't accept the value
end waiting g0 → 1
// A restarted agent takes what was held.
== two agents
send g0 + 1; send g0 - 5; send g0 + 2; work → g0, g0 changed
work → g0, g0 failed: the rule doesn't accept the value
error g0; value g0 → the rule doesn't accept the value; 1
send g0 + 3 → the agent is failed
close; work → closed
restart g0 10; error g0; work → g0, g0 changed
work; value g0 → closed; 12
end waiting g0 → 0
// An agent that is restarted with `clear` takes nothing.
== two agents
send g0 + 1; send g0 - 5; send g0 + 2; work → g0, g0 changed
work → g0, g0 failed: the rule doesn't accept the value
error g0; value g0 → the rule doesn't accept the value; 1
send g0 + 3 → the agent is failed
close; work → closed
restart g0 10 clear; error g0; work → closed
work; value g0 → closed; 10
end waiting g0 → 0
// An action without its function waits again.
== two agents
send g1 lacking 1; work → the table lacks code 999
work; value g1 → the table lacks code 999; 0
// So does one without memory. The next call waits for nobody.
== two agents
send g0 + 1; close; work no-memory → out of memory
work; value g0 → g0, g0 changed; 1
// So does one without the predicate of the agent's rule, `>=`.
== two agents
send g0 + 1; close; work no-predicates → the table lacks code 101
work; value g0 → g0, g0 changed; 1
// What a transaction sent is let out.
== two agents
transact 1: send g1 + 4; close; work; value g1 → 0; g1, g1 changed; 4
// What a commit sent is held until it is let out.
== two agents
begin t; t: send g1 + 4; commit t 0 0 → 0; 0; 1
close; work → closed
release 1; release 1 → no
work; value g1 → g1, g1 changed; 4
// What an action carried is released in the end, and nothing of one that fails.
== two agents
carry g0 + 1 4; send g0 + 2; close; work → g0, g0 changed
release g0; work; work; value g0; value g1 → no; g1, g1 changed; g0, g0 changed; 3; 4
== two agents
carry g0 - 1 4; send g0 + 2; close; work → g0, g0 failed: the rule doesn't accept the value
release g0; work; work; value g0; value g1 → no; closed; closed; 0; 0
// A sink is told what an action changed, in the order of adding.
== two agents
watch g1 :k; watch g1 :j; send g1 + 4; work → g1, g1 :k 0 -> 4, g1 another 0 -> 4, g1 changed
// It hears how each action ended, and nothing of one that is put back.
== two agents
watch g0 :k; continue g1; send g0 + 1; work → g0, g0 :k 0 -> 1, g0 changed
send g0 - 5; work → g0, g0 failed: the rule doesn't accept the value
send g1 + :k; work → g1, g1 went on: refused: wrong kind of value
send g1 + 1; work no-memory → out of memory
work → g1, g1 changed
";

#[test]
fn actions_are_run_in_their_turn_and_heard_of(rt: HostRuntime) -> Result<(), Fail> {
    check(&rt, WORK)
}
