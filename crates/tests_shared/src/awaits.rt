//! Waiting for agents where it ends at once: all is gone, or a fault is known.
use crate::rows::check;
use std::test::Fail;

const AWAITS: &str = "
// Where nothing waits, nobody is waited for.
== two agents
await; await g0; await g1 g0 g1
send g0 + 1; await; await g1
work; await g0 → g0, g0 changed; ok
// g0 is failed, and nothing waits behind the failure.
== two agents
send g0 + :k; work → g0, g0 failed: refused: wrong kind of value
await g0; await g1 g0
// What a restart drops is not waited for, and what it leaves is.
== two agents
send g0 + :k; send g0 + 1; work → g0, g0 failed: refused: wrong kind of value
restart g0 0 clear; await g0
== two agents
send g0 + :k; send g0 + 1; work → g0, g0 failed: refused: wrong kind of value
restart g0 0; close; await g0 → closed before all was done
== two agents
send g0 + :k; send g0 + 1; work → g0, g0 failed: refused: wrong kind of value
restart g0 0; work; await g0 → g0, g0 changed; ok
// An agent that isn't there is named, the first of them.
== two agents
await g2 → there is no agent 2
send g0 + 1; await g0 g7 g8 → there is no agent 7
== two agents
close; await g9 g1 → there is no agent 9
// An agent that is failed with a queue is named.
== two agents
send g0 + :k; send g0 + 1; work → g0, g0 failed: refused: wrong kind of value
await g1; await g0 g5 → there is no agent 5
await g0 → agent 0 is failed
await g0 g1 → agent 0 is failed
await g1 g0 → agent 0 is failed
send g1 + 1; await g0 g1 → agent 0 is failed
await g1 g0 → agent 0 is failed
// Both are failed with a queue: the first of them is named.
== two agents
send g0 + :k; send g0 + 1; work → g0, g0 failed: refused: wrong kind of value
send g1 + :k; send g1 + 1; work → g1, g1 failed: refused: wrong kind of value
await g0 g1 → agent 0 is failed
await g1 g0 → agent 1 is failed
// In a closed world what is left is not waited for.
== two agents
close; await g0 g1
== two agents
send g0 + 1; close; await g0 → closed before all was done
await g0 g1 → closed before all was done
await g1 g0 → closed before all was done
await g1
work; await g0 → g0, g0 changed; ok
// A fold drops nothing that waits.
== two agents
send g0 + 1; work → g0, g0 changed
send g0 + 1; fold g0; close; await g0 → closed before all was done
// A failure is named all the same.
== two agents
send g0 + :k; send g0 + 1; work → g0, g0 failed: refused: wrong kind of value
close; await g0 → agent 0 is failed
";

#[test]
fn who_waits_for_agents_learns_what_is_known(rt: HostRuntime) -> Result<(), Fail> {
    check(&rt, AWAITS)
}
