//! Transactions that wait, in a closed shared world: where none has to sleep. The rule of r0 is that it be at least 0. Each body sends to g1,
//! also where it isn't ready, and what it sent may be run only if it was committed.
use crate::rows::check;
use std::test::Fail;

const WHENS: &str = "
// A body that is ready is committed.
== two agents
rule r0 0; watch r0 :k; close; when 1 0 ready: send g1 + 4, alter r0 + 1 → 1, r0 :k 0 -> 1
last; value r0; work → 1 1 1; 1; g1, g1 changed
end commits → 0/0 at 0
end count → 1
// After an entry the body is called again.
== two agents
rule r0 0; watch r0 :k; close; when 1 1 wait ready: send g1 + 4, alter r0 + 1 → 11, r0 :k 10 -> 11
last; value r0; work → 2 2 1; 11; g1, g1 changed
end commits → 1/0 at 0, 0/0 at 1
end count → 2
== two agents
rule r0 0; watch r0 :k; close; when 1 3 wait wait wait ready: send g1 + 4, alter r0 + 1 → 11, r0 :k 10 -> 11
last; value r0; work → 4 4 1; 11; g1, g1 changed
end commits → 1/0 at 0, 1/1 at 1, 1/2 at 2, 0/0 at 3
end count → 4
// After a conflict the body may wait too.
== two agents
rule r0 0; watch r0 :k; close; when 2 2 ready wait ready: send g1 + 4, alter r0 + 1 → 11, r0 :k 10 -> 11
last; value r0; work → 3 3 1; 11; g1, g1 changed
end commits → 1/0 at 0, 1/1 at 1, 0/0 at 2
end count → 3
// A closed world ends the waiting for an entry.
== two agents
rule r0 0; watch r0 :k; close; when 1 0: send g1 + 4, alter r0 + 1 → closed before it was ready
last; value r0; work → 1 1 0; 0; closed
end entries → 0
end count → 0
== two agents
rule r0 0; watch r0 :k; close; when 1 2: send g1 + 4, alter r0 + 1 → closed before it was ready
last; value r0; work → 3 3 0; 10; closed
end commits → 1/0 at 0, 1/1 at 1
end count → 2
// A fault of the body ends the waiting.
== two agents
rule r0 0; watch r0 :k; close; when 3 0 refused: send g1 + 4, alter r0 + 1 → the body ended it: the requirement is not met
last; value r0; work → 1 1 0; 0; closed
end entries → 0
end count → 0
== two agents
rule r0 0; watch r0 :k; close
when 3 1 wait refused ready: send g1 + 4, alter r0 + 1 → the body ended it: the requirement is not met
last; value r0; work → 2 2 0; 10; closed
end commits → 1/0 at 0
end count → 1
// So does a refused commit.
== two agents
rule r0 0; watch r0 :k; close
when 3 0 ready ready: send g1 + 4, alter r0 - 1 → the commit was refused: the rule of ref 0 doesn't accept its value
last; value r0; work → 1 1 0; 0; closed
end entries → 0
end count → 0
// Tries count conflicts alone. The conflict that is returned is the last one.
== two agents
rule r0 0; watch r0 :k; close; when 1 1 ready: send g1 + 4, alter r0 + 1 → gave up after 1: r0 read at 0, changed at 1
last; value r0; work → 1 1 0; 10; closed
end commits → 1/0 at 0
end count → 1
== two agents
rule r0 0; watch r0 :k; close
when 2 5 wait ready wait wait ready: send g1 + 4, alter r0 + 1 → gave up after 2: r0 read at 4, changed at 5
last; value r0; work → 5 5 0; 10; closed
end commits → 1/0 at 0, 1/1 at 1, 1/2 at 2, 1/3 at 3, 1/4 at 4
end count → 5
== two agents
rule r0 0; watch r0 :k; close
when 1 2 wait ready wait wait ready: send g1 + 4, alter r0 + 1 → gave up after 1: r0 read at 1, changed at 2
last; value r0; work → 2 2 0; 10; closed
end commits → 1/0 at 0, 1/1 at 1
end count → 2
";

#[test]
fn who_waits_for_an_entry_is_committed_or_learns_why_not(rt: HostRuntime) -> Result<(), Fail> {
    check(&rt, WHENS)
}
