//! Each call on a reference that isn't there, the one past the last of its kind: it says so, and changes nothing. Waiting for an agent that
//! isn't there is in `awaits`, folding it in `folds`.
use crate::rows::check;
use std::test::Fail;

// In a closed world, so that no call waits. Each last one is watched, and the last agent fails: so it would be seen if a call were made on it.
const MISSING: &str = "
== 10 20 30 | 40 50 60 70 | 80 90 100 110 120
close; transact 1: deref r3 → the body ended it: no such ref
transact 1: ensure r3 → the body ended it: no such ref
transact 1: set r3 1 → the body ended it: no such ref
transact 1: alter r3 + 1 → the body ended it: no such ref
transact 1: commute r3 + 1 → the body ended it: no such ref
transact 1: send g5 + 1 → the body ended it: no such agent
swap a4 + 1 → there is no such atom
reset a4 1 → there is no such atom
compare a4 70 53 → there is no such atom
send g5 + 1 → there is no such agent
carry g4 + 1 → there is no such agent
continue g5 → there is no such agent
release g5 → no
value r3 → none
value a4 → none
value g5 → none
rule r3 0 → there is no such reference
rule a4 0 → there is no such reference
rule g5 0 → there is no such reference
watch r3 :k → there is no such reference
watch a4 :k → there is no such reference
watch g5 :k → there is no such reference
watch r2 :k; watch a3 :k; watch g4 :k; unwatch r3 :k → no
unwatch a4 :k → no
unwatch g5 :k → no
unwatch r2 :k; unwatch a3 :k; unwatch g4 :k; send g4 + :k; work → g4, g4 failed: refused: wrong kind of value
error g4 → refused: wrong kind of value
error g5; restart g5 1 → there is no such agent
work → closed
values r → 10, 20, 30
values a → 40, 50, 60, 70
values g → 80, 90, 100, 110, 120
end count → 0
";

#[test]
fn a_reference_that_is_not_there_is_said_not_to_be(rt: HostRuntime) -> Result<(), Fail> {
    check(&rt, MISSING)
}
