//! Each call on the second reference of its kind, in a world of three refs, four atoms and five agents: it reaches that one alone.
use crate::rows::check;
use std::test::Fail;

// In a closed world, so that no call waits. At the end is how many actions of an agent are left behind the fold.
const SECONDS: &str = "
== 10 20 30 | 40 50 60 70 | 80 90 100 110 120
close; transact 1: deref r1 → 20
transact 1: ensure r1 → 20
transact 1: set r1 21 → 21
transact 1: alter r1 + 2 → 23
transact 1: commute r1 + 3 → 26
rule r1 26; transact 1: set r1 25 → the commit was refused: the rule of ref 1 doesn't accept its value
rule r1; transact 1: set r1 25 → 25
swap a1 + 1 → 50 -> 51
reset a1 52 → 51 -> 52
compare a1 40 53 → no
compare a1 52 53; rule a1 53; reset a1 51 → the rule doesn't accept the value
rule a1; reset a1 51 → 53 -> 51
send g1 + 1; await g1 → closed before all was done
await g0; work → g1, g1 changed
transact 1: send g1 + 2 → 0
work → g1, g1 changed
carry g1 + 3; work → g1, g1 changed
release g1 → no
work → g2, g2 changed
rule g1 96; send g0 + :k; work → g0, g0 failed: refused: wrong kind of value
error g1; send g1 + -1; send g1 + 1; work → g1, g1 failed: the rule doesn't accept the value
error g1 → the rule doesn't accept the value
await g1 → agent 1 is failed
restart g1 97; error g1; error g0 → refused: wrong kind of value
work → g1, g1 changed
continue g1; send g1 + :k; work → g1, g1 went on: refused: wrong kind of value
error g1; send g2 + :k; work → g2, g2 failed: refused: wrong kind of value
error g2 → refused: wrong kind of value
watch r1 :k; unwatch r0 :k → no
unwatch a1 :k → no
unwatch r1 :k; watch a1 :k; unwatch a0 :k → no
unwatch g1 :k → no
unwatch a1 :k; watch g1 :k; unwatch g0 :k → no
unwatch r1 :k → no
unwatch g1 :k; fold g1; values r → 10, 25, 30
values a → 40, 51, 60, 70
values g → 80, 98, 101, 110, 120
end handled g0 → 1
end handled g1 → 0
end handled g2 → 2
";

#[test]
fn a_call_reaches_the_second_of_its_kind_alone(rt: HostRuntime) -> Result<(), Fail> {
    check(&rt, SECONDS)
}
