//! Each call of one thread: transactions, changes of atoms, makings. What a making takes is what the reference then has: its rule, whether it
//! is the tally, its error mode.
use crate::rows::check;
use std::test::Fail;

const CALLS: &str = "
// A transaction reads what was committed.
== 0
begin t; t: set r0 5; commit t 0 0 → 0; 5; 1
begin t; t: deref r0 → 1; 5
// What is commuted is made on the latest value: the first begun is committed last.
== a tally
begin t; t: commute r0 + 1 → 0; 1
begin u; u: commute r0 + 10 → 0; 10
commit u 1 0; commit t 0 0; value r0 → 1; 2; 11
end answers → 1/0 10, 0/0 1
end totals → 2 11 0
end books → 2 11 0
// A sink is told what the receipt has: by refs, and of one ref in the order of adding.
== 0 5
watch r0 :k; watch r0 :j; watch r1 :k
transact 1: alter r1 + 2, alter r0 + 1 → 1, r0 :k 0 -> 1, r0 another 0 -> 1, r1 :k 5 -> 7
// An atom is set where it is as told.
== |1
compare a0 1 2; compare a0 1 3 → no
value a0; receipts → 2; 1
end entries → 1
end count → 0
// Atoms change and tell their watches.
== |1
watch a0 :k
swap a0 + 1 → 1 -> 2, a0 :k 1 -> 2
reset a0 7; value a0 → 2 -> 7, a0 :k 2 -> 7; 7
compare a0 9 1; receipts → no; 2
compare a0 7 8; receipts → ok, a0 :k 7 -> 8; 3
end count → 0
// References are made, and get rules and watches.
== |
make ref 5; make tally 6 → 0; 1
make atom 7; make atom 8 → 0; 1
make agent 9; make patient 10 → 0; 1
rule r0 6 → the rule doesn't accept the value
rule r0 5; make atom 5 6 → the rule doesn't accept the value
watch r0 :k; watch r0 :k → no
unwatch r0 :k; unwatch r0 :k → no
value r1; value a1; value g1 → 6; 8; 10
end count → 0
// What is made has its rule, and is the tally.
== |
make tally 5 0; make atom 5 0 → 0; 0
make tally 0 → a tally has to be the only one, and to start with an integer of 0 or more
reset a0 -1 → the rule doesn't accept the value
make ref 5 0; begin t; t: set r1 -1 → 1; 3; -1
commit t 0 0 → the rule of ref 1 doesn't accept its value
// An agent that is made has its rule and its mode.
== |
make patient 1 0; make agent 1 0 → 0; 1
send g0 - 5; work → g0, g0 went on: the rule doesn't accept the value
send g1 - 5; work → g1, g1 failed: the rule doesn't accept the value
error g1 → the rule doesn't accept the value
error g0
";

#[test]
fn each_call_does_and_says_what_it_is_to(rt: HostRuntime) -> Result<(), Fail> {
    check(&rt, CALLS)
}
