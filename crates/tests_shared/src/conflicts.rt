//! Transactions that are tried again, and those that aren't. The rule of r0 is that it be at least 0.
use crate::rows::check;
use std::test::Fail;

const TRANSACTS: &str = "
// A caller gives up after the last conflict.
== 0
rule r0 0; transact 1 1: alter r0 + 1 → gave up after 1: r0 read at 0, changed at 1
last; value r0 → 1 1 0; 10
end commits → 1/0 at 0
end count → 1
// It does so after as many tries as it said, and the conflict that is returned is the last one.
== 0
rule r0 0; transact 3 3: alter r0 + 1 → gave up after 3: r0 read at 2, changed at 3
last; value r0 → 3 3 0; 10
end commits → 1/0 at 0, 1/1 at 1, 1/2 at 2
end count → 3
// After a conflict the body reads the new value.
== 0
rule r0 0; transact 2 1: alter r0 + 1 → 11
last; value r0 → 2 2 1; 11
end commits → 1/0 at 0, 0/0 at 1
end count → 2
// What is committed before the body is a conflict: the transaction is there before the gate is passed.
== 0
rule r0 0; transact 1 1 before: alter r0 + 1 → gave up after 1: r0 read at 0, changed at 1
last; value r0 → 1 1 0; 10
end commits → 1/0 at 0
end count → 1
// A fault of the body ends it.
== 0
rule r0 0; transact 3: alter r0 + 1, deref r9 → the body ended it: no such ref
last; value r0 → 1 1 0; 0
end entries → 0
end count → 0
// A value that the rule refuses is tried once.
== 0
rule r0 0; transact 3: alter r0 - 1 → the commit was refused: the rule of ref 0 doesn't accept its value
last; value r0 → 1 1 0; 0
end entries → 0
end count → 0
// A predicate that is lacking ends it: that of the rule, `>=`.
== 0
rule r0 0; transact 3 0 no-predicates: alter r0 + 1 → the commit was refused: the table lacks code 101
last; value r0 → 1 1 0; 0
end entries → 0
end count → 0
";

#[test]
fn a_conflict_alone_is_tried_again(rt: HostRuntime) -> Result<(), Fail> {
    check(&rt, TRANSACTS)
}
