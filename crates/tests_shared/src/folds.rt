//! What a shared world drops: the receipts of entries that a checkpoint has folded, and actions that ended; and a log that is folded in bites.
use crate::closing::Ends;
use crate::jobs::{Work, two_agents, work};
use crate::rows::check;
use crate::same::same;
use crate::scenarios::{Scenario, run_to_end};
use crate::steps::send;
use crate::worlds::{Stop, done};
use ref_fun::codes::PLUS;
use ref_fun::{Core, CoreFunctions};
use ref_shared::{Gate, Quiet, Shared, Spot, Worked};
use ref_world::{Books, Share};
use std::alloc::Global;
use std::sync::Wait;
use std::test::Fail;

const FORGETTING: &str = "
// Receipts of folded entries aren't asked for, as far as the base says.
== 0
transact 1: set r0 1; transact 1: set r0 2 → 1; 2
checkpoint 0; forget → 0; 2
end count → 2
== 0
transact 1: set r0 1; transact 1: set r0 2 → 1; 2
checkpoint 1; forget → 1; 1
end count → 2
== 0
transact 1: set r0 1; transact 1: set r0 2 → 1; 2
checkpoint 2; forget → 2; 0
end count → 2
// Nor are they if the share says how far.
== 0
transact 1: set r0 1; transact 1: set r0 2 → 1; 2
checkpoint 2; forget 2 → 2; 0
end count → 2
// Those past the base are.
== 0
transact 1: set r0 1; transact 1: set r0 2 → 1; 2
checkpoint 0; forget 1 → 0; 1
end refused → log and receipts differ: whole true, receipts 1, commits 2
== 0
transact 1: set r0 1; transact 1: set r0 2 → 1; 2
checkpoint 1; forget 2 → 1; 0
end refused → log and receipts differ: whole true, receipts 0, commits 2
";

#[test]
fn receipts_of_folded_entries_are_not_asked_for(rt: HostRuntime) -> Result<(), Fail> {
    check(&rt, FORGETTING)
}

// A gate that folds an agent while an action is on its way, and stores what that answers.
#[derive(Drop)]
struct Folder<'a, R: Wait, L: Books> {
    rt: &'a R,
    shared: &'a Shared<Core, L>,
    folded: Option<bool>,
}

impl<'a, R: Wait, L: Books> Gate for Folder<'a, R, L> {
    fn pass(&mut self, spot: Spot) {
        if spot == Spot::AfterAction {
            self.folded = self.shared.fold_agent(self.rt, 0).ok();
        }
    }
}

// Of g an action that ended, one that ends after a fold, and one that waits; and what a fold answers of an agent that isn't there.
#[derive(Drop)]
struct Folding;

impl<R: Wait> Scenario<R> for Folding {
    type Outcome = (Option<bool>, Work, Option<bool>);

    fn run<L: Books>(
        &self,
        rt: &R,
        alloc: Global,
        shared: &Shared<Core, L>,
        _share: &mut Share<L>,
    ) -> Result<(Option<bool>, Work, Option<bool>), Stop> {
        send(rt, alloc, shared, 0, PLUS, "1")?;
        let _ = done(work(rt, alloc, shared))?;
        send(rt, alloc, shared, 0, PLUS, "2")?;
        send(rt, alloc, shared, 0, PLUS, "4")?;
        let mut gate = Folder {
            rt,
            shared,
            folded: None,
        };
        let worked = shared.work_once(rt, alloc, &CoreFunctions, &mut gate, &mut Quiet);
        Ok((gate.folded, worked, shared.fold_agent(rt, 2).ok()))
    }
}

#[test]
fn an_account_is_folded_while_an_action_is_on_its_way(rt: HostRuntime) -> Result<(), Fail> {
    let alloc = rt.alloc();
    let rows = [
        "end start g0 → 1",
        "end handled g0 → 1",
        "end number g0 → 2",
        "end waiting g0 → 1",
    ];
    let folded = run_to_end(&rt, alloc, two_agents(alloc)?, &Folding, &Ends(&rows))?;
    let wanted = (Some(true), Ok(Worked::Did(0)), Some(false));
    same(&rt, folded, (wanted, None));
    Ok(())
}

// ---- In bites

// Six commits that set r0 to 5, for which a replay calls no function, and four that add 1 to it.
const TEN: &str = "
transact 1: set r0 5; transact 1: set r0 5; transact 1: set r0 5 → 5; 5; 5
transact 1: set r0 5; transact 1: set r0 5; transact 1: set r0 5 → 5; 5; 5
transact 1: alter r0 + 1; transact 1: alter r0 + 1 → 6; 7
transact 1: alter r0 + 1; transact 1: alter r0 + 1 → 8; 9";

// TEN and BITE stand for these commits and a number.
const ANY_SIZE: &str = "
== 0
TEN
bites 10 BITE; bites 10 BITE; value r0 → 10; 0; 9
end base → 10 9
end entries → 0
== 0
TEN
bites 7 BITE; bites 7 BITE; value r0 → 7; 0; 9
end base → 7 6
end entries → 3
== 0
TEN
bites 0 BITE; bites 0 BITE; value r0 → 0; 0; 9
end base → 0 0
end entries → 10
";

const REFUSED: &str = "
// A point past the present is refused, and nothing is folded.
== 0
TEN
bites 11 3 → there is no such point in the log
bites 11 3 → there is no such point in the log
value r0 → 9
end base → 0 0
end entries → 10
// Bites before a refused one stay folded.
== 0
TEN
bites 10 3 no-memory; bites 10 3 no-memory; value r0 → out of memory; out of memory; 9
end base → 6 5
end entries → 4
== 0
TEN
bites 10 4 no-memory; bites 10 4 no-memory; value r0 → out of memory; out of memory; 9
end base → 4 5
end entries → 6
== 0
TEN
bites 10 10 no-memory; bites 10 10 no-memory; value r0 → out of memory; out of memory; 9
end base → 0 0
end entries → 10
";

#[test]
fn a_log_is_folded_in_bites_of_any_size(rt: HostRuntime) -> Result<(), Fail> {
    let alloc = rt.alloc();
    let table = ANY_SIZE.replace(alloc, "TEN", TEN)?;
    for bite in ["1", "3", "5", "9", "10", "11", "4294967295"] {
        check(&rt, &table.replace(alloc, "BITE", bite)?)?;
    }
    check(&rt, &REFUSED.replace(alloc, "TEN", TEN)?)
}
