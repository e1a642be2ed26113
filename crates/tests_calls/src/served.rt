//! Which tables serve a world and its actors, and what a table lacks for an act. The table with fewer functions has `+` and `>=` alone.
use crate::rows::{Way, check};
use ref_agents::JobFault;
use ref_atoms::AtomFault;
use ref_fun::Core;
use ref_log::{MakeFault, RuleFault};
use ref_play::{Reply, runs_have_laws, steps_have_laws};
use ref_tx::TxFault;
use ref_world::CheckpointFault;
use std::test::Fail;

/// What a reply says: the code that the table lacks, or 1000 and how many entries were folded.
pub(crate) fn said(reply: &Reply) -> Option<u32> {
    match reply {
        Reply::Alter(Err(TxFault::NoSuchFun(code))) => Some(*code),
        Reply::Commute(Err(TxFault::NoSuchFun(code))) => Some(*code),
        Reply::SendInTx(Err(TxFault::NoSuchFun(code))) => Some(*code),
        Reply::Require(Err(TxFault::NoSuchFun(code))) => Some(*code),
        Reply::Swap(Err(AtomFault::NoSuchFun(code))) => Some(*code),
        Reply::SetValidator(Err(RuleFault::NoSuchFun(code))) => Some(*code),
        Reply::MakeRef(Err(MakeFault::NoSuchFun(code))) => Some(*code),
        Reply::MakeAtom(Err(MakeFault::NoSuchFun(code))) => Some(*code),
        Reply::MakeAgent(Err(MakeFault::NoSuchFun(code))) => Some(*code),
        Reply::Run(Err(JobFault::NoSuchFun(code))) => Some(*code),
        Reply::Checkpoint(Err(CheckpointFault::NoSuchFun(code))) => Some(*code),
        Reply::Checkpoint(Ok(folded)) => {
            let folded = u32::try_from(*folded).ok()?;
            Some(folded.saturating_add(1000))
        }
        _ => None,
    }
}

// What is told is whether that table serves what there is, at the beginning and after each event; and what the replies say.
#[test]
fn tables_serve_or_lack(rt: HostRuntime) -> Result<(), Fail> {
    check(
        &rt,
        Way::Served,
        r##"
            // What can't be made at the start: refs come before atoms, and these before agents.
            Ref(1) no predicate has code 103 | f | :refs [[a 0] [b 5 [= 5]]] :atoms [[x 0 [some?]]]
            Atom(1) no predicate has code 109 | f | :atoms [[x 0] [y 0 [some?]]] :agents [[g 0 [int?]]]
            Agent(0) no predicate has code 104 | f | :agents [[g 0 [int?] :continue]]
            1 [] | f | :refs [[a 0 [>= 0]]] :atoms [[x 0]]
            // A function that an open transaction commutes by: until it is dropped, or committed.
            11100101 [] | - | :refs [[a 0] [b 5]] :events [[0 :begin] [1 :begin] [0 :commute a - 1] [1 :commute b + 1] [0 :abort] [1 :commute a inc] [1 :commit]]
            11111001 [] | - | :refs [[a 0] [b 5]] :events [[1 :begin] [0 :begin] [0 :commute a + 1] [1 :commute b + 1] [0 :commute b - 1] [1 :commit] [0 :commit]]
            // Of each actor, in whatever order they are; also after a commit was refused.
            11111001001 [] | - | :refs [[a 0] [b 5]] :events [[0 :begin] [1 :begin] [2 :begin] [0 :commute a + 1] [1 :commute b - 1] [2 :commute a + 1] [1 :abort] [2 :commute b inc] [0 :abort] [2 :commit]]
            110000001 [] | - | :refs [[a 0] [b 5]] :events [[0 :begin] [0 :commute a - 1] [0 :ensure b] [1 :begin] [1 :ref-set b 6] [1 :commit] [0 :commit] [0 :abort]]
            // An alter isn't made again, and an action may wait for another table.
            1111111 [] | ......f | :refs [[a 0]] :atoms [[x 1]] :agents [[g 2]] :events [[0 :begin] [0 :alter a - 1] [0 :send-in-tx g - 1] [0 :send g - 1] [0 :swap x - 1] [0 :commit]]
            // The predicate of a rule of each kind, until it is taken away.
            010 [] | - | :refs [[a 0] [b 5 [<= 5]]] :events [[0 :set-validator b nil] [0 :set-validator a [<= 9]]]
            010 [] | - | :atoms [[x 1 [>= 1]] [y 5 [<= 5]]] :events [[0 :set-validator y [>= 0]] [0 :make-atom 0 [<= 0]]]
            010 [] | - | :agents [[g 0] [h 5 [<= 5]]] :events [[0 :set-validator h nil] [0 :make-agent 0 [<= 0] :continue]]
            // In a transaction: behind what is wrong with the ref, before an agent that isn't there. Of an action its own function comes first.
            111111111 [2, 3, 102] | .ffffffff | :refs [[a 0] [t 5 :tally]] :events [[0 :begin] [0 :alter a - 1] [0 :alter [:ref 9] - 1] [0 :alter t - 1] [0 :commute t inc] [0 :commute a inc] [0 :require a <= 9] [0 :require [:ref 9] <= 9]]
            1111 [] | .fff | :refs [[a 0]] :events [[0 :begin] [0 :commute a + 1] [0 :alter a dec]]
            1111111 [2, 4, 5, 3] | .ffffff | :agents [[g 0]] :events [[0 :begin] [0 :send-in-tx g - 1] [0 :send-in-tx [:agent 9] dec] [0 :send-carry-in-tx [:agent 9] [+ 1] [g max] [g dec]] [0 :send-carry-in-tx [:agent 9] [inc] [g max]] [0 :send-in-tx g + 1]]
            // Of an atom, a rule and a making: behind what isn't there, before what is refused.
            11111 [7, 2] | .ffff | :atoms [[x 1] [y :k]] :events [[0 :swap [:atom 9] - 1] [0 :swap x conj 1] [0 :swap y - 1] [0 :swap x + 1]]
            111111 [102, 103] | .fffff | :refs [[a 0] [b 5]] :events [[0 :set-validator [:ref 9] [<= 5]] [0 :set-validator b [<= 4]] [0 :set-validator b [= 5]] [0 :set-validator b [>= 6]] [0 :set-validator b nil]]
            1111111 [103, 102, 102, 104] | .ffffff | :events [[0 :make-ref 5 [= 6]] [0 :make-ref -1 [<= 5] :tally] [0 :make-atom 5 [<= 4]] [0 :make-agent 5 [int?]] [0 :make-ref 5 [>= 5]] [0 :make-agent 5]]
            // A job: the function is asked for where it runs, and the job stays.
            11111111111111 [2, 3] | .ffff.ffffffff | :agents [[g 5]] :events [[0 :send g - 1] [0 :send-carry g [+ 1] [g inc]] [0 :take] [0 :run] [0 :run] [0 :finish] [0 :take] [0 :run] [0 :finish] [0 :release-carried g] [0 :take] [0 :run] [0 :put-back]]
            // A checkpoint: the function of an entry that would be folded. Then nothing is folded.
            111111111111 [2, 1000, 1001, 3, 1000, 1001] | .....ff.fff. | :refs [[a 0]] :atoms [[x 5]] :events [[0 :begin] [0 :alter a - 1] [0 :commit] [0 :swap x inc] [1 :checkpoint 1] [1 :checkpoint 0] [1 :checkpoint 1] [1 :checkpoint 2] [1 :checkpoint 1] [1 :checkpoint 3] [1 :checkpoint 2]]
        "##,
    )
}

// The laws of lists of events are those of Core too.
#[test]
fn runs_of_core_have_the_laws(_rt: HostRuntime) {
    steps_have_laws::<Core>();
    runs_have_laws::<Core>();
}
