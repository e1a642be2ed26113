//! The board at the market's gate: the sink for the notices of all watches.
use ref_log::{Notice, Who};
use ref_shared::WatchSink;

/// How many notices of a ref, an atom and an agent it got. Each thread has one of its own.
#[derive(Clone, Copy, Debug, Drop, Default)]
pub(crate) struct Board {
    pub(crate) refs: u64,
    pub(crate) atoms: u64,
    pub(crate) agents: u64,
}

impl WatchSink for Board {
    fn told(&mut self, notice: &Notice) {
        let count = match notice.who {
            Who::Ref(_) => &mut self.refs,
            Who::Atom(_) => &mut self.atoms,
            Who::Agent(_) => &mut self.agents,
        };
        *count = count.saturating_add(1);
    }
}

impl Board {
    /// The notices of several boards, added up.
    pub(crate) fn sum(boards: &[Board]) -> Board {
        let mut all = Board::default();
        for board in boards {
            all = all.with(*board);
        }
        all
    }

    fn with(self, other: Board) -> Board {
        Board {
            refs: self.refs.saturating_add(other.refs),
            atoms: self.atoms.saturating_add(other.atoms),
            agents: self.agents.saturating_add(other.agents),
        }
    }
}
