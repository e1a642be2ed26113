//! Laws of the transactions that threads commit. The contract of each function is a law, and none changes anything. To use a law, call its
//! function.
ghost use Rattle.ref_shared.specs.Theorems.{NoUpdateIsLost};

use ref_fun::Meaning;
use ref_world::theorems::{beginnings_are_legal, unchanged_refs_stay};

/// What a committed transaction protects it began with as the entries right before its own left it: no update of another thread is lost.
pub fn no_update_is_lost<M: Meaning>()
    ensures { NoUpdateIsLost M.means }
{
    beginnings_are_legal::<M>();
    unchanged_refs_stay::<M>();
}
