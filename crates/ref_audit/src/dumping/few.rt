//! How many references a world has.
ghost use Rattle.ref_audit.specs.Made.{AreFew};

use ref_fun::Core;
use ref_world::World;

// A world has at most 2^20 references of each kind. It changes nothing, and costs three looks.
pub(crate) fn tell_few(world: &World<Core>)
    ensures { AreFew world.now }
{
    let _refs = world.ref_count();
    let _atoms = world.atom_count();
    let _agents = world.agent_count();
}
