//! Worlds that a list of events came to, without their books; `shares` has some with books. They are owned and dropped in this module alone:
//! a test is lent them.
ghost use Rattle.std.specs.Prelude.{◌≡◌};
ghost use Rattle.ref_world.specs.Shares.{AreBlanks};

use crate::tables::{FEWER, FULL};
use ref_edn::read_one;
use ref_events::{ScriptParts, script_of};
use ref_fun::Core;
use ref_log::{MakeFault, Who};
use ref_play::{Event, Reply, Sim};
use ref_world::{Blanks, Books, World};
use std::alloc::{AllocError, Global};
use std::marker::Brand;

/// What a test does with a world.
pub trait Scenario: Drop + Sized {
    type Seen: Drop;

    /// Takes the reply to an event, if one was played, and whether the table with fewer functions serves what there is now.
    fn hear(&mut self, reply: Option<&Reply>, is_served: bool) -> Result<(), AllocError>;

    /// Whether the world is made, at place 0, and each event is played, at the next ones, by the table with fewer functions.
    fn has_fewer(&self, place: usize) -> bool;

    /// Returns what is seen where there is no world.
    fn refuse(self, alloc: Global, who: Who, fault: MakeFault) -> Result<Self::Seen, AllocError>;

    /// Makes calls on the world that is left, and returns what is seen.
    fn look(
        self,
        alloc: Global,
        world: &mut World<Core>,
        rest: &[Event],
    ) -> Result<Self::Seen, AllocError>;
}

/// What a row has.
pub fn parts_of(alloc: Global, row: &str) -> Result<ScriptParts, AllocError> {
    let text = format!(in alloc; "{{:version 1 {row}}}")?;
    let value = read_one(alloc, text.as_str().as_bytes()).map_err(|_| AllocError)?;
    let script = script_of(alloc, &value).map_err(|_| AllocError)?;
    Ok(script.into_parts())
}

// Plays the events up to the first of actor 9, each as a list of its own that its table has to serve, and returns how many these are.
fn play_front<L: Books, S: Scenario>(
    alloc: Global,
    sim: &mut Sim<Core, L>,
    events: &[Event],
    scenario: &mut S,
) -> Result<usize, AllocError> {
    scenario.hear(None, sim.served_by(&FEWER))?;
    for (i, event) in events.iter().enumerate() {
        let table = if scenario.has_fewer(i.saturating_add(1)) {
            FEWER
        } else {
            FULL
        };
        if event.actor == 9 {
            return Ok(i);
        }
        if !sim.served_by(&table) {
            return Err(AllocError);
        }
        let list = events.get(i..i.saturating_add(1)).unwrap_or(&[]);
        let replies = sim.play(alloc, &table, list)?;
        scenario.hear(replies.first(), sim.served_by(&FEWER))?;
    }
    Ok(events.len())
}

/// Does what a test does with the world of a row.
pub fn run<S: Scenario>(alloc: Global, row: &str, scenario: S) -> Result<S::Seen, AllocError> {
    let parts = parts_of(alloc, row)?;
    run_in::<Brand, S>(alloc, parts, scenario, Blanks::new())
}

// It takes no `&str`: no names are picked for the books at a call that passes one.
fn run_in<L: Books, S: Scenario>(
    alloc: Global,
    parts: ScriptParts,
    scenario: S,
    blanks: Blanks,
) -> Result<S::Seen, AllocError>
    requires { AreBlanks blanks L.commits L.added L.taken L.story }
{
    let ScriptParts { start, events, .. } = parts;
    let table = if scenario.has_fewer(0) { FEWER } else { FULL };
    match Sim::<Core, L>::new(alloc, &table, &start, blanks) {
        Ok(sim) => run_sim(alloc, sim, &events, scenario),
        Err((who, fault)) => scenario.refuse(alloc, who, fault),
    }
}

fn run_sim<L: Books, S: Scenario>(
    alloc: Global,
    mut sim: Sim<Core, L>,
    events: &[Event],
    mut scenario: S,
) -> Result<S::Seen, AllocError> {
    let played = play_front(alloc, &mut sim, events, &mut scenario);
    let (booked, _share) = sim.end();
    let mut world = booked.into_world();
    match played {
        Ok(front) => {
            let rest = events.get(front..).unwrap_or(&[]);
            scenario.look(alloc, &mut world, rest)
        }
        Err(e) => Err(e),
    }
}
