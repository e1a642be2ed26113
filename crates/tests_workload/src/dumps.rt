//! Dumps of worlds that no workload and no list of events makes: with actions that have no name, and nested too deep.
ghost use Rattle.std.specs.Prelude.{◌≡◌};
ghost use Rattle.ref_world.specs.Shares.{AreBlanks};

use crate::same::same;
use ref_agents::{ErrorMode, Start};
use ref_audit::{DumpMakeFault, Verdict, audit, audit_world, dump};
use ref_edn::read_one;
use ref_fun::{Action, Args, Carries, Carry, Core, CoreFunctions, MOST_CARRIES};
use ref_log::Stamp;
use ref_play::{Act, Event, Sim};
use ref_world::{Blanks, Books, World};
use std::alloc::Global;
use std::marker::Brand;
use std::test::Fail;

/// Why a world that begins with nothing isn't dumped after these acts of one actor, if it isn't.
fn refusal(alloc: Global, events: &[Event]) -> Result<Option<DumpMakeFault>, Fail> {
    let start = Start {
        refs: Vec::new(alloc),
        atoms: Vec::new(alloc),
        agents: Vec::new(alloc),
    };
    refusal_in::<Brand>(alloc, &start, events, Blanks::new())
}

fn refusal_in<L: Books>(
    alloc: Global,
    start: &Start,
    events: &[Event],
    blanks: Blanks,
) -> Result<Option<DumpMakeFault>, Fail>
    requires { AreBlanks blanks L.commits L.added L.taken L.story }
{
    match Sim::<Core, L>::new(alloc, &CoreFunctions, start, blanks) {
        Ok(mut sim) => {
            let refused = after(alloc, &mut sim, events);
            drop(sim.end());
            refused
        }
        Err(_) => Err(Fail::new("a world begins so")),
    }
}

fn after<L: Books>(
    alloc: Global,
    sim: &mut Sim<Core, L>,
    events: &[Event],
) -> Result<Option<DumpMakeFault>, Fail> {
    if !sim.served_by(&CoreFunctions) {
        return Err(Fail::new("all functions are there"));
    }
    sim.play(alloc, &CoreFunctions, events).map(drop)?;
    dumped(alloc, sim.world())
}

// Why no dump is made, if none is. The verdict on a dump is ok, and so is that without one, which is refused for names alone.
fn dumped(alloc: Global, world: &World<Core>) -> Result<Option<DumpMakeFault>, Fail> {
    let undumped = audit_world(alloc, &CoreFunctions::new(), world);
    let (fault, verdict) = match dump(alloc, world) {
        Ok(value) => (None, audit(alloc, &CoreFunctions::new(), &value).ok()),
        Err(fault) => (Some(fault), Some(Verdict::Ok)),
    };
    let wanted = match fault {
        Some(DumpMakeFault::Unnamed(code)) => Err(DumpMakeFault::Unnamed(code)),
        _ => Ok(Verdict::Ok),
    };
    if undumped == wanted && verdict == Some(Verdict::Ok) {
        Ok(fault)
    } else {
        Err(Fail::new("the audit of a world's own dump says ok"))
    }
}

fn add(events: &mut Vec<Event>, act: Act) -> Result<(), Fail> {
    events.push(Event { actor: 0, act })?;
    Ok(())
}

// A ref is made, which has this value, and an agent.
fn makings(alloc: Global, value: &str) -> Result<Vec<Event>, Fail> {
    let mut events = Vec::new(alloc);
    let (a, g) = (read_one(alloc, value.as_bytes())?, read_one(alloc, b"0")?);
    add(&mut events, Act::MakeRef(a, None, false))?;
    add(&mut events, Act::MakeAgent(g, None, ErrorMode::Fail))?;
    Ok(events)
}

fn args_of(alloc: Global, value: &str) -> Result<Args, Fail> {
    let value = read_one(alloc, value.as_bytes())?;
    Ok(Args::of(alloc, vec![in alloc; value]?)?)
}

// An action, and sends by these codes that it carries, all with this value as their argument.
fn action_of(alloc: Global, code: u32, carried: &[u32], value: &str) -> Result<Action, Fail> {
    let mut sends = Vec::new(alloc);
    for code in carried {
        sends.push(Carry {
            g: 0,
            code: *code,
            args: args_of(alloc, value)?,
        })?;
    }
    if sends.len() > MOST_CARRIES {
        return Err(Fail::new("at most 8 carried sends"));
    }
    Ok(Action {
        code,
        args: args_of(alloc, value)?,
        carries: Carries::of(alloc, sends)?,
    })
}

// Actions that are sent, each with what it carries; whether the first is run; and the least code without a name.
const UNNAMED: &[(&[(u32, &[u32])], bool, u32)] = &[
    (&[(60, &[]), (50, &[])], false, 50),
    (&[(60, &[]), (55, &[1, 70, 45])], false, 45),
    (&[(1, &[60, 40]), (50, &[])], true, 40),
];

fn sends_of(alloc: Global, sends: &[(u32, &[u32])], is_run: bool) -> Result<Vec<Event>, Fail> {
    let mut events = makings(alloc, "0")?;
    for (code, carried) in sends {
        let action = action_of(alloc, *code, carried, "0")?;
        add(&mut events, Act::Send(0, action))?;
    }
    if is_run {
        add(&mut events, Act::Take)?;
        add(&mut events, Act::Run)?;
        add(&mut events, Act::Finish)?;
    }
    Ok(events)
}

#[test]
fn an_action_without_a_name(rt: HostRuntime) -> Result<(), Fail> {
    for (sends, is_run, code) in UNNAMED {
        let refused = refusal(rt.alloc(), &sends_of(rt.alloc(), sends, *is_run)?)?;
        same(&rt, refused, Some(DumpMakeFault::Unnamed(*code)));
    }
    Ok(())
}

// Where a value stands, and how deep the deepest one is that a dump has room for there.
const DEEPEST: &[(&str, usize)] = &[
    ("ref", 61),
    ("operation", 59),
    ("argument", 58),
    ("carried", 56),
    ("carried in a transaction", 56),
];

fn acts_with(alloc: Global, place: &str, value: &str) -> Result<Vec<Event>, Fail> {
    let mut events = makings(alloc, if place == "ref" { value } else { "0" })?;
    let act = match place {
        "ref" => Act::ReadPoint,
        "operation" => Act::RefSet(0, read_one(alloc, value.as_bytes())?),
        "argument" => Act::Send(0, action_of(alloc, 7, &[], value)?),
        "carried" => Act::Send(0, action_of(alloc, 7, &[7], value)?),
        _ => Act::SendInTx(0, action_of(alloc, 7, &[7], value)?),
    };
    add(&mut events, Act::Begin)?;
    add(&mut events, act)?;
    add(&mut events, Act::Commit(Stamp { worker: 0, step: 0 }))?;
    Ok(events)
}

// Why a world with so many vectors, one in another, at a place isn't dumped, if it isn't.
fn refusal_at(alloc: Global, place: &str, levels: usize) -> Result<Option<DumpMakeFault>, Fail> {
    let (begin, end) = ("[".repeat(alloc, levels)?, "]".repeat(alloc, levels)?);
    let value = format!(in alloc; "{begin}{end}")?;
    refusal(alloc, &acts_with(alloc, place, &value)?)
}

#[test]
fn the_deepest_values(rt: HostRuntime) -> Result<(), Fail> {
    let alloc = rt.alloc();
    let too_deep = Some(DumpMakeFault::TooDeep);
    for (place, most) in DEEPEST {
        let fits = refusal_at(alloc, place, *most)?;
        let deeper = refusal_at(alloc, place, most.saturating_add(1))?;
        same(&rt, (*place, fits, deeper), (*place, None, too_deep));
    }
    same(&rt, refusal_at(alloc, "ref", 64)?, too_deep);
    Ok(())
}
