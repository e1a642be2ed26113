//! The history of a world, and how far it is known.
ghost use Rattle.std.specs.Prelude.{◌≡◌, []};
ghost use Rattle.ref_log.specs.declared.entries.Entry.TheVariants as entries;
ghost use Rattle.ref_world.specs.History.{Begins, longer, point_in, with_entry};

use crate::names::Books;
use ref_log::{Base, Entry};
use ref_story::{Seen, Story, Tells};
use ref_value::Value;
use std::marker::{Model, PhantomData};
use std::snapshot::Snapshot;

/// What the history of a world is made of: what the world began with, and then each entry. None of these is made at run time.
#[derive(Drop)]
pub enum Act {
    Began(Base),
    Entered(Entry),
}

// That a world began.
struct Begin;

impl Tells<Base, Act> for Begin {
    ghost use Rattle.ref_world.specs.declared.histories.Act.TheVariants.{Began};

    ghost tells = { λ base. Began base };
}

// That a ref was made, or an atom, with this value.
struct MakeRef;

struct MakeAtom;

impl Tells<Snapshot<Value>, Act> for MakeRef {
    ghost use Rattle.ref_log.specs.declared.entries.Entry.TheVariants.{MadeRef};
    ghost use Rattle.ref_world.specs.declared.histories.Act.TheVariants.{Entered};

    ghost tells = { λ value. Entered (MadeRef value.value) };
}

impl Tells<Snapshot<Value>, Act> for MakeAtom {
    ghost use Rattle.ref_log.specs.declared.entries.Entry.TheVariants.{MadeAtom};
    ghost use Rattle.ref_world.specs.declared.histories.Act.TheVariants.{Entered};

    ghost tells = { λ value. Entered (MadeAtom value.value) };
}

// That an entry was added.
struct Enter;

impl Tells<Snapshot<Entry>, Act> for Enter {
    ghost use Rattle.ref_world.specs.declared.histories.Act.TheVariants.{Entered};

    ghost tells = { λ entry. Entered entry.value };
}

/// The history of the world whose books L names, from its beginning on. The world has it: it is alone in adding to it. It has no bytes.
#[derive(Drop)]
pub struct History<L: Books> {
    story: Story<Act>,
    of: PhantomData<L>,
}

impl<L: Books> Model for History<L> {
    ghost use Rattle.std.specs.Prelude.{◌≡◌};
    ghost use Rattle.std.specs.Coded.{codes};
    ghost use Rattle.ref_value.specs.Code.{edn_code};
    ghost use Rattle.ref_world.specs.History.{HasBegun, told};
    ghost use Rattle.ref_world.specs.Seen.{HistorySeen};

    ghost Value = { HistorySeen };

    ghost coded = { Prim.hlevel (codes, edn_code) };

    ghost view = { λ h. told h.story.log };

    ghost invariant = { λ h. (h.story.name ≡ L.story) × HasBegun h.story.log };
}

impl<L: Books> History<L> {
    // That of a world which begins with this base.
    pub(crate) fn of(story: Story<Act>, base: &Base) -> History<L>
        requires name { story.name ≡ L.story }
        requires empty { story.log ≡ [] }
        ensures { result ≡ record { start = base.now; entries = [] } }
    {
        let mut story = story;
        story.add_as::<Base, Begin>(base);
        History {
            story,
            of: PhantomData,
        }
    }

    // Adds an entry.
    #[tactic(auto, using(crate::proofs::Cut::begun_more, crate::proofs::Cut::told_more))]
    pub(crate) fn enter(&mut self, entry: &Snapshot<Entry>)
        ensures { self.new ≡ with_entry self.old entry.now.value }
    {
        self.story.add_as::<Snapshot<Entry>, Enter>(entry);
    }

    // Adds the entry of a ref that was made with this value.
    #[tactic(auto, using(crate::proofs::Cut::begun_more, crate::proofs::Cut::told_more))]
    pub(crate) fn make_ref(&mut self, value: &Snapshot<Value>)
        ensures { self.new ≡ with_entry self.old (entries.MadeRef value.now.value) }
    {
        self.story.add_as::<Snapshot<Value>, MakeRef>(value);
    }

    // Adds the entry of an atom that was made with this value.
    #[tactic(auto, using(crate::proofs::Cut::begun_more, crate::proofs::Cut::told_more))]
    pub(crate) fn make_atom(&mut self, value: &Snapshot<Value>)
        ensures { self.new ≡ with_entry self.old (entries.MadeAtom value.now.value) }
    {
        self.story.add_as::<Snapshot<Value>, MakeAtom>(value);
    }

    /// The history up to now, which comes to this point.
    pub fn front(&mut self, point: u64) -> Front<L>
        requires { point ≡ point_in self.old }
        ensures all { result ≡ self.old }
        ensures same { self.new ≡ self.old }
    {
        Front {
            point,
            seen: self.story.seen(),
            of: PhantomData,
        }
    }

    /// Whatever is known of it begins it.
    #[tactic(auto, using(crate::proofs::Cut::told_begins))]
    pub fn bounds(&mut self, front: &Front<L>)
        ensures begins { Begins front.now self.old }
        ensures same { self.new ≡ self.old }
    {
        self.story.bounds(&front.seen);
    }
}

/// How far the history of the world whose books L names is known. It takes the eight bytes of its point. Any thread may have one, and more of
/// the same.
#[derive(Drop)]
pub struct Front<L: Books> {
    point: u64,
    seen: Seen<Act>,
    of: PhantomData<L>,
}

impl<L: Books> Model for Front<L> {
    ghost use Rattle.std.specs.Prelude.{◌≡◌};
    ghost use Rattle.std.specs.Coded.{codes};
    ghost use Rattle.ref_value.specs.Code.{edn_code};
    ghost use Rattle.ref_world.specs.History.{HasBegun, point_in, told};
    ghost use Rattle.ref_world.specs.Seen.{HistorySeen};

    ghost Value = { HistorySeen };

    ghost coded = { Prim.hlevel (codes, edn_code) };

    ghost view = { λ f. told f.seen.log };

    ghost invariant = { λ f. (f.seen.name ≡ L.story) × HasBegun f.seen.log × (f.point ≡ point_in (told f.seen.log)) };
}

impl<L: Books> Front<L> {
    /// The point up to which it is known.
    pub fn point(&self) -> u64
        ensures { result ≡ point_in self.now }
    {
        self.point
    }

    /// The same once more.
    pub fn again(&self) -> Front<L>
        ensures { result ≡ self.now }
    {
        Front {
            point: self.point,
            seen: self.seen.again(),
            of: PhantomData,
        }
    }

    // The longer of two has both.
    fn in_line(&self, other: &Front<L>)
        ensures { Begins self.now (longer self.now other.now) × Begins other.now (longer self.now other.now) }
    {
        self.seen.in_line(&other.seen);
    }

    // Knows what the other one knows, too.
    pub(crate) fn learn(&mut self, other: Front<L>)
        ensures longer { self.new ≡ longer self.old other }
        ensures known { Begins self.old self.new × Begins other self.new }
    {
        self.in_line(&other);
        if self.point < other.point {
            *self = other;
        }
    }
}
