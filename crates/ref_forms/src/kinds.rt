//! The kinds of references.
ghost use Rattle.std.specs.Prelude.{◌≡◌};
ghost use Rattle.ref_forms.specs.References.{number_at, of_kind};

use ref_log::Who;

/// A kind of reference.
#[derive(Clone, Copy, Debug, Drop, PartialEq, Eq)]
pub enum Kind {
    Ref,
    Atom,
    Agent,
}

/// The reference of a kind that has this number.
pub fn of_kind(kind: Kind, number: u32) -> Who
    ensures { result ≡ of_kind kind number }
{
    match kind {
        Kind::Ref => Who::Ref(number),
        Kind::Atom => Who::Atom(number),
        Kind::Agent => Who::Agent(number),
    }
}

/// The number of a reference, if it is of this kind.
pub fn number_at(kind: Kind, who: Who) -> Option<u32>
    ensures { result ≡ number_at kind who }
{
    match (kind, who) {
        (Kind::Ref, Who::Ref(n)) => Some(n),
        (Kind::Atom, Who::Atom(n)) => Some(n),
        (Kind::Agent, Who::Agent(n)) => Some(n),
        _ => None,
    }
}
