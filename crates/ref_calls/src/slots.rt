//! What stands behind a word.
use ref_forms::Kind;

/// What stands at one place behind a word.
#[derive(Clone, Copy, Debug, Drop, PartialEq, Eq)]
pub enum Slot {
    /// A reference of a kind, and one of any kind.
    Name(Kind),
    AnyName,
    Value,
    Function,
    Predicate,
    /// All that is left: at most 8 arguments.
    Arguments,
    /// `[F ARG ..]`.
    Call,
    /// All that is left: 1 to 8 sends that are carried, each `[G F ARG ..]`.
    Carries,
    /// `[P ARG ..]` or nil.
    Rule,
    /// `:fail` or `:continue`.
    Mode,
    /// An integer of 0 or more.
    Point,
    // These may be left out.
    MaybeRule,
    MaybeMode,
    MaybeClear,
    MaybeTally,
}

pub(crate) const NOTHING: &[Slot] = &[];

pub(crate) const A_REF: &[Slot] = &[Slot::Name(Kind::Ref)];

pub(crate) const AN_AGENT: &[Slot] = &[Slot::Name(Kind::Agent)];

pub(crate) const ANY: &[Slot] = &[Slot::AnyName];

pub(crate) const REF_VALUE: &[Slot] = &[Slot::Name(Kind::Ref), Slot::Value];

pub(crate) const ATOM_VALUE: &[Slot] = &[Slot::Name(Kind::Atom), Slot::Value];

pub(crate) const ANY_VALUE: &[Slot] = &[Slot::AnyName, Slot::Value];

pub(crate) const ATOM_VALUES: &[Slot] = &[Slot::Name(Kind::Atom), Slot::Value, Slot::Value];

pub(crate) const REF_CALL: &[Slot] = &[Slot::Name(Kind::Ref), Slot::Function, Slot::Arguments];

pub(crate) const ATOM_CALL: &[Slot] = &[Slot::Name(Kind::Atom), Slot::Function, Slot::Arguments];

pub(crate) const AGENT_CALL: &[Slot] = &[Slot::Name(Kind::Agent), Slot::Function, Slot::Arguments];

pub(crate) const AGENT_CARRY: &[Slot] = &[Slot::Name(Kind::Agent), Slot::Call, Slot::Carries];

pub(crate) const REF_TEST: &[Slot] = &[Slot::Name(Kind::Ref), Slot::Predicate, Slot::Arguments];

pub(crate) const STATE: &[Slot] = &[Slot::Name(Kind::Agent), Slot::Value, Slot::MaybeClear];

pub(crate) const MODE: &[Slot] = &[Slot::Name(Kind::Agent), Slot::Mode];

pub(crate) const RULE: &[Slot] = &[Slot::AnyName, Slot::Rule];

pub(crate) const POINT: &[Slot] = &[Slot::Point];

pub(crate) const NEW_REF: &[Slot] = &[Slot::Value, Slot::MaybeRule, Slot::MaybeTally];

pub(crate) const NEW_ATOM: &[Slot] = &[Slot::Value, Slot::MaybeRule];

pub(crate) const NEW_AGENT: &[Slot] = &[Slot::Value, Slot::MaybeRule, Slot::MaybeMode];
