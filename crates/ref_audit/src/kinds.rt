//! Refs and atoms, for what goes one way for both.
ghost use Rattle.std.specs.Prelude.{◌≡◌};
ghost use Rattle.ref_audit.specs.Made.{kind_text, who_of};

use ref_log::Who;

#[derive(Clone, Copy, Debug, Drop, PartialEq, Eq)]
pub(crate) enum RefOrAtom {
    Ref,
    Atom,
}

impl RefOrAtom {
    pub(crate) fn name(self) -> &'static str
        ensures { result.now ≡ kind_text self }
    {
        match self {
            RefOrAtom::Ref => "ref",
            RefOrAtom::Atom => "atom",
        }
    }

    // The reference of this number.
    pub(crate) fn who(self, n: u32) -> Who
        ensures { result ≡ who_of self n }
    {
        match self {
            RefOrAtom::Ref => Who::Ref(n),
            RefOrAtom::Atom => Who::Atom(n),
        }
    }
}
