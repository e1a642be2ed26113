//! The names of references.
ghost use Rattle.std.specs.Prelude.{◌≡◌};

use ref_value::Text;
use std::marker::Model;

/// The names of refs, atoms and agents, by number. Contracts see lists of texts.
#[derive(Drop)]
pub struct Names {
    refs: Vec<Text>,
    atoms: Vec<Text>,
    agents: Vec<Text>,
}

impl Model for Names {
    ghost use Rattle.std.specs.Coded.{codes};
    ghost use Rattle.ref_forms.specs.Names.{NamesSeen};

    ghost Value = { NamesSeen };

    ghost coded = { Prim.hlevel codes };

    ghost view = { λ a. record { refs = a.refs.items; atoms = a.atoms.items; agents = a.agents.items } };
}

impl Names {
    /// The names of refs, atoms and agents, each list by number.
    pub fn of(refs: Vec<Text>, atoms: Vec<Text>, agents: Vec<Text>) -> Names
        ensures { result ≡ record { refs = refs.items; atoms = atoms.items; agents = agents.items } }
    {
        Names {
            refs,
            atoms,
            agents,
        }
    }

    /// The names of the refs, by number.
    pub fn refs(&self) -> &[Text]
        ensures { result.now ≡ self.now.refs }
    {
        self.refs.as_slice()
    }

    /// The names of the atoms, by number.
    pub fn atoms(&self) -> &[Text]
        ensures { result.now ≡ self.now.atoms }
    {
        self.atoms.as_slice()
    }

    /// The names of the agents, by number.
    pub fn agents(&self) -> &[Text]
        ensures { result.now ≡ self.now.agents }
    {
        self.agents.as_slice()
    }
}
