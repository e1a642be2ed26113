//! What the reader carries from element to element of a text. It changes what reading costs, and not what is read.
ghost use Rattle.std.specs.Prelude.{◌≡◌, []};

use crate::interner::Interner;
use ref_value::Value;
use std::alloc::Global;

/// Values that may come again, and the room of lists that are used no more.
#[derive(Drop)]
pub(crate) struct Scratch {
    pub(crate) interner: Interner,
    lists: Vec<Vec<Value>>,
}

impl Scratch {
    pub(crate) fn for_text(alloc: Global, text: &[u8]) -> Scratch {
        Scratch {
            interner: Interner::for_text(alloc, text),
            lists: Vec::new(alloc),
        }
    }

    /// An empty list, with the room of one that was given back.
    pub(crate) fn list(&mut self, alloc: Global) -> Vec<Value>
        ensures { result.items ≡ [] }
    {
        match self.lists.pop() {
            Some(list) => {
                let mut list = list;
                list.clear();
                list
            }
            None => Vec::new(alloc),
        }
    }

    /// Takes the room of a list back; where there is no memory to store it, it is dropped. As many are stored as were in use at once, 64
    /// at most.
    pub(crate) fn give_back(&mut self, list: Vec<Value>) {
        if list.capacity() > 0 {
            let _kept = self.lists.push(list);
        }
    }
}
