//! A sink that stores as text what it hears.
use ref_log::Notice;
use ref_program::prelude::*;
use ref_shared::WatchSink;

/// Each notice that was heard, with the key of its watch, up to where there was no memory.
#[derive(Drop)]
pub(crate) struct Ear {
    alloc: Global,
    pub(crate) heard: String,
}

impl Ear {
    pub(crate) fn new(alloc: Global) -> Ear {
        Ear {
            alloc,
            heard: String::new(alloc),
        }
    }

    fn hear(&mut self, notice: &Notice) -> Result<(), Fault> {
        let key = text(self.alloc, &notice.key)?;
        let (before, after) = (int_of(&notice.before), int_of(&notice.after));
        let item = format!(in self.alloc; "{:?} {key} {before:?} {after:?}; ", notice.who)?;
        self.heard.push_str(&item)?;
        Ok(())
    }
}

impl WatchSink for Ear {
    fn told(&mut self, notice: &Notice) {
        let _ = self.hear(notice);
    }
}
