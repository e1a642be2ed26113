//! What a transaction sends.
use ref_fun::{Action, Shareable};
use std::alloc::AllocError;

/// An action that is sent to the agent of this number.
#[derive(Drop)]
pub struct Sent {
    pub agent: u32,
    pub action: Action,
}

impl Shareable for Sent {
    fn share(&self) -> Result<Sent, AllocError> {
        Ok(Sent {
            agent: self.agent,
            action: self.action.share()?,
        })
    }
}
