ghost use Rattle.std.specs.Prelude.{◌≡◌};
ghost use Rattle.nodes.specs.Serving.{Below, HaveBits, brought, held_with, witnessed};

use super::Held;
use crate::message::{Message, Payload};

/// A write that a message brings: from its client, or passed on by another server.
#[derive(Clone, Copy, PartialEq, Eq, Debug)]
pub struct Incoming {
    pub client: usize,
    pub payload: Payload,
    /// The server that passed it on.
    pub from: Option<usize>,
    // Last: a payload that stands behind so small a field takes longer to copy.
    pub operation: u16,
}

impl Incoming {
    pub(super) fn new(message: &Message, payload: &Payload, from: Option<usize>) -> Incoming
        ensures { result ≡ brought message.now payload.now from }
    {
        Incoming {
            client: message.client,
            operation: message.operation,
            payload: *payload,
            from,
        }
    }

    // These witnesses, and the server that passed the write on.
    pub(super) fn witnessed(&self, witnesses: u8) -> u8
        requires { Below self.now.from 8 }
        ensures { result ≡ witnessed self.now.from witnesses }
    {
        match self.from {
            None => witnesses,
            Some(sender) => witnesses | 1 << sender,
        }
    }

    // What server `me` has in hand of a write that was not: its witnesses are this server and the one that passed it on.
    pub(super) fn held(&self, me: usize) -> Held
        requires { HaveBits me self.now.from }
        ensures { result ≡ held_with me self.now None }
    {
        Held {
            operation: self.operation,
            key: self.payload.key,
            value: self.payload.value,
            stamp: self.payload.stamp,
            witnesses: self.witnessed(1 << me),
        }
    }
}
