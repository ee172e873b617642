ghost use Rattle.std.specs.Prelude.{◌≡◌, ◌≤◌, OnOk};
ghost use Rattle.stores.specs.Banks.{store_at};
ghost use Rattle.nodes.specs.Serving.{is_applied, too_far, requested_key, in_turn, room_needed, may_take, server_check};

use super::{AHEAD, Server};
use crate::fault::{NodeCause, NodeFault, ensure};
use crate::message::{Body, Message};
use crate::seat::Seat;
use crate::sizes::Sizes;
use stores::{Bank, at_place};

impl Body {
    // The key that a request names; an answer is none.
    fn requested_key(&self) -> Option<usize>
        ensures { result ≡ requested_key self.now }
    {
        match self {
            Body::Read { key, .. } => Some(*key),
            Body::Write(payload) | Body::Update(payload) => Some(payload.key),
            Body::Resp { .. } | Body::Ack { .. } => None,
        }
    }
}

impl Server {
    /// Whether the client's write of this number is applied.
    pub fn has_applied(&self, client: usize, number: u16) -> bool
        ensures { result ≡ is_applied self.now client number }
    {
        number <= self.stamp.count(client)
    }

    pub(crate) fn is_too_far(&self, client: usize, number: u16) -> bool
        ensures { result ≡ too_far self.now client number }
    {
        usize::from(number) > usize::from(self.stamp.count(client)) + AHEAD
    }

    // Whether the message need not wait.
    fn in_turn(&self, client: usize, body: &Body) -> Result<(), NodeCause>
        ensures { result ≡ in_turn self.now client body.now }
    {
        match body {
            Body::Read { stamp, .. } if !stamp.at_most(&self.stamp) => Err(NodeCause::MustWait),
            Body::Write(payload) | Body::Update(payload)
                if self.is_too_far(client, payload.number) => Err(NodeCause::TooFarAhead),
            _ => Ok(()),
        }
    }

    // How many places the answers and relays may take.
    fn room_needed(&self, sizes: &Sizes, client: usize, body: &Body) -> usize
        ensures { result ≡ room_needed sizes.now self.now client body.now }
    {
        match body {
            Body::Read { .. } => 1,
            Body::Write(payload) if self.has_applied(client, payload.number) => 1,
            Body::Update(payload) if self.has_applied(client, payload.number) => 0,
            Body::Write(_) | Body::Update(_) => sizes.servers - 1 + sizes.clients,
            Body::Resp { .. } | Body::Ack { .. } => 0,
        }
    }

    fn may_take<B: Bank>(
        &self,
        seat: &Seat,
        bank: &B,
        message: &Message,
        free: usize,
    ) -> Result<(), NodeCause>
        ensures rules { result ≡ may_take seat.now self.now (store_at (B.shows bank.now) seat.now.at) message.now free }
        ensures room { OnOk result (room_needed seat.now.sizes self.now message.now.client message.now.body ≤ free) }
    {
        let addressed = message.is_well_formed(&seat.sizes) && message.receiver == seat.me;
        ensure(addressed, NodeCause::Malformed)?;
        let key = message.body.requested_key().ok_or(NodeCause::Malformed)?;
        bank.look(seat.at, key)?;
        self.in_turn(message.client, &message.body)?;
        let needed = self.room_needed(&seat.sizes, message.client, &message.body);
        ensure(needed <= free, NodeCause::NoRoom)
    }

    /// Whether the server of this seat takes the message while so many places are free in the pool.
    pub fn check<B: Bank>(
        &self,
        seat: &Seat,
        bank: &B,
        message: &Message,
        free: usize,
    ) -> Result<(), NodeFault>
        ensures rules { result ≡ server_check seat.now self.now (store_at (B.shows bank.now) seat.now.at) message.now free }
        ensures room { OnOk result (room_needed seat.now.sizes self.now message.now.client message.now.body ≤ free) }
    {
        at_place(seat.me, self.may_take(seat, bank, message, free))
    }
}
