use nodes::{Body, LoneServer, Message, NodeFault};
use stamps::Tray;
use std::fmt;
use stores::{Bank, One, Table};

/// A box: a server by itself, with a table to keep its entries in.
#[derive(Drop)]
pub(crate) struct Hut {
    server: LoneServer,
    bank: One<Table>,
}

/// Three boxes, of which one may halt.
#[derive(Drop)]
pub(crate) struct Huts {
    boxes: [Hut; 3],
}

impl Hut {
    fn new(number: usize) -> Result<Hut, NodeFault> {
        Ok(Hut {
            server: LoneServer::new(1, 2, number)?,
            bank: One(Table::new()),
        })
    }

    fn take(&mut self, message: &Message, pool: &mut Tray<'_, Message>) -> Result<(), NodeFault> {
        self.server.receive(message, &mut self.bank, pool)
    }

    fn tell(&self, rt: &impl Print, number: usize, stake: usize) -> anyhow::Result<()> {
        match self.bank.look(0, stake) {
            Ok(Some(entry)) => {
                let length = entry.value;
                println!(rt; "    box {number} shows {length}")?;
            }
            Ok(None) => println!(rt; "    box {number} shows nothing")?,
            Err(_) => println!(rt; "    box {number} has no stake {stake}")?,
        }
        Ok(())
    }
}

impl Huts {
    pub(crate) fn new() -> Result<Huts, NodeFault> {
        Ok(Huts {
            boxes: [Hut::new(0)?, Hut::new(1)?, Hut::new(2)?],
        })
    }

    /// Hands the message to the box that it goes to; a number past the last goes to the last, which refuses it.
    pub(crate) fn take(
        &mut self,
        message: &Message,
        pool: &mut Tray<'_, Message>,
    ) -> Result<(), NodeFault> {
        let number = message.receiver.min(self.boxes.len() - 1);
        let hut = &mut self.boxes[number];
        hut.take(message, pool)
    }

    pub(crate) fn tell(&self, rt: &impl Print, stake: usize) -> anyhow::Result<()> {
        for (number, hut) in self.boxes.iter().enumerate() {
            hut.tell(rt, number, stake)?;
        }
        Ok(())
    }
}

/// A message as the play tells of it: its kind, and from where to where.
#[derive(Clone, Copy, PartialEq, Eq, Debug)]
pub(crate) struct Sent(pub(crate) Message);

impl fmt::Display for Sent {
    fn fmt<W: fmt::Write>(&self, f: &mut fmt::Formatter<W>) -> fmt::Result {
        let kind = match self.0.body {
            Body::Read { .. } => "READ",
            Body::Write(_) => "WRITE",
            Body::Update(_) => "UPDATE",
            Body::Resp { .. } => "RESP",
            Body::Ack { .. } => "ACK",
        };
        write!(f, "{kind} from {} to {}", self.0.sender, self.0.receiver)
    }
}
