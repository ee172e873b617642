// Late answers, and tickets that come back.
use nodes::{Answered, Body, Client, Message, Terminal, Unfinished};
use stamps::{Stamp, Tray};
use std::test::Fail;

fn ack(operation: u16) -> Message {
    Message {
        sender: 1,
        receiver: 0,
        client: 0,
        operation,
        body: Body::Ack {
            stamp: Stamp::zero(),
        },
    }
}

#[test]
fn an_answer_nobody_waits_for_is_late(rt: HostRuntime) {
    let mut places = [ack(0); 8];
    let mut pool = Tray::new(&mut places);
    let mut client = Client::new();
    assert_eq!(rt; client.take_answer(&ack(1)), Answered::Late);
    assert!(rt; client.begin_read(0, 3, 3, &mut pool).is_ok());
    assert_eq!(rt;
        client.take_answer(&ack(1)),
        Answered::Late,
        "a read waits for no ACK"
    );
    assert_eq!(rt; client.begun, 1);
}

#[test]
fn a_foreign_ticket_comes_back(rt: HostRuntime) -> Result<(), Fail> {
    let mut places = [ack(0); 8];
    let mut pool = Tray::new(&mut places);
    let mut mine = Terminal::new(1, 2, 0).map_err(|_| Fail::new("client 0 of two"))?;
    let mut other = Terminal::new(1, 2, 1).map_err(|_| Fail::new("client 1 of two"))?;
    let ticket = mine
        .begin_read(3, &mut pool)
        .map_err(|_| Fail::new("a new terminal may read"))?;
    // Both outcomes are taken apart from here on, since a ticket may not fall away.
    let Err(unfinished) = other.abandon(ticket) else {
        return Err(Fail::new("the ticket is foreign"));
    };
    let Unfinished { fault, ticket } = unfinished;
    let number = fault.refusal().number;
    match mine.abandon(ticket) {
        Ok(()) => {
            assert_eq!(rt; number, 30);
            Ok(())
        },
        Err(unfinished) => {
            let Unfinished {
                fault: _,
                ticket: _own,
            } = unfinished;
            Err(Fail::new("the ticket is its own"))
        }
    }
}
