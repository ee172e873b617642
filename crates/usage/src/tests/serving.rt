// What a server does with writes that come twice, early, or too far ahead.
use nodes::{Body, Message, NodeCause, Payload, Seat, Server, Sizes};
use stamps::{Stamp, Tray};
use std::process::Abort;
use std::test::Fail;
use stores::{Bank, Entry, Fault, One, Table};

const KEY: usize = 3;

fn counts(first: u16, second: u16) -> Stamp {
    Stamp::new([first, second, 0, 0, 0, 0, 0, 0])
}

fn payload(number: u16, stamp: Stamp, value: i32) -> Payload {
    Payload {
        key: KEY,
        value,
        number,
        stamp,
    }
}

fn message(sender: usize, receiver: usize, client: usize, operation: u16, body: Body) -> Message {
    Message {
        sender,
        receiver,
        client,
        operation,
        body,
    }
}

// What a server has done: what its store shows, how many messages it posted, and the operation of the last of them.
#[derive(Clone, Copy, PartialEq, Eq, Debug)]
struct Seen {
    shown: Option<Entry>,
    posted: usize,
    last: u16,
}

// Server 0 of a net of two clients takes the messages one after the other.
fn after(rt: &impl Abort, f: usize, messages: &[Message]) -> Result<Seen, Fail> {
    let sizes = Sizes::new(f, 2, 64).map_err(|_| Fail::new("the sizes are in range"))?;
    let mut places = [message(
        0,
        0,
        0,
        0,
        Body::Ack {
            stamp: counts(0, 0),
        },
    ); 32];
    let mut pool = Tray::new(&mut places);
    let mut bank = One(Table::new());
    let mut server = Server::new();
    let seat = Seat {
        sizes,
        me: 0,
        at: 0,
    };
    for one in messages {
        assert_eq!(rt; server.receive(&seat, one, &mut bank, &mut pool), Ok(()));
    }
    let posted = pool.len();
    let last = pool
        .get(posted.saturating_sub(1))
        .map_or(0, |message| message.operation);
    let shown = bank.look(0, KEY).map_err(|_| "no such key")?;
    Ok(Seen {
        shown,
        posted,
        last,
    })
}

#[test]
fn one_sender_counts_once(rt: HostRuntime) -> Result<(), Fail> {
    let write = payload(1, counts(1, 0), -1840);
    let first = message(1, 0, 0, 1, Body::Update(write));
    let second = message(2, 0, 0, 1, Body::Update(write));
    assert_eq!(rt; after(&rt, 2, &[first, first, first])?.shown, None);
    assert!(rt;
        after(&rt, 2, &[first, second])?.shown.is_some(),
        "three witnesses: 0, 1 and 2"
    );
    Ok(())
}

#[test]
fn equal_ranks_end_the_same_either_way(rt: HostRuntime) -> Result<(), Fail> {
    let one = message(1, 0, 0, 1, Body::Update(payload(1, counts(1, 0), 10)));
    let other = message(1, 0, 1, 1, Body::Update(payload(1, counts(0, 1), 20)));
    let later = Entry {
        client: 1,
        number: 1,
        rank: 1,
        value: 20,
    };
    assert_eq!(rt; after(&rt, 1, &[one, other])?.shown, Some(later));
    assert_eq!(rt; after(&rt, 1, &[other, one])?.shown, Some(later));
    Ok(())
}

#[test]
fn four_numbers_ahead_and_no_more(rt: HostRuntime) -> Result<(), Fail> {
    let sizes = Sizes::new(1, 2, 64).map_err(|_| Fail::new("the sizes are in range"))?;
    let server = Server::new();
    let seat = Seat {
        sizes,
        me: 0,
        at: 0,
    };
    let bank = One(Table::new());
    let fourth = message(0, 0, 0, 4, Body::Write(payload(4, counts(4, 0), 1)));
    let fifth = message(0, 0, 0, 5, Body::Write(payload(5, counts(5, 0), 1)));
    assert_eq!(rt; server.check(&seat, &bank, &fourth, 4), Ok(()));
    let too_far = Fault {
        place: 0,
        cause: NodeCause::TooFarAhead,
    };
    assert_eq!(rt; server.check(&seat, &bank, &fifth, 4), Err(too_far));
    assert_eq!(rt; too_far.refusal().number, 28);
    Ok(())
}

#[test]
fn an_update_may_come_before_its_write(rt: HostRuntime) -> Result<(), Fail> {
    let write = payload(1, counts(1, 0), -1840);
    let update = message(1, 0, 0, 1, Body::Update(write));
    assert_eq!(rt;
        after(&rt, 1, &[update])?.posted,
        2,
        "an UPDATE to each other server, and no ACK that nobody awaits"
    );
    let both = after(&rt, 1, &[update, message(0, 0, 0, 1, Body::Write(write))])?;
    assert_eq!(rt;
        both.posted,
        3,
        "the write is applied, so it is acknowledged"
    );
    Ok(())
}

#[test]
fn the_awaited_ack_comes_with_the_second_witness(rt: HostRuntime) -> Result<(), Fail> {
    let write = payload(1, counts(1, 0), -1840);
    let first = message(0, 0, 0, 7, Body::Write(write));
    assert_eq!(rt;
        after(&rt, 1, &[first])?.posted,
        2,
        "an UPDATE to each other server"
    );
    let seen = after(&rt, 1, &[first, message(2, 0, 0, 7, Body::Update(write))])?;
    assert_eq!(rt; seen.posted, 3);
    assert_eq!(rt; seen.last, 7);
    assert!(rt; seen.shown.is_some());
    Ok(())
}
