// Plays what stands so far through, in print: stamps, which of two readings is the later, a pool, boxes that keep readings,
// and a write and a read over three boxes.
#![tactic(auto)]

mod boxes;
mod delivery;
mod huts;
mod party;
mod pool;
mod reading;

use anyhow::Context;
use boxes::play_boxes;
use delivery::Valley;
use huts::Huts;
use nodes::{Body, Message, Terminal};
use pool::play_pool;
use reading::{Reading, STAKE};
use stamps::{Stamp, Tray};
use stores::Entry;

// The party reads the stake: its count is raised, and the reading gets its number and rank.
fn read_stake(
    rt: &impl Print,
    stamp: &mut Stamp,
    party: usize,
    length: i32,
) -> anyhow::Result<Reading> {
    let number = stamp.raise(party).context("the party has no write left")?;
    let rank = stamp.rank();
    println!(rt; "party {party} reads {length} at stake {STAKE}: its write {number}, rank {rank}")?;
    tell_stamp(rt, party, stamp)?;
    Ok(Reading {
        stake: STAKE,
        entry: Entry {
            client: party,
            number,
            rank,
            value: length,
        },
    })
}

// Of a stamp the counts of the two parties that play: a text of every stamp would tell eight.
fn tell_stamp(rt: &impl Print, party: usize, stamp: &Stamp) -> anyhow::Result<()> {
    let first = stamp.count(0);
    let second = stamp.count(1);
    println!(rt; "  party {party}'s stamp: {first} {second}")?;
    Ok(())
}

// Two readings of one stake arrive in either order, and the stake shows the same in the end.
fn play_both_ways(rt: &impl Print, one: Reading, other: Reading) -> anyhow::Result<()> {
    let there = one.after(other);
    println!(rt; "one way round stake {STAKE} shows {there}")?;
    let back = other.after(one);
    println!(rt; "the other way round it shows {back}")?;
    Ok(())
}

fn run(rt: &impl Print) -> anyhow::Result<()> {
    let mut upper = Stamp::zero();
    let mut lower = Stamp::zero();
    let first = read_stake(rt, &mut upper, 0, -1840)?;
    let second = read_stake(rt, &mut lower, 1, -1835)?;
    play_both_ways(rt, first, second)?;
    upper.merge(&lower);
    println!(rt; "party 0 learns of party 1's write")?;
    tell_stamp(rt, 0, &upper)?;
    let third = read_stake(rt, &mut upper, 0, -1838)?;
    play_both_ways(rt, second, third)?;
    play_pool(rt, first, second, third)?;
    play_boxes(rt, second, third)?;
    play_nodes(rt)
}

// Sets three boxes, a terminal and a pool up, and plays a write and a read.
fn play_nodes(rt: &impl Print) -> anyhow::Result<()> {
    let blank = Message {
        sender: 0,
        receiver: 0,
        client: 0,
        operation: 0,
        body: Body::Ack {
            stamp: Stamp::zero(),
        },
    };
    let mut places = [blank; 24];
    let mut valley = Valley {
        huts: Huts::new().context("three boxes are in range")?,
        pool: Tray::new(&mut places),
    };
    let mut terminal = Terminal::new(1, 2, 0).context("party 0 of two is in range")?;
    valley.play(rt, &mut terminal)
}

fn main(rt: HostRuntime) -> anyhow::Result<()> {
    run(&rt)
}
