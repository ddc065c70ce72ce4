// Shows what `store` does with the part of a file: document 01's file of the house call list, RC and HH, whose slots have four bytes, and whose
// highest ISN is 3. The part has two bytes more than the file. Each line has the part after a call, or what a call answers. The gate holds what
// is printed to the file stdout.
#![tactic(auto)]

use definition::File;
use show::{Hex, YesOrNo};
use std::io;

fn house() -> File {
    let r = reading::read(b"\x01\x01\x00\x03\x02RC\x01AU\x02HH\x02A \x00");
    r.definition.files[0]
}

fn fresh(rt: &impl Print, part: &mut [u8]) -> io::Result<()> {
    store::fresh(house(), part);
    println!(rt; "fresh: {}", Hex(part))
}

fn put(rt: &impl Print, part: &mut [u8], isn: u16, content: &[u8]) -> io::Result<()> {
    store::put_record(house(), part, isn, content);
    println!(rt; "put {isn}: {}", Hex(part))
}

fn empty(rt: &impl Print, part: &mut [u8], isn: u16) -> io::Result<()> {
    store::empty(house(), part, isn);
    println!(rt; "empty {isn}: {}", Hex(part))
}

fn has(rt: &impl Print, part: &[u8], isn: u16) -> io::Result<()> {
    println!(rt;
        "has {isn}: {}",
        YesOrNo(store::has_record(house(), part, isn))
    )
}

// Option `I`: the lowest ISN at or above one that has a record, or response 3.
fn lowest(rt: &impl Print, part: &[u8], from: u16) -> io::Result<()> {
    match search::lowest(house(), part, from) {
        Some(isn) => println!(rt; "lowest {from}: {isn}"),
        None => println!(rt; "lowest {from}: response 3"),
    }
}

// Whether a record at an ISN other than the given one has the value in the field at a place: 0 for RC, 1 for HH.
fn elsewhere(rt: &impl Print, part: &[u8], place: usize, isn: u16, value: &str) -> io::Result<()> {
    let found = search::elsewhere(house(), part, place, isn, value.as_bytes());
    println!(rt; "{value} elsewhere than {isn}: {}", YesOrNo(found))
}

// Two records. A record that is too short, and one past the highest ISN, are not put.
fn fill(rt: &impl Print, part: &mut [u8]) -> io::Result<()> {
    fresh(rt, part)?;
    put(rt, part, 1, b"2AB")?;
    put(rt, part, 3, b"3CD")?;
    put(rt, part, 2, b"4E")?;
    put(rt, part, 4, b"4EF")
}

fn look(rt: &impl Print, part: &[u8]) -> io::Result<()> {
    has(rt, part, 0)?;
    has(rt, part, 1)?;
    has(rt, part, 2)?;
    has(rt, part, 4)?;
    lowest(rt, part, 0)?;
    lowest(rt, part, 2)?;
    lowest(rt, part, 4)?;
    elsewhere(rt, part, 0, 2, "2")?;
    elsewhere(rt, part, 0, 1, "2")?;
    elsewhere(rt, part, 1, 1, "CD")?;
    elsewhere(rt, part, 1, 1, "EF")
}

// "Emptying sets an ISN's first byte to 0 and keeps the rest." An emptied record has no value any more.
fn main(rt: HostRuntime) -> io::Result<()> {
    let mut part = [0xEEu8; 14];
    fill(&rt, &mut part)?;
    look(&rt, &part)?;
    empty(&rt, &mut part, 1)?;
    has(&rt, &part, 1)?;
    lowest(&rt, &part, 0)?;
    elsewhere(&rt, &part, 0, 2, "2")?;
    empty(&rt, &mut part, 4)
}
