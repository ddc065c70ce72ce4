// Shows how hold queue, images and store go together, on document 01's file of the house call list: RC and HH, image length 3, highest ISN 3.
// User 2 holds ISN 3; user 1 holds ISN 1, where a record is, and ISN 2, where none is, changes both, and is backed out. The gate holds what is
// printed to the file stdout.
#![tactic(auto)]

use definition::Definition;
use entries::Entry;
use removal::Removal;
use show::{Hex, YesOrNo};
use std::io;

fn house() -> Definition {
    let r = reading::read(b"\x01\x01\x00\x03\x02RC\x01AU\x02HH\x02A \x00");
    r.definition
}

fn print_entry(rt: &impl Print, word: u64) -> io::Result<()> {
    let e = entries::unpack(word);
    let changed = if e.changed { " changed" } else { "" };
    let existed = if e.existed { " existed" } else { "" };
    println!(rt; "entry of user {}: {}{changed}{existed}", e.user, e.isn)
}

fn print_entries(rt: &impl Print, queue: &[u64], count: usize) -> io::Result<()> {
    for word in queue.iter().take(count) {
        print_entry(rt, *word)?;
    }
    Ok(())
}

// HI: an entry more, not changed yet.
fn hold(queue: &mut [u64], count: usize, user: u8, isn: u16) {
    let e = Entry {
        user,
        file: 1,
        isn,
        changed: false,
        existed: false,
    };
    queue::append(queue, count, e);
}

fn print_holder(rt: &impl Print, queue: &[u64], count: usize, isn: u16) -> io::Result<()> {
    print!(rt; "among {count}: holder of {isn}: ")?;
    match queue::holder(queue, count, 1, isn) {
        Some((_, e)) => println!(rt; "{}", e.user),
        None => println!(rt; "nobody"),
    }
}

fn print_held_by(rt: &impl Print, queue: &[u64], user: u8) -> io::Result<()> {
    println!(rt; "held by {user}: {}", queue::held_by(queue, 3, user))
}

fn print_repeated(rt: &impl Print, queue: &[u64], count: usize) -> io::Result<()> {
    println!(rt;
        "among {count}: repeated: {}",
        YesOrNo(repeats::repeated(queue, count))
    )
}

// Three entries, oldest first. The fourth word is not in use: its ISN is held already, and 12 is given where it is counted.
fn fill(queue: &mut [u64]) {
    hold(queue, 0, 2, 3);
    hold(queue, 1, 1, 1);
    hold(queue, 2, 1, 2);
    hold(queue, 3, 2, 1);
}

fn look(rt: &impl Print, queue: &[u64]) -> io::Result<()> {
    print_entries(rt, queue, 3)?;
    print_holder(rt, queue, 3, 1)?;
    print_holder(rt, queue, 3, 2)?;
    print_holder(rt, queue, 2, 2)?;
    print_held_by(rt, queue, 1)?;
    print_held_by(rt, queue, 2)?;
    print_held_by(rt, queue, 3)?;
    print_repeated(rt, queue, 3)?;
    print_repeated(rt, queue, 4)
}

fn put(rt: &impl Print, store: &mut [u8], isn: u16, content: &[u8]) -> io::Result<()> {
    let d = house();
    store::put_record(d.files[0], store, isn, content);
    println!(rt; "store: {}", Hex(store))
}

fn keep(
    rt: &impl Print,
    queue: &mut [u64],
    images: &mut [u8],
    at: usize,
    existed: bool,
    content: &[u8],
) -> io::Result<()> {
    changes::first_change(queue, images, 3, at, existed, content);
    println!(rt; "images: {}", Hex(images))
}

// "Only the first change of an entry keeps an image": the second one of ISN 1 does not renew it. ISN 2 had no record.
fn change(
    rt: &impl Print,
    store: &mut [u8],
    queue: &mut [u64],
    images: &mut [u8],
) -> io::Result<()> {
    keep(rt, queue, images, 1, true, b"2AB")?;
    put(rt, store, 1, b"3AB")?;
    keep(rt, queue, images, 1, true, b"3AB")?;
    put(rt, store, 1, b"4AB")?;
    keep(rt, queue, images, 2, false, b"")?;
    put(rt, store, 2, b"5CD")
}

// RI of ISN 0 by user 2: the images move with their entries.
fn release(rt: &impl Print, queue: &mut [u64], images: &mut [u8]) -> io::Result<()> {
    let left = removal::remove(queue, images, 3, 3, Removal::Unchanged { user: 2 });
    println!(rt; "left {left}: {}", Hex(images))?;
    print_entries(rt, queue, left)
}

// BT of user 1: the image of ISN 1 is back, ISN 2 is empty and its bytes are kept.
fn back_out(
    rt: &impl Print,
    store: &mut [u8],
    queue: &mut [u64],
    images: &mut [u8],
) -> io::Result<()> {
    hold::restore(house(), 3, 1, queue, images, 2, store);
    let left = removal::remove(queue, images, 2, 3, Removal::All { user: 1 });
    println!(rt; "left {left}: {}", Hex(store))
}

fn main(rt: HostRuntime) -> io::Result<()> {
    let mut store = [0u8; 12];
    let mut queue = [0u64; 4];
    let mut images = [0u8; 12];
    put(&rt, &mut store, 1, b"2AB")?;
    fill(&mut queue);
    look(&rt, &queue)?;
    change(&rt, &mut store, &mut queue, &mut images)?;
    print_entries(&rt, &queue, 3)?;
    release(&rt, &mut queue, &mut images)?;
    back_out(&rt, &mut store, &mut queue, &mut images)
}
