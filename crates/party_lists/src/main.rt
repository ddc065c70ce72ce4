// Prints for each file that it is started with the name, and then what `partycall` prints for it.
#![tactic(auto)]

use std::fs::Files;
use std::{env, fs, io};

// The list that an argument names, or why it cannot be read.
fn print_list(rt: &(impl Files + Print + Eprint), name: &str) -> io::Result<()> {
    println!(rt; "{name}")?;
    match fs::open(rt, name) {
        Ok(mut list) => party::run(&mut list, &mut io::writer(rt)),
        Err(why) => eprintln!(rt; "{name}: {why}"),
    }
}

fn main(rt: HostRuntime) -> io::Result<()> {
    for name in env::args(&rt)?.skip(1) {
        print_list(&rt, name.as_str())?;
    }
    Ok(())
}
