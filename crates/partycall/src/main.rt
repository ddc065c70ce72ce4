// Reads a definition table and calls from standard input, and prints a line for each call (document 01, 'The house call list').
#![tactic(auto)]

use std::io;

fn main(rt: HostRuntime) -> io::Result<()> {
    party::run(&mut rt.stdin(), &mut rt.stdout())
}
