// The program on the example block set: its input is packed from examples/, its output is the reference decoder's.
// A crate of its own with these lines of `decode`, since a program has one input and one output to be run with.
#![tactic(auto)]

use std::io;

fn main(rt: HostRuntime) -> io::Result<()> {
    let mut from = rt.stdin();
    program::run(&mut from, &rt)
}
