// The program on an input that shows how blocks end: decoded, failed, refused for a NaN, and cut short. Its output is the reference decoder's.
// A crate of its own with these lines of `decode`, since a program has one input and one output to be run with.
#![tactic(auto)]

use std::io;

fn main(rt: HostRuntime) -> io::Result<()> {
    let mut from = rt.stdin();
    program::run(&mut from, &rt)
}
