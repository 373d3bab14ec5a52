// `trace`: reads a routine, its fuel and its values on standard input, and prints the run, a line a moment, or the line of a refusal.
//
// It reads at most the 33,035 bytes that are looked at. What it prints is `trace_output`'s.

#![tactic(auto)]

use std::io;

fn trace(rt: HostRuntime) -> io::Result<()> {
    let mut room = [0u8; 33035];
    let Ok(n) = input::fill(&mut rt.stdin(), &mut room) else {
        return eprintln!(rt; "trace: the input could not be read");
    };
    let mut buf = [0u8; 65536];
    trace_output::print(&mut rt.stdout(), &room[..n], &mut buf)
}

fn main(rt: HostRuntime) {
    // a write that fails ends the program, and there is nobody left to tell
    let _ = trace(rt);
}
