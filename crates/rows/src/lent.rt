// A lent buffer, blank before a call: what the call changed that it should not have.
use std::io;
use std::io::Write;

// What each byte of a buffer is before a call.
const UNTOUCHED: u8 = 35;

pub fn blank(buf: &mut [u8]) {
    buf.fill(UNTOUCHED);
}

// Prints the end of a call's line, and whether a byte of those that the call should not change is no longer what it was.
pub fn print_end<W: Write>(out: &mut W, rest: &[u8]) -> io::Result<()> {
    if rest.iter().all(|b| *b == UNTOUCHED) {
        writeln!(out)
    } else {
        writeln!(out, " changed")
    }
}
