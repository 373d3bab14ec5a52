// `show`: reads a stored routine on standard input, well typed or not, and prints its text and a line end. A refusal is one line on standard error.
//
// It reads one byte more than bytes 0-1 can tell, so that each input is answered as the library answers it whole. What it prints is `writer`'s and `refused_line`'s.
// A text has at most 14 bytes for each of 4,096 nodes, so each has room in the buffer.

#![tactic(auto)]

use node_text::Page;
use std::io;
use std::io::Write;

// The text and a line end, or the line of a refusal.
fn print<O: Write, E: Write>(
    out: &mut O,
    err: &mut E,
    row: &[u8],
    buf: &mut [u8],
) -> io::Result<()> {
    match writer::write(row, buf) {
        Ok(n) => {
            out.write_all(&buf[..n])?;
            out.write_all(b"\n")
        }
        Err(refusal) => {
            let mut page = Page {
                room: &mut [0; 64],
                at: 0,
            };
            refused_line::put_refusal(refusal, &mut page);
            let end = page.at;
            err.write_all(&page.room[..end])
        }
    }
}

fn show(rt: HostRuntime) -> io::Result<()> {
    if 1 < words::count(&rt) {
        return eprintln!(rt; "usage: show < row");
    }
    let mut room = [0u8; 65538];
    let Ok(n) = input::fill(&mut rt.stdin(), &mut room) else {
        return eprintln!(rt; "show: the input could not be read");
    };
    let mut buf = [0u8; 57344];
    print(&mut rt.stdout(), &mut rt.stderr(), &room[..n], &mut buf)
}

fn main(rt: HostRuntime) {
    // a write that fails ends the program, and there is nobody left to tell
    let _ = show(rt);
}
