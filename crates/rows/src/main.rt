// `rows`: answers each record of a rows file on standard input. docs/ROWS.md has the form of a record and every line that it is answered with.
//
// Here is only the reading of records and the printing of lines: each question is answered by its crate. A write or a read that fails ends the program.

#![tactic(auto)]

ghost use Rattle.std.specs.Prelude.{◌≤◌, length};

use record::{Head, Stop};
use std::io;
use std::io::{Read, Write};

mod checks;
mod lent;
mod line;
mod nests;
mod record;
mod runs;
mod stores;
mod texts;
mod writes;

// Answers a record's question. The input is what `trace` would read: the row, the fuel and the values.
fn answer<W: Write>(
    out: &mut W,
    head: &Head,
    input: &[u8],
    store: &mut [i32],
    buf: &mut [u8],
) -> io::Result<()>
    requires { (head.now.bytes ≤ length input.now) × (65536 ≤ length buf.old) }
{
    let row = &input[..usize::from(head.bytes)];
    let m = usize::from(head.entries);
    // the letters of docs/ROWS.md are met here alone
    match head.question {
        b'c' => checks::answer(out, row),
        b'r' => runs::answer(out, row, store, head.fuel),
        b'x' => texts::answer(out, row, store, head.fuel, buf),
        b't' => trace_output::print(out, input, buf),
        b's' => stores::answer(out, row, m, &mut buf[..head.lent()]),
        b'n' => nests::answer(out, row, head.fuel, m, buf),
        b'w' => writes::answer(out, row, &mut buf[..head.lent()]),
        letter => line::print_fault(out, "unknown question", letter),
    }
}

// Reads one record into the room and answers it.
fn one_record<R: Read, W: Write>(
    from: &mut R,
    out: &mut W,
    room: &mut [u8; 70000],
    store: &mut [i32; 1000],
    buf: &mut [u8; 65536],
) -> Result<(), Stop> {
    let head = record::take_head(from)?;
    let bytes = usize::from(head.bytes);
    let entries = usize::from(head.entries);
    if record::MOST_ENTRIES < head.entries {
        record::pass_over(from, room, 4 * entries + bytes)?;
        line::print_fault(out, "too many entries", entries)?;
        return Ok(());
    }
    let values = bytes + 4;
    let end = values + 4 * entries;
    let input = &mut room[..end];
    input[bytes..values].copy_from_slice(&head.fuel.to_be_bytes());
    record::take(from, &mut input[values..])?;
    record::take(from, &mut input[..bytes])?;
    let store = &mut store[..entries];
    routine::values_at(input, values, store);
    answer(out, &head, input, store, buf)?;
    Ok(())
}

fn all_records<R: Read, W: Write>(from: &mut R, out: &mut W) -> Result<(), Stop> {
    let mut room = [0u8; 70000];
    let mut store = [0i32; 1000];
    let mut buf = [0u8; 65536];
    // no input has as many records as this
    for _ in 0..u64::MAX {
        one_record(from, out, &mut room, &mut store, &mut buf)?;
    }
    Ok(())
}

fn rows(rt: HostRuntime) -> io::Result<()> {
    match all_records(&mut rt.stdin(), &mut rt.stdout()) {
        Err(Stop::Cut) => println!(rt; "cut record"),
        Err(Stop::Unreadable) => eprintln!(rt; "rows: the input could not be read"),
        _ => Ok(()),
    }
}

fn main(rt: HostRuntime) {
    // a write that fails ends the program, and there is nobody left to tell
    let _ = rows(rt);
}
