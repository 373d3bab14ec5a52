// `store`: reads a text on standard input and writes the stored routine with M locations; with a fuel and M values also those, as `trace` reads them. A
// refusal is one line on standard error.
//
//     store M [FUEL V0 V1 ..] < text > row
//
// What a later row is to be told beside M, as its version or the types of its locations, has its place before M: options, words that begin with `--`, as no
// number does. There is none yet, so each such word is wrong.

#![tactic(auto)]

ghost use Rattle.std.specs.Prelude.{◌≡◌, ◌≤◌, ◌<◌, length, IfSome};

use node_text::Page;
use std::env::Env;
use std::io;
use std::io::Write;

// A text that is taken has at most so many bytes.
const LONGEST: usize = 1048576;

// What the words ask: m, and the fuel and the values in bytes, which are to stand behind the row.
#[derive(Drop)]
struct Asked<'a> {
    m: usize,
    tail: &'a [u8],
}

// Word i as a number from 0 to `top`, and below as an integer: two questions to `arguments`. No number has more bytes than there is room for.
fn natural_at<E: Env>(rt: &E, i: usize, top: u32) -> Option<u32>
    ensures { IfSome result (λ n. n ≤ top) }
{
    arguments::natural_in(words::at(rt, i, &mut [0; 16])?, top)
}

fn integer_at<E: Env>(rt: &E, i: usize) -> Option<i32> {
    arguments::integer_in(words::at(rt, i, &mut [0; 16])?)
}

// The fuel and m values, as far as a row can have them: what has more locations is refused by 4, and nothing stands behind it.
fn put_tail<E: Env>(rt: &E, m: usize, tail: &mut Page<'_>) -> Option<()>
    requires { (m ≤ 4294967295) × (tail.old.at ≡ 0) × (length tail.old.room.now ≡ 1024) }
    ensures { (tail.new.at ≤ length tail.new.room.now) × (length tail.new.room.now ≡ 1024) }
{
    store_input::put_four(natural_at(rt, 2, u32::MAX)?, tail);
    for i in 0..m {
        let value = integer_at(rt, 3 + i)?;
        if i < 255 {
            store_input::put_four(value.cast_unsigned(), tail);
        }
    }
    Some(())
}

// Nothing where a word is wrong.
fn ask<'a, E: Env>(rt: &E, room: &'a mut [u8]) -> Option<Asked<'a>>
    requires { length room.old ≡ 1024 }
    ensures { IfSome result (λ asked. length asked.tail.now ≤ 1024) }
{
    let m = natural_at(rt, 1, u32::MAX)? as usize;
    let words = words::count(rt);
    let mut tail = Page { room, at: 0 };
    if words != 2 {
        if words != 3 + m {
            return None;
        }
        put_tail(rt, m, &mut tail)?;
    }
    let Page { room, at } = tail;
    Some(Asked {
        m,
        tail: &room[..at],
    })
}

// The row and the tail, or the line of a refusal.
fn print<O: Write, E: Write>(
    out: &mut O,
    err: &mut E,
    text: &[u8],
    asked: &Asked<'_>,
) -> io::Result<()> {
    let mut row = [0u8; 32774];
    match reader::read(text, asked.m, &mut row) {
        Ok(n) => {
            out.write_all(&row[..n])?;
            out.write_all(asked.tail)
        }
        Err(refusal) => {
            let mut page = Page {
                room: &mut [0; 64],
                at: 0,
            };
            refused_line::put_refusal(refusal, &mut page);
            let end = page.at;
            err.write_all(&page.room[..end])
        }
    }
}

// Room for the longest text that is taken, a line end behind it, and one byte by which a longer one is known.
fn text_room() -> [u8; 1048578]
    ensures { 1048578 ≡ length result }
{
    [0; 1048578]
}

// Reads the text, and answers it. A function of its own, in which the room comes first: where something else does, the compiler clears it twice.
fn store_text(rt: HostRuntime, asked: &Asked<'_>) -> io::Result<()> {
    let mut room = text_room();
    let Ok(n) = input::fill(&mut rt.stdin(), &mut room) else {
        return eprintln!(rt; "store: the input could not be read");
    };
    let text = store_input::text_of(&room[..n]);
    if LONGEST < text.len() {
        return eprintln!(rt; "store: the text has over {LONGEST} bytes");
    }
    print(&mut rt.stdout(), &mut rt.stderr(), text, asked)
}

fn store(rt: HostRuntime) -> io::Result<()> {
    let mut tail = [0u8; 1024];
    let Some(asked) = ask(&rt, &mut tail) else {
        return eprintln!(rt; "usage: store M [FUEL V0 V1 ..] < text > row");
    };
    store_text(rt, &asked)
}

fn main(rt: HostRuntime) {
    // a write that fails ends the program, and there is nobody left to tell
    let _ = store(rt);
}
