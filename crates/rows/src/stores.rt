// The line of a text that is stored as a row: the row's length and its bytes in hexadecimal, or the refusal.
ghost use Rattle.std.specs.Prelude.{◌≤◌, length};

use crate::{lent, line};
use std::io;
use std::io::Write;

// At most 256 bytes, two digits each, with small letters.
fn print_piece<W: Write>(out: &mut W, piece: &[u8]) -> io::Result<()>
    requires { length piece.now ≤ 256 }
{
    let mut room = [0u8; 512];
    let digits = &mut room[..2 * piece.len()];
    hex::encode_to_slice(piece, digits).unwrap();
    out.write_all(digits)
}

fn print_bytes<W: Write>(out: &mut W, bytes: &[u8]) -> io::Result<()> {
    for piece in bytes.chunks(256) {
        print_piece(out, piece)?;
    }
    Ok(())
}

pub fn answer<W: Write>(out: &mut W, text: &[u8], m: usize, room: &mut [u8]) -> io::Result<()> {
    lent::blank(room);
    match reader::read(text, m, room) {
        Ok(n) => {
            write!(out, "{n} ")?;
            print_bytes(out, &room[..n])?;
            lent::print_end(out, &room[n..])
        }
        Err(refusal) => {
            line::print_refused(out, refusal)?;
            lent::print_end(out, room)
        }
    }
}
