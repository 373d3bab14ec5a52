// The line of a row that is written as its text: the length and the text, or the refusal.
use crate::{lent, line};
use std::io;
use std::io::Write;

pub fn answer<W: Write>(out: &mut W, row: &[u8], buf: &mut [u8]) -> io::Result<()> {
    lent::blank(buf);
    match writer::write(row, buf) {
        Ok(n) => {
            write!(out, "{n} ")?;
            out.write_all(&buf[..n])?;
            lent::print_end(out, &buf[n..])
        }
        Err(refusal) => {
            line::print_refused(out, refusal)?;
            lent::print_end(out, buf)
        }
    }
}
