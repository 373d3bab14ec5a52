// The lines of a text after k steps. It is written into three buffers: a large one, and where a text was written, one that is a byte too short for it
// and one that just holds it. A line for each: the refusal, or the length, T and the text; and ` changed` where a byte behind the text (after a
// refusal: any byte) is no longer what it was.
ghost use Rattle.std.specs.Prelude.{◌≤◌, length, IfOk, IfSome};

use crate::{lent, line};
use std::io;
use std::io::Write;
use text_after::Written;

// Makes one call on a blank buffer and prints its line. The length of the text, where one was written.
#[tactic(auto, using(crate::proofs::Buffers::wrote_in))]
fn print_call<W: Write>(
    out: &mut W,
    row: &[u8],
    s: &[i32],
    k: u32,
    buf: &mut [u8],
) -> io::Result<Option<usize>>
    ensures { IfOk result (λ written. IfSome written (λ n. n ≤ length buf.old)) }
{
    lent::blank(buf);
    match text_after::text(row, s, k, buf) {
        Ok(Written { length, steps }) => {
            write!(out, "{length} {steps} ")?;
            out.write_all(&buf[..length])?;
            lent::print_end(out, &buf[length..])?;
            Ok(Some(length))
        }
        Err(refusal) => {
            line::print_refused(out, refusal)?;
            lent::print_end(out, buf)?;
            Ok(None)
        }
    }
}

pub fn answer<W: Write>(
    out: &mut W,
    row: &[u8],
    s: &[i32],
    k: u32,
    buf: &mut [u8],
) -> io::Result<()> {
    if let Some(n) = print_call(out, row, s, k, buf)? {
        // no text is empty
        print_call(out, row, s, k, &mut buf[..n.saturating_sub(1)])?;
        print_call(out, row, s, k, &mut buf[..n])?;
    }
    Ok(())
}
