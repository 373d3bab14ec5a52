// The text, for C and Rust to call. It has a crate and so an archive of its own: in the archive of the run the machine's loop is then called from one place,
// and the compiler puts the step into it. With the loops of both in one archive it did not, which made the run four times slower (on Arm).

#![tactic(auto)]

ghost use Rattle.exports.specs.Says.{SaysText};

use exports::{ACCEPTED, Answer};

// The words of out: the length of the text, and T.
pub fn rigvanesh_text(b: &[u8], s: &[i32], k: u32, buf: &mut [u8], out: &mut [u64; 2]) -> Answer
    ensures { SaysText b.now s.now k buf.old out.old result out.new buf.new }
{
    match text_after::text(b, s, k, buf) {
        Err(r) => exports::refused(r),
        Ok(written) => {
            *out = [written.length as u64, written.steps];
            ACCEPTED
        }
    }
}
