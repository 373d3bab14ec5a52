// The archive of the text, for C and Rust to call: `exported_text` under C's name, in an archive of its own (exported_text says why).

#![tactic(auto)]

ghost use Rattle.exports.specs.Says.{SaysText};

use exports::Answer;

// The words of out: the length of the text, and T.
#[unsafe(no_mangle)]
pub extern "C" fn rigvanesh_text(
    b: &[u8],
    s: &[i32],
    k: u32,
    buf: &mut [u8],
    out: &mut [u64; 2],
) -> Answer
    ensures { SaysText b.now s.now k buf.old out.old result out.new buf.new }
{
    exported_text::rigvanesh_text(b, s, k, buf, out)
}
