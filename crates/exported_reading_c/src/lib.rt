// The archive of reading a text and writing one, for C and Rust to call: `exported_reading` under C's names.

#![tactic(auto)]

ghost use Rattle.exported_reading.specs.Says.{SaysRead, SaysWrite};

use exports::Answer;

// The word of out: the length of the routine.
#[unsafe(no_mangle)]
pub extern "C" fn rigvanesh_read(t: &[u8], m: usize, room: &mut [u8], out: &mut [u64; 1]) -> Answer
    ensures { SaysRead m t.now room.old out.old result out.new room.new }
{
    exported_reading::rigvanesh_read(t, m, room, out)
}

// The word of out: the length of the text.
#[unsafe(no_mangle)]
pub extern "C" fn rigvanesh_write(b: &[u8], buf: &mut [u8], out: &mut [u64; 1]) -> Answer
    ensures { SaysWrite b.now buf.old out.old result out.new buf.new }
{
    exported_reading::rigvanesh_write(b, buf, out)
}
