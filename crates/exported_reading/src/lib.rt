// Reading a text and writing one, for C and Rust to call, in an archive of their own: a program that only runs rows leaves it out.

#![tactic(auto)]

ghost use Rattle.exported_reading.specs.Says.{SaysRead, SaysWrite};

use exports::{ACCEPTED, Answer};

// The word of out: the length of the routine.
pub fn rigvanesh_read(t: &[u8], m: usize, room: &mut [u8], out: &mut [u64; 1]) -> Answer
    ensures { SaysRead m t.now room.old out.old result out.new room.new }
{
    match reader::read(t, m, room) {
        Err(unread) => exports::refused(unread),
        Ok(n) => {
            *out = [n as u64];
            ACCEPTED
        }
    }
}

// The word of out: the length of the text.
pub fn rigvanesh_write(b: &[u8], buf: &mut [u8], out: &mut [u64; 1]) -> Answer
    ensures { SaysWrite b.now buf.old out.old result out.new buf.new }
{
    match writer::write(b, buf) {
        Err(r) => exports::refused(r),
        Ok(n) => {
            *out = [n as u64];
            ACCEPTED
        }
    }
}
