// Standard input, for the programs: an input that ends is told apart from one that can't be read.

#![tactic(auto)]

ghost use Rattle.std.specs.Prelude.{IfOk, IfErr};
ghost use Rattle.io.specs.Counts.{IsPrefixLen};

use std::io::Read;

// A read failed, with `count` bytes before it.
#[derive(Drop)]
pub struct Unreadable {
    pub count: usize,
}

// Fills the room, and tells how many bytes were read: fewer than it holds where the input ends.
pub fn fill<R: Read>(from: &mut R, room: &mut [u8]) -> Result<usize, Unreadable>
    ensures filled { IfOk result (λ n. IsPrefixLen n room.new) }
    ensures before { IfErr result (λ e. IsPrefixLen e.count room.new) }
{
    let mut count = 0;
    while count < room.len() {
        match from.read(&mut room[count..]) {
            Ok(0) => break,
            Ok(more) => count += more,
            Err(_) => return Err(Unreadable { count }),
        }
    }
    Ok(count)
}
