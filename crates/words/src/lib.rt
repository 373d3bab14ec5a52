// The words that a program was given, as bytes: they need not be text.

#![tactic(auto)]

ghost use Rattle.std.specs.Prelude.{IfSome, ◌≤◌, length};

use std::env::{Env, FillError};

// Word i, put at the start of the room; none where it is missing, or longer than the room.
pub fn at<'a, E: Env>(rt: &E, i: usize, room: &'a mut [u8]) -> Option<&'a [u8]>
    ensures { IfSome result (λ word. length word.now ≤ length room.old) }
{
    let n = rt.arg(i, room).ok()?;
    Some(&room[..n])
}

// Whether there is a word i, of any length. Word 0 is the program's name.
fn has<E: Env>(rt: &E, i: usize) -> bool {
    !matches!(rt.arg(i, &mut []), Err(FillError::NotPresent))
}

// How many words there are, the program's name among them.
pub fn count<E: Env>(rt: &E) -> usize {
    (0..usize::MAX).take_while(|i| has(rt, *i)).count()
}
