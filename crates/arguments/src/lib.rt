// The numbers in a program's words, decimal as 01 writes them: no leading zeros, and `-` exactly before a negative one.

#![tactic(auto)]

ghost use Rattle.std.specs.Prelude.{◌≡◌, ◌∷◌, ◌≤◌, length, get_or};
ghost use Rattle.l1.specs.Text.{decimal};
ghost use Rattle.arguments.specs.Says.{ValueSays, NaturalSays, IntegerSays};

use node_text::Page;

// The value of a row of digits, unless it is over `top`.
fn value_of(s: &[u8], top: u32) -> Option<u32>
    ensures { ValueSays s.now top result }
{
    let mut v = 0;
    for c in s {
        v = 10 * v + u64::from(c.saturating_sub(b'0'));
        if u64::from(top) < v {
            return None;
        }
    }
    Some(v as u32)
}

// The number's text, at the start of the room.
fn text_of(n: u32, room: &mut [u8]) -> &[u8]
    requires { 20 ≤ length room.old }
    ensures { result.now ≡ decimal n }
{
    let mut page = Page { room, at: 0 };
    page.decimal(u64::from(n));
    let Page { room, at } = page;
    &room[..at]
}

// The number from 0 to `top` whose text the word is. What is no number has a value too, so its own text is held against the word.
pub fn natural_in(s: &[u8], top: u32) -> Option<u32>
    ensures { NaturalSays s.now top result }
{
    let n = value_of(s, top)?;
    if s == text_of(n, &mut [0; 20]) {
        Some(n)
    } else {
        None
    }
}

// The one whose text is `-` and then the digits.
fn negative_in(digits: &[u8]) -> Option<i32>
    ensures { IntegerSays (45 ∷ digits.now) result }
{
    let n = natural_in(digits, i32::MIN.unsigned_abs())?;
    if n == 0 {
        return None;
    }
    0i32.checked_sub_unsigned(n)
}

// The one whose text is digits alone.
fn positive_in(s: &[u8]) -> Option<i32>
    requires { ¬ (get_or s.now 0 0 ≡ 45) }
    ensures { IntegerSays s.now result }
{
    let n = natural_in(s, i32::MAX.unsigned_abs())?;
    Some(n.cast_signed())
}

// The integer of 32 bits whose text the word is.
pub fn integer_in(s: &[u8]) -> Option<i32>
    ensures { IntegerSays s.now result }
{
    match s {
        [b'-', digits @ ..] => negative_in(digits),
        _ => positive_in(s),
    }
}
