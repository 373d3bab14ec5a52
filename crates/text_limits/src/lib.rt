// What 51, 52 and 5 refuse of a text that is known to be of the form, by passes over its bytes with no stack. The digits of a number are read once, up
// to the one that passes the bound, so the time is linear in the text's length for any text.

#![tactic(auto)]

ghost use Rattle.std.specs.Prelude.{◌≡◌, ◌&&◌, ◌+◌, ◌<◌, ltb, length, get_or, drop};
ghost use Rattle.text_form.specs.Digits.{digit};
ghost use Rattle.text_limits.specs.Limits.{Finds, Counts};
ghost use Rattle.text_limits.specs.Marks.{value, behind, signed, bound, large};

// Which numbers of a text are asked for.
#[derive(Clone, Copy)]
pub enum Numbers {
    Locations,
    Integers,
}

impl Numbers {
    // Whether b is the first digit of such a number, behind the byte p: in a text of the form an l is before a location's number, and a space or a
    // bracket before an integer with no minus.
    fn begin_with(self, b: u8, p: u8) -> bool
        ensures { result ≡ digit b && behind self p }
    {
        b.is_ascii_digit()
            && match self {
                Numbers::Locations => p == b'l',
                Numbers::Integers => p == b' ' || p == b'(',
            }
    }

    // Whether such a number may begin with a minus.
    fn signed(self) -> bool
        ensures { result ≡ signed self }
    {
        matches!(self, Numbers::Integers)
    }

    // The largest that a routine can hold.
    fn bound(self) -> u32
        ensures { result ≡ bound self }
    {
        match self {
            Numbers::Locations => 255,
            Numbers::Integers => 2147483647,
        }
    }
}

// Whether the digits in front note more than the bound. The value is held up to the bound alone.
fn over(t: &[u8], bound: u32) -> bool
    ensures { result ≡ ltb bound (value t.now) }
{
    let mut v: u64 = 0;
    for b in t {
        if !b.is_ascii_digit() {
            return false;
        }
        v = 10 * v + u64::from(*b - b'0');
        if u64::from(bound) < v {
            return true;
        }
    }
    false
}

// Whether a number that is too large begins at i, behind the byte p. It is read at its first byte alone.
fn large_at(t: &[u8], i: usize, p: u8, numbers: Numbers) -> bool
    requires { i < length t.now }
    ensures { result ≡ large numbers p (get_or t.now i 0) (drop (i + 1) t.now) }
{
    let b = t[i];
    if b == b'-' {
        numbers.signed() && over(&t[i + 1..], 2147483648)
    } else {
        numbers.begin_with(b, p) && over(&t[i..], numbers.bound())
    }
}

// The first location over 255 of a text of the form, or the first integer that is out of range. The text begins as if behind a space.
pub fn first_large(t: &[u8], numbers: Numbers) -> Option<usize>
    ensures { Finds t.now numbers result }
{
    let mut p = b' ';
    for (i, b) in t.iter().enumerate() {
        if large_at(t, i, p, numbers) {
            return Some(i);
        }
        p = *b;
    }
    None
}

// The nodes of a text of the form: one more than there are children. The bracket of a form counts a child, and so does the sign of a sum, a
// comparison or a sequence. Of the three of an if two are counted by its `then`, at the h and the n. A while has an h and an n too, in `while` and in
// `done`, and its w takes one back. No other word has one of these bytes, and no number.
pub fn nodes_of(t: &[u8]) -> usize
    ensures { Counts t.now result }
{
    let mut children = 0;
    let mut loops = 0;
    for b in t {
        children += usize::from(matches!(*b, b'(' | b'+' | b'>' | b';' | b'h' | b'n'));
        loops += usize::from(*b == b'w');
    }
    (1 + children).saturating_sub(loops)
}
