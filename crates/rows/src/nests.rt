// The line of a long text, told by its parts A, B, C and D with a byte 0 between them: A k times, B, C k times and D. It is stored as by `s`.
ghost use Rattle.std.specs.Prelude.{◌≡◌, ◌+◌, ◌*◌, ◌≤◌, length};

use crate::{line, stores};
use std::io;
use std::io::Write;

// So long a text is stored.
const MOST: u64 = 1400000;

// What stands before the first byte 0, or all, and what stands behind it.
fn cut(parts: &[u8]) -> (&[u8], &[u8])
    ensures { length result.0.now + length result.1.now ≤ length parts.now }
{
    match parts.iter().position(|b| *b == 0) {
        Some(i) => (&parts[..i], &parts[i + 1..]),
        None => (parts, &[]),
    }
}

// Puts a part at `at`, as far as there is room; the place behind it.
fn put(part: &[u8], text: &mut [u8], at: usize) -> usize
    requires { at ≤ length text.old }
    ensures { result ≤ length text.old }
{
    let n = part.len().min(text.len() - at);
    text[at..at + n].copy_from_slice(&part[..n]);
    at + n
}

fn put_times(part: &[u8], k: u32, text: &mut [u8], at: usize) -> usize
    requires { at ≤ length text.old }
    ensures { result ≤ length text.old }
{
    // a part with no bytes is put no times: k can be four thousand millions
    if part.is_empty() {
        return at;
    }
    let mut end = at;
    for _ in 0..k {
        end = put(part, text, end);
    }
    end
}

// The length of a half of the text: A k times and B, or C k times and D.
fn half_length(part: &[u8], k: u32, rest: &[u8]) -> u64
    requires { length part.now + length rest.now ≤ 65535 }
    ensures is { result ≡ length part.now * k + length rest.now }
    ensures bound { result ≤ 281470681743360 }
{
    part.len() as u64 * u64::from(k) + rest.len() as u64
}

// Room for the longest text. A function of its own, so that the proof of `answer` sees its length alone and not so many zeros.
fn blank_text() -> [u8; 1400000]
    ensures { length result ≡ 1400000 }
{
    [0; 1400000]
}

pub fn answer<W: Write>(
    out: &mut W,
    parts: &[u8],
    k: u32,
    m: usize,
    room: &mut [u8],
) -> io::Result<()>
    requires { length parts.now ≤ 65535 }
{
    let (a, rest) = cut(parts);
    let (b, rest) = cut(rest);
    let (c, d) = cut(rest);
    let all = half_length(a, k, b) + half_length(c, k, d);
    if MOST < all {
        return line::print_fault(out, "too long", all);
    }
    let mut text = blank_text();
    let end = put_times(a, k, &mut text, 0);
    let end = put(b, &mut text, end);
    let end = put_times(c, k, &mut text, end);
    let end = put(d, &mut text, end);
    stores::answer(out, &text[..end], m, room)
}
