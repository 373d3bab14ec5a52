// The parts of a line. Standard output keeps nothing back: a word, a space and a number are three writes.
use routine::Refuses;
use std::fmt::Display;
use std::io;
use std::io::Write;

// A word, and a number after a space.
pub fn print_number<W: Write, N: Display + Copy>(out: &mut W, word: &str, n: N) -> io::Result<()> {
    write!(out, "{word} {n}")
}

// A number after a space, which its sign is written with.
pub fn print_signed<W: Write>(out: &mut W, n: i32) -> io::Result<()> {
    if n < 0 {
        write!(out, " -{}", n.unsigned_abs())
    } else {
        write!(out, " {n}")
    }
}

// `refused C`, with ` at N` for a node or an offset and ` needs N` for a length.
pub fn print_refused<W: Write, R: Refuses>(out: &mut W, refusal: R) -> io::Result<()> {
    let c = refusal.number();
    print_number(out, "refused", c)?;
    match refusal.also() {
        Some(n) if (c == 32) | (c == 53) => print_number(out, " needs", n),
        Some(n) => print_number(out, " at", n),
        None => Ok(()),
    }
}

// The line of a record that is not answered.
pub fn print_fault<W: Write, N: Display + Copy>(out: &mut W, why: &str, n: N) -> io::Result<()> {
    print_number(out, why, n)?;
    writeln!(out)
}
