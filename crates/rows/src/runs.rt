// The line of a run: the outcome with T and K, then ` |` and the whole store after the run; or the refusal.
use crate::line;
use machine::Ending;
use runner::End;
use std::io;
use std::io::Write;

fn print_ending<W: Write>(out: &mut W, ending: Ending) -> io::Result<()> {
    match ending {
        Ending::Int(n) => {
            write!(out, "value")?;
            line::print_signed(out, n)
        }
        Ending::Bool(true) => write!(out, "value true"),
        Ending::Bool(false) => write!(out, "value false"),
        Ending::Skip => write!(out, "value skip"),
        Ending::Overflow(i) => line::print_number(out, "overflow at", i),
        Ending::Fuel => write!(out, "fuel"),
    }
}

fn print_end<W: Write>(out: &mut W, end: End, s: &[i32]) -> io::Result<()> {
    let End {
        ending,
        steps,
        loops,
    } = end;
    print_ending(out, ending)?;
    line::print_number(out, " steps", steps)?;
    line::print_number(out, " loops", loops)?;
    write!(out, " |")?;
    for n in s {
        line::print_signed(out, *n)?;
    }
    Ok(())
}

pub fn answer<W: Write>(out: &mut W, row: &[u8], s: &mut [i32], fuel: u32) -> io::Result<()> {
    match runner::run(row, s, fuel) {
        Ok(end) => print_end(out, end, s)?,
        Err(refusal) => line::print_refused(out, refusal)?,
    }
    writeln!(out)
}
