// The line of a check: the type, W and the two sets, or the refusal.
use crate::line;
use checker::{Told, Ty};
use std::io;
use std::io::Write;

fn name_of(t: Ty) -> &'static str {
    match t {
        Ty::Int => "int",
        Ty::Bool => "bool",
        Ty::Unit => "unit",
    }
}

fn print_told<W: Write>(out: &mut W, told: Told) -> io::Result<()> {
    let Told {
        ty,
        working,
        reads,
        writes,
    } = told;
    writeln!(out, "{} {working} {reads} {writes}", name_of(ty))
}

pub fn answer<W: Write>(out: &mut W, row: &[u8]) -> io::Result<()> {
    match checker::check(row) {
        Ok(told) => print_told(out, told),
        Err(refusal) => {
            line::print_refused(out, refusal)?;
            writeln!(out)
        }
    }
}
