// What `trace` prints for an input: the run, a line a moment, or the line of a refusal.
//
// What it prints is proved in the crates below: here is only the writing, in large pieces. A write that fails ends it.

#![tactic(auto)]

ghost use Rattle.std.specs.Prelude.{◌≤◌, length};

use machine::Pending;
use node_text::Page;
use std::io;
use std::io::Write;
use trace_input::Taken;
use trace_lines::Teller;

// Prints the run of an input that is accepted, page after page until the last line is out.
fn print_run<W: Write>(out: &mut W, taken: &Taken<'_>, buf: &mut [u8]) -> io::Result<()>
    requires { 20000 ≤ length buf.old }
{
    let program = taken.program();
    let row = program.row();
    let mut entries = [0i32; 64];
    let s = &mut entries[..usize::from(row.locations())];
    taken.fill(s);
    let mut lengths = [0u32; 4096];
    node_text::measure(row, &mut lengths);
    let teller = Teller {
        program,
        lengths: &lengths,
        fuel: taken.fuel(),
    };
    let mut pending = Pending::new();
    let mut page = Page { room: buf, at: 0 };
    let mut next = teller.first_page(&mut pending, s, &mut page);
    while let Some(machine) = next {
        let end = page.at;
        out.write_all(&page.room[..end])?;
        page.at = 0;
        next = teller.fill_page(&mut pending, machine, s, &mut page);
    }
    let end = page.at;
    out.write_all(&page.room[..end])
}

// Prints what `trace` prints for an input, with the buffer for its lines.
pub fn print<W: Write>(out: &mut W, input: &[u8], buf: &mut [u8]) -> io::Result<()>
    requires { 20000 ≤ length buf.old }
{
    match trace_input::take_in(input) {
        Ok(taken) => print_run(out, &taken, buf),
        Err(r) => {
            let mut page = Page { room: buf, at: 0 };
            refused_line::put_refusal(r, &mut page);
            let end = page.at;
            out.write_all(&page.room[..end])
        }
    }
}
