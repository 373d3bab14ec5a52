// The text of a stored routine, well typed or not, into a lent buffer: refusals 1 to 9 and 32, else its length.

#![tactic(auto)]

ghost use Rattle.std.specs.Prelude.{◌≡◌, ◌≤◌, length};
ghost use Rattle.l1.specs.Text.{text};
ghost use Rattle.text_form.specs.Showing.{Shows};
ghost use Rattle.routine.specs.Open.{root_of};
ghost use Rattle.writer.specs.Says.{shown_of};
ghost use Rattle.writer.specs.Own.{own_length};

use node_text::Page;
use routine::{Form, Refusal, Routine};

// Writes the text, which has room, and tells its length.
fn put(row: &Routine<'_>, buf: &mut [u8]) -> usize
    requires { length (text (root_of row.now)) ≤ length buf.old }
    ensures { Shows row.now buf.old (shown_of (Ok result)) buf.new }
{
    let mut page = Page { room: buf, at: 0 };
    node_text::put_tree(row, row.root(), &mut page);
    page.at
}

// What a node's own form adds to the text: all but the texts of its children.
fn own_length(f: Form, arg: u8, number: i32) -> usize
    ensures { (result ≡ own_length f arg number) × (result ≤ 27) }
{
    match f {
        Form::Integer => node_text::number_width(number),
        Form::Boolean => node_text::truth_width(arg == 1),
        Form::Plus => 5,
        Form::Geq => 6,
        Form::If => 17,
        Form::Assign => 7 + node_text::width(u64::from(arg)),
        Form::Deref => 2 + node_text::width(u64::from(arg)),
        Form::Skip => 4,
        Form::Seq => 5,
        Form::While => 17,
        Form::Unknown => 0,
    }
}

// The length of the text: what each node adds, in one pass over them.
fn text_length(row: &Routine<'_>) -> usize
    ensures { result ≡ length (text (root_of row.now)) }
{
    let mut length = 0;
    for i in 0..row.nodes() {
        let d = row.node(i);
        length += own_length(d.form, d.arg, d.number);
    }
    length
}

// No text has more bytes than these for each node.
const MOST_OF_A_NODE: usize = 14;

// The text of a routine that was opened. Where the buffer has room for the longest text of so many nodes, nothing is measured.
fn write_open(row: &Routine<'_>, buf: &mut [u8]) -> Result<usize, Refusal>
    ensures { Shows row.now buf.old (shown_of result) buf.new }
{
    if row.nodes() <= buf.len() / MOST_OF_A_NODE {
        return Ok(put(row, buf));
    }
    let n = text_length(row);
    if buf.len() < n {
        return Err(Refusal::Buffer(n as u64));
    }
    Ok(put(row, buf))
}

// The text of the routine that the bytes hold. A refusal changes no byte of the buffer.
pub fn write(b: &[u8], buf: &mut [u8]) -> Result<usize, Refusal>
    ensures { Shows b.now buf.old (shown_of result) buf.new }
{
    let row = opener::open(b)?;
    write_open(&row, buf)
}
