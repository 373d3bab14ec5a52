// The text of a stored routine after k steps, into a lent buffer: refusals 1 to 9, 20 to 23, 30 and 32, else its length with T.

#![tactic(auto)]

ghost use Rattle.std.specs.Prelude.{◌≤◌, length};
ghost use Rattle.stored.specs.Refusals.{locations, count};
ghost use Rattle.stored.specs.Answers.{Writes};
ghost use Rattle.routine.specs.Open.{Runnable};
ghost use Rattle.text_after.specs.Says.{wrote_of};
ghost use Rattle.text_after.specs.Shows.{Shows};

use checker::admission::{Lent, admit};
use machine::Pending;
use moment_text::Moment;
use node_text::Page;
use routine::{Program, Refusal, Routine};

// The length of the text that was written, and T.
#[derive(Drop)]
pub struct Written {
    pub length: usize,
    pub steps: u64,
}

// Runs k steps on the store, and writes the text of the moment if there is room for it.
fn show(row: &Routine<'_>, s: &mut [i32], k: u32, buf: &mut [u8]) -> Result<Written, Refusal>
    requires { Runnable row.now × (locations row.now ≤ length s.old) }
    ensures { Shows row.now s.old k buf.old (wrote_of result) buf.new }
{
    let mut pending = Pending::new();
    let first = machine::start(row);
    let stand = machine::go_on(row, &mut pending, first, s, u64::from(k));
    let m = stand.machine;
    let mut lengths = [0u32; 4096];
    node_text::measure(row, &mut lengths);
    let moment = Moment::of(row, &pending, m.work, &lengths);
    let n = moment.length();
    if buf.len() < n {
        return Err(Refusal::Buffer(n as u64));
    }
    let mut page = Page { room: buf, at: 0 };
    moment.put(&mut page);
    Ok(Written {
        length: page.at,
        steps: m.steps,
    })
}

// The text of a routine that has a type, with a store that has its locations. The lent store is only read: the run is made on its first m entries, copied.
// Not inlined, so that the tables of the admission and that of the lengths are not on the stack at once.
#[inline(never)]
fn text_typed(program: &Program<'_>, s: &[i32], k: u32, buf: &mut [u8]) -> Result<Written, Refusal>
    requires { locations program.now ≤ length s.now }
    ensures { Writes program.now s.now k buf.old (wrote_of result) buf.new }
{
    let row = program.row();
    let m = usize::from(row.locations());
    let mut entries = [0i32; 64];
    let store = &mut entries[..m];
    store.copy_from_slice(&s[..m]);
    show(row, store, k, buf)
}

// The text after k steps. A refusal changes no byte of the buffer.
pub fn text(b: &[u8], s: &[i32], k: u32, buf: &mut [u8]) -> Result<Written, Refusal>
    ensures { Writes b.now s.now k buf.old (wrote_of result) buf.new }
{
    let row = admit(b, Lent::Store(s.len()))?;
    text_typed(&row.program, s, k, buf)
}
