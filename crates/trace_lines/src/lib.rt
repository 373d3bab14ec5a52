// The lines that `trace` prints of a run, one after the other, onto a lent page. It goes on from the last moment, and never starts again.

#![tactic(auto)]

ghost use Rattle.std.specs.Prelude.{◌≡◌, List, [], ◌++◌, ℕ, ◌+◌, ◌*◌, ◌≤◌, ◌<◌, length};
ghost use Rattle.l1.specs.Store.{Store};
ghost use Rattle.l1.specs.Text.{bytes, decimal};
ghost use Rattle.stored.specs.Refusals.{locations};
ghost use Rattle.stored.specs.Trace.{newline, shortened, values_text, moment_line, counts_text, last_line};
ghost use Rattle.machine.specs.State.{Seen, outcome_of};
ghost use Rattle.machine.specs.Moment.{meaning};
ghost use Rattle.node_text.specs.Pages.{Puts};
ghost use Rattle.moment_text.specs.Stand.{Stands, Measured};
ghost use Rattle.trace_lines.specs.Lines.{name_of, outcome_text, LinesAt};
ghost use Rattle.trace_lines.specs.Says.{Tells, Advanced};

use machine::{Ending, Machine, Pending, Rule};
use moment_text::Moment;
use node_text::Page;
use routine::{Program, Routine};

// Room for any line: a text of 8,192 bytes, 64 values, and what stands around them.
const LINE: usize = 10000;

// "A text over 8,192 bytes is printed as `#` with its length directly after."
const SHOWN: usize = 8192;

// Each value after one space; none takes more than 22 bytes with it.
fn put_values(s: &[i32], page: &mut Page<'_>)
    requires { page.old.at + 22 * length s.now ≤ length page.old.room.now }
    ensures { Puts page.old (values_text s.now) page.new × (page.new.at ≤ page.old.at + 22 * length s.now) }
{
    for n in s {
        page.byte(b' ');
        page.number(*n);
    }
}

fn put_rule(rule: Option<Rule>, page: &mut Page<'_>)
    requires { page.old.at + 8 ≤ length page.old.room.now }
    ensures { Puts page.old (name_of rule) page.new × (page.new.at ≤ page.old.at + 8) }
{
    match rule {
        None => page.text(b"start"),
        Some(Rule::Plus) => page.text(b"plus"),
        Some(Rule::Geq) => page.text(b"geq"),
        Some(Rule::Deref) => page.text(b"deref"),
        Some(Rule::Assign) => page.text(b"assign"),
        Some(Rule::Seq) => page.text(b"seq"),
        Some(Rule::IfTrue) => page.text(b"if-true"),
        Some(Rule::IfFalse) => page.text(b"if-false"),
        Some(Rule::While) => page.text(b"while"),
    }
}

// What stands before the text of a line.
#[tactic(auto, using(node_text::proofs::NumberLengths::few_digits))]
fn put_head(steps: u64, rule: Option<Rule>, page: &mut Page<'_>)
    requires { page.old.at + 30 ≤ length page.old.room.now }
    ensures { Puts page.old (decimal steps ++ bytes " " ++ name_of rule ++ bytes " ") page.new × (page.new.at ≤ page.old.at + 30) }
{
    page.decimal(steps);
    page.byte(b' ');
    put_rule(rule, page);
    page.byte(b' ');
}

// What stands behind it.
fn put_tail(s: &[i32], page: &mut Page<'_>)
    requires { (length s.now ≤ 64) × (page.old.at + 1500 ≤ length page.old.room.now) }
    ensures { Puts page.old (bytes " |" ++ values_text s.now ++ newline) page.new × (page.new.at ≤ page.old.at + 1500) }
{
    page.text(b" |");
    put_values(s, page);
    page.byte(b'\n');
}

#[tactic(auto, using(node_text::proofs::NumberLengths::few_digits))]
fn put_outcome(ending: Ending, page: &mut Page<'_>)
    requires { page.old.at + 40 ≤ length page.old.room.now }
    ensures { Puts page.old (outcome_text (outcome_of ending)) page.new × (page.new.at ≤ page.old.at + 40) }
{
    match ending {
        Ending::Int(n) => {
            page.text(b"value ");
            page.number(n);
        }
        Ending::Bool(t) => {
            page.text(b"value ");
            page.truth(t);
        }
        Ending::Skip => page.text(b"value skip"),
        Ending::Overflow(i) => {
            page.text(b"overflow at ");
            page.decimal(u64::from(i));
        }
        Ending::Fuel => page.text(b"fuel"),
    }
}

#[tactic(auto, using(node_text::proofs::NumberLengths::few_digits))]
fn put_counts(steps: u64, loops: u64, page: &mut Page<'_>)
    requires { page.old.at + 60 ≤ length page.old.room.now }
    ensures { Puts page.old (counts_text steps loops) page.new × (page.new.at ≤ page.old.at + 60) }
{
    page.text(b" steps ");
    page.decimal(steps);
    page.text(b" loops ");
    page.decimal(loops);
    page.byte(b'\n');
}

// The last line.
fn put_last(ending: Ending, steps: u64, loops: u64, page: &mut Page<'_>)
    requires { page.old.at + 100 ≤ length page.old.room.now }
    ensures { Puts page.old (last_line (outcome_of ending) steps loops) page.new × (page.new.at ≤ page.old.at + 100) }
{
    put_outcome(ending, page);
    put_counts(steps, loops, page);
}

// A moment's text, or its length where it is too long to be shown.
#[tactic(auto, using(node_text::proofs::NumberLengths::few_digits))]
fn put_shown(moment: &Moment<'_>, page: &mut Page<'_>)
    requires { page.old.at + 8192 ≤ length page.old.room.now }
    ensures { Puts page.old (shortened moment.now) page.new × (page.new.at ≤ page.old.at + 8192) }
{
    let n = moment.length();
    if SHOWN < n {
        page.byte(b'#');
        page.decimal(n as u64);
    } else {
        moment.put(page);
    }
}

// The line of a moment, of a routine well typed or not.
pub fn put_line(
    row: &Routine<'_>,
    pending: &Pending,
    m: Machine,
    s: &[i32],
    lengths: &[u32],
    page: &mut Page<'_>,
)
    requires { Stands row.now pending.now × Seen row.now m.work × Measured row.now lengths.now × (length s.now ≤ 64) × (page.old.at + 10000 ≤ length page.old.room.now) }
    ensures { Puts page.old (moment_line m.steps (name_of m.rule) (meaning row.now pending.now m) s.now) page.new × (page.new.at ≤ page.old.at + 10000) }
{
    let moment = Moment::of(row, pending, m.work, lengths);
    put_head(m.steps, m.rule, page);
    put_shown(&moment, page);
    put_tail(s, page);
}

// One step more, but not beyond the fuel.
fn next_limit(steps: u64, fuel: u64) -> u64
    requires { (steps ≤ fuel) × (fuel < 4294967296) }
    ensures { (result ≤ fuel) × (steps ≤ result) × (result ≤ steps + 1) × (steps < fuel → steps < result) }
{
    fuel.min(steps + 1)
}

// What the lines of a run are told by: its routine, the lengths of the nodes' texts, and the fuel.
#[derive(Drop)]
pub struct Teller<'a> {
    pub program: &'a Program<'a>,
    pub lengths: &'a [u32],
    pub fuel: u32,
    ghost measured: { Measured program.now lengths.now },
}

impl<'a> Teller<'a> {
    // The line of a moment.
    pub fn put_line(&self, pending: &Pending, m: Machine, s: &[i32], page: &mut Page<'_>)
        requires { Stands self.now.program.now pending.now × Seen self.now.program.now m.work × (length s.now ≤ 64) × (page.old.at + 10000 ≤ length page.old.room.now) }
        ensures { Puts page.old (moment_line m.steps (name_of m.rule) (meaning self.now.program.now pending.now m) s.now) page.new × (page.new.at ≤ page.old.at + 10000) }
    {
        put_line(self.program.row(), pending, m, s, self.lengths, page);
    }

    // The next line: that of the moment after one step more, where the machine stands then, or the last.
    fn next_line(
        &self,
        pending: &mut Pending,
        machine: Machine,
        s: &mut [i32],
        page: &mut Page<'_>,
    ) -> Option<Machine>
        requires bounds { (machine.steps ≤ self.now.fuel) × (length s.old ≤ 64) × (page.old.at + 10000 ≤ length page.old.room.now) }
        requires by_index { (s₀ : Store) × (ls : List (List ℕ)) × LinesAt self.now.program.now s₀ ls pending.old machine s.old }
        ensures { ((s₀ : Store) (ls : List (List ℕ)) → LinesAt self.now.program.now s₀ ls pending.old machine s.old → Tells self.now.program.now s₀ self.now.fuel ls page.old page.new pending.new s.new result) × Advanced self.now.fuel machine.steps page.new result }
    {
        let steps = machine.steps;
        let fuel = u64::from(self.fuel);
        let limit = next_limit(steps, fuel);
        let stand = machine::go_on(self.program.row(), pending, machine, s, limit);
        let m = stand.machine;
        if m.steps == steps {
            put_last(stand.ending, m.steps, m.loops, page);
            return None;
        }
        self.put_line(pending, m, s, page);
        Some(m)
    }

    // The next lines, until the last is among them or there might be no room for one more. It answers where the machine stands, None where all is told.
    pub fn fill_page(
        &self,
        pending: &mut Pending,
        mut machine: Machine,
        s: &mut [i32],
        page: &mut Page<'_>,
    ) -> Option<Machine>
        requires bounds { (machine.steps ≤ self.now.fuel) × (length s.old ≤ 64) × (page.old.at + 10000 ≤ length page.old.room.now) }
        requires by_index { (s₀ : Store) × (ls : List (List ℕ)) × LinesAt self.now.program.now s₀ ls pending.old machine s.old }
        ensures { ((s₀ : Store) (ls : List (List ℕ)) → LinesAt self.now.program.now s₀ ls pending.old machine s.old → Tells self.now.program.now s₀ self.now.fuel ls page.old page.new pending.new s.new result) × Advanced self.now.fuel machine.steps page.new result }
    {
        loop {
            machine = self.next_line(pending, machine, s, page)?;
            if page.room.len() - LINE < page.at {
                return Some(machine);
            }
        }
    }

    // The first lines, from the start on.
    pub fn first_page(
        &self,
        pending: &mut Pending,
        s: &mut [i32],
        page: &mut Page<'_>,
    ) -> Option<Machine>
        requires { (locations self.now.program.now ≤ length s.old) × (length s.old ≤ 64) × (length pending.old.frames ≡ 256) × (page.old.at + 20000 ≤ length page.old.room.now) }
        ensures { Tells self.now.program.now s.old self.now.fuel [] page.old page.new pending.new s.new result × Advanced self.now.fuel 0 page.new result }
    {
        pending.height = 0;
        let first = machine::start(self.program.row());
        self.put_line(pending, first, s, page);
        self.fill_page(pending, first, s, page)
    }
}
