// Measures and writes the text of a moment: what opens its pending places, the work, and what closes them.
//
// A moment's text can be megabytes long, since each loop under way holds a copy of its body; so it is measured from a table of the nodes' lengths,
// at a cost by its places alone, before it is written.

#![tactic(auto)]

ghost use Rattle.std.specs.Prelude.{◌≡◌, ◌++◌, ◌+◌, ◌≤◌, ◌<◌, length};
ghost use Rattle.l1.specs.Text.{text};
ghost use Rattle.stored.specs.Refusals.{count};
ghost use Rattle.routine.specs.Open.{Opened};
ghost use Rattle.machine.specs.State.{expr_of, Seen, Held, context_of, stack};
ghost use Rattle.node_text.specs.Pages.{Puts, Fits};
ghost use Rattle.node_text.specs.Texts.{text_at};
ghost use Rattle.moment_text.specs.Around.{closing, closes, opening_of, opens_of};
ghost use Rattle.moment_text.specs.Stand.{Stands, Measured, moment_text};

use machine::{Pending, Place, Work};
use node_text::{Page, Sign};
use routine::Routine;
use std::marker::Model;

fn put_opening(f: Place, page: &mut Page<'_>)
    requires { Fits page.old (opening_of f) }
    ensures { Puts page.old (opening_of f) page.new }
{
    match f {
        Place::Blank | Place::PlusLeft(_) | Place::GeqLeft(_) | Place::First(_) => page.byte(b'('),
        Place::PlusRight(_, n) => {
            page.byte(b'(');
            page.number(n);
            page.text(b" + ");
        }
        Place::GeqRight(_, n) => {
            page.byte(b'(');
            page.number(n);
            page.text(b" >= ");
        }
        Place::Test(_) | Place::Again(_) => page.text(b"(if "),
        Place::Store(l) => node_text::put_assigned(u64::from(l), page),
    }
}

// The branches of the if that a loop became: its body with the loop again, and skip.
fn put_again(row: &Routine<'_>, i: u32, page: &mut Page<'_>)
    requires { Held row.now (Place.Again i) × Fits page.old (closing (context_of row.now (Place.Again i))) }
    ensures { Puts page.old (closing (context_of row.now (Place.Again i))) page.new }
{
    page.text(b" then (");
    node_text::put_tree(row, row.second(i), page);
    node_text::put_right(row, Sign::Seq, i, page);
    page.text(b" else skip)");
}

fn put_closing(row: &Routine<'_>, f: Place, page: &mut Page<'_>)
    requires { Held row.now f × Fits page.old (closing (context_of row.now f)) }
    ensures { Puts page.old (closing (context_of row.now f)) page.new }
{
    match f {
        Place::Blank => page.text(b" ; skip)"),
        Place::PlusLeft(i) => node_text::put_right(row, Sign::Plus, row.second(i), page),
        Place::GeqLeft(i) => node_text::put_right(row, Sign::Geq, row.second(i), page),
        Place::PlusRight(_, _) | Place::GeqRight(_, _) | Place::Store(_) => page.byte(b')'),
        Place::Test(i) => node_text::put_branches(row, row.second(i), row.third(i), page),
        Place::Again(i) => put_again(row, i, page),
        Place::First(j) => node_text::put_right(row, Sign::Seq, j, page),
    }
}

fn put_work(row: &Routine<'_>, x: Work, page: &mut Page<'_>)
    requires { Opened row.now × Seen row.now x × Fits page.old (text (expr_of row.now x)) }
    ensures { Puts page.old (text (expr_of row.now x)) page.new }
{
    match x {
        Work::Node(i) => node_text::put_tree(row, i, page),
        Work::Int(n) => page.number(n),
        Work::Bool(t) => page.truth(t),
        Work::Skip => page.text(b"skip"),
    }
}

// What opens the places, the outermost first.
fn put_opens(pending: &Pending, page: &mut Page<'_>)
    requires { (pending.now.height ≤ 256) × Fits page.old (opens_of pending.now.frames pending.now.height) }
    ensures { Puts page.old (opens_of pending.now.frames pending.now.height) page.new }
{
    for j in 0..pending.height {
        put_opening(pending.frames[j].place, page);
    }
}

// What closes them, the innermost first.
fn put_closes(row: &Routine<'_>, pending: &Pending, page: &mut Page<'_>)
    requires { Stands row.now pending.now × Fits page.old (closes (stack row.now pending.now.frames pending.now.height)) }
    ensures { Puts page.old (closes (stack row.now pending.now.frames pending.now.height)) page.new }
{
    for j in (0..pending.height).rev() {
        put_closing(row, pending.frames[j].place, page);
    }
}

// The text of a moment: what opens its places, the work, and what closes them. It asks for no table of lengths.
pub fn put_moment(row: &Routine<'_>, pending: &Pending, work: Work, page: &mut Page<'_>)
    requires { Stands row.now pending.now × Seen row.now work × Fits page.old (moment_text row.now pending.now work) }
    ensures { Puts page.old (moment_text row.now pending.now work) page.new }
{
    put_opens(pending, page);
    put_work(row, work, page);
    put_closes(row, pending, page);
}

// What a moment is measured by: the routine, and a table of the lengths of its nodes' texts.
#[derive(Drop)]
struct Lengths<'a> {
    row: &'a Routine<'a>,
    table: &'a [u32],
    ghost measured: { Measured row.now table.now },
}

impl<'a> Lengths<'a> {
    // The length of node j's text.
    fn node(&self, j: u32) -> usize
        requires { j < count self.now.row.now }
        ensures { (result ≡ length (text_at self.now.row.now j)) × (result ≤ 163840) }
    {
        node_text::length_in(self.table, j)
    }

    // The length of what opens and closes a place.
    fn place(&self, f: Place) -> usize
        requires { Held self.now.row.now f }
        ensures { (result ≡ length (opening_of f) + length (closing (context_of self.now.row.now f))) × (result ≤ 400000) }
    {
        match f {
            Place::Blank => 9,
            Place::PlusLeft(i) => 5 + self.node(self.row.second(i)),
            Place::GeqLeft(i) => 6 + self.node(self.row.second(i)),
            Place::PlusRight(_, n) => 5 + node_text::number_width(n),
            Place::GeqRight(_, n) => 6 + node_text::number_width(n),
            Place::Test(i) => 17 + self.node(self.row.second(i)) + self.node(self.row.third(i)),
            Place::Again(i) => 26 + self.node(self.row.second(i)) + self.node(i),
            Place::Store(l) => 7 + node_text::width(u64::from(l)),
            Place::First(j) => 5 + self.node(j),
        }
    }

    fn work(&self, x: Work) -> usize
        requires { Opened self.now.row.now × Seen self.now.row.now x }
        ensures { (result ≡ length (text (expr_of self.now.row.now x))) × (result ≤ 200000) }
    {
        match x {
            Work::Node(i) => self.node(i),
            Work::Int(n) => node_text::number_width(n),
            Work::Bool(t) => node_text::truth_width(t),
            Work::Skip => 4,
        }
    }
}

// A moment of a run that is shown: the places that are pending, the work, and what its text is measured by. To a clause it is its text.
#[derive(Drop)]
pub struct Moment<'a> {
    lengths: Lengths<'a>,
    pending: &'a Pending,
    work: Work,
}

impl<'a> Model for Moment<'a> {
    ghost use Rattle.std.specs.Prelude.{ℕ, List};
    ghost use Rattle.machine.specs.State.{Seen};
    ghost use Rattle.moment_text.specs.Stand.{Stands, moment_text};

    ghost Value = { List ℕ };

    ghost view = { λ m. moment_text m.lengths.row.now m.pending.now m.work };

    ghost invariant = { λ m. Stands m.lengths.row.now m.pending.now × Seen m.lengths.row.now m.work };
}

impl<'a> Moment<'a> {
    // With a table of the lengths of the nodes' texts.
    pub fn of(
        row: &'a Routine<'a>,
        pending: &'a Pending,
        work: Work,
        table: &'a [u32],
    ) -> Moment<'a>
        requires { Stands row.now pending.now × Seen row.now work × Measured row.now table.now }
        ensures { result ≡ moment_text row.now pending.now work }
    {
        Moment {
            lengths: Lengths { row, table },
            pending,
            work,
        }
    }

    // The length of its text.
    pub fn length(&self) -> usize
        ensures { (result ≡ length self.now) × (result < 1000000000) }
    {
        let lengths = &self.lengths;
        let pending = self.pending;
        let mut n = lengths.work(self.work);
        for j in 0..pending.height {
            n += lengths.place(pending.frames[j].place);
        }
        n
    }

    pub fn put(&self, page: &mut Page<'_>)
        requires { Fits page.old self.now }
        ensures { Puts page.old self.now page.new }
    {
        put_moment(self.lengths.row, self.pending, self.work, page);
    }
}
