// Writes numbers, pieces of text and the text of a stored node into a lent buffer that has room for them, and measures them before.
//
// Every writer asks for its room. So none of them tests a bound, and a text that has no room is known by its length before its first byte is
// written.

#![tactic(auto)]

ghost use Rattle.std.specs.Prelude.{◌≡◌, [], ◌∷◌, ◌++◌, ◌+◌, ◌%◌, ◌≤◌, ◌<◌, length, get_or};
ghost use Rattle.l1.specs.Text.{bytes, decimal, integer, truth, location};
ghost use Rattle.stored.specs.Layout.{child1, child2};
ghost use Rattle.stored.specs.Refusals.{count};
ghost use Rattle.node_text.specs.Pages.{Puts, Fits};
ghost use Rattle.node_text.specs.Texts.{form_at, text_at, sign_text, branches};
ghost use Rattle.node_text.specs.Lengths.{LengthsOf, Filled};

use routine::{Form, Routine};

// What stands between the two parts of a sum, a comparison or a sequence.
#[derive(Clone, Copy)]
pub enum Sign {
    Plus,
    Geq,
    Seq,
}

// A lent buffer, and the place in it where the next byte goes.
#[derive(Drop)]
pub struct Page<'a> {
    pub room: &'a mut [u8],
    pub at: usize,
}

impl<'a> Page<'a> {
    pub fn byte(&mut self, x: u8)
        requires { Fits self.old (x ∷ []) }
        ensures { Puts self.old (x ∷ []) self.new }
    {
        let at = self.at;
        let room = &mut *self.room;
        room[at] = x;
        self.at = at + 1;
    }

    // Byte by byte: the pieces are short constants, for which `copy_from_slice` is a call.
    pub fn text(&mut self, s: &[u8])
        requires { Fits self.old s.now }
        ensures { Puts self.old s.now self.new }
    {
        let at = self.at;
        let room = &mut *self.room;
        for j in 0..s.len() {
            room[at + j] = s[j];
        }
        self.at = at + s.len();
    }

    // Not by `Display`: what `trace` prints is proved of `decimal`. Most numbers of a row have one digit or two: a call for each digit of these makes a trace slower by up to a sixth.
    pub fn decimal(&mut self, n: u64)
        requires { Fits self.old (decimal n) }
        ensures { Puts self.old (decimal n) self.new }
    {
        if n <= 9 {
            self.byte(digit(n));
            return;
        }
        if n <= 99 {
            self.text(&[digit(n / 10), digit(n)]);
            return;
        }
        put_long(n, self);
    }

    pub fn number(&mut self, n: i32)
        requires { Fits self.old (integer n) }
        ensures { Puts self.old (integer n) self.new }
    {
        if n < 0 {
            self.byte(b'-');
        }
        self.decimal(sums::magnitude(n));
    }

    pub fn truth(&mut self, t: bool)
        requires { Fits self.old (truth t) }
        ensures { Puts self.old (truth t) self.new }
    {
        if t {
            self.text(b"true");
        } else {
            self.text(b"false");
        }
    }
}

// How many digits a number has.
pub fn width(n: u64) -> usize
    ensures { (result ≡ length (decimal n)) × (result ≤ 20) }
{
    let mut w = 1;
    let mut x = n;
    while 10 <= x {
        x = x / 10;
        w += 1;
    }
    w
}

fn digit(n: u64) -> u8
    ensures { result ≡ 48 + n % 10 }
{
    b'0' + (n % 10) as u8
}

// The least number of two digits.
const TWO_DIGITS: u64 = 10;

// A number of any length, a call for each two digits: a call for each digit makes a trace whose lines are numbers slower by up to a quarter.
fn put_long(n: u64, page: &mut Page<'_>)
    requires { Fits page.old (decimal n) }
    ensures { Puts page.old (decimal n) page.new }
{
    if n < TWO_DIGITS {
        page.byte(digit(n));
        return;
    }
    if 99 < n {
        put_long(n / 100, page);
    }
    page.text(&[digit(n / 10), digit(n)]);
}

pub fn number_width(n: i32) -> usize
    ensures { (result ≡ length (integer n)) × (result ≤ 21) }
{
    let w = width(sums::magnitude(n));
    if n < 0 { 1 + w } else { w }
}

pub fn truth_width(t: bool) -> usize
    ensures { (result ≡ length (truth t)) × (result ≤ 5) }
{
    if t { 4 } else { 5 }
}

// What stands before the right side of an assignment to l.
pub fn put_assigned(l: u64, page: &mut Page<'_>)
    requires { Fits page.old (bytes "(" ++ location l ++ bytes " := ") }
    ensures { Puts page.old (bytes "(" ++ location l ++ bytes " := ") page.new }
{
    page.text(b"(l");
    page.decimal(l);
    page.text(b" := ");
}

fn put_deref(l: u64, page: &mut Page<'_>)
    requires { Fits page.old (bytes "!" ++ location l) }
    ensures { Puts page.old (bytes "!" ++ location l) page.new }
{
    page.text(b"!l");
    page.decimal(l);
}

// The bracket that opens a text, and node j.
#[cycle(put_branches_put_closed_put_if_put_opened_put_tree_put_while)]
fn put_opened(row: &Routine<'_>, j: u32, page: &mut Page<'_>)
    requires { (j < count row.now) × Fits page.old (bytes "(" ++ text_at row.now j) }
    ensures { Puts page.old (bytes "(" ++ text_at row.now j) page.new }
{
    page.byte(b'(');
    put_tree(row, j, page);
}

// Node j, and the bracket that closes a text.
#[cycle(put_branches_put_closed_put_if_put_opened_put_tree_put_while)]
fn put_closed(row: &Routine<'_>, j: u32, page: &mut Page<'_>)
    requires { (j < count row.now) × Fits page.old (text_at row.now j ++ bytes ")") }
    ensures { Puts page.old (text_at row.now j ++ bytes ")") page.new }
{
    put_tree(row, j, page);
    page.byte(b')');
}

// The branches of an if, behind its test.
#[cycle(put_branches_put_closed_put_if_put_opened_put_tree_put_while)]
pub fn put_branches(row: &Routine<'_>, c: u32, d: u32, page: &mut Page<'_>)
    requires { (c < count row.now) × (d < count row.now) × Fits page.old (branches row.now c d) }
    ensures { Puts page.old (branches row.now c d) page.new }
{
    page.text(b" then ");
    put_tree(row, c, page);
    page.text(b" else ");
    put_tree(row, d, page);
    page.byte(b')');
}

#[cycle(put_branches_put_closed_put_if_put_opened_put_tree_put_while)]
fn put_if(row: &Routine<'_>, i: u32, page: &mut Page<'_>)
    requires { (i < count row.now) × Fits page.old (text_at row.now i) × (form_at row.now i ≡ Form.If) }
    ensures { Puts page.old (text_at row.now i) page.new }
{
    let test = row.first(i);
    page.text(b"(if ");
    put_tree(row, test, page);
    put_branches(row, row.second(i), row.third(i), page);
}

#[cycle(put_branches_put_closed_put_if_put_opened_put_tree_put_while)]
fn put_while(row: &Routine<'_>, i: u32, page: &mut Page<'_>)
    requires { (i < count row.now) × Fits page.old (text_at row.now i) × (form_at row.now i ≡ Form.While) }
    ensures { Puts page.old (text_at row.now i) page.new }
{
    let test = row.first(i);
    page.text(b"(while ");
    put_tree(row, test, page);
    page.text(b" do ");
    put_tree(row, row.second(i), page);
    page.text(b" done)");
}

// The text of node i. The pieces stand as constants in the arms: handed on as a slice each would be a loop of bytes.
#[cycle(put_branches_put_closed_put_if_put_opened_put_tree_put_while)]
pub fn put_tree(row: &Routine<'_>, i: u32, page: &mut Page<'_>)
    requires { (i < count row.now) × Fits page.old (text_at row.now i) }
    ensures { Puts page.old (text_at row.now i) page.new }
{
    match row.form(i) {
        Form::Integer => page.number(row.integer(i)),
        Form::Boolean => page.truth(row.arg(i) == 1),
        Form::Plus => {
            put_opened(row, row.first(i), page);
            page.text(b" + ");
            put_closed(row, row.second(i), page);
        }
        Form::Geq => {
            put_opened(row, row.first(i), page);
            page.text(b" >= ");
            put_closed(row, row.second(i), page);
        }
        Form::If => put_if(row, i, page),
        Form::Assign => {
            put_assigned(u64::from(row.arg(i)), page);
            put_closed(row, row.first(i), page);
        }
        Form::Deref => put_deref(u64::from(row.arg(i)), page),
        Form::Skip => page.text(b"skip"),
        Form::Seq => {
            put_opened(row, row.first(i), page);
            page.text(b" ; ");
            put_closed(row, row.second(i), page);
        }
        Form::While => put_while(row, i, page),
        Form::Unknown => {}
    }
}

fn put_sign(s: Sign, page: &mut Page<'_>)
    requires { Fits page.old (sign_text s) }
    ensures { Puts page.old (sign_text s) page.new }
{
    match s {
        Sign::Plus => page.text(b" + "),
        Sign::Geq => page.text(b" >= "),
        Sign::Seq => page.text(b" ; "),
    }
}

// A sign, what is to the right of it, and the bracket that closes both.
pub fn put_right(row: &Routine<'_>, s: Sign, c: u32, page: &mut Page<'_>)
    requires { (c < count row.now) × Fits page.old (sign_text s ++ text_at row.now c ++ bytes ")") }
    ensures { Puts page.old (sign_text s ++ text_at row.now c ++ bytes ")") page.new }
{
    put_sign(s, page);
    put_tree(row, c, page);
    page.byte(b')');
}

// What a table holds of node j.
pub fn length_in(lengths: &[u32], j: u32) -> usize
    requires { j < length lengths.now }
    ensures { (result ≡ get_or lengths.now j 0) × (result < 4294967296) }
{
    lengths[j as usize] as usize
}

// The lengths of the first two children's texts, together.
fn two_lengths(row: &Routine<'_>, i: u32, lengths: &[u32]) -> usize
    requires { (i < count row.now) × (count row.now ≤ length lengths.now) × LengthsOf row.now i lengths.now × (child1 row.now i < i) × (child2 row.now i < i) }
    ensures { (result ≡ length (text_at row.now (child1 row.now i)) + length (text_at row.now (child2 row.now i))) × (result ≤ 327680) }
{
    let first = length_in(lengths, row.first(i));
    first + length_in(lengths, row.second(i))
}

// The length of node i's text; the table holds those of the nodes before it.
fn node_length(row: &Routine<'_>, i: u32, lengths: &[u32]) -> usize
    requires { (i < count row.now) × (count row.now ≤ length lengths.now) × LengthsOf row.now i lengths.now }
    ensures { (result ≡ length (text_at row.now i)) × (result < 4294967296) }
{
    match row.form(i) {
        Form::Integer => number_width(row.integer(i)),
        Form::Boolean => truth_width(row.arg(i) == 1),
        Form::Plus => 5 + two_lengths(row, i, lengths),
        Form::Geq => 6 + two_lengths(row, i, lengths),
        Form::If => {
            let t = two_lengths(row, i, lengths);
            17 + t + length_in(lengths, row.third(i))
        }
        Form::Assign => {
            let w = width(u64::from(row.arg(i)));
            7 + w + length_in(lengths, row.first(i))
        }
        Form::Deref => 2 + width(u64::from(row.arg(i))),
        Form::Skip => 4,
        Form::Seq => 5 + two_lengths(row, i, lengths),
        Form::While => 17 + two_lengths(row, i, lengths),
        Form::Unknown => 0,
    }
}

// Fills the table with the lengths of all texts, in one pass.
pub fn measure(row: &Routine<'_>, lengths: &mut [u32])
    requires { count row.now ≤ length lengths.old }
    ensures { Filled row.now (count row.now) lengths.old lengths.new }
{
    for i in 0..row.nodes() {
        lengths[i] = node_length(row, i as u32, lengths) as u32;
    }
}
