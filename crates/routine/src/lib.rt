// What every part knows of a stored routine: why a row is refused, its sizes, and its nodes, read one by one from the caller's own bytes.

#![tactic(auto)]

ghost use Rattle.std.specs.Prelude.{ℕ, ◌≡◌, ◌+◌, ◌*◌, ◌≤◌, ◌<◌, length};
ghost use Rattle.stored.specs.Bytes.{byte, pair, unsigned, signed};
ghost use Rattle.stored.specs.Layout.{node_start, kind, arg, child1, child2, child3};
ghost use Rattle.stored.specs.Refusals.{count, locations};
ghost use Rattle.stored.specs.Stages.{number};
ghost use Rattle.stored.specs.Trace.{four, values_from};
ghost use Rattle.routine.specs.Forms.{form_of, kind_of, digit_of, node_of, integer_of};
ghost use Rattle.routine.specs.Says.{refusal_of, returned, also_of};
ghost use Rattle.routine.specs.Open.{IsOpen, Opened, Runnable};

use std::marker::Model;

// Why something is refused, whatever is refused: 01's number, and what the number also returns.
pub trait Refuses: Copy {
    ghost use Rattle.stored.specs.Stages as S;

    ghost refusal: { Self → S.Refusal };

    fn number(self) -> u64
        ensures { result ≡ number (refusal self) };

    fn also(self) -> Option<u64>
        ensures { result ≡ also_of (refusal self) };
}

// Why a row is refused: a case for each of 01's numbers, with what the number also returns.
#[derive(Clone, Copy)]
pub enum Refusal {
    Short,
    Count,
    Version,
    Locations,
    Nodes,
    Length,
    Layout(u16),
    Forest,
    Places,
    Undeclared(u16),
    First(u16),
    Second(u16),
    Branches(u16),
    Store,
    Buffer(u64),
    Input,
}

impl Refuses for Refusal {
    ghost refusal = { refusal_of };

    fn number(self) -> u64 {
        match self {
            Refusal::Short => 1,
            Refusal::Count => 2,
            Refusal::Version => 3,
            Refusal::Locations => 4,
            Refusal::Nodes => 5,
            Refusal::Length => 6,
            Refusal::Layout(_) => 7,
            Refusal::Forest => 8,
            Refusal::Places => 9,
            Refusal::Undeclared(_) => 20,
            Refusal::First(_) => 21,
            Refusal::Second(_) => 22,
            Refusal::Branches(_) => 23,
            Refusal::Store => 30,
            Refusal::Buffer(_) => 32,
            Refusal::Input => 40,
        }
    }

    fn also(self) -> Option<u64> {
        match self {
            Refusal::Layout(i)
            | Refusal::Undeclared(i)
            | Refusal::First(i)
            | Refusal::Second(i)
            | Refusal::Branches(i) => Some(u64::from(i)),
            Refusal::Buffer(n) => Some(n),
            _ => None,
        }
    }
}

// n and m of a routine that was opened.
#[derive(Clone, Copy)]
pub struct Sizes {
    pub nodes: usize,
    pub locations: u8,
}

// The forms of 01's table of kinds, and what is not in it: a case and no Option, since the opener asks its tables of nodes whose kind nobody has tested.
#[derive(Clone, Copy)]
pub enum Form {
    Integer,
    Boolean,
    Plus,
    Geq,
    If,
    Assign,
    Deref,
    Skip,
    Seq,
    While,
    Unknown,
}

// By a node's byte 0.
impl From<u8> for Form {
    fn from(kind: u8) -> Form
        ensures { result ≡ form_of kind }
    {
        match kind {
            0 => Form::Integer,
            1 => Form::Boolean,
            2 => Form::Plus,
            3 => Form::Geq,
            4 => Form::If,
            5 => Form::Assign,
            6 => Form::Deref,
            7 => Form::Skip,
            8 => Form::Seq,
            9 => Form::While,
            _ => Form::Unknown,
        }
    }
}

// The eight bytes of a node: its form, the small argument, and the numbers of its children or, in bytes 4-7, its own number.
#[derive(Clone, Copy)]
pub struct Node {
    pub form: Form,
    pub arg: u8,
    pub first: u16,
    pub second: u16,
    pub third: u16,
    pub number: i32,
}

// Bytes at and at + 1.
pub fn pair_at(b: &[u8], at: usize) -> u16
    requires { at + 1 < length b.now }
    ensures { result ≡ pair b.now at }
{
    u16::from_be_bytes([b[at], b[at + 1]])
}

// The kind of a form, 10 for what is not in the table.
pub fn kind_of(f: Form) -> u64
    ensures { (result ≡ kind_of f) × (result < 16) }
{
    f as u64
}

// What a table in one word says of a form: a digit of four bits for each kind, that of kind 0 the last. The nodes' forms come in no
// order that a processor could foresee, so a `match` on each would cost a mispredicted jump; a shift costs none.
pub fn digit_of(table: u64, f: Form) -> u64
    ensures { (result ≡ digit_of table f) × (result < 16) }
{
    (table >> (4 * kind_of(f))) % 16
}

// Four bytes at `at`, as one number.
pub fn four_at(b: &[u8], at: usize) -> u32
    requires { at + 3 < length b.now }
    ensures { result ≡ four b.now at }
{
    u32::from_be_bytes([b[at], b[at + 1], b[at + 2], b[at + 3]])
}

// The same, read as two's complement.
fn signed_at(b: &[u8], at: usize) -> i32
    requires { at + 3 < length b.now }
    ensures { result ≡ signed (four b.now at) }
{
    four_at(b, at).cast_signed()
}

// Node i of bytes that nobody has opened yet: for the opener, and for `Routine::node`.
pub fn node_at(b: &[u8], i: usize) -> Node
    requires { node_start (i + 1) ≤ length b.now }
    ensures { result ≡ node_of b.now i }
{
    let at = 6 + 8 * i;
    Node {
        form: Form::from(b[at]),
        arg: b[at + 1],
        first: pair_at(b, at + 2),
        second: pair_at(b, at + 4),
        third: pair_at(b, at + 6),
        number: signed_at(b, at + 4),
    }
}

// Fills the store with values of four bytes each, from `at` on.
pub fn values_at(b: &[u8], at: usize, s: &mut [i32])
    requires { at + 4 * length s.old ≤ length b.now }
    ensures { s.new ≡ values_from b.now at (length s.old) }
{
    for i in 0..s.len() {
        s[i] = signed_at(b, at + 4 * i);
    }
}

// A routine that was opened: the caller's own bytes, with n and m. To a clause it is its bytes. It is made where bytes are opened, and handed on; whoever
// reads nodes reads them through it.
#[derive(Drop)]
pub struct Routine<'a> {
    bytes: &'a [u8],
    sizes: Sizes,
}

impl<'a> Model for Routine<'a> {
    ghost use Rattle.std.specs.Prelude.{ℕ, List};
    ghost use Rattle.routine.specs.Open.{Held};

    ghost Value = { List ℕ };

    ghost view = { λ r. r.bytes.now };

    ghost invariant = { λ r. Held r.bytes.now r.sizes };
}

// Each method also says what is known of a routine that was opened, so that a proof has it from its first look at the row.
impl<'a> Routine<'a> {
    // The view of bytes that were opened, with the sizes that the opening told.
    pub fn of(bytes: &'a [u8], sizes: Sizes) -> Routine<'a>
        requires { IsOpen bytes.now sizes }
        ensures { result ≡ bytes.now }
    {
        Routine { bytes, sizes }
    }

    pub fn nodes(&self) -> usize
        ensures is { result ≡ count self.now }
        ensures bytes { (k : ℕ) → byte self.now k < 256 }
        ensures within { (0 < result) × (result ≤ 4096) }
        ensures opened { Opened self.now }
    {
        self.sizes.nodes
    }

    pub fn locations(&self) -> u8
        ensures is { result ≡ locations self.now }
        ensures within { result ≤ 64 }
        ensures opened { Opened self.now }
    {
        self.sizes.locations
    }

    // The number of the root, the last node.
    pub fn root(&self) -> u32
        ensures is { result + 1 ≡ count self.now }
        ensures opened { Opened self.now }
    {
        (self.sizes.nodes - 1) as u32
    }

    // Node i, from the caller's own bytes.
    pub fn node(&self, i: usize) -> Node
        requires { i < count self.now }
        ensures is { result ≡ node_of self.now i }
        ensures opened { Opened self.now }
    {
        node_at(self.bytes, i)
    }

    // The parts of node i one at a time, for those that need no whole node.
    pub fn form(&self, i: u32) -> Form
        requires { i < count self.now }
        ensures is { result ≡ form_of (kind self.now i) }
        ensures opened { Opened self.now }
    {
        self.node(i as usize).form
    }

    pub fn arg(&self, i: u32) -> u8
        requires { i < count self.now }
        ensures is { result ≡ arg self.now i }
        ensures opened { Opened self.now }
    {
        self.node(i as usize).arg
    }

    pub fn first(&self, i: u32) -> u32
        requires { i < count self.now }
        ensures is { result ≡ child1 self.now i }
        ensures opened { Opened self.now }
    {
        u32::from(self.node(i as usize).first)
    }

    pub fn second(&self, i: u32) -> u32
        requires { i < count self.now }
        ensures is { result ≡ child2 self.now i }
        ensures opened { Opened self.now }
    {
        u32::from(self.node(i as usize).second)
    }

    pub fn third(&self, i: u32) -> u32
        requires { i < count self.now }
        ensures is { result ≡ child3 self.now i }
        ensures opened { Opened self.now }
    {
        u32::from(self.node(i as usize).third)
    }

    // The number that an integer node holds in bytes 4-7.
    pub fn integer(&self, i: u32) -> i32
        requires { i < count self.now }
        ensures is { result ≡ integer_of self.now i }
        ensures opened { Opened self.now }
    {
        self.node(i as usize).number
    }
}

// A routine that may be run: it was opened, and it has a type.
#[derive(Drop)]
pub struct Program<'a> {
    row: Routine<'a>,
}

impl<'a> Model for Program<'a> {
    ghost use Rattle.std.specs.Prelude.{ℕ, List};
    ghost use Rattle.routine.specs.Open.{Runnable};

    ghost Value = { List ℕ };

    ghost view = { λ p. p.row };

    ghost invariant = { λ p. Runnable p.row };
}

impl<'a> Program<'a> {
    pub fn of(row: Routine<'a>) -> Program<'a>
        requires { Runnable row }
        ensures { result ≡ row.entry }
    {
        Program { row }
    }

    pub fn row(&self) -> &Routine<'a>
        ensures is { result.now ≡ self.now }
        ensures runnable { Runnable self.now }
    {
        &self.row
    }
}
