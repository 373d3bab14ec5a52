// The state of a run: pending places, the work, and what becomes of them in a turn.
//
// The first payload of every place is a u32, at one offset, for speed: docs/DECISIONS.md has what that gave.
ghost use Rattle.std.specs.Prelude.{◌≡◌, length};
ghost use Rattle.machine.specs.State.{number_of, truth_of, end_of};

// A pending place: what waits for the value of the work. A number is the node that the place belongs to, but that of `Store` is the location
// to write and that of `First` the node to go on with. `Blank` stands in the frames from the height on, which hold something too.
#[derive(Clone, Copy)]
pub enum Place {
    Blank,
    PlusLeft(u32),
    GeqLeft(u32),
    PlusRight(u32, i32),
    GeqRight(u32, i32),
    Test(u32),
    Again(u32),
    Store(u32),
    First(u32),
}

#[derive(Clone, Copy)]
pub struct Frame {
    pub place: Place,
}

// The pending places, beside their height. What stands from the height on means nothing.
#[derive(Drop)]
pub struct Pending {
    pub frames: [Frame; 256],
    pub height: usize,
}

// The work: a node of the routine that is no literal, or a value.
#[derive(Clone, Copy)]
pub enum Work {
    Node(u32),
    Int(i32),
    Bool(bool),
    Skip,
}

// The rules that make steps.
#[derive(Clone, Copy, PartialEq, Eq)]
pub enum Rule {
    Plus,
    Geq,
    Deref,
    Assign,
    Seq,
    IfTrue,
    IfFalse,
    While,
}

// Beside the work: T, K, and the rule of the last step, None before the first.
#[derive(Clone, Copy)]
pub struct Machine {
    pub work: Work,
    pub steps: u64,
    pub loops: u64,
    pub rule: Option<Rule>,
}

// What becomes of the pending places and of the store. A sum out of range is one of four ways on, and no error of the other three.
#[derive(Clone, Copy)]
pub enum Act {
    Push(Place),
    Rest,
    Write(u32, i32),
    Over(u32),
}

// An act: the next work, what becomes of the places and the store, and the rule, None for a move of the search.
#[derive(Clone, Copy)]
pub struct Turn {
    pub work: Work,
    pub act: Act,
    pub rule: Option<Rule>,
}

// The machine after an act.
#[derive(Clone, Copy)]
pub struct Next {
    pub to: Machine,
    pub act: Act,
}

#[derive(Clone, Copy)]
pub enum Ending {
    Int(i32),
    Bool(bool),
    Skip,
    Overflow(u32),
    Fuel,
}

impl Pending {
    pub fn new() -> Pending
        ensures { (result.height ≡ 0) × (length result.frames ≡ 256) }
    {
        let blank = Frame {
            place: Place::Blank,
        };
        Pending {
            frames: [blank; 256],
            height: 0,
        }
    }
}

// Of a value that is an integer: the types see to it. An Option would have a way on that no row takes; so with the two below.
pub fn number(x: Work) -> i32
    ensures { result ≡ number_of x }
{
    match x {
        Work::Int(n) => n,
        _ => 0,
    }
}

pub fn truth(x: Work) -> bool
    ensures { result ≡ truth_of x }
{
    matches!(x, Work::Bool(true))
}

pub fn end_of(x: Work) -> Ending
    ensures { result ≡ end_of x }
{
    match x {
        Work::Node(_) => Ending::Fuel,
        Work::Int(n) => Ending::Int(n),
        Work::Bool(t) => Ending::Bool(t),
        Work::Skip => Ending::Skip,
    }
}
