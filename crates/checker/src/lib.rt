// Checks a stored routine against the typing rules: refusals 1 to 9 and 20 to 23, else its type, W, and its read and write sets.

#![tactic(auto)]

pub mod admission; // admission.rt: opening, types and what is lent with a row

ghost use Rattle.std.specs.Prelude.{◌≡◌, ◌||◌, ◌≤◌, ◌<◌, ◌^◌, eqb, length};
ghost use Rattle.stored.specs.Answers.{Checks};
ghost use Rattle.stored.specs.Refusals.{count};
ghost use Rattle.opener.specs.Tables.{Covers};
ghost use Rattle.checker.specs.Rules.{no_of, fault_by, type_by, work_by, seen, found_fault};
ghost use Rattle.checker.specs.Says.{FaultSays, TypedSays, checked_of};

use opener::tables::{entry, pick};
use routine::{Form, Node, Refusal, Routine};

// In the order of their numbers.
#[derive(Clone, Copy, PartialEq, Eq)]
pub enum Ty {
    Int,
    Bool,
    Unit,
}

// What an accepted routine tells: its type, W, the read set and the write set, over all the nodes, untaken branches included.
#[derive(Clone, Copy)]
pub struct Told {
    pub ty: Ty,
    pub working: usize,
    pub reads: u64,
    pub writes: u64,
}

// Why the own rule of node i fails, if it does, by the lowest number; p, q and r are its children's types.
#[cold]
fn fault_of(d: Node, i: u16, m: u8, p: Ty, q: Ty, r: Ty) -> Option<Refusal>
    ensures { FaultSays (fault_by d.form m d.arg (no_of p) (no_of q) (no_of r)) i result }
{
    match d.form {
        Form::Assign | Form::Deref if m <= d.arg => Some(Refusal::Undeclared(i)),
        Form::Plus | Form::Geq if p != Ty::Int => Some(Refusal::First(i)),
        Form::Assign if p != Ty::Int => Some(Refusal::First(i)),
        Form::If | Form::While if p != Ty::Bool => Some(Refusal::First(i)),
        Form::Seq if p != Ty::Unit => Some(Refusal::First(i)),
        Form::Plus | Form::Geq if q != Ty::Int => Some(Refusal::Second(i)),
        Form::While if q != Ty::Unit => Some(Refusal::Second(i)),
        Form::If if r != q => Some(Refusal::Branches(i)),
        _ => None,
    }
}

// Tables by form, as `routine::digit_of` reads them: from the left those of Unknown, While, Seq, Skip, Deref, Assign, If, Geq, Plus,
// Boolean, Integer. The types that the first and the second child must have, 3 where any will do.
const FIRST: u64 = 0x31233010033;

const SECOND: u64 = 0x32333330033;

const ANY: u64 = 3;

// What else a rule asks: 1 that the branches have one type, 2 that the location is declared.
const FURTHER: u64 = 0x00002210000;

// The type that a rule gives, 3 for the second child's.
const GIVEN: u64 = 0x22320231010;

fn suits(p: Ty, wanted: u64) -> bool
    ensures { result ≡ (eqb wanted 3 || eqb (no_of p) wanted) }
{
    (wanted == ANY) | (p as u64 == wanted)
}

// Whether the node's own rule holds, told without a jump on its form.
fn holds(d: Node, m: u8, p: Ty, q: Ty, r: Ty) -> bool
    ensures { result ≡ eqb (fault_by d.form m d.arg (no_of p) (no_of q) (no_of r)) 0 }
{
    let f = d.form;
    let first = suits(p, routine::digit_of(FIRST, f));
    let second = suits(q, routine::digit_of(SECOND, f));
    let further = routine::digit_of(FURTHER, f);
    first & second & ((further != 1) | (r == q)) & ((further != 2) | (d.arg < m))
}

// The type that the rule of a form gives; q is the type of its second child. A match on the table's digit becomes a jump on x86-64.
fn type_of(f: Form, q: Ty) -> Ty
    ensures { no_of result ≡ type_by f (no_of q) }
{
    let given = routine::digit_of(GIVEN, f);
    let own = pick(
        given == Ty::Int as u64,
        Ty::Int,
        pick(given == Ty::Bool as u64, Ty::Bool, Ty::Unit),
    );
    pick(given == ANY, q, own)
}

// Why the own rule of node i fails, if it does, by what the table has of its children.
#[inline(always)]
fn node_fault(d: Node, i: u16, m: u8, types: &[Ty]) -> Option<Refusal>
    requires { 0 < length types.now }
    ensures { FaultSays (found_fault m (seen types.now) d) i result }
{
    let p = *entry(types, d.first);
    let q = *entry(types, d.second);
    let r = *entry(types, d.third);
    if holds(d, m, p, q, r) {
        None
    } else {
        fault_of(d, i, m, p, q, r)
    }
}

// The forms that W counts: a table as above.
const WORKING: u64 = 0x01101111100;

fn work_of(f: Form) -> usize
    ensures { (result ≡ work_by f) × (result < 2) }
{
    routine::digit_of(WORKING, f) as usize
}

// The word with the bit of location l alone.
fn bit_of(l: u8) -> u64
    requires { l < 64 }
    ensures { result ≡ 2 ^ l }
{
    1 << u64::from(l)
}

// The kinds of the two forms that name a location.
const ASSIGN: usize = Form::Assign as usize;

const DEREF: usize = Form::Deref as usize;

// Refusals 20 to 23, else what the nodes tell, in one pass over them; the table has room for them. Each size is a function of its own, as in
// `opener`.
#[inline(never)]
fn check_nodes<const N: usize>(row: &Routine<'_>) -> Result<Told, Refusal>
    requires { (count row.now ≤ N) × (N ≤ 4096) × Covers N (count row.now) }
    ensures { TypedSays row.now result }
{
    let n = row.nodes();
    let m = row.locations();
    let mut types = [Ty::Int; N];
    let mut working = 0;
    // By kind, the bits of what byte 1 holds: of an assignment and a dereference these are the locations, of the others nobody reads them.
    let mut named = [0u64; 16];
    for i in 0..n {
        let d = row.node(i);
        if let Some(fault) = node_fault(d, i as u16, m, &types) {
            return Err(fault);
        }
        let f = d.form;
        types[i] = type_of(f, *entry(&types, d.second));
        working += work_of(f);
        named[f as usize] |= bit_of(d.arg);
    }
    Ok(Told {
        ty: types[n - 1],
        working,
        reads: named[DEREF],
        writes: named[ASSIGN],
    })
}

// A small row gets a small table: clearing the large one would cost more than the pass. A const argument can't be computed, hence three calls.
fn check_row(row: &Routine<'_>) -> Result<Told, Refusal>
    ensures { TypedSays row.now result }
{
    let n = row.nodes();
    if n <= 64 {
        check_nodes::<64>(row)
    } else if n <= 512 {
        check_nodes::<512>(row)
    } else {
        check_nodes::<4096>(row)
    }
}

// Refusals 1 to 9 and 20 to 23, or what the accepted routine tells: the admission with nothing lent, without its copies, which cost a row of
// every day 4 % of its time (measured on Arm).
pub fn check(b: &[u8]) -> Result<Told, Refusal>
    ensures { Checks b.now (checked_of result) }
{
    check_row(&opener::open(b)?)
}
