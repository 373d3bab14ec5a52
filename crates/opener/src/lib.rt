// Opens a stored routine: refusals 1 to 9, in 01's order.

#![tactic(auto)]

pub mod tables; // tables.rt: tables with an entry for each node

ghost use Rattle.std.specs.Prelude.{◌≡◌, ◌+◌, ◌-◌, ◌≤◌, ◌<◌, cond, leb, length, ℕ, IfOk, OnOk, IfErr};
ghost use Rattle.l1.specs.Syntax.{Expr};
ghost use Rattle.stored.specs.Layout.{node_start, TreeAt};
ghost use Rattle.stored.specs.Refusals.{count};
ghost use Rattle.stored.specs.Answers.{Opening};
ghost use Rattle.stored.specs.Headed.{Headed};
ghost use Rattle.opener.specs.Shapes.{shape_of, children_of, is_inside, arg_top, stands_by, placed, keeps_node, places_by};
ghost use Rattle.opener.specs.Subtrees.{Passed};
ghost use Rattle.opener.specs.Tables.{Covers};
ghost use Rattle.opener.specs.Says.{HeadSays, LaidSays, opened_of};

use routine::{Form, Node, Refusal, Routine, Sizes};
use tables::{entry, pick};

// Refusals 1 to 6, or the sizes that the first six bytes tell.
fn read_head(b: &[u8]) -> Result<Sizes, Refusal>
    ensures { HeadSays b.now result }
{
    if b.len() < 6 {
        return Err(Refusal::Short);
    }
    let after = usize::from(routine::pair_at(b, 0));
    if after + 2 != b.len() {
        return Err(Refusal::Count);
    }
    if b[2] != 1 {
        return Err(Refusal::Version);
    }
    if 64 < b[3] {
        return Err(Refusal::Locations);
    }
    let n = usize::from(routine::pair_at(b, 4));
    if n == 0 {
        return Err(Refusal::Nodes);
    }
    if 4096 < n {
        return Err(Refusal::Nodes);
    }
    if after != 4 + 8 * n {
        return Err(Refusal::Length);
    }
    Ok(Sizes {
        nodes: n,
        locations: b[3],
    })
}

// No function below jumps on a form: see `routine::digit_of`.

// Whether a form takes this byte 1: the table has how many bits it may have.
fn takes_arg(f: Form, a: u8) -> bool
    ensures { result ≡ leb a (arg_top f) }
{
    u64::from(a) >> routine::digit_of(0x00008800010, f) == 0
}

// The facts of a form, as `routine::digit_of` reads them: how many children it has, and `INSIDE` more where the second of them is worked inside
// the form; and the two forms that are not told by that: an integer's bytes 4-7 are a number, and what is not in the table of kinds stands nowhere.
const SHAPES: u64 = 0x8e20013ee04;

const NUMBER: u64 = 4;

const NOTHING: u64 = 8;

const INSIDE: u64 = 12;

fn children_of(f: Form) -> usize
    ensures { (result ≡ children_of (shape_of f)) × (result < 4) }
{
    (routine::digit_of(SHAPES, f) % 4) as usize
}

// Whether the second part is worked inside the form, as an operator's and a loop's are: the branches of an if and the second part of a
// sequence are worked in the form's own place.
fn is_inside(f: Form) -> bool
    ensures { result ≡ is_inside f }
{
    INSIDE <= routine::digit_of(SHAPES, f)
}

// Whether c stands where child c of node i must, `has` being 1 where the node has it and else 0: right before the subtree of the next child,
// whose lowest node is `low`, where there is one more, else right before the node. A `pick` in place of the product becomes a jump on x86-64.
fn stands(has: usize, more: bool, c: u16, i: usize, low: u16) -> bool
    requires { (has ≤ 1) × (i < 65536) }
    ensures { result ≡ stands_by has more c i low }
{
    usize::from(c) + has == pick(more, usize::from(low), has * i)
}

// Whether the children x, y and z of node i stand where they must, q and r being the lowest nodes under the second and the third.
fn is_placed(f: Form, i: usize, x: u16, y: u16, z: u16, q: u16, r: u16) -> bool
    requires { i < 65536 }
    ensures { result ≡ placed (shape_of f) i x y z q r }
{
    let a = children_of(f);
    let shape = routine::digit_of(SHAPES, f);
    let first = stands((a + 3) / 4, 2 <= a, x, i, q);
    let second = stands(a / 2, 3 <= a, y, i, r);
    let third = stands((a + 1) / 4, false, z, i, 0);
    first & ((second & third) | (shape == NUMBER)) & (shape != NOTHING)
}

// Whether node i keeps the layout, q and r being the lowest nodes under its second and third child.
fn keeps(d: Node, i: usize, q: u16, r: u16) -> bool
    requires { i < 65536 }
    ensures { result ≡ keeps_node d i q r }
{
    let f = d.form;
    is_placed(f, i, d.first, d.second, d.third, q, r) & takes_arg(f, d.arg)
}

// The places of a form, from its children's; a part inside the form has one more. Where it has one child or two, the bytes of the others are 0,
// and node 0 has no places. The second child is compared last: most often it is the node just before, and its entry comes the latest.
fn places_of(f: Form, first: u16, second: u16, third: u16) -> usize
    ensures { result ≡ places_by f first second third }
{
    let inside = pick(is_inside(f), 1, 0);
    let most = (usize::from(first) + 1)
        .max(usize::from(third))
        .max(usize::from(second) + inside);
    pick(1 <= children_of(f), most, 0)
}

// What is told of a node that was passed: the lowest node of its subtree, and the subtree's places.
#[derive(Clone, Copy)]
struct Subtree {
    low: u16,
    places: u16,
}

// Tells of node i in the table, which tells of the nodes before it, or refuses the node where it breaks the layout.
#[inline(always)]
fn tell(b: &[u8], i: usize, table: &mut [Subtree]) -> Result<(), Refusal>
    requires { (node_start (i + 1) ≤ length b.now) × (i < 4096) × (i < length table.old) × Covers (length table.old) i
        × ((j : ℕ) → j < i → Passed b.now table.old j) }
    ensures passed { OnOk result ((j : ℕ) → j < i + 1 → Passed b.now table.new j) }
    ensures breaks { IfErr result (λ r. (r ≡ Refusal.Layout i) × ((e : Expr) → ¬ TreeAt b.now i e)) }
{
    let d = routine::node_at(b, i);
    let f = d.form;
    let first = entry(table, d.first);
    let second = entry(table, d.second);
    let third = entry(table, d.third);
    if !keeps(d, i, second.low, third.low) {
        return Err(Refusal::Layout(i as u16));
    }
    let low = pick(1 <= children_of(f), first.low, i as u16);
    let places = places_of(f, first.places, second.places, third.places) as u16;
    table[i] = Subtree { low, places };
    Ok(())
}

const MOST_PLACES: u16 = 256;

// Refusals 7 to 9 of a routine whose first six bytes are right, in one pass over the nodes; the table has room for them. Each size is a function of its
// own: in one, with their loops inlined, the three would be short of registers.
#[inline(never)]
fn lay<const N: usize>(b: &[u8], n: usize) -> Result<(), Refusal>
    requires { Headed b.now × (n ≡ count b.now) × (n ≤ N) × (N ≤ 4096) × Covers N n }
    ensures { LaidSays b.now result }
{
    let mut table = [Subtree { low: 0, places: 0 }; N];
    for i in 0..n {
        tell(b, i, &mut table)?;
    }
    let root = table[n - 1];
    if root.low != 0 {
        Err(Refusal::Forest)
    } else if MOST_PLACES < root.places {
        Err(Refusal::Places)
    } else {
        Ok(())
    }
}

// A small row gets a small table: clearing the large one would cost more than the pass. A const argument can't be computed, hence three calls.
fn layout(b: &[u8], n: usize) -> Result<(), Refusal>
    requires { Headed b.now × (n ≡ count b.now) }
    ensures { LaidSays b.now result }
{
    if n <= 64 {
        lay::<64>(b, n)
    } else if n <= 512 {
        lay::<512>(b, n)
    } else {
        lay::<4096>(b, n)
    }
}

// Refusals 1 to 9, or the routine that the bytes hold.
pub fn open(b: &[u8]) -> Result<Routine<'_>, Refusal>
    ensures opening { Opening b.now (opened_of result) }
    ensures itself { IfOk result (λ row. row ≡ b.now) }
{
    let sizes = read_head(b)?;
    layout(b, sizes.nodes)?;
    Ok(Routine::of(b, sizes))
}
