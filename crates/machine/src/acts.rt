// One act of the machine: a move of the search for the next place of work, a step of the rules, or a sum out of range.
//
// `seek` tells three cases of an operand apart, which needs no table of jumps, where `load` has four: docs/PERFORMANCE.md says what this gives.
ghost use Rattle.std.specs.Prelude.{◌≡◌, Some, ◌*◌, ◌<◌, ◌≤◌, length};
ghost use Rattle.l1.specs.Syntax.{Ty, ty_int};
ghost use Rattle.l1.specs.Typing.{◌⊢◌∶◌};
ghost use Rattle.l1.specs.Measures.{size};
ghost use Rattle.stored.specs.Layout.{kind};
ghost use Rattle.stored.specs.Reader.{tree_at};
ghost use Rattle.stored.specs.Refusals.{locations, count, env};
ghost use Rattle.routine.specs.Forms.{form_of};
ghost use Rattle.machine.specs.Contexts.{fill, left_to_search};
ghost use Rattle.machine.specs.State.{expr_of, Busy, Seen, takes_of, context_of, Held, redex, HeldUnder, search_at};
ghost use Rattle.machine.specs.Acts.{made_by, turned_by, last_rule, Went, Stepped, Loaded, Gone, Sought, Summed};

use crate::state::{Act, Machine, Next, Place, Rule, Turn, Work, number, truth};
use routine::{Form, Routine};

// 1 for a step, 0 for a move of the search.
fn made(rule: Option<Rule>) -> u64
    ensures { (result ≡ made_by rule) × (result < 2) }
{
    u64::from(rule.is_some())
}

// 1 for a step by `while`.
fn turned(rule: Option<Rule>) -> u64
    ensures { (result ≡ turned_by rule) × (result < 2) }
{
    u64::from(rule == Some(Rule::While))
}

fn last_rule(rule: Option<Rule>, before: Option<Rule>) -> Option<Rule>
    ensures { result ≡ last_rule rule before }
{
    rule.or(before)
}

// The work is the node c, or its value where it is a literal: a literal must be a value before the search goes on.
pub fn load(row: &Routine<'_>, c: u32) -> Work
    requires { c < count row.now }
    ensures { Loaded row.now c result }
{
    match row.form(c) {
        Form::Integer => Work::Int(row.integer(c)),
        Form::Boolean => Work::Bool(row.arg(c) == 1),
        Form::Skip | Form::Unknown => Work::Skip,
        _ => Work::Node(c),
    }
}

// The turn of an act that leaves the work x.
fn comes_to(x: Work, act: Act, rule: Option<Rule>) -> Turn
    ensures { (result.work ≡ x) × (result.act ≡ act) × (result.rule ≡ rule) }
{
    Turn { work: x, act, rule }
}

// The work goes to the node c, under the place that is pushed.
fn down(row: &Routine<'_>, c: u32, top: Place, rule: Option<Rule>) -> Turn
    requires { c < count row.now }
    ensures { Gone row.now c (Act.Push top) rule result }
{
    comes_to(load(row, c), Act::Push(top), rule)
}

// The work goes to the node c by a step that leaves no place of its own.
fn leap(row: &Routine<'_>, c: u32, rule: Rule) -> Turn
    requires { c < count row.now }
    ensures { Gone row.now c Act.Rest (Some rule) result }
{
    comes_to(load(row, c), Act::Rest, Some(rule))
}

// The search goes to the operand c, and reads it at once where it is a dereference: the step that the search would come to next. An operand has the
// type int, and so is no other literal than an integer.
fn seek(row: &Routine<'_>, s: &[i32], c: u32, top: Place) -> Turn
    requires { (c < count row.now) × (locations row.now ≤ length s.now) × (env row.now ⊢ tree_at row.now c ∶ ty_int) }
    ensures { Sought row.now s.now c top result }
{
    match row.form(c) {
        Form::Deref => {
            let l = usize::from(row.arg(c));
            comes_to(Work::Int(s[l]), Act::Push(top), Some(Rule::Deref))
        }
        Form::Integer => comes_to(Work::Int(row.integer(c)), Act::Push(top), None),
        _ => comes_to(Work::Node(c), Act::Push(top), None),
    }
}

// A node that is no literal: the search goes to its first part, but a dereference and a while make a step.
fn at_node(row: &Routine<'_>, s: &[i32], i: u32) -> Turn
    requires { (i < count row.now) × Busy (form_of (kind row.now i)) × (locations row.now ≤ length s.now) × ((T : Ty) × (env row.now ⊢ tree_at row.now i ∶ T)) }
    ensures { Went row.now (2 * size (tree_at row.now i)) (tree_at row.now i) s.now result.work result.act result.rule }
{
    match row.form(i) {
        Form::Plus => seek(row, s, row.first(i), Place::PlusLeft(i)),
        Form::Geq => seek(row, s, row.first(i), Place::GeqLeft(i)),
        Form::If => down(row, row.first(i), Place::Test(i), None),
        Form::Assign => seek(row, s, row.first(i), Place::Store(u32::from(row.arg(i)))),
        Form::Seq => down(row, row.first(i), Place::First(row.second(i)), None),
        Form::While => down(row, row.first(i), Place::Again(i), Some(Rule::While)),
        Form::Deref => {
            let l = usize::from(row.arg(i));
            comes_to(Work::Int(s[l]), Act::Rest, Some(Rule::Deref))
        }
        Form::Integer | Form::Boolean | Form::Skip | Form::Unknown => comes_to(
            Work::Skip,
            Act::Rest,
            None,
        ),
    }
}

// A sum at the node i: a number, or an overflow.
fn plus_at(i: u32, l: i32, v: i32) -> Turn
    ensures { Summed i l v result }
{
    match sums::add(l, v) {
        Some(z) => comes_to(Work::Int(z), Act::Rest, Some(Rule::Plus)),
        None => comes_to(Work::Skip, Act::Over(i), None),
    }
}

// A value in the place on top.
fn at_value(row: &Routine<'_>, s: &[i32], f: Place, x: Work) -> Turn
    requires { (takes_of x ≡ 1) × Held row.now f × (locations row.now ≤ length s.now) × ((T : Ty) × (env row.now ⊢ fill (context_of row.now f) (expr_of row.now x) ∶ T)) }
    ensures { Went row.now (left_to_search (context_of row.now f)) (fill (context_of row.now f) (expr_of row.now x)) s.now result.work result.act result.rule }
{
    match f {
        Place::PlusLeft(i) => seek(row, s, row.second(i), Place::PlusRight(i, number(x))),
        Place::GeqLeft(i) => seek(row, s, row.second(i), Place::GeqRight(i, number(x))),
        Place::PlusRight(i, l) => plus_at(i, l, number(x)),
        Place::GeqRight(_, l) => comes_to(
            Work::Bool(sums::geq(l, number(x))),
            Act::Rest,
            Some(Rule::Geq),
        ),
        Place::Test(i) => {
            if truth(x) {
                leap(row, row.second(i), Rule::IfTrue)
            } else {
                leap(row, row.third(i), Rule::IfFalse)
            }
        }
        Place::Again(i) => {
            if truth(x) {
                down(row, row.second(i), Place::First(i), Some(Rule::IfTrue))
            } else {
                comes_to(Work::Skip, Act::Rest, Some(Rule::IfFalse))
            }
        }
        Place::Store(l) => {
            let v = number(x);
            comes_to(Work::Skip, Act::Write(l, v), Some(Rule::Assign))
        }
        Place::First(j) => leap(row, j, Rule::Seq),
        Place::Blank => comes_to(Work::Skip, Act::Rest, None),
    }
}

// One act at the work x, f being the place on top where x is a value.
fn act_at(row: &Routine<'_>, s: &[i32], f: Place, x: Work) -> Turn
    requires { Seen row.now x × HeldUnder row.now x f × (locations row.now ≤ length s.now) × ((T : Ty) × (env row.now ⊢ redex row.now x f ∶ T)) }
    ensures { Went row.now (search_at row.now x f) (redex row.now x f) s.now result.work result.act result.rule }
{
    match x {
        Work::Node(i) => at_node(row, s, i),
        _ => at_value(row, s, f, x),
    }
}

impl Machine {
    // One act: a move of the search, a step, or an overflow. The store is not written here: the act says what is to be written.
    pub fn step(self, f: Place, row: &Routine<'_>, s: &[i32]) -> Next
        requires stands { Seen row.now self.work × HeldUnder row.now self.work f × (locations row.now ≤ length s.now) × ((T : Ty) × (env row.now ⊢ redex row.now self.work f ∶ T)) }
        requires steps_bound { (self.steps < 8589934592) × (self.loops < 8589934592) }
        ensures { Stepped row.now (search_at row.now self.work f) (redex row.now self.work f) s.now self result }
    {
        let turn = act_at(row, s, f, self.work);
        Next {
            to: Machine {
                work: turn.work,
                steps: self.steps + made(turn.rule),
                loops: self.loops + turned(turn.rule),
                rule: last_rule(turn.rule, self.rule),
            },
            act: turn.act,
        }
    }
}
