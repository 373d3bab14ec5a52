// The check and the run, as C and Rust call them through the archive of `exports_c`; the text stands in exported_text, reading and writing in exported_reading. `rigvanesh.h` says in C's words what they are.

#![tactic(auto)]

ghost use Rattle.std.specs.Prelude.{◌≡◌};
ghost use Rattle.exports.specs.Says.{SaysCheck, SaysRun, answer_of, refuses, ending_no, ending_word};

use machine::Ending;
use routine::Refuses;

// 01's number of a refusal and what it also returns; 0 and 0 where nothing is refused. It is returned, and not lent, so that a refusal changes
// nothing of what is lent.
#[repr(C)]
#[derive(Drop)]
pub struct Answer {
    pub number: u64,
    pub also: u64,
}

pub const ACCEPTED: Answer = Answer { number: 0, also: 0 };

// The answer for a refusal, whatever is refused. C has no Option: where a number returns nothing else, it is told 0.
pub fn refused<R: Refuses>(r: R) -> Answer
    ensures { result ≡ answer_of (refuses (R.refusal r)) }
{
    Answer {
        number: r.number(),
        also: r.also().unwrap_or(0),
    }
}

// The words of out: the type, W, the read set and the write set.
pub fn rigvanesh_check(b: &[u8], out: &mut [u64; 4]) -> Answer
    ensures { SaysCheck b.now out.old result out.new }
{
    match checker::check(b) {
        Err(r) => refused(r),
        Ok(told) => {
            *out = [told.ty as u64, told.working as u64, told.reads, told.writes];
            ACCEPTED
        }
    }
}

// C has no enum with values: how a run ended is a number, and its value or its node a word.
fn ending_of(e: Ending) -> u64
    ensures { result ≡ ending_no e }
{
    match e {
        Ending::Int(_) => 0,
        Ending::Bool(_) => 1,
        Ending::Skip => 2,
        Ending::Overflow(_) => 3,
        Ending::Fuel => 4,
    }
}

fn word_of(e: Ending) -> u64
    ensures { result ≡ ending_word e }
{
    match e {
        Ending::Int(n) => u64::from(n.cast_unsigned()),
        Ending::Bool(t) => u64::from(t),
        Ending::Overflow(i) => u64::from(i),
        Ending::Skip | Ending::Fuel => 0,
    }
}

// The words of out: the kind of ending, its value or node, T and K.
pub fn rigvanesh_run(b: &[u8], s: &mut [i32], fuel: u32, out: &mut [u64; 4]) -> Answer
    ensures { SaysRun b.now s.old fuel out.old result out.new s.new }
{
    match runner::run(b, s, fuel) {
        Err(r) => refused(r),
        Ok(end) => {
            *out = [
                ending_of(end.ending),
                word_of(end.ending),
                end.steps,
                end.loops,
            ];
            ACCEPTED
        }
    }
}
