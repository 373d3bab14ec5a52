// The archive of the check and the run, for C and Rust to call: `exports` under C's names. `rigvanesh.h`, beside `exports`, says in C's words what they are.

#![tactic(auto)]

ghost use Rattle.exports.specs.Says.{SaysCheck, SaysRun};

use exports::Answer;

// The words of out: the type, W, the read set and the write set.
#[unsafe(no_mangle)]
pub extern "C" fn rigvanesh_check(b: &[u8], out: &mut [u64; 4]) -> Answer
    ensures { SaysCheck b.now out.old result out.new }
{
    exports::rigvanesh_check(b, out)
}

// The words of out: the kind of ending, its value or node, T and K.
#[unsafe(no_mangle)]
pub extern "C" fn rigvanesh_run(b: &[u8], s: &mut [i32], fuel: u32, out: &mut [u64; 4]) -> Answer
    ensures { SaysRun b.now s.old fuel out.old result out.new s.new }
{
    exports::rigvanesh_run(b, s, fuel, out)
}
