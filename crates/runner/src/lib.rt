// Runs a stored routine on a lent store with fuel: refusals 1 to 9, 20 to 23 and 30, else the outcome with T and K.

#![tactic(auto)]

ghost use Rattle.std.specs.Prelude.{◌≤◌, length, Ok};
ghost use Rattle.stored.specs.Refusals.{locations};
ghost use Rattle.stored.specs.Answers.{Runs};
ghost use Rattle.runner.specs.Says.{ran_of};

use checker::admission::{self, Lent};
use machine::{Ending, Pending};
use routine::{Program, Refusal};

// How a run ended, with T and K.
#[derive(Drop)]
pub struct End {
    pub ending: Ending,
    pub steps: u64,
    pub loops: u64,
}

// The run of a routine that has a type, on a store that has its locations.
fn run_typed(program: &Program<'_>, s: &mut [i32], fuel: u32) -> End
    requires { locations program.now ≤ length s.old }
    ensures { Runs program.now s.old fuel (ran_of (Ok result)) s.new }
{
    let row = program.row();
    let mut pending = Pending::new();
    let stand = machine::go_on(row, &mut pending, machine::start(row), s, u64::from(fuel));
    End {
        ending: stand.ending,
        steps: stand.machine.steps,
        loops: stand.machine.loops,
    }
}

// The run. A refusal changes no entry of the store.
pub fn run(b: &[u8], s: &mut [i32], fuel: u32) -> Result<End, Refusal>
    ensures { Runs b.now s.old fuel (ran_of result) s.new }
{
    let row = admission::admit(b, Lent::Store(s.len()))?;
    Ok(run_typed(&row.program, s, fuel))
}
