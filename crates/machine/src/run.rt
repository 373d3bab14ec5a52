// The run: its first moment, and on from a moment to a limit of steps.
//
// The loop in `go_on` starts with a test of the work and no subtraction, and it writes the store last, when the fewest numbers are still wanted:
// docs/PERFORMANCE.md says what these give.
ghost use Rattle.std.specs.Prelude.{◌≡◌, ◌+◌, ◌-◌, ◌<◌, ◌≤◌, length};
ghost use Rattle.l1.specs.Store.{Store};
ghost use Rattle.l1.specs.Run.{Yields, answer};
ghost use Rattle.stored.specs.Refusals.{count};
ghost use Rattle.routine.specs.Open.{root_of};
ghost use Rattle.machine.specs.State.{outcome_of};
ghost use Rattle.machine.specs.Moment.{meaning, Moment};
ghost use Rattle.machine.specs.Acts.{Loaded};

use crate::acts::load;
use crate::state::{Act, Ending, Frame, Machine, Pending, Work, end_of};
use routine::Routine;

// Where a run stands when it ends or its fuel is spent; the places are in what was lent.
#[derive(Drop)]
pub struct Stand {
    pub ending: Ending,
    pub machine: Machine,
}

// The machine before the first step.
pub fn start(row: &Routine<'_>) -> Machine
    ensures { Loaded row.now (count row.now - 1) result.work × (result.steps ≡ 0) × (result.loops ≡ 0) × (result.rule ≡ None) }
{
    Machine {
        work: load(row, row.root()),
        steps: 0,
        loops: 0,
        rule: None,
    }
}

// On from a moment until the run ends or has made `limit` steps in all.
pub fn go_on(
    row: &Routine<'_>,
    pending: &mut Pending,
    mut machine: Machine,
    s: &mut [i32],
    limit: u64,
) -> Stand
    requires { (limit < 4294967296) × (machine.steps ≤ limit) × ((s₀ : Store) × Moment row.now s₀ s.old pending.old machine) }
    ensures { (s₀ : Store) → Moment row.now s₀ s.old pending.old machine → Moment row.now s₀ s.new pending.new result.machine × Yields limit (root_of row.now) s₀ (answer (outcome_of result.ending) result.machine.steps result.machine.loops (meaning row.now pending.new result.machine) s.new) }
{
    let ending = loop {
        let at = match machine.work {
            Work::Node(_) => pending.height,
            _ if pending.height == 0 => break end_of(machine.work),
            _ => pending.height - 1,
        };
        let next = machine.step(pending.frames[at].place, row, s);
        let spent = limit < next.to.steps;
        match next.act {
            Act::Over(node) => break Ending::Overflow(node),
            Act::Push(place) => {
                if spent {
                    break Ending::Fuel;
                }
                pending.frames[at] = Frame { place };
                pending.height = at + 1;
            }
            Act::Rest => {
                if spent {
                    break Ending::Fuel;
                }
                pending.height = at;
            }
            Act::Write(l, n) => {
                if spent {
                    break Ending::Fuel;
                }
                pending.height = at;
                s[l as usize] = n;
            }
        }
        machine = next.to;
    };
    Stand { ending, machine }
}
