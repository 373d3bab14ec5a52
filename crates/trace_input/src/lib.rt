// What `trace` makes of its input: a refusal, or the routine, the fuel and the values.

#![tactic(auto)]

ghost use Rattle.std.specs.Prelude.{◌≡◌, length};
ghost use Rattle.stored.specs.Refusals.{locations, routine};
ghost use Rattle.stored.specs.Trace.{fuel_in, store_in};
ghost use Rattle.trace_input.specs.Says.{RoutineEnd, TakenSays};

use checker::admission::Lent;
use routine::{Program, Refusal};
use std::marker::Model;

// An input of which nothing is refused: a routine that may be run, the fuel, and the values. To a clause it is the input.
#[derive(Drop)]
pub struct Taken<'a> {
    input: &'a [u8],
    program: Program<'a>,
}

impl<'a> Model for Taken<'a> {
    ghost use Rattle.std.specs.Prelude.{◌≡◌, ℕ, List};
    ghost use Rattle.stored.specs.Refusals.{routine};
    ghost use Rattle.trace_input.specs.Admitted.{Admitted};

    ghost Value = { List ℕ };

    ghost view = { λ t. t.input.now };

    ghost invariant = { λ t. Admitted t.input.now × (t.program ≡ routine t.input.now) };
}

impl<'a> Taken<'a> {
    pub fn program(&self) -> &Program<'a>
        ensures { result.now ≡ routine self.now }
    {
        &self.program
    }

    pub fn fuel(&self) -> u32
        ensures { result ≡ fuel_in self.now }
    {
        routine::four_at(self.input, routine_end(self.input))
    }

    // Fills the store, which has m entries, with the values.
    pub fn fill(&self, s: &mut [i32])
        requires { length s.old ≡ locations (routine self.now) }
        ensures { s.new ≡ store_in self.now }
    {
        routine::values_at(self.input, routine_end(self.input) + 4, s)
    }
}

// "It reads at most 33,035 bytes; what follows them is never looked at."
const LOOKED_AT: usize = 33035;

// Where the routine ends: 2 + L bytes, or where the input or what is looked at of it ends.
pub fn routine_end(input: &[u8]) -> usize
    ensures { RoutineEnd input.now result }
{
    let end = input.len().min(LOOKED_AT);
    if end < 2 {
        return end;
    }
    end.min(2 + usize::from(routine::pair_at(input, 0)))
}

// Refusals 1 to 9, 20 to 23 and 40, or what the run needs.
pub fn take_in(input: &[u8]) -> Result<Taken<'_>, Refusal>
    ensures { TakenSays input.now result }
{
    let end = routine_end(input);
    let rest = input.len().min(LOOKED_AT) - end;
    let row = checker::admission::admit(&input[..end], Lent::Input(rest))?;
    Ok(Taken {
        input,
        program: row.program,
    })
}
