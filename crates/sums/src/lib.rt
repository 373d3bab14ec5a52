// The two operators on integers of 32 bits: a sum that never wraps, and the comparison; and the number without its sign.

#![tactic(auto)]

ghost use Rattle.std.specs.Prelude.{◌≡◌, nat_abs};
ghost use Rattle.std.specs.Int.Signed.{le_z};
ghost use Rattle.sums.specs.Sum.{sum_of};

// None: the sum is out of range.
pub fn add(a: i32, b: i32) -> Option<i32>
    ensures { result ≡ sum_of a b }
{
    a.checked_add(b)
}

pub fn geq(a: i32, b: i32) -> bool
    ensures { result ≡ le_z b a }
{
    a >= b
}

// A number without its sign, in 64 bits, where that of the lowest has room too.
pub fn magnitude(n: i32) -> u64
    ensures { result ≡ nat_abs n }
{
    u64::from(n.unsigned_abs())
}
