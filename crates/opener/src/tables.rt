// Tables with an entry for each node. What is asked of each node is asked without a jump on its form: see `routine::digit_of`.
ghost use Rattle.std.specs.Prelude.{◌≡◌, ◌<◌, cond, length};
ghost use Rattle.opener.specs.Tables.{under};

pub fn pick<T: Drop>(t: bool, a: T, b: T) -> T
    ensures { result ≡ cond t a b }
{
    if t { a } else { b }
}

// The entry of child j, read under a mask: where the node has no such child, j may be half of an integer, and a test whether it stands
// past the table's end could not be foreseen.
pub fn entry<T>(table: &[T], j: u16) -> &T
    requires { 0 < length table.now }
    ensures { (none : _) → result.now ≡ under none table.now j }
{
    &table[usize::from(j) & (table.len() - 1)]
}
