// Whether a text is of the form of 01, and where it leaves it, in fixed room: one pass forward at any nesting, with a scan backwards where the table of levels
// has run empty.

#![tactic(auto)]

ghost use Rattle.std.specs.Prelude.{◌≡◌, ◌+◌, ◌<◌, ◌≤◌, true, length};
ghost use Rattle.text_form.specs.Automaton.{natural, positive};
ghost use Rattle.form.specs.Levels.{back, levels, place_behind, levels_behind};
ghost use Rattle.form.specs.Places.{State, Stands, Byte, Spelled, Digits, Number, Leaf, Opens, Joins, Wanted, Follows, offset};
ghost use Rattle.form.specs.Table.{Kept, Outer, Pushes, Pops, Turns};
ghost use Rattle.form.specs.Verdicts.{Says};

// Where an expression stands in the form around it: what follows it is told by this.
#[derive(Clone, Copy)]
enum Level {
    Root,
    Left,
    Close,
    Test,
    Then,
    Turn,
    Body,
}

// A point of the pass: an expression at this level is to come at this byte, or is complete there.
#[derive(Clone, Copy)]
enum Point {
    Wants(usize, Level),
    Has(usize, Level),
}

// What begins where an expression is to come: one without parts up to this byte, or a form, with an expression at this level to come in it.
#[derive(Drop)]
enum Start {
    Value(usize),
    Opened(usize, Level),
}

// What goes on behind a complete expression: another is to come in its form, or the form ends, or the text.
#[derive(Drop)]
enum Next {
    Inside(usize, Level),
    Closed(usize),
    Ended,
}

// Each reading of a piece of the text answers where the piece ends, or the first byte that does not fit.

// The byte at i, for a piece that does not end before it.
fn byte(t: &[u8], i: usize) -> Result<u8, usize>
    requires { i ≤ length t.now }
    ensures { Byte t.now i result }
{
    t.get(i).copied().ok_or(i)
}

// The word w.
fn word(t: &[u8], i: usize, w: &[u8]) -> Result<usize, usize>
    requires { i ≤ length t.now }
    ensures { Spelled t.now i w.now result }
{
    for (j, b) in w.iter().enumerate() {
        if byte(t, i + j)? != *b {
            return Err(i + j);
        }
    }
    Ok(i + w.len())
}

// Digits, or none.
fn digits(t: &[u8], i: usize) -> usize
    requires { i ≤ length t.now }
    ensures { Digits t.now i result }
{
    for k in i..t.len() {
        if !t[k].is_ascii_digit() {
            return k;
        }
    }
    t.len()
}

// A number other than 0.
fn positive(t: &[u8], i: usize) -> Result<usize, usize>
    requires { i ≤ length t.now }
    ensures { Number positive t.now i result }
{
    match byte(t, i)? {
        b'1'..=b'9' => Ok(digits(t, i + 1)),
        _ => Err(i),
    }
}

// A number.
fn natural(t: &[u8], i: usize) -> Result<usize, usize>
    requires { i ≤ length t.now }
    ensures { Number natural t.now i result }
{
    match byte(t, i)? {
        b'0' => Ok(i + 1),
        _ => positive(t, i),
    }
}

// What finds the next point is inlined: the pass is compiled for each size of the table, and takes twice as long where both call the same functions.

// An expression without parts.
#[inline(always)]
fn leaf(t: &[u8], i: usize) -> Result<usize, usize>
    requires { i ≤ length t.now }
    ensures { Leaf t.now i result }
{
    match byte(t, i)? {
        b't' => word(t, i, b"true"),
        b'f' => word(t, i, b"false"),
        b's' => word(t, i, b"skip"),
        b'-' => positive(t, i + 1),
        b'!' => natural(t, word(t, i, b"!l")?),
        _ => natural(t, i),
    }
}

// The sign of an operator or a sequence, and the spaces round it.
fn joint(t: &[u8], i: usize) -> Result<usize, usize>
    requires { i ≤ length t.now }
    ensures { Joins t.now i result }
{
    let sign = word(t, i, b" ")?;
    match byte(t, sign)? {
        b'+' => word(t, sign, b"+ "),
        b'>' => word(t, sign, b">= "),
        _ => word(t, sign, b"; "),
    }
}

// Behind "(".
#[inline(always)]
fn opened_at(t: &[u8], i: usize) -> Result<Start, usize>
    requires { (i ≤ length t.now) × (back t.now i 1 ≡ 40) }
    ensures { Opens t.now i result }
{
    match byte(t, i)? {
        b'i' => Ok(Start::Opened(word(t, i, b"if ")?, Level::Test)),
        b'w' => Ok(Start::Opened(word(t, i, b"while ")?, Level::Turn)),
        b'l' => {
            let number_end = natural(t, i + 1)?;
            Ok(Start::Opened(word(t, number_end, b" := ")?, Level::Close))
        }
        _ => Ok(Start::Opened(i, Level::Left)),
    }
}

// Where an expression is to come.
#[inline(always)]
fn want_at(t: &[u8], i: usize) -> Result<Start, usize>
    requires { i ≤ length t.now }
    ensures { Wanted t.now i result }
{
    match byte(t, i)? {
        b'(' => opened_at(t, i + 1),
        _ => Ok(Start::Value(leaf(t, i)?)),
    }
}

// Where an expression at this level is complete.
#[inline(always)]
fn has_at(t: &[u8], i: usize, level: Level) -> Result<Next, usize>
    requires { State t.now i level true }
    ensures { Follows t.now i level result }
{
    match level {
        Level::Root if i < t.len() => Err(i),
        Level::Root => Ok(Next::Ended),
        Level::Left => Ok(Next::Inside(joint(t, i)?, Level::Close)),
        Level::Close => Ok(Next::Closed(word(t, i, b")")?)),
        Level::Test => Ok(Next::Inside(word(t, i, b" then ")?, Level::Then)),
        Level::Then => Ok(Next::Inside(word(t, i, b" else ")?, Level::Close)),
        Level::Turn => Ok(Next::Inside(word(t, i, b" do ")?, Level::Body)),
        Level::Body => Ok(Next::Closed(word(t, i, b" done)")?)),
    }
}

// The level of an expression, by the bytes before it: `(`, the end of `if `, `while `, `then ` or `do `, another space, or none.
fn place_at(before: &[u8]) -> Level
    ensures { result ≡ place_behind before.now }
{
    match before {
        [.., b'('] => Level::Left,
        [.., b'i', _, b' '] => Level::Test,
        [.., b'l', _, b' '] => Level::Turn,
        [.., b'e', _, b' '] => Level::Then,
        [.., b'd', _, b' '] => Level::Body,
        [.., b' '] => Level::Close,
        _ => Level::Root,
    }
}

// The bytes before the innermost bracket that is open behind these, none where none is open.
fn outer(before: &[u8]) -> &[u8]
    ensures { Outer before.now result.now }
{
    let mut closed: usize = 0;
    for i in (0..before.len()).rev() {
        match before[i] {
            b')' => closed += 1,
            b'(' if closed == 0 => return &before[..i],
            b'(' => closed -= 1,
            _ => {}
        }
    }
    &[]
}

// The levels of the innermost forms that are open, as many as are kept: the innermost last.
#[derive(Drop)]
struct Table<const N: usize> {
    levels: [Level; N],
    height: usize,
    ghost enough: { 2 ≤ N },
}

impl<const N: usize> Table<N> {
    // Half of the table anew, by one scan backwards: the other half is for the brackets to come.
    fn refill(&mut self, before: &[u8])
        ensures { Kept (levels_behind before.now) self.new.levels self.new.height × (0 < self.new.height) }
    {
        self.height = N / 2;
        let mut rest = before;
        for j in (0..N / 2).rev() {
            rest = outer(rest);
            self.levels[j] = place_at(rest);
        }
    }

    // The table with a level on it.
    fn ready(&mut self, before: &[u8])
        requires { Kept (levels_behind before.now) self.old.levels self.old.height }
        ensures { Kept (levels_behind before.now) self.new.levels self.new.height × (0 < self.new.height) }
    {
        if self.height == 0 {
            self.refill(before);
        }
    }

    // The innermost level, which is known by the bytes before where the table is empty.
    fn pop(&mut self, before: &[u8]) -> Level
        requires { Kept (levels_behind before.now) self.old.levels self.old.height }
        ensures { Pops (levels_behind before.now) result self.new.levels self.new.height }
    {
        self.ready(before);
        self.height -= 1;
        self.levels[self.height]
    }

    // A full table is begun anew.
    fn push(&mut self, level: Level)
        ensures { Pushes self.old.levels self.old.height level self.new.levels self.new.height }
    {
        if self.height < N {
            self.levels[self.height] = level;
            self.height += 1;
        } else {
            self.levels[0] = level;
            self.height = 1;
        }
    }
}

// The next point, or none at the end of the text.
#[inline(always)]
fn advance<const N: usize>(
    t: &[u8],
    point: Point,
    table: &mut Table<N>,
) -> Result<Option<Point>, usize>
    requires stands { Stands t.now point }
    requires kept { Kept (levels t.now (offset point)) table.old.levels table.old.height }
    ensures { Turns t.now (offset point) table.new.levels table.new.height result }
{
    match point {
        Point::Wants(i, level) => match want_at(t, i)? {
            Start::Value(end) => Ok(Some(Point::Has(end, level))),
            Start::Opened(inner, inner_level) => {
                table.push(level);
                Ok(Some(Point::Wants(inner, inner_level)))
            }
        },
        Point::Has(i, level) => match has_at(t, i, level)? {
            Next::Inside(next, next_level) => Ok(Some(Point::Wants(next, next_level))),
            Next::Closed(end) => Ok(Some(Point::Has(end, table.pop(&t[..i])))),
            Next::Ended => Ok(None),
        },
    }
}

// The pass, with a table of N levels.
fn pass<const N: usize>(t: &[u8]) -> Result<(), usize>
    requires { (2 ≤ N) × (N ≤ 65536) }
    ensures { Says t.now result }
{
    let mut point = Point::Wants(0, Level::Root);
    let mut table = Table {
        levels: [Level::Root; N],
        height: 0,
    };
    while let Some(next) = advance(t, point, &mut table)? {
        point = next;
    }
    Ok(())
}

// A short text gets a small table: clearing the large one would cost more than the pass, and a const argument can't be computed. The error is the offset where the text leaves the form.
pub fn form(t: &[u8]) -> Result<(), usize>
    ensures { Says t.now result }
{
    if t.len() <= 4096 {
        pass::<512>(t)
    } else {
        pass::<65536>(t)
    }
}
