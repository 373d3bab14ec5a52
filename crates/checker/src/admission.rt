// The admission of a row: opening, types, and then what is lent with it. The run, the text and `trace` ask here first.
ghost use Rattle.checker.specs.Admits.{LentSays, AdmissionSays};

use super::Told;
use routine::{Program, Refusal};

// What is lent: nothing, a store of so many entries, or so many bytes of input after the routine. Nothing is one of three answers, not the lack of one.
#[derive(Clone, Copy)]
pub enum Lent {
    Nothing,
    Store(usize),
    Input(usize),
}

// A row that is not refused: the routine, which may be run, and what its nodes tell.
#[derive(Drop)]
pub struct Row<'a> {
    pub program: Program<'a>,
    pub told: Told,
}

// Whether what is lent does for m locations, or the refusal where it does not.
fn suffices(lent: Lent, m: u8) -> Result<(), Refusal>
    ensures { LentSays lent m result }
{
    let m = usize::from(m);
    match lent {
        Lent::Store(entries) if entries < m => Err(Refusal::Store),
        Lent::Input(after) if after != 4 + 4 * m => Err(Refusal::Input),
        _ => Ok(()),
    }
}

pub fn admit(b: &[u8], lent: Lent) -> Result<Row<'_>, Refusal>
    ensures { AdmissionSays b.now lent result }
{
    let row = opener::open(b)?;
    let told = super::check_row(&row)?;
    suffices(lent, row.locations())?;
    Ok(Row {
        program: Program::of(row),
        told,
    })
}
