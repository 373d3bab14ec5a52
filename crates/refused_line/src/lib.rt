// The line of a refusal, as the programs print it.

#![tactic(auto)]

ghost use Rattle.std.specs.Prelude.{◌≡◌, ◌+◌, ◌≤◌, length};
ghost use Rattle.stored.specs.Trace.{refused_line};
ghost use Rattle.node_text.specs.Pages.{Puts};

use node_text::Page;
use routine::Refuses;

// The number of the refusal, and what it also returns.
#[tactic(auto, using(node_text::proofs::NumberLengths::few_digits))]
pub fn put_refusal<R: Refuses>(r: R, page: &mut Page<'_>)
    requires { page.old.at + 64 ≤ length page.old.room.now }
    ensures { Puts page.old (refused_line (R.refusal r)) page.new × (page.new.at ≤ page.old.at + 64) }
{
    page.text(b"refused ");
    page.decimal(r.number());
    if let Some(i) = r.also() {
        page.text(b" at ");
        page.decimal(i);
    }
    page.byte(b'\n');
}
