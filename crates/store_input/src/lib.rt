// What `store` takes in: the text in its input, and the bytes of the fuel and of each value.

#![tactic(auto)]

ghost use Rattle.std.specs.Prelude.{◌≡◌};
ghost use Rattle.node_text.specs.Pages.{Puts, Fits};
ghost use Rattle.store_input.specs.Taken.{text_in, four_bytes};

use node_text::Page;

// The text: a line end behind it is the file's.
pub fn text_of(input: &[u8]) -> &[u8]
    ensures { result.now ≡ text_in input.now }
{
    input.strip_suffix(b"\n").unwrap_or(input)
}

// A number in four bytes, as `trace` reads it.
pub fn put_four(x: u32, page: &mut Page<'_>)
    requires { Fits page.old (four_bytes x) }
    ensures { Puts page.old (four_bytes x) page.new }
{
    page.text(&x.to_be_bytes());
}
