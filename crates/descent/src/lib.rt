// Reads a text of the form by descent: the tree that stands at a byte, its nodes in post-order into a lent slice, or nothing.
//
// What is refused of a text is not told here: the descent only finds the trees that a routine can hold, and does it in one pass.

#![tactic(auto)]

ghost use Rattle.std.specs.Prelude.{◌≡◌, ◌+◌, ◌*◌, ◌/◌, ◌≤◌, ◌<◌, ◌⊎◌, length, drop, IfSome, MatchOption};
ghost use Rattle.routine.specs.Forms.{kind_of};
ghost use Rattle.text_form.specs.Parser as p;
ghost use Rattle.descent.specs.Found.{Reading};

mod forms;
mod text;

use crate::forms::Descent;
use crate::text::Text;
use routine::Form;

// How far the reading is: the next byte of the text and the next node.
#[derive(Clone, Copy)]
pub struct Place {
    pub at: usize,
    pub node: usize,
}

// How much an expression may hold: so many brackets inside one another, and so many places, by the count of 02's request 2.
#[derive(Clone, Copy)]
pub struct Room {
    pub levels: usize,
    pub places: usize,
}

impl Room {
    // What is left for a part inside a form.
    pub(crate) fn inside(self) -> Option<Room>
        ensures { MatchOption result ((self.levels ≡ 0) ⊎ (self.places ≡ 0)) (λ r. (self.levels ≡ r.levels + 1) × (self.places ≡ r.places + 1)) }
    {
        Some(Room {
            levels: self.levels.checked_sub(1)?,
            places: self.places.checked_sub(1)?,
        })
    }

    // What is left for the second part of a form, or the third: a branch of an if and the second part of a sequence are worked in the form's own
    // place, so they may have one more.
    #[tactic(auto, unfolding(text_form::specs::Parser::besides))]
    pub(crate) fn beside(self, form: Form) -> Room
        requires { self.places < 18446744073709551615 }
        ensures { (result.levels ≡ self.levels) × (result.places ≡ p.besides self.places (kind_of form)) }
    {
        match form {
            Form::If | Form::Seq => Room {
                levels: self.levels,
                places: self.places + 1,
            },
            _ => self,
        }
    }
}

// The expression from a place on, with the room that it may take, and the place behind it.
pub fn expression(t: &[u8], from: Place, room: Room, nodes: &mut [u8]) -> Option<Place>
    requires { (from.at ≤ length t.now) × (length nodes.old ≤ 32768) }
    ensures { Reading t.now nodes.old from.node (p.parse (length nodes.old / 8) room.levels room.places from.node (drop from.at t.now)) nodes.new result }
{
    let text = Text {
        bytes: t,
        at: from.at,
    };
    let mut descent = Descent {
        text,
        nodes,
        count: from.node,
    };
    descent.expression(room)?;
    Some(Place {
        at: descent.text.at,
        node: descent.count,
    })
}
