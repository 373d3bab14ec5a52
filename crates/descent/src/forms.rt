// The forms, each as it is read: its parts and its own node behind theirs.

ghost use Rattle.std.specs.Prelude.{◌≡◌, ◌≤◌, length, get_or};
ghost use Rattle.stored.specs.Stored.{node_bytes};
ghost use Rattle.routine.specs.Forms.{kind_of};

use crate::Room;
use crate::text::{Leaf, Text};
use routine::Form;

// A text that is read, a slice for the nodes, and how many nodes stand in it.
#[derive(Drop)]
pub(crate) struct Descent<'t, 'n> {
    pub(crate) text: Text<'t>,
    pub(crate) nodes: &'n mut [u8],
    pub(crate) count: usize,
    ghost few: { length nodes.now ≤ 32768 },
}

// The eight bytes of a node: its form, the small argument, and the numbers of its children or, in bytes 4-7, its own number.
#[inline(always)]
fn node_bytes(form: Form, arg: u8, parts: [u16; 3]) -> [u8; 8]
    ensures { result ≡ node_bytes (kind_of form) arg (get_or parts 0 0) (get_or parts 1 0) (get_or parts 2 0) }
{
    let [first, second, third] = parts;
    let [a, b] = first.to_be_bytes();
    let [c, d] = second.to_be_bytes();
    let [e, f] = third.to_be_bytes();
    [form as u8, arg, a, b, c, d, e, f]
}

// Each form answers the number of its root.
impl Descent<'_, '_> {
    ghost use Rattle.std.specs.Prelude.{◌<◌};
    ghost use Rattle.stored.specs.Stored.{bytes_from};
    ghost use Rattle.text_form.specs.Parser as p;
    ghost use Rattle.descent.specs.Found.{left, expr_of, Noding, Reads};
    ghost use Rattle.descent.specs.Forms.{cap_of, part_of, if_of, while_of, assign_of, sides_of};

    // A node more, where there is room for it, and its number.
    #[inline(always)]
    fn put(&mut self, form: Form, arg: u8, parts: [u16; 3]) -> Option<u16>
        ensures { Noding self.old (node_bytes (kind_of form) arg (get_or parts 0 0) (get_or parts 1 0) (get_or parts 2 0)) result self.new }
    {
        let n = self.count;
        if self.nodes.len() / 8 <= n {
            return None;
        }
        self.nodes[8 * n..8 * n + 8].copy_from_slice(&node_bytes(form, arg, parts));
        self.count = n + 1;
        Some(n as u16)
    }

    #[inline(always)]
    #[tactic(auto, unfolding(stored::specs::Stored::bytes_from))]
    fn put_leaf(&mut self, leaf: Leaf) -> Option<u16>
        ensures { Noding self.old (bytes_from self.old.count (expr_of leaf)) result self.new }
    {
        match leaf {
            Leaf::Integer(n) => {
                let u = n.cast_unsigned();
                self.put(
                    Form::Integer,
                    0,
                    [0, (u / 65536) as u16, (u % 65536) as u16],
                )
            }
            Leaf::Boolean(b) => self.put(Form::Boolean, u8::from(b), [0, 0, 0]),
            Leaf::Location(l) => self.put(Form::Deref, l, [0, 0, 0]),
            Leaf::Skip => self.put(Form::Skip, 0, [0, 0, 0]),
        }
    }

    // An expression without parts, and its node.
    #[tactic(auto, unfolding(text_form::specs::Parser::leaf))]
    fn leaf(&mut self) -> Option<u16>
        ensures { Reads self.old (p.leaf (cap_of self.old) self.old.count (left self.old.text)) result self.new }
    {
        let leaf = self.text.leaf()?;
        self.put_leaf(leaf)
    }

    // An expression behind a word.
    #[cycle(descent)]
    #[inline(always)]
    #[tactic(auto, unfolding(crate::specs::Forms::part_of))]
    fn part(&mut self, word: &[u8], room: Room) -> Option<u16>
        ensures { Reads self.old (part_of (p.parse (cap_of self.old) room.levels) word.now room.places self.old.count (left self.old.text)) result self.new }
    {
        self.text.word(word)?;
        self.expression(room)
    }

    // An if, from behind its bracket on, as the forms below; `room` is that of a part inside it.
    #[cycle(descent)]
    #[tactic(auto, unfolding(crate::specs::Forms::if_of, text_form::specs::Parser::besides))]
    fn if_form(&mut self, room: Room) -> Option<u16>
        requires { room.places < 18446744073709551615 }
        ensures { Reads self.old (if_of (cap_of self.old) (p.parse (cap_of self.old) room.levels) room.places self.old.count (left self.old.text)) result self.new }
    {
        let test = self.part(b"if ", room)?;
        let yes = self.part(b" then ", room.beside(Form::If))?;
        let no = self.part(b" else ", room.beside(Form::If))?;
        self.text.word(b")")?;
        self.put(Form::If, 0, [test, yes, no])
    }

    #[cycle(descent)]
    #[tactic(auto, unfolding(crate::specs::Forms::while_of))]
    fn while_form(&mut self, room: Room) -> Option<u16>
        ensures { Reads self.old (while_of (cap_of self.old) (p.parse (cap_of self.old) room.levels) room.places self.old.count (left self.old.text)) result self.new }
    {
        let test = self.part(b"while ", room)?;
        let body = self.part(b" do ", room)?;
        self.text.word(b" done)")?;
        self.put(Form::While, 0, [test, body, 0])
    }

    #[cycle(descent)]
    #[tactic(auto, unfolding(crate::specs::Forms::assign_of))]
    fn assign_form(&mut self, room: Room) -> Option<u16>
        ensures { Reads self.old (assign_of (cap_of self.old) (p.parse (cap_of self.old) room.levels) room.places self.old.count (left self.old.text)) result self.new }
    {
        self.text.word(b"l")?;
        let location = self.text.number(255)?;
        let value = self.part(b" := ", room)?;
        self.text.word(b")")?;
        self.put(Form::Assign, location as u8, [value, 0, 0])
    }

    // A form with two sides, which no byte tells before the first is read.
    #[cycle(descent)]
    #[tactic(auto, unfolding(crate::specs::Forms::sides_of))]
    fn sides(&mut self, room: Room) -> Option<u16>
        requires { room.places < 18446744073709551615 }
        ensures { Reads self.old (sides_of (cap_of self.old) (p.parse (cap_of self.old) room.levels) room.places self.old.count (left self.old.text)) result self.new }
    {
        let first = self.expression(room)?;
        let form = self.text.joint()?;
        let second = self.expression(room.beside(form))?;
        self.text.word(b")")?;
        self.put(form, 0, [first, second, 0])
    }

    #[cycle(descent)]
    pub(crate) fn expression(&mut self, room: Room) -> Option<u16>
        ensures { Reads self.old (p.parse (cap_of self.old) room.levels room.places self.old.count (left self.old.text)) result self.new }
    {
        let text = &mut self.text;
        if text.next() != Some(b'(') {
            return self.leaf();
        }
        let inside = room.inside()?;
        let text = &mut self.text;
        text.pass();
        match text.next() {
            Some(b'i') => self.if_form(inside),
            Some(b'w') => self.while_form(inside),
            Some(b'l') => self.assign_form(inside),
            _ => self.sides(inside),
        }
    }
}
