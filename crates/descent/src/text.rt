// A text as it is read, and the pieces of it that have no parts.

ghost use Rattle.std.specs.Prelude.{◌≤◌, length};

use routine::Form;

// A text, and how far it is read.
#[derive(Drop)]
pub(crate) struct Text<'a> {
    pub(crate) bytes: &'a [u8],
    pub(crate) at: usize,
    ghost inside: { at ≤ length bytes.now },
}

// An expression without parts.
#[derive(Clone, Copy)]
pub(crate) enum Leaf {
    Integer(i32),
    Boolean(bool),
    Location(u8),
    Skip,
}

// The digit that no other follows: a 0 in front is a number alone.
const LONE_DIGIT: u8 = b'0';

impl Text<'_> {
    ghost use Rattle.std.specs.Prelude.{◌≡◌, ◌<◌, false, IfSome, MatchOption, unwrap_or, get_or, drop};
    ghost use Rattle.routine.specs.Forms.{kind_of};
    ghost use Rattle.text_form.specs.Digits.{digit};
    ghost use Rattle.text_form.specs.Parser as p;
    ghost use Rattle.descent.specs.Found.{left, expr_of, Found, TwoSides};

    // The next byte, and the one behind it.
    pub(crate) fn next(&self) -> Option<u8>
        ensures { unwrap_or result 256 ≡ p.front (left self.now) }
    {
        self.bytes.get(self.at).copied()
    }

    fn after_next(&self) -> Option<u8>
        ensures { unwrap_or result 256 ≡ get_or (left self.now) 1 256 }
    {
        self.bytes.get(self.at + 1).copied()
    }

    // The next byte, if it is a digit.
    fn digit(&self) -> Option<u8>
        ensures { MatchOption result (digit (p.front (left self.now)) ≡ false) (λ c. (p.front (left self.now) ≡ c) × (48 ≤ c) × (c ≤ 57)) }
    {
        match self.next() {
            Some(c @ b'0'..=b'9') => Some(c),
            _ => None,
        }
    }

    pub(crate) fn pass(&mut self)
        requires { self.old.at < length self.old.bytes.now }
        ensures text { self.new.bytes.now ≡ self.old.bytes.now }
        ensures left { left self.new ≡ drop 1 (left self.old) }
    {
        self.at += 1;
    }

    // A word. A call of `starts_with` stays a call, and the descent then takes a twelfth longer.
    #[inline(always)]
    pub(crate) fn word(&mut self, w: &[u8]) -> Option<()>
        ensures text { self.new.bytes.now ≡ self.old.bytes.now }
        ensures found { Found (p.behind w.now (left self.old)) result (λ _. left self.new) }
    {
        if self.bytes.len() - self.at < w.len() {
            return None;
        }
        for j in 0..w.len() {
            if self.bytes[self.at + j] != w[j] {
                return None;
            }
        }
        self.at += w.len();
        Some(())
    }

    // A number without leading zeros and not over the bound.
    #[inline(always)]
    pub(crate) fn number(&mut self, bound: u32) -> Option<u32>
        ensures text { self.new.bytes.now ≡ self.old.bytes.now }
        ensures found { Found (p.number bound (left self.old)) result (λ n. p.number_of n (left self.new)) }
        ensures small { IfSome result (λ n. n ≤ bound) }
    {
        if self.next() == Some(LONE_DIGIT) {
            self.at += 1;
            return Some(0);
        }
        let start = self.at;
        let mut value = 0u64;
        while let Some(c) = self.digit() {
            value = 10 * value + u64::from(c - b'0');
            if u64::from(bound) < value {
                return None;
            }
            self.at += 1;
        }
        if self.at == start {
            return None;
        }
        Some(value as u32)
    }

    // An expression without parts. Behind a minus no 0 stands, and -n is -1 - (n - 1).
    #[inline(always)]
    #[tactic(auto, unfolding(text_form::specs::Parser::leaf_of, text_form::specs::Parser::word_leaf, text_form::specs::Parser::plain, text_form::specs::Parser::minus, text_form::specs::Parser::deref))]
    pub(crate) fn leaf(&mut self) -> Option<Leaf>
        ensures text { self.new.bytes.now ≡ self.old.bytes.now }
        ensures found { Found (p.leaf_of (left self.old)) result (λ l. p.leaf_with (expr_of l) (left self.new)) }
    {
        match self.next() {
            Some(b'!') => {
                self.word(b"!l")?;
                let l = self.number(255)?;
                Some(Leaf::Location(l as u8))
            }
            Some(b'-') => {
                self.at += 1;
                let n = self.number(2147483648)?;
                let k = n.checked_sub(1)?;
                Some(Leaf::Integer(-1 - k as i32))
            }
            Some(b't') => {
                self.word(b"true")?;
                Some(Leaf::Boolean(true))
            }
            Some(b'f') => {
                self.word(b"false")?;
                Some(Leaf::Boolean(false))
            }
            Some(b's') => {
                self.word(b"skip")?;
                Some(Leaf::Skip)
            }
            _ => {
                let n = self.number(2147483647)?;
                Some(Leaf::Integer(n as i32))
            }
        }
    }

    // What stands between two sides, by its sign.
    #[inline(always)]
    #[tactic(auto, unfolding(text_form::specs::Parser::sides_joint, text_form::specs::Parser::word_joint))]
    pub(crate) fn joint(&mut self) -> Option<Form>
        ensures text { self.new.bytes.now ≡ self.old.bytes.now }
        ensures found { Found (p.sides_joint (left self.old)) result (λ f. p.joint_with (kind_of f) (left self.new)) }
        ensures sides { IfSome result TwoSides }
    {
        match self.after_next() {
            Some(b'+') => {
                self.word(b" + ")?;
                Some(Form::Plus)
            }
            Some(b'>') => {
                self.word(b" >= ")?;
                Some(Form::Geq)
            }
            _ => {
                self.word(b" ; ")?;
                Some(Form::Seq)
            }
        }
    }
}
