// The words of conditions in postfix, the forms of conditions, and passes over such words with a stack.
#![tactic(auto)]

ghost use Rattle.std.specs.Prelude.{◌≡◌, ◌-◌, ltb};
ghost use Rattle.condition_words.specs.Forms.{number, negated};

use bounds::DEPTH;

// Condition words: the operators, and the first input term; the others follow it.
pub const NOT_WORD: usize = 0;

pub const AND_WORD: usize = 1;

pub const OR_WORD: usize = 2;

pub const TERM_WORD: usize = 16;

// The forms of conditions, from tight to loose.
#[derive(Clone, Copy, PartialEq, Eq, PartialOrd, Ord)]
pub enum Form {
    Term,
    NotTerm,
    Not,
    And,
    Or,
}

impl Form {
    // Of a NOT in front of a condition of this form.
    pub fn negated(self) -> Form
        ensures { result ≡ negated self }
    {
        match self {
            Form::Term => Form::NotTerm,
            _ => Form::Not,
        }
    }

    // The next tighter one.
    pub fn tighter(self) -> Form
        ensures { number result ≡ number self - 1 }
    {
        match self {
            Form::Term | Form::NotTerm => Form::Term,
            Form::Not => Form::NotTerm,
            Form::And => Form::Not,
            Form::Or => Form::And,
        }
    }

    // Whether a condition of this form is looser than the other.
    pub fn is_looser(self, other: Form) -> bool
        ensures { result ≡ ltb (number other) (number self) }
    {
        other < self
    }
}

// Places for operands: no condition of eight parentheses needs more.
pub const ROOM: usize = 2 * DEPTH + 3;
