// The degrees of the conditions of an accepted image.
#![tactic(auto)]

ghost use Rattle.std.specs.Prelude.{◌≡◌, List, [], ◌∷◌, ℕ, ◌≤◌, ◌<◌, length, get_or};
ghost use Rattle.model.specs.Bounds.{M};
ghost use Rattle.model.specs.Degrees.{pairs, condition_degree};
ghost use Rattle.model.specs.Image.{word_at, rule_at};
ghost use Rattle.degrees.specs.Tables.{numbers};
ghost use Rattle.condition_words.specs.Machine.{operator_of, stack_of};
ghost use Rattle.aggregation.specs.Stacks.{places};

use bounds::{INPUT_TERMS, RULES};
use condition_words::{AND_WORD, NOT_WORD, ROOM, TERM_WORD};
use degrees::Degrees;
use layout::CheckedImage;
use model::{Degree, Pair};
use std::marker::Model;

// A place for each rule's degree, and those that a condition needs.
pub const PLACES: usize = RULES + ROOM;

// The degrees of the subtrees that were read and stand under no operator yet, the last on top.
#[derive(Drop)]
struct Stack {
    degrees: Degrees<PLACES>,
    height: usize,
}

impl Model for Stack {
    ghost Value = { List ℕ };

    ghost view = { λ s. stack_of 0 (numbers s.degrees.at) s.height };

    ghost invariant = { λ s. s.height ≤ places };
}

impl Stack {
    fn new() -> Stack
        ensures { result ≡ [] }
    {
        Stack {
            degrees: Degrees::zeros(),
            height: 0,
        }
    }

    fn push(&mut self, d: Degree)
        requires { (length self.old < places) × (d.0 ≤ M) }
        ensures { self.new ≡ d.0 ∷ self.old }
    {
        self.degrees.set(self.height, d);
        self.height += 1;
    }

    fn pop(&mut self) -> Degree
        requires { 0 < length self.old }
        ensures { (self.old ≡ result.0 ∷ self.new) × (result.0 ≤ M) }
    {
        self.height -= 1;
        self.degrees.get(self.height)
    }

    // All of them, the first in place 0.
    fn degrees(self) -> Degrees<PLACES>
        ensures { stack_of 0 (numbers result.at) (length self) ≡ self }
    {
        self.degrees
    }
}

// What the word w for AND or OR makes of its operands.
fn joined(w: usize, p: Pair, a: Degree, b: Degree) -> Degree
    requires { (a.0 ≤ M) × (b.0 ≤ M) }
    ensures { (result.0 ≡ pairs p (operator_of w) a.0 b.0) × (result.0 ≤ M) }
{
    match w {
        AND_WORD => degrees::and(p, a, b),
        _ => degrees::or(p, a, b),
    }
}

// The degree of each rule's condition, in rule order, by the degrees of the input terms. The words of all conditions
// stand one behind the other, each condition's in postfix, so one pass with a stack leaves them there.
pub fn condition_degrees(
    image: &CheckedImage,
    ds: &Degrees<INPUT_TERMS>,
    p: Pair,
) -> Degrees<PLACES>
    ensures { (i : ℕ) → i < image.now.stored.header.rules.rows → get_or (numbers result.at) i 0
        ≡ condition_degree p (numbers ds.now.at) (rule_at (word_at image.now.stored.bytes.now) i).condition }
{
    let stored = &image.stored;
    let words = stored.header.words;
    let mut stack = Stack::new();
    for i in 0..words.rows {
        let w = stored.word(words.row(i));
        if w >= TERM_WORD {
            stack.push(ds.get(w - TERM_WORD));
        } else if w == NOT_WORD {
            let a = stack.pop();
            stack.push(degrees::not(a));
        } else {
            let b = stack.pop();
            let a = stack.pop();
            stack.push(joined(w, p, a, b));
        }
    }
    stack.degrees()
}
