// The stack of a pass over a condition's words: of each subtree its form and its depth.
#![tactic(auto)]

ghost use Rattle.std.specs.Prelude.{◌≡◌, ℕ, ◌+◌, ◌≤◌, ◌<◌, length, is_some, [], ltb};
ghost use Rattle.model.specs.Block.{Op};
ghost use Rattle.model.specs.Parentheses.{bare_right, opened};
ghost use Rattle.condition_words.specs.Forms.{number, operator};
ghost use Rattle.condition_words.specs.Machine.{added, unary, binary, room};
ghost use Rattle.condition_stack.specs.Shapes.{shape, shapes, held, view};

use bounds::DEPTH;
use condition_words::{Form, ROOM};

// What is kept of a subtree: its form, and how many parentheses are open at once in it.
#[derive(Clone, Copy)]
pub struct Shape {
    pub form: Form,
    pub depth: u8,
}

impl Shape {
    // How many are open where `bare` is the loosest form that stands bare: a looser one is in parentheses.
    fn opened(&self, bare: Form) -> usize
        ensures { result ≡ opened (number bare) (number self.now.form) self.now.depth }
    {
        usize::from(self.depth) + usize::from(self.form.is_looser(bare))
    }
}

// The subtrees that no operator has taken yet.
#[derive(Drop)]
pub struct Stack {
    pub shapes: [Shape; ROOM],
    pub height: usize,
    pub ghost within: { height ≤ room },
}

impl Stack {
    #[tactic(auto, unfolding(condition_words::specs::Machine::stack_of))]
    pub fn new() -> Stack
        ensures { held result.shapes result.height ≡ [] }
    {
        let term = Shape {
            form: Form::Term,
            depth: 0,
        };
        Stack {
            shapes: [term; ROOM],
            height: 0,
        }
    }

    // A subtree in the place `height`, as the last one.
    #[tactic(auto, using(condition_words::proofs::Stacks::stack_push, condition_words::proofs::Stacks::length_stack), unfolding(condition_words::specs::Machine::added))]
    fn put(&mut self, height: usize, form: Form, depth: usize) -> Option<()>
        requires { height < room }
        ensures { (m : ℕ) → view self.new.shapes self.new.height (is_some result) ≡ added (shapes m) (shape form depth) (held self.old.shapes height) }
    {
        if depth <= DEPTH {
            self.shapes[height] = Shape {
                form,
                depth: depth as u8,
            };
            self.height = height + 1;
            Some(())
        } else {
            None
        }
    }

    // One more subtree. A step answers None where the words are no condition.
    #[tactic(auto, using(condition_words::proofs::Stacks::length_stack), unfolding(condition_words::specs::Machine::added))]
    pub fn push(&mut self, form: Form, depth: usize) -> Option<()>
        ensures { (m : ℕ) → view self.new.shapes self.new.height (is_some result) ≡ added (shapes m) (shape form depth) (held self.old.shapes self.old.height) }
    {
        if self.height < ROOM {
            self.put(self.height, form, depth)
        } else {
            None
        }
    }

    #[tactic(auto, using(condition_words::proofs::Stacks::stack_one), unfolding(condition_words::specs::Machine::stack_of, condition_words::specs::Machine::unary, crate::specs::Shapes::negated_shape))]
    pub fn negate(&mut self) -> Option<()>
        ensures { (m : ℕ) → view self.new.shapes self.new.height (is_some result) ≡ unary (shapes m) (held self.old.shapes self.old.height) }
    {
        if self.height == 0 {
            return None;
        }
        let last = self.height - 1;
        let shapes = &self.shapes;
        let a = &shapes[last];
        let (form, depth) = (a.form.negated(), a.opened(Form::NotTerm));
        self.put(last, form, depth)
    }

    // An operator of this form, right of which forms up to `right` stand bare; left of it those up to its own.
    #[tactic(auto, using(condition_words::proofs::Stacks::stack_two, crate::proofs::Steps::one_operand), unfolding(condition_words::specs::Machine::binary, crate::specs::Shapes::joined_shape))]
    pub fn join(&mut self, form: Form, right: Form) -> Option<()>
        ensures { (m : ℕ) (o : Op) → form ≡ operator o → number right ≡ bare_right o
            → view self.new.shapes self.new.height (is_some result) ≡ binary (shapes m) o (held self.old.shapes self.old.height) }
    {
        if self.height < 2 {
            return None;
        }
        let first = self.height - 2;
        let shapes = &self.shapes;
        let (a, b) = (&shapes[first], &shapes[first + 1]);
        let depth = a.opened(form).max(b.opened(right));
        self.put(first, form, depth)
    }
}
