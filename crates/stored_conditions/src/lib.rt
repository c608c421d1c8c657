// Which words of an image are a condition: one pass with a stack of forms and depths.
#![tactic(auto)]

ghost use Rattle.std.specs.Prelude.{◌≡◌, ◌+◌, ◌*◌, ◌≤◌, length, is_some};
ghost use Rattle.model.specs.Image.{word_at};
ghost use Rattle.condition_words.specs.Machine.{step};
ghost use Rattle.condition_stack.specs.Shapes.{shapes, held, view};
ghost use Rattle.condition_stack.specs.Stored.{condition_stored};

use condition_stack::Stack;
use condition_words::{AND_WORD, Form, NOT_WORD, OR_WORD, TERM_WORD};
use words::whole_word;

// The word w, where there are m terms.
#[tactic(auto, unfolding(condition_words::specs::Machine::step))]
fn step(stack: &mut Stack, m: usize, w: usize) -> Option<()>
    ensures { view stack.new.shapes stack.new.height (is_some result) ≡ step (shapes m) w (held stack.old.shapes stack.old.height) }
{
    // Most words are terms.
    if TERM_WORD <= w {
        if w - TERM_WORD < m {
            return stack.push(Form::Term, 0);
        }
        return None;
    }
    match w {
        NOT_WORD => stack.negate(),
        AND_WORD => stack.join(Form::And, Form::Not),
        OR_WORD => stack.join(Form::Or, Form::And),
        _ => None,
    }
}

// Whether the n words from place d on are a condition over the first m terms.
pub fn stored_condition(img: &[u8], d: usize, n: usize, m: usize) -> bool
    requires { (m ≤ 4294967295) × ((d + n) * 4 ≤ length img.now) }
    ensures { result ≡ condition_stored (word_at img.now) d n m }
{
    let mut stack = Stack::new();
    for i in 0..n {
        if step(&mut stack, m, whole_word(img, d + i)).is_none() {
            return false;
        }
    }
    stack.height == 1
}
