// The text of a stored condition. Its words are read from the last to the first, each operator before its operands, so
// parentheses are known before they are written; a chain of equal operators is a loop.
#![tactic(auto)]

ghost use Rattle.std.specs.Prelude.{◌≡◌, ◌*◌, ◌≤◌, length};
ghost use Rattle.model.specs.Block.{neg};
ghost use Rattle.model.specs.Parentheses.{form as form_of};
ghost use Rattle.model.specs.Image.{word_at, decode};
ghost use Rattle.model.specs.Listing.{input_term_name, wrapped, condition_text};
ghost use Rattle.condition_words.specs.Forms.{number};
ghost use Rattle.condition_listing.specs.Writes.{WritesCondition};

use condition_words::{Form, NOT_WORD, TERM_WORD};
use layout::CheckedImage;
use listing_writer::Listing;
use operator_listing::{form, operator, operator_form};
use subcondition_listing::term;

// The condition that ends before word e, in parentheses if its form is looser than l; where it starts.
#[cycle(condition_negation_operand)]
fn operand(out: &mut Listing, image: &CheckedImage, e: usize, l: Form) -> usize
    requires { e * 4 ≤ length image.now.stored.bytes.now }
    ensures writes { WritesCondition (word_at image.now.stored.bytes.now)
        (λ c. wrapped (number l) (form_of c) (condition_text (input_term_name (decode (word_at image.now.stored.bytes.now))) c))
        e result out.old out.new }
    ensures within { result ≤ e }
    ensures same_buffer { out.new.bytes.ghost_name ≡ out.old.bytes.ghost_name }
{
    if !form(image.stored.bytes, e).is_looser(l) {
        return condition(out, image, e);
    }
    out.puts(b")");
    let first = condition(out, image, e);
    out.puts(b"(");
    first
}

// NOT of the condition that ends before word e; over a term it stands after IS.
#[cycle(condition_negation_operand)]
fn negation(out: &mut Listing, image: &CheckedImage, e: usize) -> usize
    requires { e * 4 ≤ length image.now.stored.bytes.now }
    ensures writes { WritesCondition (word_at image.now.stored.bytes.now)
        (λ c. condition_text (input_term_name (decode (word_at image.now.stored.bytes.now))) (neg c))
        e result out.old out.new }
    ensures within { result ≤ e }
    ensures same_buffer { out.new.bytes.ghost_name ≡ out.old.bytes.ghost_name }
{
    if e < 1 {
        return 0;
    }
    let last = image.stored.word(e - 1);
    if TERM_WORD <= last {
        term(out, image, last - TERM_WORD, b" IS NOT ");
        return e - 1;
    }
    let first = operand(out, image, e, Form::NotTerm);
    out.puts(b"NOT ");
    first
}

// The condition that ends before word e. Left of an operator its own form stands bare, right of it the next tighter.
#[cycle(condition_negation_operand)]
pub fn condition(out: &mut Listing, image: &CheckedImage, e: usize) -> usize
    requires { e * 4 ≤ length image.now.stored.bytes.now }
    ensures writes { WritesCondition (word_at image.now.stored.bytes.now)
        (condition_text (input_term_name (decode (word_at image.now.stored.bytes.now))))
        e result out.old out.new }
    ensures within { result ≤ e }
    ensures same_buffer { out.new.bytes.ghost_name ≡ out.old.bytes.ghost_name }
{
    let mut d = e;
    while 0 < d {
        let w = image.stored.word(d - 1);
        if TERM_WORD <= w {
            term(out, image, w - TERM_WORD, b" IS ");
            return d - 1;
        }
        if w == NOT_WORD {
            return negation(out, image, d - 1);
        }
        let own = operator_form(w);
        let middle = operand(out, image, d - 1, own.tighter());
        operator(out, w);
        if form(image.stored.bytes, middle).is_looser(own) {
            return operand(out, image, middle, own);
        }
        d = middle;
    }
    d
}
