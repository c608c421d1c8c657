// The operators of a stored condition: how each is printed, and the form of a condition, by which it is parenthesised.
#![tactic(auto)]

ghost use Rattle.std.specs.Prelude.{◌≡◌, ◌*◌, ◌≤◌, length};
ghost use Rattle.model.specs.Parentheses.{rank};
ghost use Rattle.model.specs.Image.{word_at};
ghost use Rattle.model.specs.Listing.{operator as operatorText};
ghost use Rattle.condition_words.specs.Forms.{number};
ghost use Rattle.condition_words.specs.Machine.{operator_of};
ghost use Rattle.listing_writer.specs.Prepends.{Writes};
ghost use Rattle.operator_listing.specs.Spans.{Forms};

use condition_words::{AND_WORD, Form, NOT_WORD, TERM_WORD};
use listing_writer::Listing;
use words::whole_word;

pub fn operator_form(w: usize) -> Form
    ensures { number result ≡ rank (operator_of w) }
{
    if w == AND_WORD { Form::And } else { Form::Or }
}

pub fn operator(out: &mut Listing, w: usize)
    ensures { Writes (operatorText (operator_of w)) out.old out.new }
{
    if w == AND_WORD {
        out.puts(b" AND ");
    } else {
        out.puts(b" OR ");
    }
}

// The form of the condition that ends before word e: its last two words tell it.
pub fn form(img: &[u8], e: usize) -> Form
    requires { e * 4 ≤ length img.now }
    ensures { Forms (word_at img.now) e (number result) }
{
    if e < 1 {
        return Form::Term;
    }
    match whole_word(img, e - 1) {
        TERM_WORD.. => Form::Term,
        NOT_WORD if 2 <= e && TERM_WORD <= whole_word(img, e - 2) => Form::NotTerm,
        NOT_WORD => Form::Not,
        w => operator_form(w),
    }
}
