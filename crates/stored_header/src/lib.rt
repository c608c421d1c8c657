// The header of a stored image, and its names: whether they are laid out as a block's.
#![tactic(auto)]

ghost use Rattle.std.specs.Prelude.{◌≡◌, ◌+◌, ◌*◌, ◌≤◌, ltb, eqb, length, if◌then◌else◌};
ghost use Rattle.model.specs.Basic.{every};
ghost use Rattle.model.specs.Image.{word_at, word_bytes, header_size};
ghost use Rattle.layout.specs.Tables.{name_exact, header_ok};
ghost use Rattle.header.specs.Header.{Heads};
ghost use Rattle.stored_header.specs.Tests.{pad_run, offset_tests, code_tests};

use header::Header;
use words::whole_word;

// Letters up to a zero byte of a word: nothing but zeros behind them where the word is below a.
fn pad_from(x: usize, a: usize) -> usize
    ensures { result ≡ if ltb x a then 1 else 2 }
{
    if x < a {
        return 1;
    }
    2
}

// One word more of a name that has been letters so far.
fn first_pad(x: usize) -> usize
    ensures { result ≡ pad_run 0 (word_bytes x) }
{
    if x % 256 == 0 {
        return pad_from(x, 1);
    }
    if x / 256 % 256 == 0 {
        return pad_from(x, 256);
    }
    if x / 65536 % 256 == 0 {
        return pad_from(x, 65536);
    }
    if x / 16777216 == 0 {
        return 1;
    }
    0
}

fn pad_word(m: usize, x: usize) -> usize
    ensures { result ≡ pad_run m (word_bytes x) }
{
    if m == 0 {
        return first_pad(x);
    }
    if x == 0 {
        return m;
    }
    2
}

// A name of 16 bytes, zero padded, that starts at o.
pub fn name_exact(img: &[u8], o: usize) -> bool
    requires { (o + 4) * 4 ≤ length img.now }
    ensures { result ≡ name_exact (word_at img.now) o }
{
    let a = pad_word(0, whole_word(img, o));
    let b = pad_word(a, whole_word(img, o + 1));
    let c = pad_word(b, whole_word(img, o + 2));
    pad_word(c, whole_word(img, o + 3)) <= 1
}

// The layout, each table where the one before it ends, and the total.
#[tactic(auto, unfolding(model::specs::Basic::every))]
fn offsets_ok(img: &[u8], h: Header) -> bool
    requires { Heads (word_at img.now) h × (header_size * 4 ≤ length img.now) }
    ensures { result ≡ every (offset_tests (word_at img.now) h) }
{
    whole_word(img, header::LAYOUT)
        == header::layout_word(h.rules.rows, h.words.rows, h.conclusions.rows)
        && h.inputs.start == header::SIZE
        && h.outputs.start == h.inputs.row(h.inputs.rows)
        && h.terms.start == h.outputs.row(h.outputs.rows)
        && h.points.start == h.terms.row(h.terms.rows)
        && h.rules.start == h.points.row(h.points.rows)
        && h.words.start == h.rules.row(h.rules.rows)
        && h.conclusions.start == h.words.row(h.words.rows)
        && whole_word(img, header::TOTAL) == h.conclusions.row(h.conclusions.rows)
}

// Pair, ACCU, ACT, the spare word and the two names.
#[tactic(auto, unfolding(model::specs::Basic::every))]
fn codes_ok(img: &[u8]) -> bool
    requires { header_size * 4 ≤ length img.now }
    ensures { result ≡ every (code_tests (word_at img.now)) }
{
    whole_word(img, header::PAIR) <= header::LAST_PAIR
        && whole_word(img, header::ACCU) <= header::LAST_ACCU
        && whole_word(img, header::ACT) <= header::LAST_ACT
        && whole_word(img, header::SPARE) == 0
        && name_exact(img, header::BLOCK_NAME)
        && name_exact(img, header::RULE_BLOCK_NAME)
}

pub fn header_ok(img: &[u8], h: Header) -> bool
    requires { Heads (word_at img.now) h × (length img.now ≡ word_at img.now 1 * 4)
        × (header_size * 4 ≤ length img.now) }
    ensures { result ≡ header_ok (word_at img.now) }
{
    offsets_ok(img, h) && codes_ok(img)
}
