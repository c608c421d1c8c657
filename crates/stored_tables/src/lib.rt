// The tables of inputs, outputs, terms and points of a stored image, with its header: whether they are laid out as a
// block's.
#![tactic(auto)]

ghost use Rattle.std.specs.Prelude.{◌≡◌, ◌+◌, ◌*◌, ◌-◌, ◌≤◌, ◌<◌, length, Bool, ℕ, eqb, is_some, IfSome};
ghost use Rattle.std.specs.List.{list_all, range_with_len};
ghost use Rattle.model.specs.Basic.{every};
ghost use Rattle.model.specs.Bounds.{M};
ghost use Rattle.model.specs.Image.{word_at, header_size, point_place};
ghost use Rattle.layout.specs.Tables.{sums, term_count, input_terms_in, output_terms_in, input_rows};
ghost use Rattle.layout.specs.Groups.{tables_ok};
ghost use Rattle.header.specs.Header.{Heads};
ghost use Rattle.stored_tables.specs.Tests.{up_to, output_rows_from, term_rows_to, output_term_rows_from, term_tests};

use header::{Header, Stored};
use layout::Laid;
use std::ops::Range;
use stored_header::header_ok;
use stored_rows::{input_ok, output_ok, singleton_ok, term_ok};

// The number that these rows of a table go up to, where each is laid out with the number before which the last one
// ends: is_laid tells whether a row is, and count how many numbers a row takes.
fn end_of<T: Fn(usize, usize) -> bool, C: Fn(usize) -> usize>(
    rows: Range<usize>,
    first: usize,
    is_laid: T,
    count: C,
) -> Option<usize>
    requires small { (first ≤ 4294967295) × (rows.start ≤ rows.end) × (rows.end ≤ 4294967295) }
    requires asks { (i n : ℕ) → i < rows.end → T.pre is_laid i n }
    requires counts { (i : ℕ) → i < rows.end → C.pre count i }
    requires counts_small { (i n : ℕ) → i < rows.end → C.post count i n → n ≤ 4294967295 }
    ensures value { (t : ℕ → ℕ → Bool) (c : ℕ → ℕ) → ((i n : ℕ) (b : Bool) → i < rows.end → T.post is_laid i n b → b ≡ t i n)
        → ((i n : ℕ) → i < rows.end → C.post count i n → n ≡ c i) → result ≡ up_to t c (rows.end - rows.start) rows.start first }
    ensures small { IfSome result (λ n. n ≤ 18446744069414584320) }
{
    let mut next = first;
    for i in rows.start..rows.end {
        if !is_laid(i, next) {
            return None;
        }
        next += count(i);
    }
    Some(next)
}

// The number of the inputs' terms.
fn input_rows(image: &Stored) -> Option<usize>
    ensures laid { is_some result ≡ input_rows (word_at image.now.bytes.now) }
    ensures counted { IfSome result (λ n. n ≡ input_terms_in (word_at image.now.bytes.now)) }
{
    let inputs = image.header.inputs;
    end_of(
        0..inputs.rows,
        0,
        |i, first| input_ok(image, i, first),
        |i| image.word(inputs.row(i) + header::INPUT_TERMS),
    )
}

// The number that the outputs' terms go up to, from first on.
fn output_rows(image: &Stored, first: usize) -> Option<usize>
    requires { first ≤ 4294967295 }
    ensures laid { is_some result ≡ output_rows_from (word_at image.now.bytes.now) first }
    ensures counted { IfSome result (λ n. n ≡ first + output_terms_in (word_at image.now.bytes.now)) }
{
    let outputs = image.header.outputs;
    end_of(
        0..outputs.rows,
        first,
        |i, first| output_ok(image, i, first),
        |i| image.word(outputs.row(i) + header::OUTPUT_TERMS),
    )
}

// The number of points of the first n terms, which are those of the inputs.
fn term_rows(image: &Stored, n: usize) -> Option<usize>
    requires { n ≤ image.now.header.terms.rows }
    ensures laid { is_some result ≡ term_rows_to (word_at image.now.bytes.now) n }
    ensures counted { IfSome result (λ p. p ≡ sums (term_count (word_at image.now.bytes.now)) n 0) }
    ensures small { IfSome result (λ p. p ≤ 18446744069414584320) }
{
    let terms = image.header.terms;
    end_of(
        0..n,
        0,
        |i, first| term_ok(image, i, first),
        |i| image.word(terms.row(i) + header::TERM_POINTS),
    )
}

// n terms from s on, of one point each, the first of which is point q.
fn singleton_rows(image: &Stored, s: usize, n: usize, q: usize) -> bool
    requires { (s + n ≤ image.now.header.terms.rows) × (q ≤ 4294967295) }
    ensures { result ≡ output_term_rows_from (word_at image.now.bytes.now) n s q }
{
    end_of(s..s + n, q, |i, first| singleton_ok(image, i, first), |_| 1).is_some()
}

// The n points from s on are of degree 1.
fn singleton_points(image: &Stored, s: usize, n: usize) -> bool
    requires { s + n ≤ image.now.header.points.rows }
    ensures { result ≡ list_all (λ i. eqb (word_at image.now.bytes.now (point_place (word_at image.now.bytes.now) i + 1)) M) (range_with_len s n) }
{
    (s..s + n).all(|i| image.word(image.header.points.row(i) + header::POINT_DEGREE) == bounds::M)
}

// The terms and points of k input terms and n output terms.
#[tactic(auto, unfolding(model::specs::Basic::every))]
fn terms_ok(image: &Stored, k: usize, n: usize) -> bool
    requires { k + n ≤ image.now.header.terms.rows }
    ensures { result ≡ every (term_tests (word_at image.now.bytes.now) k n) }
{
    let Some(points) = term_rows(image, k) else {
        return false;
    };
    image.header.points.rows == points + n
        && singleton_rows(image, k, n, points)
        && singleton_points(image, points, n)
}

#[tactic(auto, unfolding(model::specs::Basic::every, layout::specs::Groups::tables_ok, layout::specs::Tables::output_rows, layout::specs::Tables::input_term_rows, layout::specs::Tables::output_term_rows, layout::specs::Tables::output_point_rows))]
pub fn tables_ok(img: &[u8], h: Header) -> Option<Laid>
    requires { Heads (word_at img.now) h × (length img.now ≡ word_at img.now 1 * 4)
        × (header_size * 4 ≤ length img.now) }
    ensures accepted { is_some result ≡ tables_ok (word_at img.now) }
    ensures same { IfSome result (λ l. (l.stored.bytes.now ≡ img.now) × (l.stored.header ≡ h)) }
    ensures small { IfSome result (λ l. l.input_terms ≤ 4294967295) }
{
    if !header_ok(img, h) {
        return None;
    }
    let stored = Stored {
        bytes: img,
        header: h,
    };
    let input_terms = input_rows(&stored)?;
    // so that the totals of the outputs fit in 64 bits
    if h.terms.rows < input_terms {
        return None;
    }
    if output_rows(&stored, input_terms)? != h.terms.rows {
        return None;
    }
    if !terms_ok(&stored, input_terms, h.terms.rows - input_terms) {
        return None;
    }
    Some(Laid {
        stored,
        input_terms,
    })
}
