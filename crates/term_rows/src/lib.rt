// The tables of terms and points of an image, row by row from the tables that a text is read into. slots: the places of
// the terms there, in the order of the image.
#![tactic(auto)]

ghost use Rattle.std.specs.Prelude.{◌≡◌, ℕ, ◌+◌, ◌*◌, ◌≤◌, ◌<◌, length, get_or};
ghost use Rattle.model.specs.Bounds.{point_limit, input_term_limit, output_term_limit, all_term_limit};
ghost use Rattle.model.specs.Image.{term_width, point_width};
ghost use Rattle.word_writer.specs.Over.{Wrote};
ghost use Rattle.variable_rows.specs.Rows.{InText, Places, rows, onward};
ghost use Rattle.term_rows.specs.Rows.{TermsNamed, SingletonsNamed, term_size, held_in, term_words, term_rows, singleton_words, singleton_rows, point_row, point_rows, singleton_points};

use block_tables::{Singleton, Term};
use model::Point;
use variable_rows::{crisp_word, name_words};

// The degree 1 as a word.
const ONE: u32 = bounds::M as u32;

// How many points the terms in these places have together.
pub fn point_count(terms: &[Term; bounds::INPUT_TERMS], slots: &[usize]) -> usize
    requires { Places input_term_limit slots.now × ((k : ℕ) → term_size terms.now k ≤ point_limit) }
    ensures { (result ≡ held_in terms.now slots.now (length slots.now)) × (result ≤ length slots.now * point_limit) }
{
    let mut n = 0;
    for k in slots {
        n += terms[*k].count;
    }
    n
}

fn term_row(s: &[u8], v: &Term, first: usize) -> [u32; header::TERM_WIDTH]
    requires { InText s.now v.now.start v.now.end × (first ≤ input_term_limit * point_limit)
        × (v.now.count ≤ point_limit) }
    ensures { result ≡ term_words s.now v.now first }
{
    let w = name_words(s, v.start, v.end);
    [w[0], w[1], w[2], w[3], first as u32, v.count as u32]
}

// Kept: a loop for each table, as in variable_rows; a trait of rows is longer than the loops.
pub fn term_table(
    s: &[u8],
    terms: &[Term; bounds::INPUT_TERMS],
    slots: &[usize],
    out: &mut [u8],
    at: usize,
) -> usize
    requires { Places input_term_limit slots.now × ((k : ℕ) → term_size terms.now k ≤ point_limit) × TermsNamed s.now terms.now
        × ((at + length slots.now * term_width) * 4 ≤ length out.old) }
    ensures wrote { Wrote at result (term_rows s.now terms.now slots.now (length slots.now)) out.old out.new }
    ensures next { result ≡ at + length slots.now * term_width }
{
    let mut first = 0;
    let mut p = at;
    for k in slots {
        let v = &terms[*k];
        p = word_writer::copy(&term_row(s, v, first), out, p);
        first += v.count;
    }
    p
}

fn singleton_row(s: &[u8], v: Singleton, first: usize) -> [u32; header::TERM_WIDTH]
    requires { InText s.now v.start v.end × (first ≤ all_term_limit * point_limit) }
    ensures { result ≡ singleton_words s.now v first }
{
    let w = name_words(s, v.start, v.end);
    [w[0], w[1], w[2], w[3], first as u32, 1]
}

// first: the first point of the outputs' terms.
pub fn singleton_table(
    s: &[u8],
    terms: &[Singleton; bounds::OUTPUT_TERMS],
    slots: &[usize],
    first: usize,
    out: &mut [u8],
    at: usize,
) -> usize
    requires { Places output_term_limit slots.now
        × (first ≤ input_term_limit * point_limit) × SingletonsNamed s.now terms.now
        × ((at + length slots.now * term_width) * 4 ≤ length out.old) }
    ensures wrote { Wrote at result (singleton_rows s.now terms.now slots.now (length slots.now) first) out.old out.new }
    ensures next { result ≡ at + length slots.now * term_width }
{
    let mut p = at;
    for (i, k) in slots.iter().enumerate() {
        p = word_writer::copy(&singleton_row(s, terms[*k], first + i), out, p);
    }
    p
}

fn some_points(points: &[Point], out: &mut [u8], at: usize) -> usize
    requires { (length points.now ≤ point_limit) × ((at + length points.now * point_width) * 4 ≤ length out.old) }
    ensures wrote { Wrote at result (rows (point_row points.now) onward (length points.now) 0 tt) out.old out.new }
    ensures next { result ≡ at + length points.now * point_width }
{
    let mut p = at;
    for v in points {
        p = word_writer::copy(&[crisp_word(v.at), v.degree.0], out, p);
    }
    p
}

pub fn point_table(
    terms: &[Term; bounds::INPUT_TERMS],
    slots: &[usize],
    out: &mut [u8],
    at: usize,
) -> usize
    requires { Places input_term_limit slots.now × ((k : ℕ) → term_size terms.now k ≤ point_limit)
        × ((at + held_in terms.now slots.now (length slots.now) * point_width) * 4 ≤ length out.old) }
    ensures wrote { Wrote at result (point_rows terms.now slots.now (length slots.now)) out.old out.new }
    ensures next { result ≡ at + held_in terms.now slots.now (length slots.now) * point_width }
{
    let mut p = at;
    for k in slots {
        let v = &terms[*k];
        p = some_points(&v.points[..v.count], out, p);
    }
    p
}

pub fn singleton_points(
    terms: &[Singleton; bounds::OUTPUT_TERMS],
    slots: &[usize],
    out: &mut [u8],
    at: usize,
) -> usize
    requires { Places output_term_limit slots.now
        × ((at + length slots.now * point_width) * 4 ≤ length out.old) }
    ensures wrote { Wrote at result (singleton_points terms.now slots.now (length slots.now)) out.old out.new }
    ensures next { result ≡ at + length slots.now * point_width }
{
    let mut p = at;
    for k in slots {
        p = word_writer::copy(&[crisp_word(terms[*k].at), ONE], out, p);
    }
    p
}
