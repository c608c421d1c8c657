// The tables of variables of an image, row by row from the tables that a text is read into, and the places of their
// terms in the order of the image.
#![tactic(auto)]

ghost use Rattle.std.specs.Prelude.{◌≡◌, ◌++◌, ℕ, ◌+◌, ◌*◌, ◌≤◌, ◌<◌, length, take};
ghost use Rattle.std.proofs.Math.Seq.{slice};
ghost use Rattle.model.specs.Basic.{tab};
ghost use Rattle.model.specs.Bounds.{input_limit, output_limit, term_limit, input_term_limit, output_term_limit, all_term_limit};
ghost use Rattle.model.specs.Image.{crisp_word, name_words, input_width, output_width};
ghost use Rattle.word_writer.specs.Over.{Wrote};
ghost use Rattle.variable_rows.specs.Rows.{bit, given, InText, InputsNamed, OutputsNamed, input_size, output_size, input_words, input_rows, output_words, output_rows, slots_of, Listed};

use block_tables::{Input, Output};
use model::Crisp;

// WORDS
// A crisp value in two's complement.
pub fn crisp_word(x: Crisp) -> u32
    ensures { result ≡ crisp_word x.0 }
{
    x.0.cast_unsigned()
}

// 0 for what is not given.
fn given_word(on: bool, x: Crisp) -> u32
    ensures { result ≡ given on x.0 }
{
    if on { crisp_word(x) } else { 0 }
}

// The name from start to end in four words, zero padded.
pub fn name_words(s: &[u8], start: usize, end: usize) -> [u32; header::NAME_WIDTH]
    requires { InText s.now start end }
    ensures { result ≡ name_words (slice start end s.now) }
{
    let w = &s[start..end];
    [
        words::word(w, 0) as u32,
        words::word(w, 1) as u32,
        words::word(w, 2) as u32,
        words::word(w, 3) as u32,
    ]
}

// VARIABLES
fn input_row(s: &[u8], v: Input, first: usize) -> [u32; header::INPUT_WIDTH]
    requires { InText s.now v.start v.end × (first ≤ input_term_limit) × (v.terms ≤ term_limit) }
    ensures { result ≡ input_words s.now v first }
{
    let n = name_words(s, v.start, v.end);
    [
        n[0],
        n[1],
        n[2],
        n[3],
        u32::from(v.int),
        first as u32,
        v.terms as u32,
    ]
}

// Kept: a loop for each table, here and in term_rows; a trait of rows, with what its words are, is longer than the loops.
pub fn input_table(s: &[u8], inputs: &[Input], out: &mut [u8], at: usize) -> usize
    requires { (length inputs.now ≤ input_limit) × InputsNamed s.now inputs.now × ((i : ℕ) → input_size inputs.now i ≤ term_limit)
        × ((at + length inputs.now * input_width) * 4 ≤ length out.old) }
    ensures wrote { Wrote at result (input_rows s.now inputs.now (length inputs.now)) out.old out.new }
    ensures next { result ≡ at + length inputs.now * input_width }
{
    let mut first = 0;
    let mut p = at;
    for v in inputs {
        p = word_writer::copy(&input_row(s, *v, first), out, p);
        first += v.terms;
    }
    p
}

fn output_row(s: &[u8], v: Output, first: usize) -> [u32; header::OUTPUT_WIDTH]
    requires { InText s.now v.start v.end × (first ≤ all_term_limit) × (v.terms ≤ term_limit) }
    ensures { result ≡ output_words s.now v first }
{
    let n = name_words(s, v.start, v.end);
    [
        n[0],
        n[1],
        n[2],
        n[3],
        first as u32,
        v.terms as u32,
        u32::from(v.ranged),
        given_word(v.ranged, v.least),
        given_word(v.ranged, v.most),
        u32::from(v.numbered),
        given_word(v.numbered, v.default),
    ]
}

// first: the first term of the outputs.
pub fn output_table(s: &[u8], outputs: &[Output], first: usize, out: &mut [u8], at: usize) -> usize
    requires { (length outputs.now ≤ output_limit) × (first ≤ input_term_limit) × OutputsNamed s.now outputs.now
        × ((o : ℕ) → output_size outputs.now o ≤ term_limit)
        × ((at + length outputs.now * output_width) * 4 ≤ length out.old) }
    ensures wrote { Wrote at result (output_rows s.now outputs.now (length outputs.now) first) out.old out.new }
    ensures next { result ≡ at + length outputs.now * output_width }
{
    let mut n = first;
    let mut p = at;
    for v in outputs {
        p = word_writer::copy(&output_row(s, *v, n), out, p);
        n += v.terms;
    }
    p
}

// PLACES OF TERMS among those of their kind, in the order of their variables: TERMS * v + j for term j of variable v.
// Those of the n terms of variable v behind the others.
fn with_slots(list: &mut [usize; bounds::INPUT_TERMS], count: usize, v: usize, n: usize) -> usize
    requires { (v < input_limit) × (n ≤ term_limit) × (count + n ≤ input_term_limit)
        × (length list.old ≡ input_term_limit) }
    ensures value { (result ≡ count + n) × (take result list.new
        ≡ take count list.old ++ tab (λ j. v * term_limit + j) n 0) }
    ensures below { (m : ℕ) → v * term_limit + n ≤ m
        → Listed m list.old → Listed m list.new }
{
    for j in 0..n {
        list[count + j] = v * bounds::TERMS + j;
    }
    count + n
}

// The places of all terms of inputs at the front of a list of zeros, and how many they are.
pub fn input_slots(inputs: &[Input], list: &mut [usize; bounds::INPUT_TERMS]) -> usize
    requires { (length inputs.now ≤ input_limit) × ((i : ℕ) → input_size inputs.now i ≤ term_limit) × Listed input_term_limit list.old }
    ensures { Listed input_term_limit list.new × (result ≤ length inputs.now * term_limit)
        × (take result list.new ≡ slots_of (input_size inputs.now) (length inputs.now)) }
{
    let mut n = 0;
    for (i, v) in inputs.iter().enumerate() {
        n = with_slots(list, n, i, v.terms);
    }
    n
}

// Likewise of outputs. Kept: a closure for the count of terms needs more clauses than the loop has lines.
pub fn output_slots(outputs: &[Output], list: &mut [usize; bounds::INPUT_TERMS]) -> usize
    requires { (length outputs.now ≤ output_limit) × ((o : ℕ) → output_size outputs.now o ≤ term_limit) × Listed output_term_limit list.old }
    ensures { Listed output_term_limit list.new × (result ≤ length outputs.now * term_limit)
        × (take result list.new ≡ slots_of (output_size outputs.now) (length outputs.now)) }
{
    let mut n = 0;
    for (o, v) in outputs.iter().enumerate() {
        n = with_slots(list, n, o, v.terms);
    }
    n
}
