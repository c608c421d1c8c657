// The image of a block, written into a lent buffer word by word once there is room for all of it.
#![tactic(auto)]

ghost use Rattle.std.specs.Prelude.{◌≡◌, ◌+◌, ◌*◌, ◌≤◌, List, ◌++◌, length};
ghost use Rattle.std.proofs.Math.Seq.{slice};
ghost use Rattle.model.specs.Bounds.{input_limit, output_limit, point_limit, rule_limit, word_limit, conclusion_limit, input_term_limit, output_term_limit, all_term_limit};
ghost use Rattle.model.specs.Block.{Rule};
ghost use Rattle.model.specs.Image.{pair_word, accu_word, act_word, name_words, header_size, rule_width, image};
ghost use Rattle.model.specs.Outcome.{into, length_in, buffer_after};
ghost use Rattle.model.specs.Refusals.{written_of};
ghost use Rattle.block_tables.specs.View.{whole_view, Holds, Headed};
ghost use Rattle.block_tables.specs.Stored.{kept_width, Stored};
ghost use Rattle.word_writer.specs.Over.{Wrote};
ghost use Rattle.variable_rows.specs.Rows.{Places};
ghost use Rattle.term_rows.specs.Rows.{held_in};
ghost use Rattle.image.specs.Rows.{variable_rows, variable_words, rule_rows, entries_of, Bounded, head_words};

use block_tables::{
    CONCLUSION_WIDTH, Conclusions, Heading, KEPT_RULE_WIDTH, Rules, Tables, Totals, Words,
};
use model::{Accumulation, Activation, Pair, Refusal};

// As words: the length of the header, the widths of rows.
const SIZE: u32 = header::SIZE as u32;

const INPUT_WIDTH: u32 = header::INPUT_WIDTH as u32;

const OUTPUT_WIDTH: u32 = header::OUTPUT_WIDTH as u32;

const TERM_WIDTH: u32 = header::TERM_WIDTH as u32;

const POINT_WIDTH: u32 = header::POINT_WIDTH as u32;

const RULE_WIDTH: u32 = header::RULE_WIDTH as u32;

const CONCLUSION_ROW_WIDTH: u32 = header::CONCLUSION_WIDTH as u32;

// How many entries the tables of the image have.
#[derive(Clone, Copy)]
struct Counts {
    pub inputs: u32,
    pub outputs: u32,
    pub terms: u32,
    pub points: u32,
    pub rules: u32,
    pub words: u32,
    pub conclusions: u32,
}

// The tables of variables, terms and points. own, others: the places of the terms of inputs and of outputs; points: how
// many points the former have.
fn variables(
    s: &[u8],
    t: &Tables,
    own: &[usize],
    others: &[usize],
    points: usize,
    out: &mut [u8],
    at: usize,
) -> usize
    requires { Holds s.now t.now × Places input_term_limit own.now × Places output_term_limit others.now
        × (points ≡ held_in t.now.input_terms own.now (length own.now)) × (points ≤ input_term_limit * point_limit)
        × ((at + variable_words t.now own.now others.now) * 4 ≤ length out.old) }
    ensures wrote { Wrote at result (variable_rows s.now t.now own.now others.now) out.old out.new }
    ensures next { result ≡ at + variable_words t.now own.now others.now }
{
    let at = variable_rows::input_table(s, &t.inputs[..t.input_count], out, at);
    let at = variable_rows::output_table(s, &t.outputs[..t.output_count], own.len(), out, at);
    let at = term_rows::term_table(s, &t.input_terms, own, out, at);
    let at = term_rows::singleton_table(s, &t.output_terms, others, points, out, at);
    let at = term_rows::point_table(&t.input_terms, own, out, at);
    term_rows::singleton_points(&t.output_terms, others, out, at)
}

// Firsts wrap, so that the table is safe to write from any words.
fn rule_table(rules: &[u32], n: usize, out: &mut [u8], at: usize) -> usize
    requires { (n * kept_width ≤ length rules.now) × ((at + n * rule_width) * 4 ≤ length out.old) }
    ensures wrote { Wrote at result (rule_rows rules.now n) out.old out.new }
    ensures next { result ≡ at + n * rule_width }
{
    let mut word = 0u32;
    let mut conclusion = 0u32;
    let mut p = at;
    for i in 0..n {
        let k = i * KEPT_RULE_WIDTH;
        let words = rules[k + 1];
        let conclusions = rules[k + 2];
        let row = [rules[k], word, words, conclusion, conclusions, rules[k + 3]];
        p = word_writer::copy(&row, out, p);
        word = word.wrapping_add(words);
        conclusion = conclusion.wrapping_add(conclusions);
    }
    p
}

// The seven counts of the header.
fn entries(inputs: usize, outputs: usize, terms: usize, points: usize, n: Totals) -> Counts
    requires { (inputs ≤ input_limit) × (outputs ≤ output_limit) × (terms ≤ all_term_limit)
        × (points ≤ all_term_limit * point_limit)
        × (n.rules ≤ rule_limit) × (n.words ≤ word_limit) × (n.conclusions ≤ conclusion_limit) }
    ensures value { result ≡ entries_of inputs outputs terms points n }
    ensures bounded { Bounded result }
{
    Counts {
        inputs: inputs as u32,
        outputs: outputs as u32,
        terms: terms as u32,
        points: points as u32,
        rules: n.rules as u32,
        words: n.words as u32,
        conclusions: n.conclusions as u32,
    }
}

// The words of the algorithms, which number them in the order of their declaration.
fn pair_word(p: Pair) -> u32
    ensures { result ≡ pair_word p }
{
    p as u32
}

fn accu_word(a: Accumulation) -> u32
    ensures { result ≡ accu_word a }
{
    a as u32
}

fn act_word(a: Activation) -> u32
    ensures { result ≡ act_word a }
{
    a as u32
}

// The header up to the names: layout, total, counts, offsets, algorithms.
fn head_words(c: Counts, h: Heading) -> [u32; header::BLOCK_NAME]
    requires { Bounded c }
    ensures { result ≡ head_words c h }
{
    let layout = header::layout_word(
        c.rules as usize,
        c.words as usize,
        c.conclusions as usize,
    ) as u32;
    let outputs = SIZE + c.inputs * INPUT_WIDTH;
    let terms = outputs + c.outputs * OUTPUT_WIDTH;
    let points = terms + c.terms * TERM_WIDTH;
    let rules = points + c.points * POINT_WIDTH;
    let words = rules + c.rules * RULE_WIDTH;
    let conclusions = words + c.words;
    let end = conclusions + c.conclusions * CONCLUSION_ROW_WIDTH;
    [
        layout,
        end,
        c.inputs,
        c.outputs,
        c.terms,
        c.points,
        c.rules,
        c.words,
        c.conclusions,
        SIZE,
        outputs,
        terms,
        points,
        rules,
        words,
        conclusions,
        pair_word(h.pair),
        accu_word(h.accu),
        act_word(h.act),
        0,
    ]
}

// The whole header.
fn header(
    s: &[u8],
    head: [u32; header::BLOCK_NAME],
    start: usize,
    end: usize,
    h: Heading,
    out: &mut [u8],
) -> usize
    requires { (start ≤ end) × (end ≤ length s.now) × Headed s.now h × (header_size * 4 ≤ length out.old) }
    ensures wrote { Wrote 0 result (head ++ (name_words (slice start end s.now)
        ++ name_words (slice h.start h.end s.now)))
        out.old out.new }
    ensures next { result ≡ header_size }
{
    let at = word_writer::copy(&head, out, 0);
    let at = word_writer::copy(&variable_rows::name_words(s, start, end), out, at);
    word_writer::copy(&variable_rows::name_words(s, h.start, h.end), out, at)
}

// The image into the buffer: its length, or 10 with the length that is needed, which leaves the buffer as it came.
pub fn store(
    s: &[u8],
    t: &Tables,
    h: Heading,
    rules: &Rules,
    words: &Words,
    conclusions: &Conclusions,
    n: Totals,
    out: &mut [u8],
) -> Result<usize, Refusal>
    requires { Holds s.now t.now × Headed s.now h × ((rs : List Rule)
        × Stored rs rules.now words.now conclusions.now n.rules n.words n.conclusions) }
    ensures { (rs : List Rule)
        → Stored rs rules.now words.now conclusions.now
        n.rules n.words n.conclusions
        → (written_of result ≡ length_in (into (length out.old) (image (whole_view s.now t.now h rs))))
        × (out.new ≡ buffer_after out.old
        (into (length out.old) (image (whole_view s.now t.now h rs)))) }
{
    let mut own = [0; bounds::INPUT_TERMS];
    let mut others = [0; bounds::INPUT_TERMS];
    let m = variable_rows::input_slots(&t.inputs[..t.input_count], &mut own);
    let k = variable_rows::output_slots(&t.outputs[..t.output_count], &mut others);
    let own = &own[..m];
    let others = &others[..k];
    let points = term_rows::point_count(&t.input_terms, own);
    let c = entries(t.input_count, t.output_count, m + k, points + k, n);
    let head = head_words(c, h);
    let size = head[header::TOTAL] as usize * 4;
    if out.len() < size {
        return Err(Refusal::BufferTooShort(size));
    }
    let at = header(s, head, t.start, t.end, h, out);
    let at = variables(s, t, own, others, points, out, at);
    let at = rule_table(rules, n.rules, out, at);
    let at = word_writer::copy(&words[..n.words], out, at);
    word_writer::copy(&conclusions[..n.conclusions * CONCLUSION_WIDTH], out, at);
    Ok(size)
}
