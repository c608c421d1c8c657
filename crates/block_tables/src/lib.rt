// The fixed tables that a text is read into, by value, and the arrays for its rules. Where a name stands in the text is
// kept with what it names; term j of a variable stands in place TERMS * v + j among those of its kind.
#![tactic(auto)]

ghost use Rattle.std.specs.Prelude.{◌≡◌, ◌≤◌, length};
ghost use Rattle.model.specs.Bounds.{input_limit};
ghost use Rattle.block_tables.specs.Changes.{Typed};

use lookup::Names;
use model::{Accumulation, Activation, Crisp, Pair, Point};

#[derive(Clone, Copy)]
pub struct Input {
    pub start: usize,
    pub end: usize,
    pub int: bool,
    pub terms: usize,
}

// ranged, numbered: whether RANGE and a DEFAULT number are given; 0 in what they leave unused.
#[derive(Clone, Copy)]
pub struct Output {
    pub start: usize,
    pub end: usize,
    pub terms: usize,
    pub ranged: bool,
    pub least: Crisp,
    pub most: Crisp,
    pub numbered: bool,
    pub default: Crisp,
}

// A term of an input: the first `count` of the points are its own.
#[derive(Clone, Copy)]
pub struct Term {
    pub start: usize,
    pub end: usize,
    pub count: usize,
    pub points: [Point; bounds::POINTS],
}

// A term of an output.
#[derive(Clone, Copy)]
pub struct Singleton {
    pub start: usize,
    pub end: usize,
    pub at: Crisp,
}

// start, end: the block's name. names: where the names stand, once more, in plain numbers, which can be lent to a lookup.
#[derive(Clone, Copy)]
pub struct Tables {
    pub start: usize,
    pub end: usize,
    pub input_count: usize,
    pub output_count: usize,
    pub inputs: [Input; bounds::INPUTS],
    pub outputs: [Output; bounds::OUTPUTS],
    pub input_terms: [Term; bounds::INPUT_TERMS],
    pub output_terms: [Singleton; bounds::OUTPUT_TERMS],
    pub names: Names,
}

// What a rule block begins with: the place of its name, and its algorithms.
#[derive(Clone, Copy)]
pub struct Heading {
    pub start: usize,
    pub end: usize,
    pub pair: Pair,
    pub accu: Accumulation,
    pub act: Activation,
}

// A rule as it is kept: its number, how many condition words and conclusions it has, and its weight.
pub const KEPT_RULE_WIDTH: usize = 4;

pub type Rules = [u32; bounds::RULES * KEPT_RULE_WIDTH];

pub type Words = [u32; bounds::WORDS];

// A conclusion as it is kept: output and term.
pub const CONCLUSION_WIDTH: usize = 2;

pub type Conclusions = [u32; bounds::CONCLUSIONS * CONCLUSION_WIDTH];

// How many rules, condition words and conclusions are kept beside the tables.
#[derive(Clone, Copy)]
pub struct Totals {
    pub rules: usize,
    pub words: usize,
    pub conclusions: usize,
}

// These rows, INT from one on up to another.
pub fn typed(rows: [Input; bounds::INPUTS], from: usize, to: usize) -> [Input; bounds::INPUTS]
    requires { (to ≤ input_limit) × (length rows ≡ input_limit) }
    ensures { Typed rows from to result }
{
    let mut r = rows;
    for i in from..to {
        r[i].int = true;
    }
    r
}
