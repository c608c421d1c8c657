// The header of a stored image, read once, and the rows of its tables by name.
#![tactic(auto)]

ghost use Rattle.std.specs.Prelude.{◌≡◌, ◌+◌, ◌*◌, ◌≤◌, ◌<◌, length};
ghost use Rattle.model.specs.Image.{header_size, word_at, layout_word, crisp_of, pair_of, accu_of, act_of, PAIR_WORD, ACCU_WORD, ACT_WORD};
ghost use Rattle.header.specs.Header.{Heads, IsTable, Covers};

use model::{Accumulation, Activation, Crisp, Pair};
use words::{whole_crisp, whole_word};

// A table of a stored image: how many rows of WIDTH words it has, and where it starts, in words.
#[derive(Clone, Copy)]
pub struct Table<const WIDTH: usize> {
    pub rows: usize,
    pub start: usize,
}

impl<const WIDTH: usize> Table<WIDTH> {
    // Where row i starts.
    pub fn row(&self, i: usize) -> usize
        requires { self.now.start + i * WIDTH < 18446744073709551616 }
        ensures { result ≡ self.now.start + i * WIDTH }
    {
        self.start + i * WIDTH
    }
}

// The tables of a stored image.
#[derive(Clone, Copy)]
pub struct Header {
    pub inputs: Table<INPUT_WIDTH>,
    pub outputs: Table<OUTPUT_WIDTH>,
    pub terms: Table<TERM_WIDTH>,
    pub points: Table<POINT_WIDTH>,
    pub rules: Table<RULE_WIDTH>,
    pub words: Table<WORD_WIDTH>,
    pub conclusions: Table<CONCLUSION_WIDTH>,
}

// The words of the header.
pub const LAYOUT: usize = 0;

pub const TOTAL: usize = 1;

pub const INPUTS: usize = 2;

pub const OUTPUTS: usize = 3;

pub const TERMS: usize = 4;

pub const POINTS: usize = 5;

pub const RULES: usize = 6;

pub const WORDS: usize = 7;

pub const CONCLUSIONS: usize = 8;

pub const INPUT_TABLE: usize = 9;

pub const OUTPUT_TABLE: usize = 10;

pub const TERM_TABLE: usize = 11;

pub const POINT_TABLE: usize = 12;

pub const RULE_TABLE: usize = 13;

pub const WORD_TABLE: usize = 14;

pub const CONCLUSION_TABLE: usize = 15;

pub const PAIR: usize = 16;

pub const ACCU: usize = 17;

pub const ACT: usize = 18;

pub const SPARE: usize = 19;

pub const BLOCK_NAME: usize = 20;

pub const RULE_BLOCK_NAME: usize = 24;

pub const SIZE: usize = 28;

// Words of a name.
pub const NAME_WIDTH: usize = 4;

// Words of a row.
pub const INPUT_WIDTH: usize = 7;

pub const OUTPUT_WIDTH: usize = 11;

pub const TERM_WIDTH: usize = 6;

pub const POINT_WIDTH: usize = 2;

pub const RULE_WIDTH: usize = 6;

pub const WORD_WIDTH: usize = 1;

pub const CONCLUSION_WIDTH: usize = 2;

// Where a field stands in its row; a name stands first.
pub const INPUT_TYPE: usize = 4;

pub const INPUT_FIRST: usize = 5;

pub const INPUT_TERMS: usize = 6;

pub const OUTPUT_FIRST: usize = 4;

pub const OUTPUT_TERMS: usize = 5;

pub const OUTPUT_RANGE: usize = 6;

pub const OUTPUT_LEAST: usize = 7;

pub const OUTPUT_MOST: usize = 8;

pub const OUTPUT_DEFAULT_KIND: usize = 9;

pub const OUTPUT_DEFAULT: usize = 10;

pub const TERM_FIRST: usize = 4;

pub const TERM_POINTS: usize = 5;

pub const POINT_DEGREE: usize = 1;

pub const RULE_WORD_FIRST: usize = 1;

pub const RULE_WORDS: usize = 2;

pub const RULE_CONCLUSION_FIRST: usize = 3;

pub const RULE_CONCLUSIONS: usize = 4;

pub const RULE_WEIGHT: usize = 5;

pub const CONCLUSION_TERM: usize = 1;

// The codes of a pair, of ACCU, of ACT and of an input's type.
pub const MIN_MAX: usize = 0;

pub const PROD_ASUM: usize = 1;

pub const BDIF_BSUM: usize = 2;

pub const BY_MAX: usize = 0;

pub const BY_BSUM: usize = 1;

pub const BY_MIN: usize = 0;

pub const BY_PROD: usize = 1;

pub const REAL: usize = 0;

pub const INT: usize = 1;

// The greatest code of each choice, from 0 on.
pub const LAST_PAIR: usize = BDIF_BSUM;

pub const LAST_ACCU: usize = BY_BSUM;

pub const LAST_ACT: usize = BY_PROD;

pub const LAST_TYPE: usize = INT;

// The flag of RANGE and the kind of DEFAULT where they are given, else 0.
pub const GIVEN: usize = 1;

// The layout of an image with so many rules, condition words and conclusions.
pub fn layout_word(rules: usize, words: usize, conclusions: usize) -> usize
    ensures { result ≡ layout_word rules words conclusions }
{
    1
}

// The table whose number of rows and whose start are these words of an image.
fn table_of<const WIDTH: usize>(img: &[u8], rows: usize, start: usize) -> Table<WIDTH>
    requires { (rows * 4 + 4 ≤ length img.now) × (start * 4 + 4 ≤ length img.now) }
    ensures { IsTable (word_at img.now) rows start result }
{
    Table {
        rows: whole_word(img, rows),
        start: whole_word(img, start),
    }
}

// Of an image that goes as far as the end of its header.
pub fn header_of(img: &[u8]) -> Header
    requires { header_size * 4 ≤ length img.now }
    ensures { Heads (word_at img.now) result }
{
    Header {
        inputs: table_of(img, INPUTS, INPUT_TABLE),
        outputs: table_of(img, OUTPUTS, OUTPUT_TABLE),
        terms: table_of(img, TERMS, TERM_TABLE),
        points: table_of(img, POINTS, POINT_TABLE),
        rules: table_of(img, RULES, RULE_TABLE),
        words: table_of(img, WORDS, WORD_TABLE),
        conclusions: table_of(img, CONCLUSIONS, CONCLUSION_TABLE),
    }
}

// An image as far as the load check has come to know it: the bytes go as far as its header and as every table that the
// header names.
#[derive(Clone, Copy)]
pub struct Stored<'a> {
    pub bytes: &'a [u8],
    pub header: Header,
    pub ghost heads: { Heads (word_at bytes.now) header },
    pub ghost covers: { Covers bytes.now header },
}

impl Stored<'_> {
    // The word at place i, which is within the image.
    pub fn word(&self, i: usize) -> usize
        requires { i * 4 + 4 ≤ length self.now.bytes.now }
        ensures { (result ≡ word_at self.now.bytes.now i) × (result ≤ 4294967295) }
    {
        whole_word(self.bytes, i)
    }

    // That word as a crisp value.
    pub fn crisp(&self, i: usize) -> Crisp
        requires { i * 4 + 4 ≤ length self.now.bytes.now }
        ensures { result.0 ≡ crisp_of (word_at self.now.bytes.now i) }
    {
        whole_crisp(self.bytes, i)
    }
    // The algorithms for AND and OR.
    pub fn pair(&self) -> Pair
        ensures { result ≡ pair_of (word_at self.now.bytes.now PAIR_WORD) }
    {
        match self.word(PAIR) {
            MIN_MAX => Pair::MinMax,
            PROD_ASUM => Pair::ProdAsum,
            _ => Pair::BdifBsum,
        }
    }

    // ACCU.
    pub fn accumulation(&self) -> Accumulation
        ensures { result ≡ accu_of (word_at self.now.bytes.now ACCU_WORD) }
    {
        match self.word(ACCU) {
            BY_MAX => Accumulation::Max,
            _ => Accumulation::Bsum,
        }
    }

    // ACT.
    pub fn activation(&self) -> Activation
        ensures { result ≡ act_of (word_at self.now.bytes.now ACT_WORD) }
    {
        match self.word(ACT) {
            BY_MIN => Activation::Min,
            _ => Activation::Prod,
        }
    }
}
