// The bounds of document 01 and the lengths of arrays that follow from them.
#![tactic(auto)]

ghost use Rattle.std.specs.Prelude.{◌≡◌, [], ◌∷◌};
ghost use Rattle.model.specs.Basic.{between};
ghost use Rattle.model.specs.Bounds.{M, crisp_limit, text_limit, name_limit, digit_limit, fraction_limit, input_limit, output_limit, term_limit, point_least, point_limit, rule_limit, word_limit, conclusion_limit, rule_number_least, rule_number_limit, depth_limit, variable_limit, input_term_limit, output_term_limit, all_term_limit, symbol_limit, image_limit, listing_limit};

// The degree 1, in millionths.
pub const M: usize = 1_000_000;

// Crisp values lie between minus this and this, in thousandths.
pub const CRISP: usize = 1_000_000_000;

pub const TEXT: usize = 65_536;

pub const NAME: usize = 16;

pub const DIGITS: usize = 7;

pub const FRACTION: usize = 3;

pub const INPUTS: usize = 8;

pub const OUTPUTS: usize = 6;

// Terms of one variable.
pub const TERMS: usize = 7;

// Points of one term.
pub const LEAST_POINTS: usize = 2;

pub const POINTS: usize = 4;

pub const RULES: usize = 64;

pub const WORDS: usize = 640;

pub const CONCLUSIONS: usize = 128;

pub const LEAST_RULE_NUMBER: usize = 1;

pub const RULE_NUMBER: usize = 65_535;

// Parentheses open at once.
pub const DEPTH: usize = 8;

// Lengths that follow.
pub const VARIABLES: usize = INPUTS + OUTPUTS;

pub const INPUT_TERMS: usize = INPUTS * TERMS;

pub const OUTPUT_TERMS: usize = OUTPUTS * TERMS;

// Terms of all variables.
pub const ALL_TERMS: usize = INPUT_TERMS + OUTPUT_TERMS;

// Names of variables and of their terms.
pub const NAMES: usize = VARIABLES + ALL_TERMS;

// Bytes of the longest image and of the longest listing.
pub const IMAGE: usize = 10_200;

pub const LISTING: usize = 31_421;

// All of them, in the order of the definitions.
pub fn limits() -> [usize; 24]
    ensures { result ≡ crisp_limit ∷ M ∷ text_limit ∷ name_limit ∷ digit_limit ∷ fraction_limit ∷ input_limit ∷ output_limit
        ∷ term_limit ∷ point_least ∷ point_limit ∷ rule_limit ∷ word_limit ∷ conclusion_limit ∷ rule_number_least
        ∷ rule_number_limit ∷ depth_limit ∷ variable_limit ∷ input_term_limit ∷ output_term_limit ∷ all_term_limit ∷ symbol_limit
        ∷ image_limit ∷ listing_limit ∷ [] }
{
    [
        CRISP,
        M,
        TEXT,
        NAME,
        DIGITS,
        FRACTION,
        INPUTS,
        OUTPUTS,
        TERMS,
        LEAST_POINTS,
        POINTS,
        RULES,
        WORDS,
        CONCLUSIONS,
        LEAST_RULE_NUMBER,
        RULE_NUMBER,
        DEPTH,
        VARIABLES,
        INPUT_TERMS,
        OUTPUT_TERMS,
        ALL_TERMS,
        NAMES,
        IMAGE,
        LISTING,
    ]
}

// c is at least a and at most b.
pub fn within(a: usize, b: usize, c: usize) -> bool
    ensures { result ≡ between a b c }
{
    if c < a {
        return false;
    }
    c <= b
}
