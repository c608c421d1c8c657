// The kinds of tokens, by the numbers that the definitions give them (model/specs/Keywords).
#![tactic(auto)]

// The end of the text, a wrong byte or word, a name, a number; `:=` and `..`; blanks and comments.
pub const END: u8 = 0;

pub const WRONG: u8 = 1;

pub const NAME: u8 = 2;

pub const NUMBER: u8 = 3;

pub const ASSIGN: u8 = 4;

pub const DOTS: u8 = 5;

pub const BLANK: u8 = 6;

// Marks are of the kind of their byte.
pub const OPEN: u8 = 40;

pub const CLOSE: u8 = 41;

pub const COMMA: u8 = 44;

pub const COLON: u8 = 58;

pub const SEMICOLON: u8 = 59;

// Keywords.
pub const ACCU: u8 = 128;

pub const ACT: u8 = 129;

pub const AND: u8 = 130;

pub const ASUM: u8 = 131;

pub const BDIF: u8 = 132;

pub const BSUM: u8 = 133;

pub const COGS: u8 = 136;

pub const DEFAULT: u8 = 137;

pub const DEFUZZIFY: u8 = 138;

pub const END_DEFUZZIFY: u8 = 139;

pub const END_FUNCTION_BLOCK: u8 = 140;

pub const END_FUZZIFY: u8 = 141;

pub const END_RULEBLOCK: u8 = 143;

pub const END_VAR: u8 = 144;

pub const FUNCTION_BLOCK: u8 = 145;

pub const FUZZIFY: u8 = 146;

pub const IF: u8 = 147;

pub const IS: u8 = 148;

pub const MAX: u8 = 150;

pub const METHOD: u8 = 151;

pub const MIN: u8 = 152;

pub const NC: u8 = 153;

pub const NOT: u8 = 154;

pub const OR: u8 = 157;

pub const PROD: u8 = 158;

pub const RANGE: u8 = 159;

pub const RULE: u8 = 161;

pub const RULEBLOCK: u8 = 162;

pub const TERM: u8 = 163;

pub const THEN: u8 = 164;

pub const VAR_INPUT: u8 = 166;

pub const VAR_OUTPUT: u8 = 167;

pub const WITH: u8 = 168;

pub const REAL: u8 = 169;

pub const INT: u8 = 170;
