// When bytes are the image of the block that they stand for, row by row: definitions and laws for the load check, and an
// image that passed a part of it or all.
#![tactic(auto)]

ghost use Rattle.std.specs.Prelude.{◌≡◌, true};
ghost use Rattle.model.specs.Image.{word_at};
ghost use Rattle.layout.specs.Groups.{Sound, tables_ok};
ghost use Rattle.layout.specs.Tables.{input_terms_in};

use header::Stored;

// An image whose header and tables are laid out as a block's; so many of its terms, the first, are inputs'.
#[derive(Clone, Copy)]
pub struct Laid<'a> {
    pub stored: Stored<'a>,
    pub input_terms: usize,
    pub ghost laid: { tables_ok (word_at stored.bytes.now) ≡ true },
    pub ghost counted: { input_terms ≡ input_terms_in (word_at stored.bytes.now) },
}

// An image that the load check accepted.
#[derive(Clone, Copy)]
pub struct CheckedImage<'a> {
    pub stored: Stored<'a>,
    pub input_terms: usize,
    pub ghost sound: { Sound (word_at stored.bytes.now) },
    pub ghost counted: { input_terms ≡ input_terms_in (word_at stored.bytes.now) },
}
