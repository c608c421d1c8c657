// One rule of a stored image: its row, number, weight, conclusions and condition.
#![tactic(auto)]

ghost use Rattle.std.specs.Prelude.{◌≡◌, true, false, ◌+◌, ◌≤◌, ◌<◌, MatchOption};
ghost use Rattle.model.specs.Image.{word_at};
ghost use Rattle.layout.specs.Tables.{word_count, conclusion_count};
ghost use Rattle.layout.proofs.Parts.{word_first, conclusion_first};
ghost use Rattle.rule_rows.specs.Rows.{rule_stored, row_stored};

use layout::Laid;
use model::Degree;

// How many condition words and conclusions stand before a rule's, or end with it.
#[derive(Clone, Copy)]
pub struct Totals {
    pub words: usize,
    pub conclusions: usize,
}

// Rule i, whose condition words and conclusions end within the tables.
fn rule_ok(image: &Laid, i: usize) -> bool
    requires { (i < image.now.stored.header.rules.rows)
        × (word_first (word_at image.now.stored.bytes.now) i + word_count (word_at image.now.stored.bytes.now) i
        ≤ image.now.stored.header.words.rows)
        × (conclusion_first (word_at image.now.stored.bytes.now) i + conclusion_count (word_at image.now.stored.bytes.now) i
        ≤ image.now.stored.header.conclusions.rows) }
    ensures { result ≡ rule_stored (word_at image.now.stored.bytes.now) i }
{
    let stored = &image.stored;
    let row = stored.header.rules.row(i);
    let words = stored
        .header
        .words
        .row(stored.word(row + header::RULE_WORD_FIRST));
    let word_count = stored.word(row + header::RULE_WORDS);
    let conclusions = stored.word(row + header::RULE_CONCLUSION_FIRST);
    let conclusion_count = stored.word(row + header::RULE_CONCLUSIONS);
    (bounds::LEAST_RULE_NUMBER..=bounds::RULE_NUMBER).contains(&stored.word(row))
        && degrees::is_unit(Degree(stored.word(row + header::RULE_WEIGHT) as u32))
        && stored_conclusions::conclusions_ok(image, conclusions, conclusion_count)
        && stored_conditions::stored_condition(stored.bytes, words, word_count, image.input_terms)
}

// The totals that end with rule i, where those before it are these: none where its row is not right or its condition
// words or conclusions end past the totals of the header.
#[tactic(auto, unfolding(model::specs::Basic::every, crate::specs::Rows::row_stored))]
pub fn after_rule(image: &Laid, i: usize, before: Totals) -> Option<Totals>
    requires { i < image.now.stored.header.rules.rows }
    ensures { MatchOption result
        (row_stored (word_at image.now.stored.bytes.now) i before.words before.conclusions ≡ false)
        (λ after. (row_stored (word_at image.now.stored.bytes.now) i before.words before.conclusions ≡ true)
        × (after.words ≡ before.words + word_count (word_at image.now.stored.bytes.now) i)
        × (after.conclusions ≡ before.conclusions + conclusion_count (word_at image.now.stored.bytes.now) i)) }
{
    let stored = &image.stored;
    let row = stored.header.rules.row(i);
    if stored.word(row + header::RULE_WORD_FIRST) != before.words
        || stored.word(row + header::RULE_CONCLUSION_FIRST) != before.conclusions
    {
        return None;
    }
    let after = Totals {
        words: before.words + stored.word(row + header::RULE_WORDS),
        conclusions: before.conclusions + stored.word(row + header::RULE_CONCLUSIONS),
    };
    if after.words <= stored.header.words.rows
        && after.conclusions <= stored.header.conclusions.rows
        && rule_ok(image, i)
    {
        Some(after)
    } else {
        None
    }
}
