// The rules of a stored image: all rows, and their numbers.
#![tactic(auto)]

ghost use Rattle.std.specs.Prelude.{◌≡◌};
ghost use Rattle.model.specs.Image.{word_at};
ghost use Rattle.layout.specs.Groups.{rules_ok};
ghost use Rattle.stored_rules.specs.Walk.{rules_walk};

use layout::Laid;
use rule_rows::Totals;

// All rules, whose condition words and conclusions add up to the header's totals.
fn rows_ok(image: &Laid) -> bool
    ensures { result ≡ rules_walk (word_at image.now.stored.bytes.now) image.now.stored.header.rules.rows 0 0 0 }
{
    let header = image.stored.header;
    let mut totals = Totals {
        words: 0,
        conclusions: 0,
    };
    for i in 0..header.rules.rows {
        let Some(after) = rule_rows::after_rule(image, i, totals) else {
            return false;
        };
        totals = after;
    }
    totals.words == header.words.rows && totals.conclusions == header.conclusions.rows
}

// The tables of rules, condition words and conclusions.
pub fn rules_ok(image: &Laid) -> bool
    ensures { result ≡ rules_ok (word_at image.now.stored.bytes.now) }
{
    let header = image.stored.header;
    (1..=bounds::RULES).contains(&header.rules.rows)
        && header.words.rows <= bounds::WORDS
        && header.conclusions.rows <= bounds::CONCLUSIONS
        && rows_ok(image)
        && rule_numbers::numbers_distinct(&image.stored)
}
