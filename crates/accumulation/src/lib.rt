// The heights of the output terms: the degree of each rule, accumulated into every term that it concludes.
#![tactic(auto)]

ghost use Rattle.std.specs.Prelude.{◌≡◌, ℕ, ◌+◌, ◌≤◌, ◌<◌, get_or};
ghost use Rattle.model.specs.Bounds.{M};
ghost use Rattle.model.specs.Degrees.{prod_of};
ghost use Rattle.model.specs.Evaluation.{height};
ghost use Rattle.model.specs.Image.{word_at, pair_of, accu_of, decode, rule_at, PAIR_WORD, ACCU_WORD};
ghost use Rattle.degrees.specs.Tables.{numbers};

use aggregation::condition_degrees;
use bounds::{INPUT_TERMS, OUTPUT_TERMS};
use degrees::{Degrees, accumulate, prod};
use header::Stored;
use layout::CheckedImage;
use model::{Accumulation, Degree, Pair};

fn stored_pair(stored: &Stored) -> Pair
    ensures { result ≡ pair_of (word_at stored.now.bytes.now PAIR_WORD) }
{
    match stored.word(header::PAIR) {
        header::MIN_MAX => Pair::MinMax,
        header::PROD_ASUM => Pair::ProdAsum,
        _ => Pair::BdifBsum,
    }
}

fn stored_accumulation(stored: &Stored) -> Accumulation
    ensures { result ≡ accu_of (word_at stored.now.bytes.now ACCU_WORD) }
{
    match stored.word(header::ACCU) {
        header::BY_MAX => Accumulation::Max,
        _ => Accumulation::Bsum,
    }
}

// The degree of rule i, whose condition has the degree c: times its weight.
#[tactic(auto, unfolding(model::specs::Image::rule_at))]
fn rule_degree(image: &CheckedImage, i: usize, c: Degree) -> Degree
    requires { (i < image.now.stored.header.rules.rows) × (c.0 ≤ M) }
    ensures { (result.0 ≡ prod_of c.0 (rule_at (word_at image.now.stored.bytes.now) i).weight) × (result.0 ≤ M) }
{
    let stored = &image.stored;
    let weight = stored.word(stored.header.rules.row(i) + header::RULE_WEIGHT);
    prod(c, Degree(weight as u32))
}

// The heights of the output terms, by the degrees of the input terms.
pub fn heights(image: &CheckedImage, ds: &Degrees<INPUT_TERMS>) -> Degrees<OUTPUT_TERMS>
    ensures { (p : ℕ) → get_or (numbers result.at) p 0
        ≡ height (decode (word_at image.now.stored.bytes.now)) (numbers ds.now.at) (image.now.input_terms + p) }
{
    let stored = &image.stored;
    let accumulation = stored_accumulation(stored);
    let conditions = condition_degrees(image, ds, stored_pair(stored));
    let mut hs = Degrees::zeros();
    for i in 0..stored.header.rules.rows {
        let d = rule_degree(image, i, conditions.get(i));
        let row = stored.header.rules.row(i);
        let first = stored.word(row + header::RULE_CONCLUSION_FIRST);
        let count = stored.word(row + header::RULE_CONCLUSIONS);
        for j in first..first + count {
            let term = stored.word(stored.header.conclusions.row(j) + header::CONCLUSION_TERM);
            let t = term - image.input_terms;
            let before = hs.get(t);
            hs.set(t, accumulate(accumulation, before, d));
        }
    }
    hs
}
