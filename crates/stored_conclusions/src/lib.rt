// The conclusions of a stored image.
#![tactic(auto)]

ghost use Rattle.std.specs.Prelude.{◌≡◌, ◌&&◌, ◌+◌, ◌≤◌, ◌<◌, leb};
ghost use Rattle.model.specs.Basic.{all, tab};
ghost use Rattle.model.specs.WellFormed.{conclusion_ok};
ghost use Rattle.model.specs.Image.{word_at, conclusion_at, decode};
ghost use Rattle.stored_conclusions.specs.Stored.{conclusion_stored};

use header::Stored;
use layout::Laid;

// Conclusion i of all.
#[tactic(auto, unfolding(model::specs::Basic::every, crate::specs::Stored::conclusion_stored))]
fn conclusion_ok(image: &Stored, i: usize) -> bool
    requires { i < image.now.header.conclusions.rows }
    ensures { result ≡ conclusion_stored (word_at image.now.bytes.now) i }
{
    let row = image.header.conclusions.row(i);
    let output = image.word(row);
    if output >= image.header.outputs.rows {
        return false;
    }
    let of_output = image.header.outputs.row(output);
    let first = image.word(of_output + header::OUTPUT_FIRST);
    let end = first + image.word(of_output + header::OUTPUT_TERMS);
    (first..end).contains(&image.word(row + header::CONCLUSION_TERM))
}

// The k conclusions from the s-th on: there are some, and each is right.
pub fn conclusions_ok(image: &Laid, s: usize, k: usize) -> bool
    requires { s + k ≤ image.now.stored.header.conclusions.rows }
    ensures { result ≡ leb 1 k && all (conclusion_ok (decode (word_at image.now.stored.bytes.now)))
        (tab (conclusion_at (word_at image.now.stored.bytes.now)) k s) }
{
    for i in s..s + k {
        if !conclusion_ok(&image.stored, i) {
            return false;
        }
    }
    k >= 1
}
