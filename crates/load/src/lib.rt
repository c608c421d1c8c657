// The load check: any bytes are accepted, or refused with 11.
#![tactic(auto)]

ghost use Rattle.std.specs.Prelude.{◌≡◌, true, false, MatchOption};
ghost use Rattle.model.specs.Outcome.{verdict_in};
ghost use Rattle.model.specs.Refusals.{verdict_of};
ghost use Rattle.model.specs.Image.{word_at, decode, is_image_of, loads};
ghost use Rattle.load.specs.Judged.{Judged};

use layout::CheckedImage;
use model::Refusal;

// Bytes of a word.
const WORD: usize = 4;

// The image that these bytes are, where they are one.
fn checked(img: &[u8]) -> Option<CheckedImage>
    ensures { MatchOption result
        (is_image_of img.now (decode (word_at img.now)) ≡ false)
        (λ image. (is_image_of img.now (decode (word_at img.now)) ≡ true) × (image.stored.bytes.now ≡ img.now)) }
{
    if img.len() < header::SIZE * WORD
        || img.len() != words::whole_word(img, header::TOTAL) * WORD
    {
        return None;
    }
    let laid = stored_tables::tables_ok(img, header::header_of(img))?;
    if !stored_variables::variables_ok(&laid) || !stored_rules::rules_ok(&laid) {
        return None;
    }
    Some(CheckedImage {
        stored: laid.stored,
        input_terms: laid.input_terms,
    })
}

pub fn examine(img: &[u8]) -> Result<CheckedImage, Refusal>
    ensures { Judged img.now result }
{
    checked(img).ok_or(Refusal::ImageNotAccepted)
}

pub fn check(img: &[u8]) -> Result<(), Refusal>
    ensures { verdict_of result ≡ verdict_in (loads img.now) }
{
    examine(img)?;
    Ok(())
}
