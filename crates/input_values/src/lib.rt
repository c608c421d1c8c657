// From an accepted image and the readings of a call to the values of the inputs.
#![tactic(auto)]

ghost use Rattle.std.specs.Prelude.{◌≡◌, ◌<◌, pos, length, IfOk, IfErr};
ghost use Rattle.model.specs.Bounds.{input_limit};
ghost use Rattle.model.specs.Image.{word_at, input_at, decode};
ghost use Rattle.input_values.specs.Filled.{filled, figures, AllCrisp};
ghost use Rattle.input_values.specs.Values.{values_read};

use header::Stored;
use layout::CheckedImage;
use model::{Crisp, InputType, Reading};

// The first input whose reading is wrong, and the values before it, then 0.
#[derive(Clone, Copy)]
pub struct WrongReading {
    pub input: usize,
    pub before: [Crisp; bounds::INPUTS],
}

// The declared type of input i.
#[tactic(auto, unfolding(model::specs::Image::input_at))]
fn input_type(stored: &Stored, i: usize) -> InputType
    requires { i < stored.now.header.inputs.rows }
    ensures { result ≡ (input_at (word_at stored.now.bytes.now) i).type }
{
    match stored.word(stored.header.inputs.row(i) + header::INPUT_TYPE) {
        header::REAL => InputType::Real,
        _ => InputType::Int,
    }
}

// The values of the inputs, and 0 in the places past them; or the first input whose reading is wrong.
pub fn input_values(
    image: &CheckedImage,
    rs: &[Reading; bounds::INPUTS],
) -> Result<[Crisp; bounds::INPUTS], WrongReading>
    ensures all_read { IfOk result (λ at. (length (values_read (decode (word_at image.now.stored.bytes.now)).inputs rs.now)
        ≡ image.now.stored.header.inputs.rows) × (figures at
        ≡ filled input_limit (pos 0) (values_read (decode (word_at image.now.stored.bytes.now)).inputs rs.now))) }
    ensures crisp { IfOk result (λ at. AllCrisp (figures at)) }
    ensures wrong { IfErr result (λ e. (e.input < image.now.stored.header.inputs.rows)
        × (e.input ≡ length (values_read (decode (word_at image.now.stored.bytes.now)).inputs rs.now))
        × (figures e.before ≡ filled input_limit (pos 0) (values_read (decode (word_at image.now.stored.bytes.now)).inputs rs.now))
        × AllCrisp (figures e.before)) }
{
    let stored = &image.stored;
    let mut at = [Crisp(0); bounds::INPUTS];
    for i in 0..stored.header.inputs.rows {
        let Ok(x) = readings::taken(input_type(stored, i), rs[i]) else {
            return Err(WrongReading {
                input: i,
                before: at,
            });
        };
        at[i] = x;
    }
    Ok(at)
}
