// The variables of a stored image: the inputs, with the outputs their names, counts and terms.
#![tactic(auto)]

ghost use Rattle.std.specs.Prelude.{◌≡◌, ◌<◌};
ghost use Rattle.model.specs.Basic.{all, tab};
ghost use Rattle.model.specs.Image.{word_at};
ghost use Rattle.layout.specs.Groups.{variables_ok};
ghost use Rattle.stored_variables.specs.Stored.{input_stored, variables_apart};

use distinct_names::{apart_ok, distinct_ok};
use header::Stored;
use layout::Laid;
use stored_names::name_ok;

#[tactic(auto, using(crate::proofs::Named::input_terms_named, crate::proofs::Named::inputs_named), unfolding(model::specs::Basic::every, crate::specs::Stored::input_stored))]
fn input_ok(image: &Laid, i: usize) -> bool
    requires { i < image.now.stored.header.inputs.rows }
    ensures { result ≡ input_stored (word_at image.now.stored.bytes.now) i }
{
    let stored = &image.stored;
    let row = stored.header.inputs.row(i);
    let terms = stored.word(row + header::INPUT_TERMS);
    let first = stored.word(row + header::INPUT_FIRST);
    name_ok(stored.bytes, row)
        && (1..=bounds::TERMS).contains(&terms)
        && stored_terms::terms_ok(image, first, terms)
        && stored_terms::terms_apart(stored, first, terms)
}

fn inputs_ok(image: &Laid) -> bool
    ensures { result ≡ all (input_stored (word_at image.now.stored.bytes.now)) (tab (λ i. i) image.now.stored.header.inputs.rows 0) }
{
    for i in 0..image.stored.header.inputs.rows {
        if !input_ok(image, i) {
            return false;
        }
    }
    true
}

// The names of the inputs and outputs are distinct.
#[tactic(auto, unfolding(crate::specs::Stored::variables_apart))]
fn variables_apart(image: &Stored) -> bool
    ensures { result ≡ variables_apart (word_at image.now.bytes.now) }
{
    let inputs = &image.header.inputs;
    let outputs = &image.header.outputs;
    distinct_ok(image.bytes, inputs)
        && apart_ok(image.bytes, inputs, outputs)
        && distinct_ok(image.bytes, outputs)
}

// Names, counts, terms and points are those of the variables of a block.
pub fn variables_ok(image: &Laid) -> bool
    ensures { result ≡ variables_ok (word_at image.now.stored.bytes.now) }
{
    let stored = &image.stored;
    name_ok(stored.bytes, header::BLOCK_NAME)
        && name_ok(stored.bytes, header::RULE_BLOCK_NAME)
        && (1..=bounds::INPUTS).contains(&stored.header.inputs.rows)
        && (1..=bounds::OUTPUTS).contains(&stored.header.outputs.rows)
        && inputs_ok(image)
        && stored_outputs::outputs_ok(image)
        && variables_apart(stored)
}
