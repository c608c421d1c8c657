// What the static library exports for hosts in C and Rust: each function calls that of its name in `grillenhelm`, and
// promises the same.
#![tactic(auto)]

ghost use Rattle.std.specs.Prelude.{◌≡◌, map, length};
ghost use Rattle.model.specs.Outcome.{buffer_after};
ghost use Rattle.model.specs.Image.{loads};
ghost use Rattle.model.specs.Buffers.{reads_into, lists_into};
ghost use Rattle.model.specs.Evaluation.{evaluate, fresh};
ghost use Rattle.model.specs.Chunks.{chunk as aChunk, finish as theEnd, answer_in, state_after};
ghost use Rattle.outcome_crossing.specs.Outcomes.{outcome_of, bare_outcome};
ghost use Rattle.call_crossing.specs.Values.{reading_of};
ghost use Rattle.crossing.specs.Crossing.{fresh_in, evaluation_in, leaving};

use call_crossing::GrillenhelmReadings;
use crossing::{GrillenhelmEvaluation, GrillenhelmFresh, GrillenhelmReply};
use model::Held;
use outcome_crossing::GrillenhelmOutcome;

#[unsafe(no_mangle)]
pub extern "C" fn grillenhelm_read(text: &[u8], image: &mut [u8]) -> GrillenhelmOutcome
    ensures value { result ≡ outcome_of length (reads_into (length image.old) text.now) }
    ensures buffer { image.new
        ≡ buffer_after image.old (reads_into (length image.old) text.now) }
{
    grillenhelm::grillenhelm_read(text, image)
}

#[unsafe(no_mangle)]
pub extern "C" fn grillenhelm_append(
    chunk: &[u8],
    store: &mut [u8],
    count: &mut usize,
) -> GrillenhelmOutcome
    ensures value { result ≡ bare_outcome (answer_in (record { store = store.old; count = count.old })
        (aChunk chunk.now)) }
    ensures state { record { store = store.new; count = count.new }
        ≡ state_after (record { store = store.old; count = count.old })
        (aChunk chunk.now) }
{
    grillenhelm::grillenhelm_append(chunk, store, count)
}

#[unsafe(no_mangle)]
pub extern "C" fn grillenhelm_finish(
    store: &[u8],
    count: &mut usize,
    image: &mut [u8],
) -> GrillenhelmOutcome
    ensures value { result ≡ outcome_of length (answer_in
        (record { store = store.now; count = count.old }) (theEnd image.old)) }
    ensures buffer { image.new ≡ buffer_after image.old (answer_in
        (record { store = store.now; count = count.old }) (theEnd image.old)) }
    ensures state { record { store = store.now; count = count.new }
        ≡ state_after (record { store = store.now; count = count.old })
        (theEnd image.old) }
{
    grillenhelm::grillenhelm_finish(store, count, image)
}

#[unsafe(no_mangle)]
pub extern "C" fn grillenhelm_check(image: &[u8]) -> GrillenhelmOutcome
    ensures { result ≡ bare_outcome (loads image.now) }
{
    grillenhelm::grillenhelm_check(image)
}

#[unsafe(no_mangle)]
pub extern "C" fn grillenhelm_list(image: &[u8], text: &mut [u8]) -> GrillenhelmOutcome
    ensures value { result ≡ outcome_of length (lists_into (length text.old) image.now) }
    ensures buffer { text.new
        ≡ buffer_after text.old (lists_into (length text.old) image.now) }
{
    grillenhelm::grillenhelm_list(image, text)
}

#[unsafe(no_mangle)]
pub extern "C" fn grillenhelm_fresh(image: &[u8]) -> GrillenhelmFresh
    ensures { result ≡ fresh_in (fresh image.now) }
{
    grillenhelm::grillenhelm_fresh(image)
}

#[unsafe(no_mangle)]
pub extern "C" fn grillenhelm_evaluate(
    image: &[u8],
    readings: GrillenhelmReadings,
    held: Held,
) -> GrillenhelmEvaluation
    ensures { result ≡ evaluation_in held
        (evaluate image.now (map reading_of readings.at) readings.count held) }
{
    grillenhelm::grillenhelm_evaluate(image, readings, held)
}

#[unsafe(no_mangle)]
pub extern "C" fn grillenhelm_evaluate_held(
    image: &[u8],
    readings: GrillenhelmReadings,
    held: &mut Held,
) -> GrillenhelmReply
    ensures { leaving result held.new ≡ evaluation_in held.old
        (evaluate image.now (map reading_of readings.at) readings.count held.old) }
{
    grillenhelm::grillenhelm_evaluate_held(image, readings, held)
}
