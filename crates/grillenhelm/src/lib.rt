// The public functions as a host in C or Rust calls them: bytes and the held record are lent, everything else goes by
// value, outcomes and marks are document 01's numbers. Each function is the public one that it stands for, of any bytes
// and any values.
#![tactic(auto)]

ghost use Rattle.std.specs.Prelude.{◌≡◌, map, length};
ghost use Rattle.model.specs.Outcome.{buffer_after};
ghost use Rattle.model.specs.Image.{loads};
ghost use Rattle.model.specs.Buffers.{reads_into, lists_into};
ghost use Rattle.model.specs.Evaluation.{evaluate, fresh};
ghost use Rattle.model.specs.Chunks.{chunk as aChunk, finish as theEnd, answer_in, state_after};
ghost use Rattle.outcome_crossing.specs.Outcomes.{outcome_of, bare_outcome};
ghost use Rattle.call_crossing.specs.Values.{reading_of};
ghost use Rattle.crossing.specs.Crossing.{fresh_in, evaluation_in, leaving};

use call_crossing::{GrillenhelmReadings, readings_of};
use crossing::{
    GrillenhelmEvaluation, GrillenhelmFresh, GrillenhelmReply, evaluation_of, fresh_of, reply_of,
};
use model::Held;
use outcome_crossing::{GrillenhelmOutcome, verdict, written};

// `reader::read`.
pub fn grillenhelm_read(text: &[u8], image: &mut [u8]) -> GrillenhelmOutcome
    ensures value { result ≡ outcome_of length (reads_into (length image.old) text.now) }
    ensures buffer { image.new
        ≡ buffer_after image.old (reads_into (length image.old) text.now) }
{
    let w = reader::read(text, image);
    written(w)
}

// `chunk_store::append`.
pub fn grillenhelm_append(chunk: &[u8], store: &mut [u8], count: &mut usize) -> GrillenhelmOutcome
    ensures value { result ≡ bare_outcome (answer_in (record { store = store.old; count = count.old })
        (aChunk chunk.now)) }
    ensures state { record { store = store.new; count = count.new }
        ≡ state_after (record { store = store.old; count = count.old })
        (aChunk chunk.now) }
{
    let v = chunk_store::append(chunk, store, count);
    verdict(v)
}

// `chunked_text::finish`.
pub fn grillenhelm_finish(store: &[u8], count: &mut usize, image: &mut [u8]) -> GrillenhelmOutcome
    ensures value { result ≡ outcome_of length (answer_in
        (record { store = store.now; count = count.old }) (theEnd image.old)) }
    ensures buffer { image.new ≡ buffer_after image.old (answer_in
        (record { store = store.now; count = count.old }) (theEnd image.old)) }
    ensures state { record { store = store.now; count = count.new }
        ≡ state_after (record { store = store.now; count = count.old })
        (theEnd image.old) }
{
    let w = chunked_text::finish(store, count, image);
    written(w)
}

// `load::check`.
pub fn grillenhelm_check(image: &[u8]) -> GrillenhelmOutcome
    ensures { result ≡ bare_outcome (loads image.now) }
{
    let v = load::check(image);
    verdict(v)
}

// `lister::list`.
pub fn grillenhelm_list(image: &[u8], text: &mut [u8]) -> GrillenhelmOutcome
    ensures value { result ≡ outcome_of length (lists_into (length text.old) image.now) }
    ensures buffer { text.new
        ≡ buffer_after text.old (lists_into (length text.old) image.now) }
{
    let w = lister::list(image, text);
    written(w)
}

// `evaluation::fresh_of`.
pub fn grillenhelm_fresh(image: &[u8]) -> GrillenhelmFresh
    ensures { result ≡ fresh_in (fresh image.now) }
{
    let f = evaluation::fresh_of(image);
    fresh_of(f)
}

// `evaluation::evaluate`.
pub fn grillenhelm_evaluate(
    image: &[u8],
    readings: GrillenhelmReadings,
    held: Held,
) -> GrillenhelmEvaluation
    ensures { result ≡ evaluation_in held
        (evaluate image.now (map reading_of readings.at) readings.count held) }
{
    let rs = readings_of(readings);
    let n = readings.count;
    let e = evaluation::evaluate(image, rs, n, held);
    evaluation_of(e)
}

// `daily::evaluate_held`: the same on a record that is lent.
pub fn grillenhelm_evaluate_held(
    image: &[u8],
    readings: GrillenhelmReadings,
    held: &mut Held,
) -> GrillenhelmReply
    ensures { leaving result held.new ≡ evaluation_in held.old
        (evaluate image.now (map reading_of readings.at) readings.count held.old) }
{
    let rs = readings_of(readings);
    let r = daily::evaluate_held(image, rs, readings.count, held);
    reply_of(r)
}
