// The reader: an FCL text to its stored image, or the refusal by number and place.
#![tactic(auto)]

ghost use Rattle.std.specs.Prelude.{◌≡◌, length, ◌≤◌};
ghost use Rattle.model.specs.Bounds.{text_limit};
ghost use Rattle.model.specs.Outcome.{length_in, buffer_after};
ghost use Rattle.model.specs.Refusals.{written_of};
ghost use Rattle.model.specs.Reader.{start};
ghost use Rattle.model.specs.Buffers.{reads_into};
ghost use Rattle.parse_state.specs.Reads.{view, Good};
ghost use Rattle.block_text.specs.Block.{front_text};

use block_tables::Totals;
use model::Refusal;
use parse_state::ParseState;
use refusals::Fault;
use rule_text::Progress;
use symbol_table::Declarations;

// From the rule block on: p is what stands before it.
fn read_on(s: &[u8], p: ParseState, out: &mut [u8]) -> Result<usize, Refusal>
    requires { Good s.now p × (view s.now p ≡ front_text (start s.now)) × (length s.now ≤ text_limit) }
    ensures result_value { written_of result ≡ length_in (reads_into (length out.old) s.now) }
    ensures buffer { out.new
        ≡ buffer_after out.old (reads_into (length out.old) s.now) }
{
    let t = p.tables;
    let symbols = symbol_table::symbols_of(&t);
    let o = rule_heading::rule_heading(s, p.cursor);
    let mut rules = [0u32; bounds::RULES * block_tables::KEPT_RULE_WIDTH];
    let mut words = [0u32; bounds::WORDS];
    let mut conclusions = [0u32; bounds::CONCLUSIONS * block_tables::CONCLUSION_WIDTH];
    let declarations = Declarations {
        text: s,
        names: &t.names,
        symbols: &symbols,
    };
    let none = Totals {
        rules: 0,
        words: 0,
        conclusions: 0,
    };
    let q = rule_text::rules(
        &declarations,
        &mut rules,
        &mut words,
        &mut conclusions,
        Progress {
            cursor: o.cursor,
            totals: none,
        },
    );
    let f = block_text::back(s, q.cursor, block_text::is_complete(&symbols));
    if let Some(r) = f.refused {
        return Err(refusals::refusal_of(Fault::of(r.why), f.place));
    }
    image::store(
        s,
        &t,
        o.heading,
        &rules,
        &words,
        &conclusions,
        q.totals,
        out,
    )
}

// The image of the text into the buffer: its length, or the refusal, which leaves the buffer as it came.
pub fn read(s: &[u8], out: &mut [u8]) -> Result<usize, Refusal>
    ensures result_value { written_of result ≡ length_in (reads_into (length out.old) s.now) }
    ensures buffer { out.new
        ≡ buffer_after out.old (reads_into (length out.old) s.now) }
{
    if bounds::TEXT < s.len() {
        return Err(Refusal::TextTooLong);
    }
    let p = block_text::front(s);
    read_on(s, p, out)
}
