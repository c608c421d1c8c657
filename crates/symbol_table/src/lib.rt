// What the name at the cursor was declared as: an input, an output, or a term of one of them.
#![tactic(auto)]

ghost use Rattle.std.specs.Prelude.{◌≡◌, ℕ, ◌+◌, ◌*◌, ◌≤◌, ◌<◌, ltb, get_or, if◌then◌else◌};
ghost use Rattle.model.specs.Bounds.{input_limit, output_limit, term_limit, variable_limit, input_term_limit};
ghost use Rattle.lookup.specs.Names.{Found};
ghost use Rattle.cursor.specs.View.{Fits, text_of};
ghost use Rattle.block_tables.specs.View.{input_row, output_row};
ghost use Rattle.symbol_table.specs.Symbols.{Symbols, term_count, input_count, output_count};
ghost use Rattle.symbol_table.specs.Firsts.{terms_at, symbols_in};

use block_tables::Tables;
use cursor::Cursor;
use lookup::Names;

// For each variable the first of its terms, counted over all variables; the number of all terms; how many inputs and
// outputs there are.
pub type SymbolTable = [usize; OUTPUT_COUNT + 1];

pub const INPUT_COUNT: usize = bounds::VARIABLES + 1;

pub const OUTPUT_COUNT: usize = INPUT_COUNT + 1;

// A text, where the names that it declares stand in it, and their symbols.
#[derive(Clone, Copy)]
pub struct Declarations<'a> {
    pub text: &'a [u8],
    pub names: &'a Names,
    pub symbols: &'a SymbolTable,
    pub ghost sound: { Symbols text.now names.now symbols.now },
}

// Which input.
pub fn input_of(s: &[u8], names: &Names, symbols: &SymbolTable, c: Cursor) -> Option<usize>
    requires { Fits s.now c × Symbols s.now names.now symbols.now }
    ensures { Found s.now names.now (text_of s.now c) (input_count symbols.now) 0 result }
{
    lookup::find(s, names, 0, symbols[INPUT_COUNT], c.start, c.end)
}

// Which output.
pub fn output_of(s: &[u8], names: &Names, symbols: &SymbolTable, c: Cursor) -> Option<usize>
    requires { Fits s.now c × Symbols s.now names.now symbols.now }
    ensures { Found s.now names.now (text_of s.now c) (output_count symbols.now) input_limit result }
{
    lookup::find(
        s,
        names,
        lookup::FIRST_OUTPUT,
        symbols[OUTPUT_COUNT],
        c.start,
        c.end,
    )
}

// Which term of variable v.
pub fn term_of(s: &[u8], names: &Names, symbols: &SymbolTable, v: usize, c: Cursor) -> Option<usize>
    requires { Fits s.now c × Symbols s.now names.now symbols.now × (v < variable_limit) }
    ensures { Found s.now names.now (text_of s.now c)
        (term_count symbols.now v) (variable_limit + v * term_limit) result }
{
    lookup::find(
        s,
        names,
        lookup::FIRST_TERM + v * bounds::TERMS,
        symbols[v + 1] - symbols[v],
        c.start,
        c.end,
    )
}

// How many terms variable v has; none where it is not declared.
fn terms_at(t: &Tables, v: usize) -> usize
    requires { v < variable_limit }
    ensures { result ≡ terms_at t.now v }
{
    if v < bounds::INPUTS {
        if v < t.input_count {
            t.inputs[v].terms
        } else {
            0
        }
    } else {
        let o = v - bounds::INPUTS;
        if o < t.output_count {
            t.outputs[o].terms
        } else {
            0
        }
    }
}

// The symbols of a text's tables.
pub fn symbols_of(t: &Tables) -> SymbolTable
    requires { ((i : ℕ) → (input_row t.now i).terms ≤ term_limit) × ((o : ℕ) → (output_row t.now o).terms ≤ term_limit) }
    ensures { result ≡ symbols_in t.now }
{
    let mut r = [0; OUTPUT_COUNT + 1];
    for v in 0..bounds::VARIABLES {
        r[v + 1] = r[v] + terms_at(t, v);
    }
    r[INPUT_COUNT] = t.input_count;
    r[OUTPUT_COUNT] = t.output_count;
    r
}
