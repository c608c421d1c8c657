// A function block's text around its rule block: name, variables, FUZZIFY and DEFUZZIFY before it, the end behind it.
#![tactic(auto)]

ghost use Rattle.std.specs.Prelude.{◌≡◌, ◌+◌, ◌-◌, ◌≤◌, ltb};
ghost use Rattle.std.specs.List.{list_all, range_with_len};
ghost use Rattle.model.specs.Bounds.{input_limit, output_limit, variable_limit};
ghost use Rattle.model.specs.Keywords.{FUZZIFY, DEFUZZIFY};
ghost use Rattle.model.specs.Parse.{repeated};
ghost use Rattle.model.specs.Declarations.{fuzzify, defuzzify};
ghost use Rattle.model.specs.Reader.{start};
ghost use Rattle.cursor.specs.View.{Fits, Step};
ghost use Rattle.parse_state.specs.Reads.{view, Good};
ghost use Rattle.parse_state.specs.Beside.{Ready, Collects};
ghost use Rattle.declaration_text.specs.Declares.{with_inputs, with_outputs};
ghost use Rattle.fuzzify_text.specs.Terms.{inputs_in};
ghost use Rattle.defuzzify_text.specs.Output.{with_outputs as outputsIn};
ghost use Rattle.symbol_table.specs.Symbols.{first, input_count, output_count};
ghost use Rattle.block_text.specs.Block.{no_inputs, no_outputs, no_terms, no_singletons};
ghost use Rattle.block_text.specs.Block.{inputs_text, outputs_text, front_text, back_to, have_terms, all_have_terms};

use block_tables::{Input, Output, Singleton, Tables, Term};
use cursor::Cursor;
use declaration_text::{DeclaredInputs, DeclaredOutputs};
use defuzzify_text::Outputs;
use fuzzify_text::Inputs;
use lookup::Names;
use model::{Crisp, Degree, Point};
use parse_state::ParseState;
use refusals::Fault;
use symbol_table::SymbolTable;

// VAR_INPUT, declarations, END_VAR.
fn inputs(s: &[u8], names: &mut Names, c: Cursor) -> DeclaredInputs
    requires { Ready s.now (with_inputs 0 names.old (no_inputs c)) }
    ensures { Collects inputs_text s.now
        (with_inputs 0 names.old (no_inputs c)) (with_inputs 0 names.new result) }
{
    let v = Input {
        start: 0,
        end: 0,
        int: false,
        terms: 0,
    };
    let declared = DeclaredInputs {
        cursor: cursor::expect(s, c, token_kinds::VAR_INPUT),
        count: 0,
        rows: [v; bounds::INPUTS],
    };
    let r = declaration_text::all_inputs(s, names, declared, 0);
    DeclaredInputs {
        cursor: cursor::expect(s, r.cursor, token_kinds::END_VAR),
        ..r
    }
}

// VAR_OUTPUT, declarations, END_VAR, beside m inputs.
fn outputs(s: &[u8], names: &mut Names, c: Cursor, m: usize) -> DeclaredOutputs
    requires { Ready s.now (with_outputs m names.old (no_outputs c)) }
    ensures { Collects outputs_text s.now
        (with_outputs m names.old (no_outputs c)) (with_outputs m names.new result) }
{
    let v = Output {
        start: 0,
        end: 0,
        terms: 0,
        ranged: false,
        least: Crisp(0),
        most: Crisp(0),
        numbered: false,
        default: Crisp(0),
    };
    let declared = DeclaredOutputs {
        cursor: cursor::expect(s, c, token_kinds::VAR_OUTPUT),
        count: 0,
        rows: [v; bounds::OUTPUTS],
    };
    let r = declaration_text::all_outputs(s, names, declared, m);
    DeclaredOutputs {
        cursor: cursor::expect(s, r.cursor, token_kinds::END_VAR),
        ..r
    }
}

// FUZZIFY parts of the inputs v.
fn input_terms(s: &[u8], names: &mut Names, c: Cursor, v: DeclaredInputs) -> Inputs
    requires { Ready s.now (inputs_in names.old (no_terms c v)) }
    ensures { Collects (λ q. repeated FUZZIFY fuzzify (fuzzify q)) s.now
        (inputs_in names.old (no_terms c v)) (inputs_in names.new result) }
{
    let z = Point {
        at: Crisp(0),
        degree: Degree(0),
    };
    let t = Term {
        start: 0,
        end: 0,
        count: 0,
        points: [z; bounds::POINTS],
    };
    let DeclaredInputs { count, rows, .. } = v;
    let terms = [t; bounds::INPUT_TERMS];
    fuzzify_text::parts(
        s,
        names,
        Inputs {
            cursor: c,
            count,
            rows,
            terms,
        },
    )
}

// DEFUZZIFY parts of the outputs v.
fn output_terms(s: &[u8], names: &mut Names, c: Cursor, v: DeclaredOutputs) -> Outputs
    requires { Ready s.now (outputsIn names.old (no_singletons c v)) }
    ensures { Collects (λ q. repeated DEFUZZIFY defuzzify (defuzzify q)) s.now
        (outputsIn names.old (no_singletons c v)) (outputsIn names.new result) }
{
    let t = Singleton {
        start: 0,
        end: 0,
        at: Crisp(0),
    };
    let DeclaredOutputs { count, rows, .. } = v;
    let singletons = [t; bounds::OUTPUT_TERMS];
    defuzzify_text::parts(
        s,
        names,
        Outputs {
            cursor: c,
            count,
            rows,
            singletons,
        },
    )
}

// From the first token up to the rule block. The tables are put together once, from what each section gave.
pub fn front(s: &[u8]) -> ParseState
    ensures result_value { view s.now result ≡ front_text (start s.now) }
    ensures good { Good s.now result }
{
    let c = cursor::expect(s, cursor::begin(s), token_kinds::FUNCTION_BLOCK);
    let name = declaration_text::block_name(s, c);
    let mut names = [0; lookup::ENDS + bounds::NAMES];
    let i = inputs(s, &mut names, name.cursor);
    let o = outputs(s, &mut names, i.cursor, i.count);
    let p = input_terms(s, &mut names, o.cursor, i);
    let q = output_terms(s, &mut names, p.cursor, o);
    let Inputs {
        count: input_count,
        rows: inputs,
        terms: input_terms,
        ..
    } = p;
    let Outputs {
        cursor,
        count: output_count,
        rows: outputs,
        singletons: output_terms,
    } = q;
    ParseState {
        cursor,
        tables: Tables {
            start: name.start,
            end: name.end,
            input_count,
            output_count,
            inputs,
            outputs,
            input_terms,
            output_terms,
            names,
        },
    }
}

// Whether each of n variables from v on has a term.
fn have_terms(symbols: &SymbolTable, v: usize, n: usize) -> bool
    requires { v + n ≤ variable_limit }
    ensures { result ≡ list_all (λ k. ltb (first symbols.now k) (first symbols.now (k + 1))) (range_with_len v (v + n - v)) }
{
    (v..v + n).all(|k| symbols[k] < symbols[k + 1])
}

// Whether every variable has its part.
pub fn is_complete(symbols: &SymbolTable) -> bool
    requires { (input_count symbols.now ≤ input_limit) × (output_count symbols.now ≤ output_limit) }
    ensures { result ≡ all_have_terms symbols.now }
{
    have_terms(symbols, 0, symbols[symbol_table::INPUT_COUNT])
        && have_terms(symbols, bounds::INPUTS, symbols[symbol_table::OUTPUT_COUNT])
}

// From behind the last rule to the end of the text, where every variable has its part or not.
pub fn back(s: &[u8], c: Cursor, complete: bool) -> Cursor
    requires { Fits s.now c }
    ensures { Step (back_to complete) s.now c result }
{
    let d = cursor::expect(s, c, token_kinds::END_RULEBLOCK);
    if d.kind != token_kinds::END_FUNCTION_BLOCK {
        return cursor::refuse_for(d, Fault::WrongToken);
    }
    if !complete {
        return cursor::refuse_for(d, Fault::PartMissing);
    }
    let e = cursor::advance(s, d);
    if e.kind == token_kinds::END {
        return e;
    }
    cursor::refuse_for(e, Fault::WrongToken)
}
