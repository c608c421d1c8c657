// The block's name, and its variables in VAR_INPUT and VAR_OUTPUT: names with commas, a colon, the type, a semicolon.
#![tactic(auto)]

ghost use Rattle.std.specs.Prelude.{◌≡◌, OnOk, true, List, ℕ, ◌≤◌, ◌<◌};
ghost use Rattle.model.specs.Block.{Block, with_name};
ghost use Rattle.model.specs.Parse.{own_name, listed, repeated};
ghost use Rattle.model.specs.Keywords.{NAME};
ghost use Rattle.model.specs.Bounds.{input_limit, output_limit};
ghost use Rattle.model.specs.Declarations.{variable, add_input, add_output, input_count, output_count, input_type, input_declaration, output_declaration};
ghost use Rattle.lookup.specs.Names.{Placed};
ghost use Rattle.cursor.specs.View.{seen, Fits, Moves, fault, number_of};
ghost use Rattle.parse_state.specs.Beside.{Ready, Collects};
ghost use Rattle.declaration_text.specs.Declares.{Declares, new_checks, unnamed, with_block_name, with_inputs, with_outputs};

use block_tables::{Input, Output};
use cursor::Cursor;
use lookup::Names;
use model::Crisp;
use refusals::Fault;

// A reading among inputs: how many there are, and their rows, beside the tables' names.
#[derive(Clone, Copy)]
pub struct DeclaredInputs {
    pub cursor: Cursor,
    pub count: usize,
    pub rows: [Input; bounds::INPUTS],
}

// A reading among outputs, likewise.
#[derive(Clone, Copy)]
pub struct DeclaredOutputs {
    pub cursor: Cursor,
    pub count: usize,
    pub rows: [Output; bounds::OUTPUTS],
}

// The cursor behind the block's name, and the place of the name; 0 where it is refused.
#[derive(Clone, Copy)]
pub struct BlockName {
    pub cursor: Cursor,
    pub start: usize,
    pub end: usize,
}

pub fn block_name(s: &[u8], c: Cursor) -> BlockName
    requires { Fits s.now c }
    ensures { Collects (own_name with_name) s.now (with_block_name (unnamed c)) (with_block_name result) }
{
    if let Err(fault) = cursor::name_fault(c) {
        return BlockName {
            cursor: cursor::refuse_for(c, fault),
            start: 0,
            end: 0,
        };
    }
    BlockName {
        cursor: cursor::advance(s, c),
        start: c.start,
        end: c.end,
    }
}

// By what fault the current token is refused as the name of a new variable, if it is none.
fn new_fault(
    s: &[u8],
    names: &Names,
    inputs: usize,
    outputs: usize,
    room: bool,
    c: Cursor,
) -> Result<(), Fault>
    requires { Fits s.now c × Placed s.now names.now × (inputs ≤ input_limit) × (outputs ≤ output_limit) }
    ensures value { (b : Block) (n : ℕ) → Declares s.now names.now inputs outputs b
        → number_of result ≡ fault (new_checks (seen s.now c b n) room) }
    ensures passed { OnOk result ((c.kind ≡ NAME) × (room ≡ true)) }
{
    cursor::name_fault(c)?;
    if lookup::find(s, names, 0, inputs, c.start, c.end).is_some()
        || lookup::find(s, names, lookup::FIRST_OUTPUT, outputs, c.start, c.end).is_some()
    {
        return Err(Fault::WrongName);
    }
    if !room {
        return Err(Fault::TooMany);
    }
    Ok(())
}

// One input more, beside m outputs.
fn input(s: &[u8], names: &mut Names, p: DeclaredInputs, m: usize) -> DeclaredInputs
    requires { Ready s.now (with_inputs m names.old p) }
    ensures collects { Collects (variable add_input input_count input_limit) s.now
        (with_inputs m names.old p) (with_inputs m names.new result) }
    ensures moves { Moves s.now p.cursor result.cursor }
{
    let c = p.cursor;
    let n = p.count;
    let mut r = p;
    if let Err(fault) = new_fault(s, names, n, m, n < bounds::INPUTS, c) {
        r.cursor = cursor::refuse_for(c, fault);
        return r;
    }
    names[n] = c.start;
    names[lookup::ENDS + n] = c.end;
    r.rows[n] = Input {
        start: c.start,
        end: c.end,
        int: false,
        terms: 0,
    };
    r.count = n + 1;
    r.cursor = cursor::advance(s, c);
    r
}

// One output more, beside m inputs.
fn output(s: &[u8], names: &mut Names, p: DeclaredOutputs, m: usize) -> DeclaredOutputs
    requires { Ready s.now (with_outputs m names.old p) }
    ensures collects { Collects (variable add_output output_count output_limit) s.now
        (with_outputs m names.old p) (with_outputs m names.new result) }
    ensures moves { Moves s.now p.cursor result.cursor }
{
    let c = p.cursor;
    let n = p.count;
    let mut r = p;
    if let Err(fault) = new_fault(s, names, m, n, n < bounds::OUTPUTS, c) {
        r.cursor = cursor::refuse_for(c, fault);
        return r;
    }
    names[lookup::FIRST_OUTPUT + n] = c.start;
    names[lookup::ENDS + (lookup::FIRST_OUTPUT + n)] = c.end;
    r.rows[n] = Output {
        start: c.start,
        end: c.end,
        terms: 0,
        ranged: false,
        least: Crisp(0),
        most: Crisp(0),
        numbered: false,
        default: Crisp(0),
    };
    r.count = n + 1;
    r.cursor = cursor::advance(s, c);
    r
}

fn inputs(s: &[u8], names: &mut Names, p: DeclaredInputs, m: usize) -> DeclaredInputs
    requires { Ready s.now (with_inputs m names.old p) }
    ensures collects { Collects (listed (variable add_input input_count input_limit)) s.now
        (with_inputs m names.old p) (with_inputs m names.new result) }
    ensures moves { Moves s.now p.cursor result.cursor }
{
    let mut q = input(s, names, p, m);
    while q.cursor.kind == token_kinds::COMMA {
        q.cursor = cursor::advance(s, q.cursor);
        q = input(s, names, q, m);
    }
    q
}

fn outputs(s: &[u8], names: &mut Names, p: DeclaredOutputs, m: usize) -> DeclaredOutputs
    requires { Ready s.now (with_outputs m names.old p) }
    ensures collects { Collects (listed (variable add_output output_count output_limit)) s.now
        (with_outputs m names.old p) (with_outputs m names.new result) }
    ensures moves { Moves s.now p.cursor result.cursor }
{
    let mut q = output(s, names, p, m);
    while q.cursor.kind == token_kinds::COMMA {
        q.cursor = cursor::advance(s, q.cursor);
        q = output(s, names, q, m);
    }
    q
}

// REAL, or INT for the inputs from n on.
fn input_type(s: &[u8], p: DeclaredInputs, n: usize) -> DeclaredInputs
    requires { (m : ℕ) × (names : List ℕ) × Ready s.now (with_inputs m names p) }
    ensures { (m : ℕ) (names : List ℕ)
        → Collects (input_type n) s.now (with_inputs m names p) (with_inputs m names result) }
{
    if p.cursor.kind == token_kinds::INT {
        return DeclaredInputs {
            cursor: cursor::advance(s, p.cursor),
            rows: block_tables::typed(p.rows, n, p.count),
            ..p
        };
    }
    DeclaredInputs {
        cursor: cursor::expect(s, p.cursor, token_kinds::REAL),
        ..p
    }
}

fn input_declaration(s: &[u8], names: &mut Names, p: DeclaredInputs, m: usize) -> DeclaredInputs
    requires { Ready s.now (with_inputs m names.old p) }
    ensures collects { Collects input_declaration s.now
        (with_inputs m names.old p) (with_inputs m names.new result) }
    ensures moves { Moves s.now p.cursor result.cursor }
{
    let mut q = inputs(s, names, p, m);
    q.cursor = cursor::expect(s, q.cursor, token_kinds::COLON);
    q = input_type(s, q, p.count);
    q.cursor = cursor::expect(s, q.cursor, token_kinds::SEMICOLON);
    q
}

fn output_declaration(s: &[u8], names: &mut Names, p: DeclaredOutputs, m: usize) -> DeclaredOutputs
    requires { Ready s.now (with_outputs m names.old p) }
    ensures collects { Collects output_declaration s.now
        (with_outputs m names.old p) (with_outputs m names.new result) }
    ensures moves { Moves s.now p.cursor result.cursor }
{
    let mut q = outputs(s, names, p, m);
    q.cursor = cursor::expect(s, q.cursor, token_kinds::COLON);
    q.cursor = cursor::expect(s, q.cursor, token_kinds::REAL);
    q.cursor = cursor::expect(s, q.cursor, token_kinds::SEMICOLON);
    q
}

// Declarations of inputs, one or more, beside m outputs.
pub fn all_inputs(s: &[u8], names: &mut Names, p: DeclaredInputs, m: usize) -> DeclaredInputs
    requires { Ready s.now (with_inputs m names.old p) }
    ensures { Collects (λ q. repeated NAME input_declaration (input_declaration q)) s.now
        (with_inputs m names.old p) (with_inputs m names.new result) }
{
    let mut q = input_declaration(s, names, p, m);
    while q.cursor.kind == token_kinds::NAME {
        q = input_declaration(s, names, q, m);
    }
    q
}

// Declarations of outputs, likewise.
pub fn all_outputs(s: &[u8], names: &mut Names, p: DeclaredOutputs, m: usize) -> DeclaredOutputs
    requires { Ready s.now (with_outputs m names.old p) }
    ensures { Collects (λ q. repeated NAME output_declaration (output_declaration q)) s.now
        (with_outputs m names.old p) (with_outputs m names.new result) }
{
    let mut q = output_declaration(s, names, p, m);
    while q.cursor.kind == token_kinds::NAME {
        q = output_declaration(s, names, q, m);
    }
    q
}
