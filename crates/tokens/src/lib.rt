// Tokens of a text: kind and place of its first one.
#![tactic(auto)]

ghost use Rattle.std.specs.Prelude.{◌≡◌, ◌∷◌, true, false, ◌&&◌, suc, ◌+◌, ◌≤◌, ◌<◌, eqb, length, drop, get_or, if◌then◌else◌};
ghost use Rattle.model.specs.Basic.{run};
ghost use Rattle.model.specs.Tokens.{is_blank, is_digit, starts_name, is_name_byte, is_sign, starts, tidy, word_kind, point_part, number_part, comment_part, comment_piece, word_piece, piece_at, tokens};
ghost use Rattle.tokens.specs.Tokens.{goes_on, tidy_word, piece_of, token_of, after};

// A token of a text: its kind, and where it starts and ends.
#[derive(Clone, Copy)]
pub struct Token {
    pub kind: u8,
    pub start: usize,
    pub end: usize,
}

// What begins at a byte: its kind, and how many more bytes belong to it.
#[derive(Clone, Copy)]
struct Piece {
    kind: u8,
    more: usize,
}

// The byte at i is a, and b follows it.
fn is_pair(s: &[u8], i: usize, a: u8, b: u8) -> bool
    requires { i < length s.now }
    ensures value { result ≡ eqb (get_or s.now i 0) a && starts (eqb b) (drop (i + 1) s.now) }
    ensures within { result ≡ true → i + 1 < length s.now }
{
    s[i] == a && (i + 1 < s.len() && b == s[i + 1])
}

// A point that belongs to a number: a digit follows it.
fn point_at(s: &[u8], i: usize) -> bool
    ensures s_value { point_part (drop i s.now)
        ≡ if result then suc (run is_digit (drop (i + 1) s.now)) else 0 }
    ensures within { result ≡ true → i < length s.now }
{
    i < s.len() && s[i] == b'.' && characters::digit_at(s, i + 1)
}

// The bytes of a number from behind its sign or its first digit on.
fn number_part(s: &[u8], from: usize) -> usize
    requires { from ≤ length s.now }
    ensures value { result ≡ number_part (drop from s.now) }
    ensures within { from + result ≤ length s.now }
{
    let e = characters::digits_end(s, from);
    if point_at(s, e) {
        return characters::digits_end(s, e + 1) - from;
    }
    e - from
}

// The byte at i goes on a tidy word: a letter or a digit, or an underscore with one behind it.
fn goes_on(s: &[u8], i: usize) -> bool
    requires { i < length s.now }
    ensures { result ≡ goes_on (drop i s.now) }
{
    if characters::is_plain(s[i]) {
        return true;
    }
    if s[i] != b'_' {
        return false;
    }
    i + 1 < s.len() && characters::is_plain(s[i + 1])
}

// A word at the start of a text: where it ends, and whether it is tidy.
#[derive(Clone, Copy)]
struct Word {
    end: usize,
    tidy: bool,
}

// The word from i on, where it goes on no further or is not tidy.
fn stopped(s: &[u8], i: usize) -> Word
    requires { (i < length s.now) × (goes_on (drop i s.now) ≡ false) }
    ensures end_value { (result.end ≡ i + run is_name_byte (drop i s.now))
        × (result.tidy ≡ tidy_word (drop i s.now)) }
    ensures within { (i ≤ result.end) × (result.end ≤ length s.now) }
{
    if s[i] == b'_' {
        return Word {
            end: characters::name_end(s, i),
            tidy: false,
        };
    }
    Word { end: i, tidy: true }
}

fn word_of(s: &[u8]) -> Word
    ensures end_value { (result.end ≡ run is_name_byte s.now) × (result.tidy ≡ tidy_word s.now) }
    ensures within { result.end ≤ length s.now }
{
    for i in 0..s.len() {
        if !goes_on(s, i) {
            return stopped(s, i);
        }
    }
    Word {
        end: s.len(),
        tidy: true,
    }
}

// The kind of a tidy word. There are fewer than 64 keywords: by the remainder the compiler knows that no word is a blank.
fn word_kind(w: &[u8]) -> u8
    requires { tidy w.now ≡ true }
    ensures value { result ≡ word_kind w.now }
    ensures within { 0 < result }
{
    match keywords::keyword_at(w) {
        Some(k) => token_kinds::ACCU + k as u8 % 64,
        None => token_kinds::NAME,
    }
}

fn word_piece(rest: &[u8]) -> Piece
    requires { (0 < length rest.now) × (starts_name (get_or rest.now 0 0) ≡ true) }
    ensures result_value { piece_of result ≡ word_piece (get_or rest.now 0 0) (drop 1 rest.now) }
    ensures within { (0 < result.kind) × (result.more < length rest.now) }
{
    let w = word_of(rest);
    let e = w.end;
    if !w.tidy {
        return Piece {
            kind: token_kinds::WRONG,
            more: e - 1,
        };
    }
    Piece {
        kind: word_kind(&rest[..e]),
        more: e - 1,
    }
}

// A sign with a digit behind it.
fn is_signed(rest: &[u8]) -> bool
    requires { 0 < length rest.now }
    ensures { result ≡ is_sign (get_or rest.now 0 0) && starts is_digit (drop 1 rest.now) }
{
    characters::is_sign(rest[0]) && characters::digit_at(rest, 1)
}

// The comment that `(*` opens at the start.
fn comment_piece(rest: &[u8]) -> Piece
    requires { 2 ≤ length rest.now }
    ensures result_value { piece_of result
        ≡ comment_piece (drop 2 rest.now) (comment_part (drop 2 rest.now)) }
    ensures within { (0 < result.kind) × (result.more < length rest.now) }
{
    for i in 2..rest.len() {
        if is_pair(rest, i, b'*', b')') {
            return Piece {
                kind: token_kinds::BLANK,
                more: i + 1,
            };
        }
    }
    Piece {
        kind: token_kinds::WRONG,
        more: rest.len() - 1,
    }
}

// The piece at a byte that is neither blank nor of a name nor a digit.
fn mark_piece(rest: &[u8]) -> Piece
    requires rest_nonzero { 0 < length rest.now }
    requires other { (is_blank (get_or rest.now 0 0) ≡ false) × (starts_name (get_or rest.now 0 0) ≡ false)
        × (is_digit (get_or rest.now 0 0) ≡ false) }
    ensures result_value { piece_of result ≡ piece_at (get_or rest.now 0 0) (drop 1 rest.now) }
    ensures within { (0 < result.kind) × (result.more < length rest.now) }
{
    let c = rest[0];
    if is_signed(rest) {
        return Piece {
            kind: token_kinds::NUMBER,
            more: number_part(rest, 1),
        };
    }
    if is_pair(rest, 0, b'(', b'*') {
        return comment_piece(rest);
    }
    if is_pair(rest, 0, b':', b'=') {
        return Piece {
            kind: token_kinds::ASSIGN,
            more: 1,
        };
    }
    if is_pair(rest, 0, b'.', b'.') {
        return Piece {
            kind: token_kinds::DOTS,
            more: 1,
        };
    }
    if characters::is_mark(c) {
        return Piece { kind: c, more: 0 };
    }
    Piece {
        kind: token_kinds::WRONG,
        more: 0,
    }
}

// The piece at the start of what is left of the text.
fn first_piece(rest: &[u8]) -> Piece
    requires { 0 < length rest.now }
    ensures result_value { piece_of result ≡ piece_at (get_or rest.now 0 0) (drop 1 rest.now) }
    ensures within { (0 < result.kind) × (result.more < length rest.now) }
{
    let c = rest[0];
    if characters::is_blank(c) {
        return Piece {
            kind: token_kinds::BLANK,
            more: 0,
        };
    }
    if characters::starts_name(c) {
        return word_piece(rest);
    }
    if characters::is_digit(c) {
        return Piece {
            kind: token_kinds::NUMBER,
            more: number_part(rest, 1),
        };
    }
    mark_piece(rest)
}

// The first token of what is left of the text, and where it stands in that.
pub fn next(rest: &[u8]) -> Token
    ensures rest_value { tokens rest.now ≡ token_of rest.now result ∷ after rest.now result }
    ensures within { (result.start ≤ result.end) × (result.end ≤ length rest.now) }
{
    let mut i = 0;
    while i < rest.len() {
        let p = first_piece(&rest[i..]);
        let e = i + 1 + p.more;
        if p.kind != token_kinds::BLANK {
            return Token {
                kind: p.kind,
                start: i,
                end: e,
            };
        }
        i = e;
    }
    Token {
        kind: token_kinds::END,
        start: i,
        end: i,
    }
}
