// The keywords, in any case. Each is alone in its slot, a number by its length, first byte and last byte, so that a word
// is compared with one of them at most. A letter and its capital lie 32 apart, and 32 times 8 and 32 times 152 are
// nothing by 256: so case does not count in slots.
#![tactic(auto)]

ghost use Rattle.std.specs.Prelude.{◌≡◌, true, [], map, ◌+◌, ◌*◌, ◌%◌, ◌≤◌, ◌<◌, ltb, length, get_or};
ghost use Rattle.model.specs.Basic.{alike};
ghost use Rattle.model.specs.Keywords.{keywords, keyword_at};
ghost use Rattle.keywords.specs.Slots.{keyword_count, keyword_limit, slot_of, group_of, joined, size_of, start_of, slot_row, rows, row_in, may_be, Others, Which};

// How many keywords there are, how long the longest is, and a bit for each length that one has.
pub const COUNT: usize = 43;

const LONGEST: usize = 18;

const LENGTHS: usize = 290556;

// The bytes of the keywords of more than 4.
const LONGER: u8 = 156;

// The words are the same but for case.
#[tactic(auto, using(crate::proofs::Laws::same_more, crate::proofs::Laws::same_stop, crate::proofs::Laws::same_end))]
fn is_word(w: &[u8], t: &[u8]) -> bool
    ensures { result ≡ alike w.now t.now }
{
    if w.len() != t.len() {
        return false;
    }
    for i in 0..w.len() {
        if !characters::is_alike(w[i], t[i]) {
            return false;
        }
    }
    true
}

// The keyword of a slot, where it begins in the text of its group, and how long it is. Where no keyword has the slot, it
// is COUNT, which has no bytes.
// Kept: with an option in its place the table of `slot_row` would be longer, and each word is looked up there.
#[derive(Clone, Copy)]
struct Row {
    keyword: u8,
    start: u8,
    size: u8,
}

// The row of a keyword of slot h.
fn keyword_row(h: usize, keyword: u8, start: u8, size: u8) -> Row
    requires h_value { (h ≡ slot_of (get_or keywords keyword [])) × (ltb keyword keyword_count ≡ true) }
    requires place { (start ≡ start_of keyword) × (size ≡ size_of keyword) }
    ensures { result ≡ slot_row h }
{
    Row {
        keyword,
        start,
        size,
    }
}

// No keyword is of slot h.
fn no_row(h: usize) -> Row
    requires { Others Unit h (map slot_of keywords) }
    ensures { result ≡ slot_row h }
{
    Row {
        keyword: COUNT as u8,
        start: LONGER,
        size: 0,
    }
}

fn slot_row(h: usize) -> Row
    ensures { result ≡ slot_row h }
{
    match h {
        132 => keyword_row(h, 0, 0, 4),
        235 => keyword_row(h, 1, 0, 3),
        107 => keyword_row(h, 2, 3, 3),
        196 => keyword_row(h, 3, 4, 4),
        164 => keyword_row(h, 4, 8, 4),
        204 => keyword_row(h, 5, 12, 4),
        179 => keyword_row(h, 6, 6, 3),
        67 => keyword_row(h, 7, 9, 3),
        100 => keyword_row(h, 8, 16, 4),
        7 => keyword_row(h, 9, 0, 7),
        1 => keyword_row(h, 10, 7, 9),
        13 => keyword_row(h, 11, 16, 13),
        194 => keyword_row(h, 12, 29, 18),
        11 => keyword_row(h, 13, 47, 11),
        123 => keyword_row(h, 14, 58, 11),
        189 => keyword_row(h, 15, 69, 13),
        223 => keyword_row(h, 16, 82, 7),
        198 => keyword_row(h, 17, 89, 14),
        15 => keyword_row(h, 18, 103, 7),
        218 => keyword_row(h, 19, 0, 2),
        146 => keyword_row(h, 20, 2, 2),
        26 => keyword_row(h, 21, 4, 2),
        171 => keyword_row(h, 22, 12, 3),
        206 => keyword_row(h, 23, 110, 6),
        187 => keyword_row(h, 24, 15, 3),
        58 => keyword_row(h, 25, 6, 2),
        83 => keyword_row(h, 26, 18, 3),
        44 => keyword_row(h, 27, 20, 4),
        199 => keyword_row(h, 28, 116, 7),
        42 => keyword_row(h, 29, 8, 2),
        228 => keyword_row(h, 30, 24, 4),
        141 => keyword_row(h, 31, 123, 5),
        74 => keyword_row(h, 32, 10, 2),
        140 => keyword_row(h, 33, 28, 4),
        33 => keyword_row(h, 34, 128, 9),
        92 => keyword_row(h, 35, 32, 4),
        244 => keyword_row(h, 36, 36, 4),
        99 => keyword_row(h, 37, 21, 3),
        153 => keyword_row(h, 38, 137, 9),
        154 => keyword_row(h, 39, 146, 10),
        124 => keyword_row(h, 40, 40, 4),
        180 => keyword_row(h, 41, 44, 4),
        43 => keyword_row(h, 42, 24, 3),
        _ => no_row(h),
    }
}

// The word of slot h beside the keyword of that slot, which is a part of the text of the word's group.
fn in_slot(w: &[u8], h: usize, text: &[u8]) -> Option<usize>
    requires { (h ≡ slot_of w.now) × (0 < length w.now) × (text.now ≡ joined (group_of (length w.now)) keywords) }
    ensures { Which w.now result }
{
    let r = slot_row(h);
    let n = r.size as usize;
    if w.len() != n {
        return None;
    }
    let a = r.start as usize;
    if is_word(w, &text[a..a + n]) {
        Some(r.keyword as usize)
    } else {
        None
    }
}

// The keywords of 2, of 3 and of 4 bytes have a text each, since a text is stored into the frame before it is compared;
// and a function each, since in one function all four would be.
fn of_two(w: &[u8], h: usize) -> Option<usize>
    requires { (h ≡ slot_of w.now) × (length w.now ≡ 2) }
    ensures { Which w.now result }
{
    in_slot(w, h, b"IFISLMNCORRM")
}

fn of_three(w: &[u8], h: usize) -> Option<usize>
    requires { (h ≡ slot_of w.now) × (length w.now ≡ 3) }
    ensures { Which w.now result }
{
    in_slot(w, h, b"ACTANDCoACoGMAXMINNOTVARINT")
}

fn of_four(w: &[u8], h: usize) -> Option<usize>
    requires { (h ≡ slot_of w.now) × (length w.now ≡ 4) }
    ensures { Which w.now result }
{
    in_slot(w, h, b"ACCUASUMBDIFBSUMCoGSNSUMPRODRULETERMTHENWITHREAL")
}

fn of_more(w: &[u8], h: usize) -> Option<usize>
    requires { (h ≡ slot_of w.now) × (0 < length w.now) × (length w.now ≡ 2 → ⊥) × (length w.now ≡ 3 → ⊥) × (length w.now ≡ 4 → ⊥) }
    ensures { Which w.now result }
{
    in_slot(
        w,
        h,
        b"DEFAULTDEFUZZIFYEND_DEFUZZIFYEND_FUNCTION_BLOCKEND_FUZZIFYEND_OPTIONSEND_RULEBLOCKEND_VAR\
        FUNCTION_BLOCKFUZZIFYMETHODOPTIONSRANGERULEBLOCKVAR_INPUTVAR_OUTPUT",
    )
}

fn of_slot(w: &[u8], h: usize) -> Option<usize>
    requires { (h ≡ slot_of w.now) × (0 < length w.now) }
    ensures { Which w.now result }
{
    match w.len() {
        2 => of_two(w, h),
        3 => of_three(w, h),
        4 => of_four(w, h),
        _ => of_more(w, h),
    }
}

// The slot of the words of n bytes that begin with a and end in z.
fn slot(n: usize, a: u8, z: u8) -> usize
    requires { n ≤ keyword_limit }
    ensures { result ≡ (n + 8 * a + 152 * z) % 256 }
{
    (n + 8 * (a as usize) + 152 * (z as usize)) % 256
}

// The lengths v of letter k, which is i.
fn lengths_of(i: usize, k: usize, v: usize) -> usize
    requires { (i ≡ k) × (row_in rows k ≡ v) }
    ensures { result ≡ row_in rows i }
{
    v
}

// No keyword begins with letter i.
fn no_lengths(i: usize) -> usize
    requires { Others Unit i (map (λ r. r.0) rows) }
    ensures { result ≡ row_in rows i }
{
    0
}

// A bit for the length of each keyword that begins with letter i, A being 1. To the compiler it is a table.
fn lengths(i: usize) -> usize
    ensures { result ≡ row_in rows i }
{
    match i {
        1 => lengths_of(i, 1, 24),
        2 => lengths_of(i, 2, 16),
        3 => lengths_of(i, 3, 24),
        4 => lengths_of(i, 4, 640),
        5 => lengths_of(i, 5, 272512),
        6 => lengths_of(i, 6, 16512),
        9 => lengths_of(i, 9, 12),
        12 => lengths_of(i, 12, 4),
        13 => lengths_of(i, 13, 72),
        14 => lengths_of(i, 14, 28),
        15 => lengths_of(i, 15, 132),
        16 => lengths_of(i, 16, 16),
        18 => lengths_of(i, 18, 564),
        20 => lengths_of(i, 20, 16),
        22 => lengths_of(i, 22, 1544),
        23 => lengths_of(i, 23, 16),
        _ => no_lengths(i),
    }
}

// Whether a word of n bytes that begins with a may be a keyword; else it is none. Few names may.
pub fn may_be(n: usize, a: u8) -> bool
    requires { n ≤ keyword_limit }
    ensures { result ≡ may_be n (a % 32) }
{
    let b = lengths(a as usize % 32);
    (b >> n) % 2 == 1
}

// Which keyword the word is.
pub fn keyword_at(w: &[u8]) -> Option<usize>
    ensures { Which w.now result }
{
    let n = w.len();
    if LONGEST < n || (LENGTHS >> n) % 2 == 0 || !may_be(n, w[0]) {
        return None;
    }
    of_slot(w, slot(n, w[0], w[n - 1]))
}
