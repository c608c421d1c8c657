// Whether two names of a stored image are the same but for case.
#![tactic(auto)]

ghost use Rattle.std.specs.Prelude.{◌≡◌, ◌+◌, ◌*◌, ◌≤◌, ◌<◌, eqb, length};
ghost use Rattle.model.specs.Basic.{same, tab};
ghost use Rattle.model.specs.Image.{word_at};
ghost use Rattle.name_letters.specs.Letters.{caseless, letters_of, letters_at};

use words::whole_word;

// A byte without the bit that tells a small letter from its capital.
fn without_case(c: u8) -> u8
    ensures { result ≡ caseless c }
{
    c % 32 + c / 64 * 64
}

// Each byte of a word so: to the compiler one mask.
fn letters(x: usize) -> usize
    requires { x ≤ 4294967295 }
    ensures { result ≡ letters_of x }
{
    u32::from_le_bytes((x as u32).to_le_bytes().map(without_case)) as usize
}

// The words at o and q are the same but for case.
fn same_letters(img: &[u8], o: usize, q: usize) -> bool
    requires { ((o + 1) * 4 ≤ length img.now) × ((q + 1) * 4 ≤ length img.now) }
    ensures { result ≡ eqb (letters_at (word_at img.now) o) (letters_at (word_at img.now) q) }
{
    letters(whole_word(img, o)) == letters(whole_word(img, q))
}

// Names, if they are names, are the same but for case.
#[tactic(auto, using(crate::proofs::Fours::spread))]
pub fn same_name(img: &[u8], o: usize, q: usize) -> bool
    requires { ((o + 4) * 4 ≤ length img.now) × ((q + 4) * 4 ≤ length img.now) }
    ensures { result ≡ same (tab (letters_at (word_at img.now)) 4 o)
        (tab (letters_at (word_at img.now)) 4 q) }
{
    same_letters(img, o, q)
        && same_letters(img, o + 1, q + 1)
        && same_letters(img, o + 2, q + 2)
        && same_letters(img, o + 3, q + 3)
}
