// The words of a stored image, read where they stand: a word that is known to lie within it by one load, any other
// with zeros past the end.
#![tactic(auto)]

ghost use Rattle.std.specs.Prelude.{◌≡◌, ◌+◌, ◌*◌, ◌≤◌, length, get_or};
ghost use Rattle.model.specs.Image.{word_at, crisp_of};

use model::Crisp;

// The byte at place k, or 0 past the end.
pub fn byte(img: &[u8], k: usize) -> u8
    ensures { result ≡ get_or img.now k 0 }
{
    img.get(k).copied().unwrap_or(0)
}

// The word at place i, which is within the image: one load.
#[tactic(auto, unfolding(model::specs::Image::word_at))]
pub fn whole_word(img: &[u8], i: usize) -> usize
    requires { i * 4 + 4 ≤ length img.now }
    ensures { (result ≡ word_at img.now i) × (result ≤ 4294967295) }
{
    let k = i * 4;
    u32::from_le_bytes([img[k], img[k + 1], img[k + 2], img[k + 3]]) as usize
}

// The word at any place i; bytes past the end count as 0.
#[tactic(auto, unfolding(model::specs::Image::word_at))]
pub fn word(img: &[u8], i: usize) -> usize
    requires { i ≤ 1000000000000 }
    ensures { (result ≡ word_at img.now i) × (result ≤ 4294967295) }
{
    let k = i * 4;
    u32::from_le_bytes([
        byte(img, k),
        byte(img, k + 1),
        byte(img, k + 2),
        byte(img, k + 3),
    ]) as usize
}

// A word as a crisp value, in two's complement.
#[tactic(auto, unfolding(model::specs::Image::crisp_of))]
fn crisp_of(x: usize) -> Crisp
    requires { x ≤ 4294967295 }
    ensures { result.0 ≡ crisp_of x }
{
    Crisp((x as u32).cast_signed())
}

// The word at place i, which is within the image, as a crisp value.
pub fn whole_crisp(img: &[u8], i: usize) -> Crisp
    requires { i * 4 + 4 ≤ length img.now }
    ensures { result.0 ≡ crisp_of (word_at img.now i) }
{
    crisp_of(whole_word(img, i))
}

// The word at any place i as a crisp value.
pub fn crisp_at(img: &[u8], i: usize) -> Crisp
    requires { i ≤ 1000000000000 }
    ensures { result.0 ≡ crisp_of (word_at img.now i) }
{
    crisp_of(word(img, i))
}
