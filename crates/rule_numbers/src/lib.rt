// The numbers of the rules of a stored image are distinct.
#![tactic(auto)]

ghost use Rattle.std.specs.Prelude.{◌≡◌, not, ◌-◌, eqb};
ghost use Rattle.model.specs.Basic.{all, distinct, tab};
ghost use Rattle.model.specs.Image.{word_at};
ghost use Rattle.rule_numbers.specs.Numbers.{rule_number};

use header::Stored;

// Remainders by which rule numbers are told apart.
const REMAINDERS: usize = 256;

// Whether no rule from the first-th on has this number.
fn differs(image: &Stored, first: usize, number: usize) -> bool
    ensures { result ≡ all (λ n. not (eqb number n))
        (tab (rule_number (word_at image.now.bytes.now)) (image.now.header.rules.rows - first) first) }
{
    for j in first..image.header.rules.rows {
        if number == image.word(image.header.rules.row(j)) {
            return false;
        }
    }
    true
}

// From the last rule on: only numbers that leave the same remainder are compared.
pub fn numbers_distinct(image: &Stored) -> bool
    ensures { result ≡ distinct eqb (tab (rule_number (word_at image.now.bytes.now)) image.now.header.rules.rows 0) }
{
    let mut met = [false; REMAINDERS];
    for i in (0..image.header.rules.rows).rev() {
        let number = image.word(image.header.rules.row(i));
        let r = number % REMAINDERS;
        if met[r] && !differs(image, i + 1, number) {
            return false;
        }
        met[r] = true;
    }
    true
}
