// Which names of tables are distinct: one beside a table, the names of one table and of two. A name stands first in its
// row.
#![tactic(auto)]

ghost use Rattle.std.specs.Prelude.{◌≡◌, ◌+◌, ◌*◌, ◌-◌, ◌≤◌, length};
ghost use Rattle.model.specs.Basic.{distinct, same, tab};
ghost use Rattle.model.specs.Image.{word_at};
ghost use Rattle.name_letters.specs.Letters.{letters_at, words_in, absent, apart};

use header::Table;
use same_names::same_name;

// The name at o is none of those of the table's rows from i on.
fn absent_ok<const WIDTH: usize>(img: &[u8], o: usize, table: &Table<WIDTH>, i: usize) -> bool
    requires { ((o + 4) * 4 ≤ length img.now) × (4 ≤ WIDTH)
        × ((table.now.start + table.now.rows * WIDTH) * 4 ≤ length img.now) }
    ensures { result ≡ absent same (tab (letters_at (word_at img.now)) 4 o)
        (tab (words_in (letters_at (word_at img.now)) table.now.start WIDTH) (table.now.rows - i) i) }
{
    for j in i..table.rows {
        if same_name(img, o, table.row(j)) {
            return false;
        }
    }
    true
}

// The names of a table are distinct.
pub fn distinct_ok<const WIDTH: usize>(img: &[u8], table: &Table<WIDTH>) -> bool
    requires { (4 ≤ WIDTH) × ((table.now.start + table.now.rows * WIDTH) * 4 ≤ length img.now) }
    ensures { result ≡ distinct same (tab (words_in (letters_at (word_at img.now)) table.now.start WIDTH) table.now.rows 0) }
{
    for i in 0..table.rows {
        if !absent_ok(img, table.row(i), table, i + 1) {
            return false;
        }
    }
    true
}

// No name of the first table stands in the second.
pub fn apart_ok<const A: usize, const B: usize>(
    img: &[u8],
    first: &Table<A>,
    second: &Table<B>,
) -> bool
    requires { (4 ≤ A) × ((first.now.start + first.now.rows * A) * 4 ≤ length img.now)
        × (4 ≤ B) × ((second.now.start + second.now.rows * B) * 4 ≤ length img.now) }
    ensures { result ≡ apart same (tab (words_in (letters_at (word_at img.now)) first.now.start A) first.now.rows 0)
        (tab (words_in (letters_at (word_at img.now)) second.now.start B) second.now.rows 0) }
{
    for i in 0..first.rows {
        if !absent_ok(img, first.row(i), second, 0) {
            return false;
        }
    }
    true
}
