// Words written into a lent buffer, little-endian; places in it are counted in words.
#![tactic(auto)]

ghost use Rattle.std.specs.Prelude.{◌≡◌, [], ◌∷◌, ◌+◌, ◌*◌, ◌≤◌, length};
ghost use Rattle.word_writer.specs.Over.{over, Wrote};

// The word at a place, little-endian.
fn word(out: &mut [u8], at: usize, w: u32)
    requires { at * 4 + 4 ≤ length out.old }
    ensures { out.new ≡ over at (w ∷ []) out.old }
{
    let k = at * 4;
    out[k..k + 4].copy_from_slice(&w.to_le_bytes());
}

// Words from a place on; the place after them. Kept: buffer and place are passed on, since a struct that lends the buffer
// needs a clause on which one it lends in each function that writes.
pub fn copy(ws: &[u32], out: &mut [u8], at: usize) -> usize
    requires { (at + length ws.now) * 4 ≤ length out.old }
    ensures { Wrote at result ws.now out.old out.new }
{
    for (i, w) in ws.iter().enumerate() {
        word(out, at + i, *w);
    }
    at + ws.len()
}
