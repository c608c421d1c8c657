// Whether a name stands at a place of a stored image.
#![tactic(auto)]

ghost use Rattle.std.specs.Prelude.{◌≡◌, ◌+◌, ◌*◌, ◌≤◌, length};
ghost use Rattle.model.specs.Tokens.{is_name};
ghost use Rattle.model.specs.Image.{word_at, name_at};
ghost use Rattle.layout.specs.Tables.{front};

// The bytes before the first zero are a name.
fn field_ok(s: &[u8]) -> bool
    ensures { result ≡ is_name (front s.now) }
{
    name_bytes::name_length(s).is_some_and(|n| words::byte(s, n) == 0)
}

// The four words from place o on hold a name.
pub fn name_ok(img: &[u8], o: usize) -> bool
    requires { (o + 4) * 4 ≤ length img.now }
    ensures { result ≡ is_name (name_at (word_at img.now) o) }
{
    field_ok(&img[o * 4..o * 4 + bounds::NAME])
}
