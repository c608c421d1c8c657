// The bytes of a listing.
#![tactic(auto)]

ghost use Rattle.std.specs.Prelude.{◌≡◌, [], ◌∷◌, ◌-◌, length, drop};
ghost use Rattle.listing_writer.specs.Prepends.{Writes};

// A text that grows from its end to its front: numbers and conditions are read from their ends, so each is written in
// one pass. It stands at the end of the bytes; what does not fit is only counted.
#[derive(Drop)]
pub struct Listing<'a> {
    pub bytes: &'a mut [u8],
    pub count: usize,
}

impl<'a> Listing<'a> {
    // With nothing written.
    pub fn new(bytes: &'a mut [u8]) -> Listing<'a>
        ensures count { result.count ≡ 0 }
        ensures same_bytes { result.bytes.now ≡ bytes.old }
        ensures same_buffer { result.bytes.ghost_name ≡ bytes.entry.ghost_name }
    {
        Listing { bytes, count: 0 }
    }

    // A byte before the text.
    pub fn put(&mut self, c: u8)
        ensures { Writes (c ∷ []) self.old self.new }
    {
        let n = self.bytes.len();
        if self.count < n {
            self.bytes[n - 1 - self.count] = c;
        }
        self.count = self.count.saturating_add(1);
    }

    // A text before it, byte by byte, since not all of it fits.
    #[inline(never)]
    fn cut(&mut self, s: &[u8])
        ensures { Writes s.now self.old self.new }
    {
        for i in (0..s.len()).rev() {
            self.put(s[i]);
        }
    }

    // A text before it.
    pub fn puts(&mut self, s: &[u8])
        ensures { Writes s.now self.old self.new }
    {
        let n = self.bytes.len();
        if s.len() <= n && self.count <= n - s.len() {
            let end = n - self.count;
            self.bytes[end - s.len()..end].copy_from_slice(s);
            self.count += s.len();
        } else {
            self.cut(s);
        }
    }

    // How many bytes it has.
    pub fn count(&self) -> usize
        ensures { result ≡ self.now.count }
    {
        self.count
    }

    // The text; what there is of it, where it does not fit.
    pub fn text(&self) -> &[u8]
        ensures { result.now ≡ drop (length self.now.bytes.now - self.now.count) self.now.bytes.now }
    {
        let start = self.bytes.len().saturating_sub(self.count);
        &self.bytes[start..]
    }
}
