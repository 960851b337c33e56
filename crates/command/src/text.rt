// Text in a lent buffer. Each function puts bytes behind the text that ends at `at`, as far as there is
// room, and answers where it ends then; a `Text` keeps that place itself.
ghost use Rattle.std.specs.Prelude.{◌≡◌, ◌∷◌, [], ◌++◌, take};
ghost use Rattle.command.specs.Text.{Adds, Grows, decimal};

// A text that grows in a lent buffer.
#[derive(Drop)]
pub(crate) struct Text<'a> {
    room: &'a mut [u8],
    length: usize,
}

impl<'a> Text<'a> {
    pub(crate) fn new(room: &'a mut [u8]) -> Text<'a>
        ensures same_reference { result.room.ghost_name ≡ room.entry.ghost_name }
        ensures room { result.room.now ≡ room.old }
        ensures empty { result.length ≡ 0 }
    {
        Text { room, length: 0 }
    }

    pub(crate) fn put(&mut self, bytes: &[u8])
        ensures { Grows self.old bytes.now self.new }
    {
        self.length = put(&mut *self.room, self.length, bytes);
    }

    // A number in decimal digits.
    pub(crate) fn put_number(&mut self, n: u64)
        ensures { Grows self.old (decimal n) self.new }
    {
        self.length = put_number(&mut *self.room, self.length, n);
    }

    // The text so far.
    pub(crate) fn bytes(&self) -> &[u8]
        ensures { result.now ≡ take self.now.length self.now.room.now }
    {
        &self.room[..self.length.min(self.room.len())]
    }
}

pub fn put(out: &mut [u8], at: usize, text: &[u8]) -> usize
    ensures { Adds out.old at text.now out.new result }
{
    let from = at.min(out.len());
    let n = (out.len() - from).min(text.len());
    out[from..from + n].copy_from_slice(&text[..n]);
    from + n
}

// A number in decimal digits.
pub fn put_number(out: &mut [u8], at: usize, n: u64) -> usize
    ensures { Adds out.old at (decimal n) out.new result }
{
    let mut digits = [0u8; 20];
    let k = io::decimal(n, &mut digits);
    put(out, at, &digits[..k])
}

// Two texts, one behind the other.
pub fn put_joined(out: &mut [u8], at: usize, text: &[u8], more: &[u8]) -> usize
    ensures { Adds out.old at (text.now ++ more.now) out.new result }
{
    let middle = put(&mut *out, at, text);
    put(out, middle, more)
}

// A number behind its name.
pub fn put_field(out: &mut [u8], at: usize, name: &[u8], n: u64) -> usize
    ensures { Adds out.old at (name.now ++ decimal n) out.new result }
{
    let middle = put(&mut *out, at, name);
    put_number(out, middle, n)
}

pub fn put_byte(out: &mut [u8], at: usize, b: u8) -> usize
    ensures { Adds out.old at (b ∷ []) out.new result }
{
    if at < out.len() {
        out[at] = b;
        return at + 1;
    }
    out.len()
}
