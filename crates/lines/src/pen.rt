// A pen: a lent buffer, and the place in it where the next byte goes. What the buffer has no room for is left out, so that a text can be measured before it
// is written.
ghost use Rattle.std.specs.Prelude.{◌≡◌, ◌++◌, ◌+◌, ◌<◌, ◌≤◌, ◌^◌, length, set};
ghost use Rattle.lines.specs.Text.{decimal};
ghost use Rattle.lines.specs.Wrote.{Wrote, Writes};

#[derive(Drop)]
pub struct Pen<'a> {
    pub out: &'a mut [u8],
    pub at: usize,
}

// One byte, if the buffer has that place. Buffer and place are values of their own: through a `&mut Pen` both would be read again at each byte, and the place
// stored.
fn poke(out: &mut [u8], at: usize, byte: u8)
    ensures { out.new ≡ set out.old at byte }
{
    if at < out.len() {
        out[at] = byte;
    }
}

// In decimal, and the place after it: the digits before the last are those of a tenth.
fn put_digits(out: &mut [u8], at: usize, n: u32) -> usize
    requires { at < 2 ^ 62 }
    ensures wrote { Wrote out.old at (decimal n) out.new result }
    ensures upper_bound { result ≤ at + 1 + n }
{
    let (last, digit) = if n < 10 {
        (at, n)
    } else {
        (put_digits(out, at, n / 10), n % 10)
    };
    poke(out, last, (48 + digit) as u8);
    last + 1
}

impl<'a> Pen<'a> {
    // At the buffer's start.
    pub fn new(out: &'a mut [u8]) -> Pen<'a>
        ensures same_reference { result.out.ghost_name ≡ out.entry.ghost_name }
        ensures now { (result.out.now ≡ out.old) × (result.at ≡ 0) }
    {
        Pen { out, at: 0 }
    }

    pub fn put(&mut self, text: &[u8])
        requires { self.old.at + length text.now < 2 ^ 63 }
        ensures { Writes self.old text.now self.new }
    {
        let at = self.at;
        let out = &mut *self.out;
        for (i, byte) in text.iter().enumerate() {
            poke(out, at + i, *byte);
        }
        self.at += text.len();
    }

    fn put_number(&mut self, n: u32)
        requires { self.old.at < 2 ^ 62 }
        ensures wrote { Writes self.old (decimal n) self.new }
        ensures upper_bound { self.new.at ≤ self.old.at + 1 + n }
    {
        self.at = put_digits(self.out, self.at, n);
    }

    // A text and a number after it.
    pub fn put_named(&mut self, text: &[u8], n: u32)
        requires { (self.old.at < 2 ^ 61) × (length text.now < 2 ^ 32) }
        ensures wrote { Writes self.old (text.now ++ decimal n) self.new }
        ensures upper_bound { self.new.at ≤ self.old.at + 2 ^ 33 }
    {
        self.put(text);
        self.put_number(n);
    }
}
