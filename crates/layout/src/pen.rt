// A pen writes bytes, and numbers in decimal, into a lent buffer, one after another.
ghost use Rattle.std.specs.Prelude.{◌≡◌, [], ◌∷◌, length};
ghost use Rattle.layout.specs.Text.{line_end, decimal, spaced};
ghost use Rattle.layout.specs.inner.Steps.{Fits, Wrote, Lent};

// The next byte goes to `at`.
#[derive(Drop)]
pub struct Pen<'a> {
    out: &'a mut [u8],
    pub at: usize,
}

// How many digits n has: 0 has one.
fn places(n: usize) -> usize
    ensures { result ≡ length (decimal n) }
{
    n.max(1).ilog10() as usize + 1
}

impl<'a> Pen<'a> {
    // At the start of the buffer.
    pub fn new(out: &'a mut [u8]) -> Pen<'a>
        ensures { Lent out.entry result }
    {
        Pen { out, at: 0 }
    }

    pub fn byte(&mut self, byte: u8)
        requires { Fits self.old (byte ∷ []) }
        ensures { Wrote self.old (byte ∷ []) self.new }
    {
        self.out[self.at] = byte;
        self.at += 1;
    }

    pub fn bytes(&mut self, bytes: &[u8])
        requires { Fits self.old bytes.now }
        ensures { Wrote self.old bytes.now self.new }
    {
        let end = self.at + bytes.len();
        self.out[self.at..end].copy_from_slice(bytes);
        self.at = end;
    }

    // The digits of n, from the last to the first, by index: once `iter_mut().rev()` is over, a proof knows no byte.
    pub fn number(&mut self, n: usize)
        requires { Fits self.old (decimal n) }
        ensures { Wrote self.old (decimal n) self.new }
    {
        let end = self.at + places(n);
        let mut rest = n;
        for i in (self.at + 1..end).rev() {
            self.out[i] = b'0' + (rest % 10) as u8;
            rest /= 10;
        }
        self.out[self.at] = b'0' + rest as u8;
        self.at = end;
    }

    // A space and a number.
    pub fn spaced(&mut self, n: usize)
        requires { Fits self.old (spaced (decimal n)) }
        ensures { Wrote self.old (spaced (decimal n)) self.new }
    {
        self.byte(b' ');
        self.number(n);
    }

    pub fn line_end(&mut self)
        requires { Fits self.old (line_end ∷ []) }
        ensures { Wrote self.old (line_end ∷ []) self.new }
    {
        self.byte(b'\n');
    }
}
