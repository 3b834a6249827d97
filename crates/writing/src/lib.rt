// Bytes, numbers and names, put on a page behind those before them.
#![tactic(auto)]

ghost use Rattle.std.specs.Prelude.{◌≡◌, [], ◌∷◌, true, false};
ghost use Rattle.writing.specs.Decimal.{decimal, signed, field};

// A lent buffer, and the place in it where the next byte goes; there is none once a byte did not fit. Where `writing` is false, bytes are only counted: the
// flag says which of two passes this is, and both know the place.
#[derive(Drop)]
pub struct Page<'a> {
    pub out: &'a mut [u8],
    pub place: Option<usize>,
    pub writing: bool,
}

impl<'a> Page<'a> {
    ghost use Rattle.writing.specs.Writing.{opened, Puts};

    // A page on which bytes are only counted.
    pub fn counting(out: &'a mut [u8]) -> Page<'a>
        ensures { result ≡ opened out.entry false }
    {
        Page {
            out,
            place: Some(0),
            writing: false,
        }
    }

    // A page on which bytes are written, from the front of the buffer.
    pub fn writing(out: &'a mut [u8]) -> Page<'a>
        ensures { result ≡ opened out.entry true }
    {
        Page {
            out,
            place: Some(0),
            writing: true,
        }
    }

    // One byte.
    #[tactic(auto, unfolding(crate::specs::Writing::pass, crate::specs::Writing::put_byte))]
    pub fn put(&mut self, byte: u8)
        ensures { Puts (byte ∷ []) self.old self.new }
    {
        let Some(at) = self.place else {
            return;
        };
        if self.out.len() <= at {
            self.place = None;
            return;
        }
        if self.writing {
            self.out[at] = byte;
        }
        self.place = Some(at + 1);
    }

    // A number in decimal: the number without its last digit, then that digit.
    fn put_decimal(&mut self, n: u64)
        ensures { Puts (decimal n) self.old self.new }
    {
        if n >= 10 {
            self.put_decimal(n / 10);
        }
        self.put(b'0' + (n % 10) as u8);
    }

    // A number, behind a comma.
    pub fn number_field(&mut self, n: u64)
        ensures { Puts (field (decimal n)) self.old self.new }
    {
        self.put(b',');
        self.put_decimal(n);
    }

    // A signed number, behind a comma.
    pub fn signed_field(&mut self, n: i64)
        ensures { Puts (field (signed n)) self.old self.new }
    {
        self.put(b',');
        if n < 0 {
            self.put(b'-');
        }
        self.put_decimal(n.unsigned_abs());
    }

    // A name, behind a comma.
    pub fn name_field(&mut self, name: &[u8])
        ensures { Puts (field name.now) self.old self.new }
    {
        self.put(b',');
        for byte in name {
            self.put(*byte);
        }
    }
}
