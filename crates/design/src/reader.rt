// The reader of the sheet: it holds the sheet and the bit it has reached (document 01, "The sheet").
ghost use Rattle.std.specs.Prelude.{◌≡◌, true, ◌+◌, ◌≤◌, ◌<◌, ◌^◌, length};
ghost use Rattle.fields.specs.Field.{field, is_field};
ghost use Rattle.design.specs.Sheet.{edition_of, v_of, k_of, b_of, t_of, u_of};

#[derive(Clone, Copy)]
pub struct Reader<'a> {
    pub sheet: &'a [u8],
    pub bit: usize,
}

// The numbers of the header.
#[derive(Clone, Copy)]
pub struct Header {
    pub edition: usize,
    pub v: usize,
    pub k: usize,
    pub b: usize,
    pub T: usize,
    pub u: usize,
}

// The number in a field of the sheet.
pub fn number(sheet: &[u8], at: usize, width: usize) -> usize
    requires { is_field sheet.now at width ≡ true }
    ensures { result ≡ field sheet.now at width }
{
    fields::read(sheet, at, width).unwrap()
}

impl<'a> Reader<'a> {
    pub fn new(sheet: &'a [u8]) -> Reader<'a>
        ensures { (result.sheet ≡ sheet.entry) × (result.bit ≡ 0) }
    {
        Reader { sheet, bit: 0 }
    }

    // The number in the field of `width` bits that the reader has reached; the reader is then past it.
    pub fn take(&mut self, width: usize) -> usize
        requires { (is_field self.old.sheet.now self.old.bit width ≡ true) × (self.old.bit + width < 2 ^ 64) }
        ensures { (result ≡ field self.old.sheet.now self.old.bit width)
            × (self.new.sheet ≡ self.old.sheet)
            × (self.new.bit ≡ self.old.bit + width) }
    {
        let value = number(self.sheet, self.bit, width);
        self.bit += width;
        value
    }
}

// The header, read field after field. Its parameter is a plain slice, so that its callers need not know the reader.
pub fn read_header(sheet: &[u8]) -> Header
    requires { 6 ≤ length sheet.now }
    ensures { (result.edition ≡ edition_of sheet.now)
        × (result.v ≡ v_of sheet.now)
        × (result.k ≡ k_of sheet.now)
        × (result.b ≡ b_of sheet.now)
        × (result.T ≡ t_of sheet.now)
        × (result.u ≡ u_of sheet.now) }
{
    let mut reader = Reader::new(sheet);
    let edition = reader.take(4);
    let v = reader.take(7);
    let k = reader.take(5);
    let b = reader.take(12);
    let t = reader.take(16);
    let u = reader.take(4);
    Header {
        edition,
        v,
        k,
        b,
        T: t,
        u,
    }
}
