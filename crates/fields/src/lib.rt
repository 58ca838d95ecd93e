// Fields in lent bytes: a mark of two bytes, and a number of so many bytes, big-endian, written and read. And a record's form, with its places.
#![tactic(auto)]

ghost use Rattle.std.specs.Prelude.{◌≡◌, ◌+◌, ◌<◌, ◌≤◌, ◌^◌, length};
ghost use Rattle.std.proofs.lemmas.List.Edits.{sets};
ghost use Rattle.promises.specs.Decides.{Decides};
ghost use Rattle.fields.specs.Numbers.{bytes, number_at, Stands};
ghost use Rattle.fields.specs.Form.{head_mark, field, mark_length, server_length, out_length, in_length, out_at, in_at};

// The forms of a record.
#[derive(Clone, Copy, Debug, PartialEq, Eq)]
pub enum Form {
    Short,
}

// The bytes of a mark, and of a server.
pub const MARK: usize = 2;

pub const SERVER: usize = 4;

// The marks 4F 55 and 49 4E.
pub const OUT_MARK: [u8; MARK] = *b"OU";

pub const IN_MARK: [u8; MARK] = *b"IN";

impl Form {
    // The head's mark.
    pub fn head_mark(self) -> [u8; MARK]
        ensures { result ≡ head_mark self }
    {
        match self {
            Form::Short => *b"AS",
        }
    }

    // The bytes of a, of N and of a seat.
    pub fn width(self) -> usize
        ensures { result ≡ field self }
    {
        match self {
            Form::Short => 2,
        }
    }

    // Where a record's second field begins, and a removal's record ends.
    pub fn second(self) -> usize
        ensures { result ≡ out_length self }
    {
        MARK + self.width()
    }

    // Where the i-th removal's record stands, and after m removals the record of the j-th seat in use.
    pub fn out_at(self, i: usize) -> usize
        requires { out_at self i < 2 ^ 64 }
        ensures { result ≡ out_at self i }
    {
        self.second() + self.width() + self.second() * i
    }

    pub fn in_at(self, m: usize, j: usize) -> usize
        requires { in_at self m j < 2 ^ 64 }
        ensures { result ≡ in_at self m j }
    {
        self.out_at(m) + (self.second() + SERVER) * j
    }

    // The first field of the record at `at`: a in the head, else the seat. And the server of a seat in use. Each names a field over the one `put_number` or `number_at`.
    pub fn put_first(self, out: &mut [u8], at: usize, x: u32)
        requires { at + out_length self ≤ length out.old }
        ensures { out.new ≡ sets out.old (at + mark_length) (bytes (field self) x) }
    {
        put_number(out, at + MARK, self.width(), x);
    }

    pub fn put_id(self, out: &mut [u8], at: usize, id: u32)
        requires { at + in_length self ≤ length out.old }
        ensures { out.new ≡ sets out.old (at + out_length self) (bytes server_length id) }
    {
        put_number(out, at + self.second(), SERVER, id);
    }

    pub fn first_at(self, s: &[u8], at: usize) -> u32
        requires { at + out_length self ≤ length s.now }
        ensures { result ≡ number_at s.now (at + mark_length) (field self) }
    {
        number_at(s, at + MARK, self.width())
    }

    pub fn server_at(self, s: &[u8], at: usize) -> u32
        requires { at + in_length self ≤ length s.now }
        ensures { result ≡ number_at s.now (at + out_length self) server_length }
    {
        number_at(s, at + self.second(), SERVER)
    }
}

// Here the bytes have a place beside them, and are no part from there on: `number_at` and `Stands` of specs/ and a record's `out_at` and `in_at` are places in the whole.
pub fn put_mark(out: &mut [u8], at: usize, mark: &[u8; MARK])
    requires { at + mark_length ≤ length out.old }
    ensures { out.new ≡ sets out.old at mark.now }
{
    out[at..at + MARK].copy_from_slice(mark);
}

pub fn has_mark(s: &[u8], at: usize, mark: &[u8; MARK]) -> bool
    requires { at + mark_length ≤ length s.now }
    ensures { Decides result (Stands s.now at mark.now) }
{
    s[at..at + MARK].starts_with(mark)
}

// From the last byte to the first: each is the remainder of what is left. (std's bytes are as many as a type has; here the width is a parameter.) By an index: no contract says what `iter_mut().rev()` leaves.
pub fn put_number(out: &mut [u8], at: usize, width: usize, x: u32)
    requires { at + width ≤ length out.old }
    ensures { out.new ≡ sets out.old at (bytes width x) }
{
    let mut left = x;
    for i in (at..at + width).rev() {
        out[i] = (left % 256) as u8;
        left /= 256;
    }
}

pub fn number_at(s: &[u8], at: usize, width: usize) -> u32
    requires { (at + width ≤ length s.now) × (width ≤ 4) }
    ensures { result ≡ number_at s.now at width }
{
    let mut x: u32 = 0;
    for byte in &s[at..at + width] {
        x = x * 256 + *byte as u32;
    }
    x
}
