// The program that a state is of, and what is read of the record of a command of it. A place is told from the first command on.
ghost use Rattle.std.specs.Prelude.{◌≡◌, ◌+◌, ◌≤◌, ◌<◌, ◌^◌, length};
ghost use Rattle.record.specs.Kind.{kind_named};
ghost use Rattle.state_words.specs.Numbers.{kind_at, number_at, size_at, standing_at, variable_at};

use record::kind::Kind;

// The bytes that a program stands in: its first command at `start`, and `used` is their end. Its values go up to `largest`.
#[derive(Clone, Copy)]
pub struct Program<'a> {
    pub bytes: &'a [u8],
    pub used: usize,
    pub start: usize,
    pub largest: u32,
}

impl Program<'_> {
    // The length of the record at the place i.
    pub fn size_at(self, i: usize) -> usize
        requires { self.start + i + 2 ≤ length self.bytes.now }
        ensures { (result ≡ size_at self.entry.start self.entry.bytes.now i) × (result < 65536) }
    {
        buffer::get_u16(self.bytes, self.start + i)
    }

    // The kind of the record there.
    pub fn record_at(self, i: usize) -> Kind
        requires { self.start + i + 4 ≤ length self.bytes.now }
        ensures { result ≡ kind_named (standing_at self.entry.start self.entry.bytes.now i) }
    {
        Kind::read(self.bytes, self.start + i + 2)
    }

    // The variable of the assignment or the loop there.
    pub fn variable_at(self, i: usize) -> u32
        requires { self.start + i + 8 ≤ length self.bytes.now }
        ensures { result ≡ variable_at self.entry.start self.entry.bytes.now i }
    {
        buffer::get_u32(self.bytes, self.start + i + 4)
    }

    // The kind of its expression or its bound.
    pub fn kind_at(self, i: usize) -> Kind
        requires { self.start + i + 12 ≤ length self.bytes.now }
        ensures { result ≡ kind_named (kind_at self.entry.start self.entry.bytes.now i) }
    {
        Kind::read(self.bytes, self.start + i + 10)
    }

    // And the number in that.
    pub fn number_at(self, i: usize) -> u32
        requires { self.start + i + 16 ≤ length self.bytes.now }
        ensures { result ≡ number_at self.entry.start self.entry.bytes.now i }
    {
        buffer::get_u32(self.bytes, self.start + i + 12)
    }
}
