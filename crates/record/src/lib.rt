// The record layer's code: what the header of a program's or a term's record says, what class a record is of, and how long a
// tuple is. No crate above knows how long a header is, its kinds or the largest value.
#![tactic(auto)]

ghost use Rattle.std.specs.Prelude.{◌*◌, ◌+◌, ◌≡◌, ◌≤◌, length};
ghost use Rattle.buffer.specs.Slice.{put};
ghost use Rattle.record.specs.declared.Header.{Header};
ghost use Rattle.record.specs.Class.{class_of};
ghost use Rattle.record.specs.Header.{contents_at, converted_header, fields_of, header_in, is_second, kind_of, largest_of};
ghost use Rattle.record.specs.Kind.{kind_number};

pub mod kind;
pub mod limit;
pub mod refusal;

use kind::Kind;

// The two sorts of record that have a header.
#[derive(Clone, Copy)]
pub enum Sort {
    Program,
    Term,
}

// The editions of a record with a header: the first has no ceiling, the second its own.
#[derive(Clone, Copy)]
pub enum Edition {
    First,
    Second(u32),
}

// What a header says behind its length and its kind.
#[derive(Clone, Copy)]
pub struct Header {
    pub k: u32,
    pub edition: Edition,
}

// A record's move from one edition to the other (02 C-18).
#[derive(Clone, Copy)]
pub enum Conversion {
    ToFirst,
    ToSecond,
}

// Length, kind and k.
const FIRST_LENGTH: usize = 8;

// The same, and the ceiling.
const SECOND_LENGTH: usize = 12;

// The largest value, and so the largest ceiling.
const LARGEST: u32 = 4294967295;

impl Header {
    // Where the contents start.
    pub fn contents_at(self) -> usize
        ensures { result ≡ contents_at self }
    {
        let edition = self.edition;
        match edition {
            Edition::First => FIRST_LENGTH,
            Edition::Second(_) => SECOND_LENGTH,
        }
    }

    // The largest value that is not too large.
    pub fn largest(self) -> u32
        ensures { result ≡ largest_of self }
    {
        let edition = self.edition;
        match edition {
            Edition::First => LARGEST,
            Edition::Second(ceiling) => ceiling,
        }
    }

    pub fn kind_of(self, sort: Sort) -> Kind
        ensures { kind_number result ≡ kind_of sort self }
    {
        let edition = self.edition;
        match edition {
            Edition::First => match sort {
                Sort::Program => Kind::Program,
                Sort::Term => Kind::Term,
            },
            Edition::Second(_) => match sort {
                Sort::Program => Kind::SecondProgram,
                Sort::Term => Kind::SecondTerm,
            },
        }
    }

    // The header in the other edition, with the largest ceiling where that has one.
    pub fn converted(self, to: Conversion) -> Header
        ensures { result ≡ converted_header to self }
    {
        let k = self.k;
        match to {
            Conversion::ToFirst => Header {
                k: k,
                edition: Edition::First,
            },
            Conversion::ToSecond => Header {
                k: k,
                edition: Edition::Second(LARGEST),
            },
        }
    }

    // Stores what stands behind length and kind.
    pub fn put_fields(self, out: &mut [u8])
        requires { contents_at self ≤ length out.old }
        ensures { out.new ≡ put out.old 4 (fields_of self) }
    {
        buffer::put_u32(out, 4, self.k);
        let edition = self.edition;
        match edition {
            Edition::First => {}
            Edition::Second(ceiling) => buffer::put_u32(out, FIRST_LENGTH, ceiling),
        }
    }
}

// The kind of a record of this sort once it is moved, which its k does not change.
pub fn converted_kind(sort: Sort, to: Conversion) -> Kind
    ensures { (h : Header) → kind_number result ≡ kind_of sort (converted_header to h) }
{
    let any = Header {
        k: 0,
        edition: Edition::First,
    };
    any.converted(to).kind_of(sort)
}

#[tactic(auto, unfolding(crate::specs::Header::is_second, crate::specs::Kind::kind_named))]
fn is_second(kind: usize) -> bool
    ensures { result ≡ is_second kind }
{
    matches!(Kind::named(kind), Kind::SecondProgram | Kind::SecondTerm)
}

// Where the contents start of the record that stands first: known before its header is.
pub fn start_of(buf: &[u8]) -> usize
    requires { 4 ≤ length buf.now }
    ensures { result ≡ contents_at (header_in buf.now) }
{
    if is_second(buffer::get_u16(buf, 2)) {
        return SECOND_LENGTH;
    }
    FIRST_LENGTH
}

// The header of the record that stands first.
pub fn read_header(buf: &[u8]) -> Header
    requires { contents_at (header_in buf.now) ≤ length buf.now }
    ensures { result ≡ header_in buf.now }
{
    let k = buffer::get_u32(buf, 4);
    if is_second(buffer::get_u16(buf, 2)) {
        return Header {
            k,
            edition: Edition::Second(buffer::get_u32(buf, FIRST_LENGTH)),
        };
    }
    Header {
        k,
        edition: Edition::First,
    }
}

// The class of a record, by its kind.
#[derive(Clone, Copy)]
pub enum Class {
    Program,
    Expression,
    Term,
    Malformed,
}

// The first range that fits decides, so 4 to 6 stand before the range that holds them.
// Kept: ranges of numbers, since the classes are defined of every number (`class_of`), whether it names a kind or not.
pub fn class_of(kind: usize) -> Class
    ensures { result ≡ class_of kind }
{
    match kind {
        4..=6 => Class::Malformed,
        1..=7 => Class::Program,
        9 => Class::Program,
        16..=19 => Class::Expression,
        32..=41 => Class::Term,
        _ => Class::Malformed,
    }
}

// The length of a tuple, which has an atom for each variable.
pub fn tuple_size(k: u32) -> usize
    ensures { result ≡ 4 + 8 * k }
{
    4 + 8 * k as usize
}
