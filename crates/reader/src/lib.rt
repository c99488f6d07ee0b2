// The record reader (01 "Records"): the lent bytes and how far it has come. A caller that reads at one place asks `head_at` and `after`, which
// make a reader there, and sees none.
#![tactic(auto)]

ghost use Rattle.std.specs.Prelude.{◌≡◌, drop};
ghost use Rattle.record.specs.Front.{is_only};
ghost use Rattle.record.specs.Kind.{kind_number};
ghost use Rattle.reader.specs.Head.{head_at, next_at};
ghost use Rattle.reader.specs.Readers.{onward_of, reader_at};

use record::kind::Kind;

#[derive(Clone, Copy)]
pub struct Reader<'a> {
    pub bytes: &'a [u8],
    pub place: usize,
}

// What stands at a place: a record of this length and kind, nothing at all, or bytes that are no whole record.
#[derive(Clone, Copy)]
pub enum Head {
    Record(usize, usize),
    End,
    Short,
}

fn read_head(bytes: &[u8], at: usize) -> Head
    ensures { result ≡ (head_at bytes.now at) }
{
    if bytes.len() <= at {
        return Head::End;
    }
    if bytes.len() - at < 4 {
        return Head::Short;
    }
    let length = buffer::get_u16(bytes, at);
    if length < 4 {
        return Head::Short;
    }
    if bytes.len() - at < length {
        return Head::Short;
    }
    let kind = buffer::get_u16(bytes, at + 2);
    Head::Record(length, kind)
}

// A reader stays where it is where no whole record stands.
fn skip(bytes: &[u8], at: usize) -> usize
    ensures { result ≡ (next_at bytes.now at) }
{
    match read_head(bytes, at) {
        Head::Record(length, _) => at + length,
        _ => at,
    }
}

impl<'a> Reader<'a> {
    pub fn at(bytes: &'a [u8], place: usize) -> Reader<'a>
        ensures { result ≡ reader_at bytes.entry place }
    {
        Reader { bytes, place }
    }

    pub fn place(self) -> usize
        ensures { result ≡ self.entry.place }
    {
        self.place
    }

    pub fn header(self) -> Head
        ensures { result ≡ head_at self.entry.bytes.now self.entry.place }
    {
        read_head(self.bytes, self.place)
    }

    pub fn onward(self) -> Reader<'a>
        ensures { result ≡ onward_of self.entry }
    {
        Reader {
            bytes: self.bytes,
            place: skip(self.bytes, self.place),
        }
    }
}

// What stands at a place of the bytes.
pub fn head_at(bytes: &[u8], at: usize) -> Head
    ensures { result ≡ head_at bytes.now at }
{
    Reader::at(bytes, at).header()
}

// How far a reader comes that goes on from a place: past the record there, or no further where none is.
pub fn after(bytes: &[u8], at: usize) -> usize
    ensures { result ≡ next_at bytes.now at }
{
    Reader::at(bytes, at).onward().place()
}

// Whether one record of this kind stands at a place, and nothing after it.
pub fn only_at(bytes: &[u8], at: usize, kind: Kind) -> bool
    ensures { result ≡ is_only (kind_number kind) (drop at bytes.now) }
{
    let Head::Record(length, found) = head_at(bytes, at) else {
        return false;
    };
    length == bytes.len() - at && found == kind.number()
}
