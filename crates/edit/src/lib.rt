// Edits of records in place, for every crate that writes records: the pieces that are stored, bytes taken out, room made for
// an unrolling, and the lengths around a place brought up to date.
#![tactic(auto)]

ghost use Rattle.std.specs.Prelude.{◌≡◌, ◌+◌, ◌*◌, ◌-◌, ◌≤◌, length};
ghost use Rattle.buffer.specs.LittleEndian.{le, val};
ghost use Rattle.buffer.specs.Slice.{part, put};
ghost use Rattle.place.specs.Edit.{lead, leaf_bytes, removed, spread};
ghost use Rattle.place.specs.Heads.{record_head, shifted};
ghost use Rattle.place.specs.Whole.{header, relength_all};
ghost use Rattle.record.specs.Header.{contents_at};
ghost use Rattle.record.specs.Kind.{kind_number};

use buffer::{get_u16, put_u16, put_u32, zero};
use moves::{move_down, move_up};
use record::kind::Kind;
use record::{Header, Sort};

// The first four bytes of a record of n bytes.
pub fn put_head(buf: &mut [u8], at: usize, kind: Kind, n: usize)
    requires { at + 4 ≤ length buf.old }
    ensures { buf.new ≡ put buf.old at (record_head (kind_number kind) n) }
{
    put_u16(buf, at, n);
    put_u16(buf, at + 2, kind.number());
}

// What stands in front of the contents of a record of n bytes.
pub fn put_header(buf: &mut [u8], sort: Sort, h: Header, n: usize)
    requires { contents_at h ≤ length buf.old }
    ensures { buf.new ≡ put buf.old 0 (header sort h n) }
{
    put_head(buf, 0, h.kind_of(sort), n);
    h.put_fields(buf);
}

// A record that holds one number: an expression, a bound or an atom.
pub fn put_leaf(buf: &mut [u8], at: usize, kind: Kind, v: u32)
    requires { at + 8 ≤ length buf.old }
    ensures { buf.new ≡ put buf.old at (leaf_bytes (kind_number kind) v) }
{
    put_head(buf, at, kind, 8);
    put_u32(buf, at + 4, v);
}

// What an assignment, a loop, a let-one of an atom and a rec begin with: a head, a variable, and a record of one number.
pub fn put_lead(buf: &mut [u8], at: usize, kind: Kind, n: usize, x: u32, leaf: Kind, v: u32)
    requires { at + 16 ≤ length buf.old }
    ensures { buf.new ≡ put buf.old at (lead (kind_number kind) n x (kind_number leaf) v) }
{
    put_head(buf, at, kind, n);
    put_u32(buf, at + 4, x);
    put_leaf(buf, at + 8, leaf, v);
}

// The n bytes at an index go, n above 0: what is behind them moves down, and zeros come in at the end.
pub fn remove(buf: &mut [u8], at: usize, n: usize, used: usize)
    requires { (at + n ≤ used) × (used ≤ length buf.old) }
    ensures { buf.new ≡ removed buf.old at n used }
{
    move_down(buf, at + n, at, used - (at + n));
    zero(buf, used - n, n);
}

// Room for the unrolling of a record of n bytes, of which the first `own` are before its body. The body and what is behind it
// move up in one piece, so that the body stands twice; then the record moves up by 4 bytes and makes room for a head.
pub fn spread(buf: &mut [u8], at: usize, n: usize, own: usize, used: usize)
    requires { (own ≤ n) × (at + n ≤ used) × (used + (n - own) + 20 ≤ length buf.old) }
    ensures { buf.new ≡ spread buf.old at n own used }
{
    move_up(buf, at + own, at + n + 20, used - (at + own));
    move_up(buf, at, at + 4, n);
}

fn adjust(buf: &mut [u8], at: usize, up: usize, down: usize)
    requires { (at + 2 ≤ length buf.old) × (up ≤ 16384) }
    ensures { buf.new ≡ put buf.old at (le 2 (shifted up down (val (part buf.old at 2)))) }
{
    let n = get_u16(buf, at) + up;
    put_u16(buf, at, n.saturating_sub(down));
}

// The header's length, and those of so many levels of the contents, which start at `start`.
pub fn relength(buf: &mut [u8], start: usize, count: usize, up: usize, down: usize)
    requires { (2 ≤ start) × (start + 4 * count ≤ length buf.old) × (up ≤ 16384) }
    ensures { buf.new ≡ relength_all (shifted up down) start count buf.old }
{
    adjust(buf, 0, up, down);
    for i in 0..count {
        adjust(buf, start + 4 * i, up, down);
    }
}
