// Reads and writes of a lent slice of bytes. Every contract is one equation over the whole slice and a position in it, so
// that a caller sees no index and cites the laws of put and part.
#![tactic(auto)]

ghost use Rattle.std.specs.Prelude.{◌≡◌, ◌+◌, ◌≤◌, ◌<◌, length};
ghost use Rattle.buffer.specs.LittleEndian.{le, val};
ghost use Rattle.buffer.specs.Slice.{put, part, zeros};

// The bound stands in the contract because a usize alone does not give it.
#[tactic(auto, using(crate::proofs::StdLaws::from_bytes_2))]
pub fn get_u16(buf: &[u8], at: usize) -> usize
    requires { at + 2 ≤ length buf.now }
    ensures { (result ≡ val (part buf.now at 2)) × (result < 65536) }
{
    usize::from(u16::from_le_bytes([buf[at], buf[at + 1]]))
}

#[tactic(auto, using(crate::proofs::StdLaws::from_bytes_4))]
pub fn get_u32(buf: &[u8], at: usize) -> u32
    requires { at + 4 ≤ length buf.now }
    ensures { result ≡ val (part buf.now at 4) }
{
    u32::from_le_bytes([buf[at], buf[at + 1], buf[at + 2], buf[at + 3]])
}

// The two low bytes alone: what v has above them is left out.
#[tactic(auto, using(crate::proofs::StdLaws::to_bytes_2))]
pub fn put_u16(buf: &mut [u8], at: usize, v: usize)
    requires { at + 2 ≤ length buf.old }
    ensures { buf.new ≡ put buf.old at (le 2 v) }
{
    let [low, high, ..] = v.to_le_bytes();
    buf[at] = low;
    buf[at + 1] = high;
}

#[tactic(auto, using(crate::proofs::StdLaws::to_bytes_4))]
pub fn put_u32(buf: &mut [u8], at: usize, v: u32)
    requires { at + 4 ≤ length buf.old }
    ensures { buf.new ≡ put buf.old at (le 4 v) }
{
    let [a, b, c, d] = v.to_le_bytes();
    buf[at] = a;
    buf[at + 1] = b;
    buf[at + 2] = c;
    buf[at + 3] = d;
}

#[tactic(auto, using(crate::proofs::StdLaws::filled))]
pub fn zero(buf: &mut [u8], at: usize, n: usize)
    requires { at + n ≤ length buf.old }
    ensures { buf.new ≡ put buf.old at (zeros n) }
{
    buf[at..at + n].fill(0);
}
