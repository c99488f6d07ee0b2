// Moves inside a lent slice and copies between two. Every contract is one equation over the whole slice, as in `buffer`.
#![tactic(auto)]

ghost use Rattle.std.specs.Prelude.{◌≡◌, ◌+◌, ◌≤◌, length};
ghost use Rattle.buffer.specs.Slice.{part, put};

// From how many bytes on a move gains by aligned stores.
const LONG: usize = 512;

// Moves are compiled to stores of 16 bytes, and a row of them takes half the time where none crosses from one line of the cache
// into the next. So a long move takes the bytes before the first multiple of 16, or behind the last, on their own: in a slice
// that starts at such a multiple, as allocated ones do, all other stores then stay within a line.
fn before_aligned(to: usize, count: usize) -> usize
    ensures { result ≤ count }
{
    if count < LONG {
        return 0;
    }
    (16 - to % 16) % 16
}

fn behind_aligned(end: usize, count: usize) -> usize
    ensures { result ≤ count }
{
    if count < LONG {
        return 0;
    }
    end % 16
}

#[tactic(auto, using(buffer::proofs::StdLaws::moved_down))]
pub fn move_down(buf: &mut [u8], from: usize, to: usize, count: usize)
    requires { (to ≤ from) × (from + count ≤ length buf.old) }
    ensures { buf.new ≡ put buf.old to (part buf.old from count) }
{
    let head = before_aligned(to, count);
    buf.copy_within(from..from + head, to);
    buf.copy_within(from + head..from + count, to + head);
}

#[tactic(auto, using(buffer::proofs::StdLaws::moved_up))]
pub fn move_up(buf: &mut [u8], from: usize, to: usize, count: usize)
    requires { (from ≤ to) × (to + count ≤ length buf.old) }
    ensures { buf.new ≡ put buf.old to (part buf.old from count) }
{
    let rest = count - behind_aligned(to + count, count);
    buf.copy_within(from + rest..from + count, to + rest);
    buf.copy_within(from..from + rest, to);
}

// Kept: a loop and not `copy_from_slice`, for that is a call of memcpy, and the archive is to need memset alone (./test sees to it).
fn copy_bytes(src: &[u8], dst: &mut [u8])
    requires { length src.now ≡ length dst.old }
    ensures { dst.new ≡ src.now }
{
    for (i, byte) in src.iter().enumerate() {
        dst[i] = *byte;
    }
}

#[tactic(auto, using(buffer::proofs::StdLaws::copied))]
pub fn copy(src: &[u8], from: usize, dst: &mut [u8], to: usize, count: usize)
    requires { (from + count ≤ length src.now) × (to + count ≤ length dst.old) }
    ensures { dst.new ≡ put dst.old to (part src.now from count) }
{
    let head = before_aligned(to, count);
    copy_bytes(&src[from..from + head], &mut dst[to..to + head]);
    copy_bytes(
        &src[from + head..from + count],
        &mut dst[to + head..to + count],
    );
}
