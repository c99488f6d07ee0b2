// What ./bench measures of the buffer layer: its moves, zeroing and copy for callers in other languages. A call whose places
// do not lie within the slices does nothing. No crate is built upon this one.
#![tactic(auto)]

ghost use Rattle.std.specs.Prelude.{◌≡◌};
ghost use Rattle.probe.specs.Probe.{inside, moved_down, moved_up, zeroed, copied};

// Whether count places from at on are within len. The difference cannot overflow, where at + count could.
#[tactic(auto, unfolding(crate::specs::Probe::inside))]
fn within(len: usize, at: usize, count: usize) -> bool
    ensures { result ≡ inside len at count }
{
    len.checked_sub(at).is_some_and(|left| count <= left)
}

#[unsafe(no_mangle)]
pub extern "C" fn probe_move_down(buf: &mut [u8], from: usize, to: usize, count: usize)
    ensures { buf.new ≡ moved_down buf.old from to count }
{
    if from < to {
        return;
    }
    if within(buf.len(), from, count) {
        moves::move_down(buf, from, to, count);
    }
}

#[unsafe(no_mangle)]
pub extern "C" fn probe_move_up(buf: &mut [u8], from: usize, to: usize, count: usize)
    ensures { buf.new ≡ moved_up buf.old from to count }
{
    if to < from {
        return;
    }
    if within(buf.len(), to, count) {
        moves::move_up(buf, from, to, count);
    }
}

#[unsafe(no_mangle)]
pub extern "C" fn probe_zero(buf: &mut [u8], at: usize, count: usize)
    ensures { buf.new ≡ zeroed buf.old at count }
{
    if within(buf.len(), at, count) {
        buffer::zero(buf, at, count);
    }
}

#[unsafe(no_mangle)]
pub extern "C" fn probe_copy(src: &[u8], from: usize, dst: &mut [u8], to: usize, count: usize)
    ensures { dst.new ≡ copied src.now from dst.old to count }
{
    if within(src.len(), from, count) {
        if within(dst.len(), to, count) {
            moves::copy(src, from, dst, to, count);
        }
    }
}
