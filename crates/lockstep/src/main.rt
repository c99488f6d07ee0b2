// The program: reads standard input to its end and prints the line that `report` makes of it.
#![tactic(auto, unfolding(report::specs::Line::program_buffer))]

ghost use Rattle.std.specs.Prelude.{◌≡◌, ◌≤◌, IfOk, length};
ghost use Rattle.report.specs.Line.{program_buffer};

use buffer::get_u16;
use record::limit::{BUFFER, VARIABLES};
use report::line::line;
use std::io;
use std::io::{Read, Write};

// A proved loop has to end, and nothing says that an input does: no input has so many bytes.
const MOST: usize = 9223372036854775807;

// One byte more than the values can take: so too long a rest is seen.
const KEPT: usize = 4 * VARIABLES as usize + 1;

// Reads until the buffer is full or the input ends, and says how many bytes came.
// Kept: a loop over `read`, for the project uses no heap: read_to_end fills a Vec, and read_exact does not say how many bytes came.
fn read_full<R: Read>(input: &mut R, buf: &mut [u8]) -> io::Result<usize>
    ensures { IfOk result (λ n. n ≤ length buf.new) }
{
    let mut done = 0;
    while done < buf.len() {
        let more = input.read(&mut buf[done..])?;
        if more == 0 {
            return Ok(done);
        }
        done += more;
    }
    Ok(done)
}

// The record into the first bytes of a, if they hold one of the length that its first two bytes say. A length under 2 is
// refused later, whatever follows.
fn read_record<R: Read>(input: &mut R, a: &mut [u8]) -> io::Result<usize>
    requires { length a.old ≡ program_buffer }
    ensures { IfOk result (λ n. n ≤ 16384) }
{
    let first = read_full(input, &mut a[..2])?;
    if first < 2 {
        return Ok(first);
    }
    let said = get_u16(a, 0);
    if said < 2 || BUFFER < said {
        return Ok(2);
    }
    let more = read_full(input, &mut a[2..said])?;
    Ok(2 + more)
}

// Whether the input ended before the record did.
fn is_short(a: &[u8], record: usize) -> bool
    requires { length a.now ≡ program_buffer }
{
    if record < 2 {
        return true;
    }
    let said = get_u16(a, 0);
    record < said && said <= BUFFER
}

// Of the rest of the input only the number of bytes matters, and of that only that it is too large.
// Kept: a loop over `read` for the same rule: what is counted is read into lent space, since read_to_end would keep it in a Vec.
fn count_rest<R: Read>(input: &mut R, space: &mut [u8], before: usize) -> io::Result<usize>
    requires { length space.old ≡ program_buffer }
{
    let mut total = before;
    while total < MOST {
        let more = read_full(input, space)?;
        if more == 0 {
            return Ok(total);
        }
        total += more;
    }
    Ok(total)
}

fn print_line<W: Write>(
    output: &mut W,
    a: &mut [u8],
    b: &mut [u8],
    behind: &[u8],
    total: usize,
) -> io::Result<()>
    requires { (length a.old ≡ program_buffer) × (length b.old ≡ program_buffer) }
{
    let end = line(a, b, behind, total);
    output.write_all(&b[..end])
}

// Nothing is printed where a read has failed: what came then would not stand behind the record. Where the length was
// too large, the bytes that `behind` has are only counted.
fn answer<R: Read, W: Write>(
    input: &mut R,
    output: &mut W,
    a: &mut [u8],
    b: &mut [u8],
) -> io::Result<()>
    requires { (length a.old ≡ program_buffer) × (length b.old ≡ program_buffer) }
{
    let record = read_record(input, a)?;
    if is_short(a, record) {
        return print_line(output, a, b, b"", record);
    }
    let mut behind = [0u8; KEPT];
    let kept = read_full(input, &mut behind)?;
    let total = count_rest(input, b, record + kept)?;
    print_line(output, a, b, &behind[..kept], total)
}

fn main(rt: HostRuntime) -> io::Result<()> {
    let mut a = [0u8; BUFFER];
    let mut b = [0u8; BUFFER];
    answer(&mut rt.stdin(), &mut rt.stdout(), &mut a, &mut b)
}
