// Translation over bytes (01 "Translation and read-back"): the term's length, and the term written into another buffer. Works
// on a checked program.
#![tactic(auto)]

ghost use Rattle.std.specs.Prelude.{◌≡◌, ◌+◌, ◌-◌, ◌*◌, ◌≤◌, ◌<◌, ltb, length};
ghost use Rattle.buffer.specs.Slice.{put};
ghost use Rattle.rules.specs.Syntax.{Block};
ghost use Rattle.rules.specs.Translation.{translate};
ghost use Rattle.record.specs.Answers.{padded};
ghost use Rattle.record.specs.Front.{u16};
ghost use Rattle.record.specs.Header.{encode_term};
ghost use Rattle.record.specs.Holding.{ProgramIn};
ghost use Rattle.record.specs.Kind.{kind_number};
ghost use Rattle.translator.specs.RowTranslation.{RowAt, all_bytes, row_bytes, row_size};
ghost use Rattle.translator.specs.TranslationHeads.{lead_of, let_all_head, let_one_head, let_one_size};
ghost use Rattle.translator.specs.TranslationTasks.{Opens, PartsOf, TaskIn, cut_at, past_heads, task};

use edit::{put_head, put_header, put_lead, put_leaf};
use record::kind::Kind;
use record::{Header, Sort, tuple_size};

// A row of commands, from `from` up to `to` in the source, and the place of its translation, from `start` up to `stop` in
// the output.
#[derive(Clone, Copy)]
struct Task {
    from: usize,
    to: usize,
    start: usize,
    stop: usize,
}

// The two rows that a let-all is made of: that inside its command, and that behind it.
#[derive(Clone, Copy)]
struct Parts {
    inner: Task,
    rest: Task,
}

fn let_one_size(src: &[u8], at: usize) -> usize
    requires { (at + 16 ≤ length src.now) × (16 ≤ u16 src.now (at + 10)) × (u16 src.now (at + 10) ≤ 19) }
    ensures { result ≡ let_one_size (ltb (u16 src.now (at + 10)) 18) }
{
    match Kind::read_expression(src, at + 10) {
        Kind::Literal | Kind::Variable => 16,
        _ => 20,
    }
}

// Commands are met in the order of their bytes, at whatever depth, so this needs no stack: each adds what its translation has
// besides those of its rows, and each row ends with a tuple.
// Kept: the place steps by hand, since an iterator is no plainer: it would read each kind once more for the step that stands here beside what is added.
pub fn row_size(src: &[u8], from: usize, to: usize, k: u32) -> usize
    requires { (RowAt src.now from to) × (k ≤ 16) }
    ensures { (h : RowAt src.now from to) → result ≡ row_size k h.block }
{
    let tuple = tuple_size(k);
    let mut total = tuple;
    let mut at = from;
    while at < to {
        match Kind::read(src, at + 2) {
            Kind::Assignment => {
                total += let_one_size(src, at);
                at += 16;
            }
            Kind::Loop => {
                total += 20 + 2 * tuple;
                at += 20;
            }
            _ => {
                total += 4 + tuple;
                at += 4;
            }
        }
    }
    total
}

// A program that fits a buffer can have a term of 34 times its length: it is measured before a byte is written.
pub fn translation_size(src: &[u8], used: usize, h: Header) -> usize
    requires { ((P : Block) × ProgramIn h P src.now used) × (length src.now ≤ 16384) }
    ensures { (P : Block) → ProgramIn h P src.now used → result ≡ length (encode_term h (translate h.k P)) }
{
    let start = h.contents_at();
    start + row_size(src, start + 4, used, h.k)
}

fn write_tuple(out: &mut [u8], o: usize, k: u32)
    requires { (o + (4 + 8 * k) ≤ length out.old) × (k ≤ 16) }
    ensures { out.new ≡ put out.old o (all_bytes k) }
{
    put_head(out, o, Kind::Tuple, tuple_size(k));
    let mut p = o + 4;
    for x in 1..k + 1 {
        put_leaf(out, p, Kind::Reference, x);
        p += 8;
    }
}

// The kind of the atom that the expression, or the bound, at a place becomes.
#[tactic(auto, using(crate::proofs::TranslationHeadsLaws::atom_kinds))]
fn atom_kind(src: &[u8], at: usize) -> Kind
    requires { (at + 2 ≤ length src.now) × (16 ≤ u16 src.now at) × (u16 src.now at ≤ 19) }
    ensures { kind_number result ≡ u16 src.now at + 16 }
{
    Kind::read_expression(src, at).in_term()
}

// What a let-one of an atom, or a rec, begins with, of the assignment or the loop at `at`. Each number is one move; a copy of
// the bytes would go one by one. Put in at both its calls, it spares each let-one an instruction.
#[inline(always)]
fn write_lead(src: &[u8], at: usize, out: &mut [u8], o: usize, kind: Kind, n: usize)
    requires { (at + 16 ≤ length src.now) × (16 ≤ u16 src.now (at + 10)) × (u16 src.now (at + 10) ≤ 19) × (o + 16 ≤ length out.old) }
    ensures { out.new ≡ put out.old o (lead_of (kind_number kind) n src.now at) }
{
    let x = buffer::get_u32(src, at + 4);
    let leaf = atom_kind(src, at + 10);
    let v = buffer::get_u32(src, at + 12);
    put_lead(out, o, kind, n, x, leaf, v);
}

// Gives where the let-one's last term goes.
fn write_let_one(src: &[u8], at: usize, out: &mut [u8], o: usize, n: usize) -> usize
    requires { (at + 16 ≤ length src.now) × (16 ≤ u16 src.now (at + 10)) × (u16 src.now (at + 10) ≤ 19) × (o + 20 ≤ length out.old) }
    ensures { (out.new ≡ put out.old o (let_one_head src.now at n)) × (result ≡ o + let_one_size (ltb (u16 src.now (at + 10)) 18)) }
{
    match Kind::read_expression(src, at + 10) {
        Kind::Literal | Kind::Variable => {
            write_lead(src, at, out, o, Kind::LetOne, n);
            o + 16
        }
        kind => {
            put_head(out, o, Kind::LetOne, n);
            buffer::put_u32(out, o + 4, buffer::get_u32(src, at + 4));
            put_head(out, o + 8, kind.in_term(), 12);
            put_leaf(out, o + 12, Kind::Reference, buffer::get_u32(src, at + 12));
            o + 20
        }
    }
}

// A task from the row inside its first command on.
fn past_heads(src: &[u8], whole: Task, k: u32) -> Task
    requires { (TaskIn k src.now whole) × (whole.from < whole.to) }
    ensures { result ≡ past_heads k src.now whole }
{
    if Kind::Loop.stands_at(src, whole.from + 2) {
        Task {
            from: whole.from + 20,
            start: whole.start + 20 + tuple_size(k),
            ..whole
        }
    } else {
        Task {
            from: whole.from + 4,
            start: whole.start + 4,
            ..whole
        }
    }
}

fn cut(task: Task, next: usize, mid: usize) -> Parts
    ensures { result ≡ cut_at task next mid }
{
    Parts {
        inner: Task {
            to: next,
            stop: mid,
            ..task
        },
        rest: Task {
            from: next,
            start: mid,
            ..task
        },
    }
}

// The two rows fill what the heads of the let-all leave, so it is enough to measure the shorter.
fn rows_of(src: &[u8], whole: Task, k: u32) -> Parts
    requires { (TaskIn k src.now whole) × (whole.from < whole.to) × (u16 src.now (whole.from + 2) ≡ 2 → ⊥) }
    ensures { (h : TaskIn k src.now whole) → PartsOf k src.now whole h.row.block result }
{
    let inner = past_heads(src, whole, k);
    let next = whole.from + buffer::get_u16(src, whole.from);
    if next - inner.from <= whole.to - next {
        let size = row_size(src, inner.from, next, k);
        return cut(inner, next, inner.start + size);
    }
    let size = row_size(src, next, whole.to, k);
    cut(inner, next, whole.stop - size)
}

// A loop begins a rec in its let-all, and the inner row is the body of that rec.
fn write_let_all(src: &[u8], whole: Task, inner: Task, k: u32, out: &mut [u8])
    requires { (Opens k src.now whole inner) × (whole.stop ≤ length out.old) }
    ensures { out.new ≡ put out.old whole.start (let_all_head k src.now whole.from (whole.stop - whole.start) (inner.stop - inner.start)) }
{
    let o = whole.start;
    put_head(out, o, Kind::LetAll, whole.stop - o);
    if Kind::Loop.stands_at(src, whole.from + 2) {
        let n = 16 + tuple_size(k) + (inner.stop - inner.start);
        write_lead(src, whole.from, out, o + 4, Kind::Rec, n);
        write_tuple(out, o + 20, k);
    }
}

// Of a let-all's two rows the shorter is written by a call and the longer by the loop, so the calls nest no deeper than the
// logarithm of the length. For the stack's sake the call stands at one place, and a row with no command, of which only the tuple
// is left to write, takes none.
// Kept: the task in four numbers, since a batch may take 2.2 KB of stack (tests/tests/stack.rs): as a struct, at two places, it took 3,136 bytes.
fn write_row(src: &[u8], from: usize, to: usize, start: usize, stop: usize, k: u32, out: &mut [u8])
    requires { (TaskIn k src.now (task from to start stop)) × (stop ≤ length out.old) }
    ensures { (h : TaskIn k src.now (task from to start stop)) → out.new ≡ put out.old start (row_bytes k h.row.block) }
{
    let mut left = Task {
        from,
        to,
        start,
        stop,
    };
    // Kept: what is left is one of two rows that the first command shows, and the other goes to a call: no iterator goes on so.
    while left.from < left.to {
        if Kind::Assignment.stands_at(src, left.from + 2) {
            left.start = write_let_one(src, left.from, out, left.start, left.stop - left.start);
            left.from += 16;
        } else {
            let parts = rows_of(src, left, k);
            let inner = parts.inner;
            let rest = parts.rest;
            write_let_all(src, left, inner, k, out);
            let mut shorter = inner;
            left = rest;
            if rest.to - rest.from < inner.to - inner.from {
                shorter = rest;
                left = inner;
            }
            if shorter.from < shorter.to {
                write_row(
                    src,
                    shorter.from,
                    shorter.to,
                    shorter.start,
                    shorter.stop,
                    k,
                    out,
                );
            } else {
                write_tuple(out, shorter.start, k);
            }
        }
    }
    write_tuple(out, left.start, k);
}

pub fn write_translation(src: &[u8], used: usize, h: Header, out: &mut [u8])
    requires { ((P : Block) × ProgramIn h P src.now used × (length (encode_term h (translate h.k P)) ≤ length out.old)) × (length src.now ≤ 16384) }
    ensures { (P : Block) → ProgramIn h P src.now used → out.new ≡ padded (length out.old) (encode_term h (translate h.k P)) }
{
    let total = translation_size(src, used, h);
    let start = h.contents_at();
    put_header(out, Sort::Term, h, total);
    write_row(src, start + 4, used, start, total, h.k, out);
    let room = out.len();
    buffer::zero(out, total, room - total);
}
