// Read-back over bytes: the program's length, and the program written into another buffer. Works on a checked term that is a
// translation, and meets its terms in the order of the bytes, as the test does (`recognition`): each once, and with no stack.
#![tactic(auto)]

ghost use Rattle.std.specs.Prelude.{◌≡◌, List, ◌++◌, ℕ, ◌+◌, ◌-◌, ◌<◌, ◌≤◌, eqb, length};
ghost use Rattle.std.proofs.Math.Option.{some};
ghost use Rattle.buffer.specs.LittleEndian.{val};
ghost use Rattle.buffer.specs.Slice.{part, put};
ghost use Rattle.place.specs.Heads.{record_head};
ghost use Rattle.place.specs.TermView.{TermAt};
ghost use Rattle.record.specs.Answers.{padded};
ghost use Rattle.record.specs.Header.{encode_program};
ghost use Rattle.record.specs.Holding.{TermIn};
ghost use Rattle.record.specs.Kind.{kind_number};
ghost use Rattle.record.specs.Program.{block_size, encode_block};
ghost use Rattle.recognition.specs.Scan.{TermsUpTo, own_size};
ghost use Rattle.rules.specs.FreeVariables.{all_vars};
ghost use Rattle.rules.specs.ReadBack.{read_back};
ghost use Rattle.rules.specs.Syntax.{Block, Bound, Expr, Term, assign, rec};
ghost use Rattle.rules.specs.Translation.{all, atom_of, translate};
ghost use Rattle.readback.specs.CommandSize.{commands_size, own_command};
ghost use Rattle.readback.specs.OpenRecords.{BlockFits, assign_bytes, closed, loop_bytes};

use edit::{put_head, put_header, put_lead};
use recognition::{Terms, own_size};
use record::kind::Kind;
use record::{Header, Sort};

// The bytes of commands that come of a term's own bytes. A let-all of a rec has none: the rec stands for the whole loop.
fn own_command_size(src: &[u8], at: usize) -> usize
    requires { (k : ℕ) × (t : Term) × TermAt src.now at k t }
    ensures { (k : ℕ) (t : Term) → TermAt src.now at k t → result ≡ own_command t }
{
    match Kind::read(src, at + 2) {
        Kind::Tuple => 0,
        Kind::LetOne => 16,
        Kind::LetAll => match Kind::read(src, at + 6) {
            Kind::Rec => 0,
            _ => 4,
        },
        _ => 20,
    }
}

// The bytes of all commands of the terms between two places.
fn commands_size(src: &[u8], from: usize, to: usize, k: u32) -> usize
    requires { ((ts : List Term) × TermsUpTo src.now k to from ts) × (to ≤ length src.now) }
    ensures is { (ts : List Term) → TermsUpTo src.now k to from ts → result ≡ commands_size ts }
    ensures low { from + result ≤ to }
{
    let mut n = 0;
    for at in Terms::between(src, from, to, k) {
        n += own_command_size(src, at);
    }
    n
}

// The length of the program's record.
pub fn source_size(src: &[u8], used: usize, h: Header) -> usize
    requires { ((t : Term) × TermIn all_vars h t src.now used) × (length src.now ≤ 16384) }
    ensures { (t : Term) (P : Block) → TermIn all_vars h t src.now used → read_back h.k t ≡ some P → result ≡ length (encode_program h P) }
{
    let start = h.contents_at();
    start + 4 + commands_size(src, start, used, h.k)
}

// Stores the length of the record that ends at o and has its head at `head`, and that of the block inside a loop. Gives what
// stood there till then: where the head around it is.
fn close(out: &mut [u8], head: usize, o: usize) -> usize
    requires { (head + 4 ≤ o) × (val (part out.old (head + 2) 2) ≡ 3 → head + 20 ≤ o) × (o ≤ length out.old) }
    ensures { (out.new ≡ closed (eqb (val (part out.old (head + 2) 2)) 3) out.old head o) × (result ≡ val (part out.old head 2)) }
{
    let outer = buffer::get_u16(out, head);
    let kind = Kind::read(out, head + 2);
    let n = o - head;
    buffer::put_u16(out, head, n);
    if let Kind::Loop = kind {
        buffer::put_u16(out, head + 16, n - 16);
    }
    outer
}

// Writes the assignment of the let-one at `at`.
fn write_let_one(src: &[u8], at: usize, k: u32, out: &mut [u8], o: usize)
    requires { ((x : ℕ) × (e : Expr) × (r : Block) × TermAt src.now at k (translate k (assign x e r))) × (o + 16 ≤ length out.old) }
    ensures { (x : ℕ) (e : Expr) (r : Block) → TermAt src.now at k (translate k (assign x e r)) → out.new ≡ put out.old o (assign_bytes x e) }
{
    let x = buffer::get_u32(src, at + 4);
    let kind = Kind::read_atom(src, at + 10).in_program();
    // A let-one's own bytes end with the number of its atom.
    let v = buffer::get_u32(src, at + own_size(src, at, k) - 4);
    put_lead(out, o, Kind::Assignment, 16, x, kind, v);
}

// The kind of the bound that the atom at a place stands for.
#[tactic(auto, using(crate::proofs::PieceLaws::bound_kinds))]
fn bound_kind(src: &[u8], at: usize) -> Kind
    requires { (at + 2 ≤ length src.now) × (32 ≤ val (part src.now at 2)) × (val (part src.now at 2) ≤ 35) }
    ensures { kind_number result ≡ val (part src.now at 2) - 16 }
{
    Kind::read_atom(src, at).in_program()
}

// Begins the loop of the rec at `at`, inside the record with its head at `head`.
fn open_loop(src: &[u8], at: usize, out: &mut [u8], o: usize, head: usize)
    requires { ((k : ℕ) × (x : ℕ) × (n : Bound) × (b : Block) × TermAt src.now at k (rec x (atom_of n) (all k) (translate k b))) × (o + 20 ≤ length out.old) }
    ensures { (k x : ℕ) (n : Bound) (b : Block) → TermAt src.now at k (rec x (atom_of n) (all k) (translate k b)) → out.new ≡ put out.old o (loop_bytes x n head 0) }
{
    let x = buffer::get_u32(src, at + 4);
    let bound = bound_kind(src, at + 10);
    let v = buffer::get_u32(src, at + 12);
    put_lead(out, o, Kind::Loop, head, x, bound, v);
    put_head(out, o + 16, Kind::Block, 0);
}

// The block of the term that starts at `start` and ends at `to`, written from `start` on; gives where it ends. The length of a
// block or loop is known only at its end, where a tuple stands: till then its head holds the index of the head around it.
fn write_block(src: &[u8], start: usize, to: usize, k: u32, out: &mut [u8]) -> usize
    requires { ((b : Block) × BlockFits src.now start to k out.old b) × (to ≤ length src.now) × (to < 65536) }
    ensures { (b : Block) → BlockFits src.now start to k out.old b → (out.new ≡ put out.old start (record_head 1 (4 + block_size b) ++ encode_block b)) × (result ≡ start + (4 + block_size b)) }
{
    let mut head = start;
    let mut o = start + 4;
    put_head(out, start, Kind::Block, 0);
    let mut terms = Terms::between(src, start, to, k);
    while let Some(at) = terms.next() {
        match Kind::read(src, at + 2) {
            Kind::Tuple => head = close(out, head, o),
            Kind::LetOne => {
                write_let_one(src, at, k, out, o);
                o += 16;
            }
            _ => match Kind::read(src, at + 6) {
                Kind::Rec => {
                    // The rec is written with its let-all, and so passed here.
                    terms.next();
                    open_loop(src, at + 4, out, o, head);
                    head = o;
                    o += 20;
                }
                _ => {
                    put_head(out, o, Kind::Block, head);
                    head = o;
                    o += 4;
                }
            },
        }
    }
    o
}

// The program's record, and zeros behind it.
pub fn write_source(src: &[u8], used: usize, h: Header, out: &mut [u8])
    requires { ((t : Term) × (P : Block) × TermIn all_vars h t src.now used × (read_back h.k t ≡ some P) × (length (encode_program h P) ≤ length out.old)) × (length src.now ≤ 16384) }
    ensures { (t : Term) (P : Block) → TermIn all_vars h t src.now used → read_back h.k t ≡ some P → out.new ≡ padded (length out.old) (encode_program h P) }
{
    let n = write_block(src, h.contents_at(), used, h.k, out);
    put_header(out, Sort::Program, h, n);
    let room = out.len();
    buffer::zero(out, n, room - n);
}
