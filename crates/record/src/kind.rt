// The kinds of records, in the order of 01's table, with those of 02 C-17. The comment has 01's word.
ghost use Rattle.std.specs.Prelude.{◌≡◌, ◌+◌, ◌≤◌, eqb, length};
ghost use Rattle.buffer.specs.LittleEndian.{val};
ghost use Rattle.buffer.specs.Slice.{part};
ghost use Rattle.record.specs.Kind.{kind_in_program, kind_in_term, kind_named, kind_number};

#[derive(Clone, Copy)]
pub enum Kind {
    // Tariff.
    Program,
    // Tariff with a ceiling (edition 2).
    SecondProgram,
    Block,
    Assignment,
    Loop,
    Literal,
    // Variable, of an expression or a bound.
    Variable,
    // Variable plus one.
    PlusOne,
    // Variable minus one.
    MinusOne,
    // Term header.
    Term,
    // Term header with a ceiling (edition 2).
    SecondTerm,
    Numeral,
    // Variable, of a term.
    Reference,
    Succ,
    Pred,
    Tuple,
    LetOne,
    LetAll,
    Rec,
    // A number that names no kind.
    Other(usize),
}

impl Kind {
    #[tactic(auto, unfolding(crate::specs::Kind::kind_named))]
    pub fn named(number: usize) -> Kind
        ensures { result ≡ kind_named number }
    {
        match number {
            1 => Kind::Block,
            2 => Kind::Assignment,
            3 => Kind::Loop,
            7 => Kind::Program,
            9 => Kind::SecondProgram,
            16 => Kind::Literal,
            17 => Kind::Variable,
            18 => Kind::PlusOne,
            19 => Kind::MinusOne,
            32 => Kind::Numeral,
            33 => Kind::Reference,
            34 => Kind::Succ,
            35 => Kind::Pred,
            36 => Kind::Tuple,
            37 => Kind::LetOne,
            38 => Kind::LetAll,
            39 => Kind::Rec,
            40 => Kind::Term,
            41 => Kind::SecondTerm,
            other => Kind::Other(other),
        }
    }

    pub fn number(self) -> usize
        ensures { result ≡ kind_number self }
    {
        match self {
            Kind::Block => 1,
            Kind::Assignment => 2,
            Kind::Loop => 3,
            Kind::Program => 7,
            Kind::SecondProgram => 9,
            Kind::Literal => 16,
            Kind::Variable => 17,
            Kind::PlusOne => 18,
            Kind::MinusOne => 19,
            Kind::Numeral => 32,
            Kind::Reference => 33,
            Kind::Succ => 34,
            Kind::Pred => 35,
            Kind::Tuple => 36,
            Kind::LetOne => 37,
            Kind::LetAll => 38,
            Kind::Rec => 39,
            Kind::Term => 40,
            Kind::SecondTerm => 41,
            Kind::Other(number) => number,
        }
    }

    // The kind whose number stands at a place.
    pub fn read(buf: &[u8], at: usize) -> Kind
        requires { at + 2 ≤ length buf.now }
        ensures { result ≡ kind_named (val (part buf.now at 2)) }
    {
        Kind::named(buffer::get_u16(buf, at))
    }

    // The kind of the expression or the bound that stands at a place. Two bits tell the four of them apart, where `read` looks the
    // number up among all: so where a kind is read to be written again, its number costs no more than an addition.
    #[tactic(auto, unfolding(crate::specs::Kind::kind_named))]
    pub fn read_expression(buf: &[u8], at: usize) -> Kind
        requires { (at + 2 ≤ length buf.now) × (16 ≤ val (part buf.now at 2)) × (val (part buf.now at 2) ≤ 19) }
        ensures { result ≡ kind_named (val (part buf.now at 2)) }
    {
        match buffer::get_u16(buf, at) % 4 {
            0 => Kind::Literal,
            1 => Kind::Variable,
            2 => Kind::PlusOne,
            _ => Kind::MinusOne,
        }
    }

    // The same of an atom.
    #[tactic(auto, unfolding(crate::specs::Kind::kind_named))]
    pub fn read_atom(buf: &[u8], at: usize) -> Kind
        requires { (at + 2 ≤ length buf.now) × (32 ≤ val (part buf.now at 2)) × (val (part buf.now at 2) ≤ 35) }
        ensures { result ≡ kind_named (val (part buf.now at 2)) }
    {
        match buffer::get_u16(buf, at) % 4 {
            0 => Kind::Numeral,
            1 => Kind::Reference,
            2 => Kind::Succ,
            _ => Kind::Pred,
        }
    }

    // Whether the number that stands at a place is the kind's: one test, where a match on what is read would look it up.
    pub fn stands_at(self, buf: &[u8], at: usize) -> bool
        requires { at + 2 ≤ length buf.now }
        ensures { result ≡ eqb (val (part buf.now at 2)) (kind_number self) }
    {
        buffer::get_u16(buf, at) == self.number()
    }

    pub fn in_term(self) -> Kind
        ensures { result ≡ kind_in_term self }
    {
        match self {
            Kind::Literal => Kind::Numeral,
            Kind::Variable => Kind::Reference,
            Kind::PlusOne => Kind::Succ,
            Kind::MinusOne => Kind::Pred,
            other => other,
        }
    }

    pub fn in_program(self) -> Kind
        ensures { result ≡ kind_in_program self }
    {
        match self {
            Kind::Numeral => Kind::Literal,
            Kind::Reference => Kind::Variable,
            Kind::Succ => Kind::PlusOne,
            Kind::Pred => Kind::MinusOne,
            other => other,
        }
    }
}
