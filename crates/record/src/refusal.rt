// The refusals, in the order of the table (01 "Where an order stops", with the rows of 02; specs/Table); include/vistrokk.h has the same
// names.
ghost use Rattle.std.specs.Prelude.{◌≡◌};
ghost use Rattle.record.specs.Refusal.{answer_number, refusal_number};

#[derive(Clone, Copy)]
pub enum Refusal {
    // A buffer that is too long, or a used length above its buffer.
    BadBuffer,
    // A batch of no store, or of more than 64 (02 C-16).
    BadBatch,
    // No whole header, wrong kind, or a length that is not the used length.
    BadHeader,
    // k not 1 to 16.
    BadK,
    // Bytes outside the grammar.
    Malformed,
    // A variable number not 1 to k.
    BadVariable,
    // Blocks and loops nested over 32 deep (02 C-14).
    TooDeep,
    // A literal or a numeral above the ceiling (02 C-17).
    LiteralAboveCeiling,
    // A ceiling smaller than the largest value, which edition 1 has no place for (02 C-18).
    SmallCeiling,
    // A store that has not the number of values asked for.
    BadStore,
    // A rule number of weighing other than 1 or 2 (02 C-11).
    BadRule,
    // Words that hold no state of the program (02 C-14).
    BadState,
    // A value above the ceiling in a store that is read, or in a state (02 C-17).
    ValueAboveCeiling,
    // A command that assigns a variable used as a loop bound (02 C-19).
    BoundAssigned,
    // A free variable.
    FreeVariable,
    // Not finished.
    Unfinished,
    // No program translates to it.
    NoProgram,
    // The answer is longer than the output buffer.
    OutputTooShort,
    // A figure of a forecast that 64 bits do not hold (02 C-19).
    FigureTooLarge,
}

impl Refusal {
    // The number that a caller in C is given.
    pub fn number(self) -> u32
        ensures { result ≡ refusal_number self }
    {
        match self {
            Refusal::BadBuffer => 1,
            Refusal::BadHeader => 2,
            Refusal::BadK => 3,
            Refusal::Malformed => 4,
            Refusal::BadVariable => 5,
            Refusal::BadStore => 6,
            Refusal::FreeVariable => 7,
            Refusal::Unfinished => 8,
            Refusal::NoProgram => 9,
            Refusal::OutputTooShort => 10,
            Refusal::BadRule => 11,
            Refusal::TooDeep => 12,
            Refusal::BadState => 13,
            Refusal::BadBatch => 14,
            Refusal::LiteralAboveCeiling => 15,
            Refusal::ValueAboveCeiling => 16,
            Refusal::SmallCeiling => 17,
            Refusal::BoundAssigned => 18,
            Refusal::FigureTooLarge => 19,
        }
    }
}

// The number of an answer that has nothing besides: 0 where nothing is refused.
pub fn number_of(answer: Result<(), Refusal>) -> u32
    ensures { result ≡ answer_number answer }
{
    match answer {
        Ok(()) => 0,
        Err(refusal) => refusal.number(),
    }
}
