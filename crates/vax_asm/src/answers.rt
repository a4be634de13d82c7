//! What a source is assembled to: a program, or its lowest bad line.
use asm_grammar::Label;

/// What a line is encoded as.
#[derive(Clone, Copy, Debug, PartialEq, Eq)]
pub enum Encoded {
    /// The first `length` bytes are the instruction.
    Is { bytes: [u8; 24], length: u8 },
    /// The line is no instruction of the grammar in its ranges.
    Bad,
}

/// What a source makes.
#[derive(Drop)]
pub struct Program {
    /// Its bytes, from address 0 on: at most 65,536.
    pub bytes: Vec<u8>,
    /// How many zeros it wants after its data.
    pub bss: u32,
}

/// What a source is assembled to.
#[derive(Drop)]
pub enum Assembled {
    /// This program.
    Is(Program),
    /// The number of its lowest bad line, counted from 1.
    BadLine(u32),
}

/// Why a line of a source is bad.
#[derive(Clone, Copy, Debug, PartialEq, Eq)]
pub enum Reason {
    /// It is the last one, and no line feed ends it.
    NoLineFeed,
    /// It stands after 4,096 lines.
    TooManyLines,
    /// It has more than 120 bytes.
    LineTooLong,
    /// It is outside the grammar.
    NotStatement,
    /// A line above it defines its label too.
    LabelTwice(Label),
    /// No line among the first 4,096 defines this label, which it uses.
    UnknownLabel(Label),
    /// A number, or the address of a label, is outside the range of the place where it stands.
    ValueOutOfRange,
    /// The target is out of the reach of the branch.
    BranchOutOfRange,
    /// The instruction doesn't take an operand of this mode there, or the mode doesn't take this register.
    OperandRefused,
    /// It is a `.bss`, and so is a line above it.
    SecondBss,
    /// It brings the program above 65,536 bytes.
    ProgramTooLong,
}

/// The lowest bad line of a source.
#[derive(Clone, Copy, Debug, PartialEq, Eq)]
pub struct BadLine {
    /// Its number, counted from 1.
    pub number: u32,
    pub reason: Reason,
}
