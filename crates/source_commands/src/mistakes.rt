//! The mistakes that put a line outside the grammar, as a type. Their words are in `source_commands`.

/// What stands in a line, or isn't there, so that it is outside the grammar.
#[derive(Clone, Copy, Debug, Drop)]
pub enum Mistake<'a> {
    /// A carriage return at its end.
    CarriageReturn,
    /// A `#` after something.
    Comment,
    /// A tab.
    Tab,
    /// A byte that is neither a space nor a graphic character of ASCII.
    Unprintable,
    /// A space at its beginning.
    SpaceBefore,
    /// A space at its end.
    SpaceBehind,
    /// What stands before the colon is no label.
    NoLabel(&'a [u8]),
    /// Between a label and what follows stands no space, or more than one.
    AfterLabel,
    /// A capital letter, in a statement.
    Capital,
    /// The first word begins with a `.`, and is no directive.
    NoDirective(&'a [u8]),
    /// The first word is no mnemonic.
    NoMnemonic(&'a [u8]),
    /// A second space, in a statement.
    SpaceWithin,
    /// What follows this directive is no value that it takes.
    NoValue(&'a [u8]),
    /// This instruction takes so many operands, and so many stand there.
    WrongCount(&'a [u8], u8, usize),
    /// An operand without a byte.
    Missing,
    /// This is no target of a branch.
    NoTarget(&'a [u8]),
    /// The register of this number has no such name here.
    RegisterName(&'a [u8], u8),
    /// A displacement without its size, and the byte that names the shortest one.
    NoSize(&'a [u8], u8),
    /// A value after `$` that is no short literal, but would be an immediate.
    NoLiteral(&'a [u8]),
    /// A number or a label, which only a branch takes so.
    ValueAlone(&'a [u8]),
    /// This is no operand in another way.
    NoOperand(&'a [u8]),
    /// None of these.
    Other,
}
