//! Where an operand lies, and an operand that was evaluated, as types.
/// Where an operand lies.
#[derive(Clone, Copy, Debug, PartialEq, Eq)]
pub enum Place {
    Nowhere,
    Register(u8),
    Memory(u32),
}

/// An operand that was evaluated.
#[derive(Clone, Copy, Debug, PartialEq, Eq)]
pub struct Evaluated {
    pub value: u32,
    pub place: Place,
}
