//! What one instruction came to, as its caller is told.
/// What one instruction came to.
#[derive(Clone, Copy, Debug, PartialEq, Eq)]
pub enum Stepped {
    /// It was carried out.
    Done,
    /// It was carried out, and calls the system by this number.
    Call(i32),
    /// It changed nothing, since the page of this byte has to be brought in first; `write` says whether
    /// the byte was to be written.
    Miss { address: u32, write: bool },
    /// It changed nothing, since this byte lies below the stack, near enough for the stack to grow.
    Below { address: u32 },
    /// It changed nothing, and ends the process with this signal.
    Signal(u8),
}
