//! Why an instruction changed nothing: a byte that misses, or a signal.
ghost use Rattle.std.specs.Prelude.{◌≡◌};
ghost use Rattle.user_vax.specs.Signals.{sigill, sigfpe, sigbus, sigsegv};

/// The signal of a reserved opcode or operand mode, by its number in 4.3BSD.
pub const SIGILL: u8 = 4;
/// The signal of a division by 0, by its number in 4.3BSD.
pub const SIGFPE: u8 = 8;
/// The signal of a write to the text, by its number in 4.3BSD.
pub const SIGBUS: u8 = 10;
/// The signal of an address in no segment, by its number in 4.3BSD.
pub const SIGSEGV: u8 = 11;

/// Why an instruction changed nothing.
#[derive(Clone, Copy, Debug, PartialEq, Eq)]
pub enum Refused {
    /// The byte's page has to be brought in first; `write` says whether the byte was to be written.
    Miss { address: u32, write: bool },
    /// The byte lies below the stack, near enough for the stack to grow.
    Below { address: u32 },
    /// The instruction ends the process with this signal.
    Signal(u8),
}

/// The signals that the clauses of `step` speak of have these numbers, as in 4.3BSD and FORMATS.
pub fn signals_are_numbered()
    ensures illegal { sigill ≡ 4 }
    ensures arithmetic { sigfpe ≡ 8 }
    ensures bus { sigbus ≡ 10 }
    ensures segmentation { sigsegv ≡ 11 }
{}
