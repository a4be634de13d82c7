//! How many numbers 1, 2 or 4 bytes hold. The assembler and the listing judge values by the same bounds.
ghost use Rattle.std.specs.Prelude.{◌≡◌};
ghost use Rattle.asm_grammar.specs.Encoding.{whole_of, half_of};

/// How many numbers 1, 2 or 4 bytes hold.
pub fn whole_of(size: u8) -> u64
    ensures { result ≡ whole_of size }
{
    match size {
        1 => 0x100,
        2 => 0x1_0000,
        _ => 0x1_0000_0000,
    }
}

/// Half of that: in two's complement the least of them is minus this.
pub fn half_of(size: u8) -> u64
    ensures { result ≡ half_of size }
{
    match size {
        1 => 0x80,
        2 => 0x8000,
        _ => 0x8000_0000,
    }
}
