//! Arithmetic on the low byte of a longword, with its condition codes.
ghost use Rattle.std.specs.Prelude.{◌≡◌};
ghost use Rattle.user_vax.specs.Bytes.{byte_of, signed_byte, coded_byte, byte_after, byte_before, widened, narrowed};

use vax_alu::Sum;

/// The low byte of a longword.
pub fn low_byte(value: u32) -> u8
    ensures { result ≡ byte_of value }
{
    (value % 0x100) as u8
}

fn with_byte_codes(byte: u8, overflow: bool, carry: bool) -> Sum
    ensures { result ≡ coded_byte byte overflow carry }
{
    Sum {
        value: u32::from(byte),
        n: byte >= 0x80,
        z: byte == 0,
        v: overflow,
        c: carry,
    }
}

/// The next byte.
pub fn increment_byte(value: u32) -> Sum
    ensures { result ≡ byte_after value }
{
    let byte = low_byte(value);
    let exact = i16::from(byte.cast_signed()) + 1;
    with_byte_codes(byte.wrapping_add(1), exact > 127, byte == 255)
}

/// The byte before.
pub fn decrement_byte(value: u32) -> Sum
    ensures { result ≡ byte_before value }
{
    let byte = low_byte(value);
    let exact = i16::from(byte.cast_signed()) - 1;
    with_byte_codes(byte.wrapping_sub(1), exact < -128, byte == 0)
}

/// The low byte with copies of its sign above.
pub fn widen(value: u32) -> u32
    ensures { result ≡ widened value }
{
    i32::from(low_byte(value).cast_signed()).cast_unsigned()
}

/// The low byte, whose V says whether the longword's value is lost.
pub fn narrow(value: u32) -> Sum
    ensures { result ≡ narrowed value }
{
    let exact = value.cast_signed();
    with_byte_codes(low_byte(value), !(-128 <= exact && exact <= 127), false)
}
