//! The text of a listing: an address and an instruction to a line.
ghost use Rattle.std.specs.Prelude.{◌≡◌, ◌≤◌, ◌<◌, ◌+◌, ◌/◌, ◌%◌, ◌^◌, ◌++◌, IfOk, OnOk, length};
ghost use Rattle.vax_disasm.specs.Showing.{ShowsAs, hexadecimal_digit};
ghost use Rattle.source_commands.specs.Listing.{address_text, line_text, end_text, Moves, IsListing};

use std::alloc::{AllocError, Global};
use vax_disasm::{Shown, show};

fn hexadecimal_digit(digit: u32) -> u8
    requires { digit < 16 }
    ensures { result ≡ hexadecimal_digit digit }
{
    if digit < 10 {
        b'0' + digit as u8
    } else {
        b'a' + (digit - 10) as u8
    }
}

// The digit of an address that counts so much.
fn digit_at(at: u32, weight: u32) -> u8
    requires { 0 < weight }
    ensures { result ≡ hexadecimal_digit (at / weight % 16) }
{
    hexadecimal_digit(at / weight % 16)
}

#[tactic(auto, unfolding(crate::specs::Listing::address_text))]
fn address_text(at: u32) -> [u8; 8]
    ensures { result ≡ address_text at }
{
    [
        digit_at(at, 0x1000_0000),
        digit_at(at, 0x100_0000),
        digit_at(at, 0x10_0000),
        digit_at(at, 0x1_0000),
        digit_at(at, 0x1000),
        digit_at(at, 0x100),
        digit_at(at, 0x10),
        digit_at(at, 1),
    ]
}

// Puts the line of an instruction.
fn put_line(text: &mut Vec<u8>, at: u32, instruction: &[u8]) -> Result<(), AllocError>
    ensures { OnOk result (text.new.items ≡ text.old.items ++ line_text at instruction.now) }
{
    text.extend_from_slice(&address_text(at))?;
    text.push(b' ')?;
    text.extend_from_slice(instruction)?;
    text.push(b'\n')?;
    Ok(())
}

// Puts the line of the place at which a listing stops.
fn put_end(text: &mut Vec<u8>, at: u32) -> Result<(), AllocError>
    ensures { OnOk result (text.new.items ≡ text.old.items ++ end_text at) }
{
    text.extend_from_slice(b"end ")?;
    text.extend_from_slice(&address_text(at))?;
    text.push(b'\n')?;
    Ok(())
}

// An instruction has at least one byte.
fn show_next(bytes: &[u8], at: u32) -> Shown
    ensures shows { ShowsAs bytes.now at result }
    ensures moves { Moves bytes.now result }
{
    show(bytes, at)
}

/// The listing of bytes, the first of which has this address.
pub fn listing_of(alloc: Global, code: &[u8], start: u32) -> Result<Vec<u8>, AllocError>
    requires { start + length code.now < 2 ^ 32 }
    ensures { IfOk result (λ text. IsListing start code.now text.items) }
{
    let mut text = Vec::new(alloc);
    let mut rest = code;
    let mut at = start;
    while let Shown::Is {
        text: instruction,
        length,
        size,
    } = show_next(rest, at)
    {
        put_line(&mut text, at, &instruction[..length as usize])?;
        rest = &rest[size as usize..];
        at += size as u32;
    }
    put_end(&mut text, at)?;
    Ok(text)
}
