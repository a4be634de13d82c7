//! The first stack page and the registers of an image that starts with arguments.
ghost use Rattle.std.specs.Prelude.{◌≡◌, ℕ, ◌+◌, ◌-◌, ◌*◌, ◌/◌, ◌%◌, ◌^◌, ◌<◌, ◌≤◌, [], ◌∷◌, ◌++◌, length, replicate, IfOk, OnOk};
ghost use Rattle.flat_state.specs.AoutImageImageSpecs.{word_bytes};
ghost use Rattle.flat_model.specs.Arguments.{AreArguments};
ghost use Rattle.flat_state.specs.Flat.{strings_of, pointers_from, in_longwords, argument_area, start_page, start_regs};

use crate::arguments::Arguments;
use flat_state::{PAGE, STACK_TOP};
use std::alloc::Global;
use vm_facts::{Bytes, NoMemory, Regs};

fn put_byte(page: &mut Vec<u8>, byte: u8) -> Result<(), NoMemory>
    ensures { OnOk result (page.new.items ≡ page.old.items ++ byte ∷ []) }
{
    if page.push(byte).is_err() {
        return Err(NoMemory);
    }
    Ok(())
}

fn put_bytes(page: &mut Vec<u8>, bytes: &[u8]) -> Result<(), NoMemory>
    ensures { OnOk result (page.new.items ≡ page.old.items ++ bytes.now) }
{
    if page.extend_from_slice(bytes).is_err() {
        return Err(NoMemory);
    }
    Ok(())
}

fn put_word(page: &mut Vec<u8>, word: u32) -> Result<(), NoMemory>
    ensures { OnOk result (page.new.items ≡ page.old.items ++ word_bytes word) }
{
    let bytes = [
        (word % 0x100) as u8,
        (word / 0x100 % 0x100) as u8,
        (word / 0x1_0000 % 0x100) as u8,
        (word / 0x100_0000 % 0x100) as u8,
    ];
    put_bytes(page, &bytes)
}

// The bytes of the strings, each with its final 0.
fn strings_len(arguments: &[Bytes]) -> u32
    requires { AreArguments arguments.now }
    ensures value { result ≡ length (strings_of arguments.now) }
    ensures few { result ≤ 512 }
{
    let mut len = 0u32;
    for argument in arguments {
        len += argument.as_slice().len() as u32 + 1;
    }
    len
}

// The addresses of the strings, the first of which stands at this one.
fn put_pointers(page: &mut Vec<u8>, arguments: &[Bytes], first: u32) -> Result<(), NoMemory>
    requires few { AreArguments arguments.now }
    requires low { first + 512 < 2 ^ 32 }
    ensures { OnOk result (page.new.items ≡ page.old.items ++ pointers_from first arguments.now) }
{
    let mut address = first;
    for argument in arguments {
        put_word(page, address)?;
        address += argument.as_slice().len() as u32 + 1;
    }
    Ok(())
}

fn put_strings(page: &mut Vec<u8>, arguments: &[Bytes]) -> Result<(), NoMemory>
    ensures { OnOk result (page.new.items ≡ page.old.items ++ strings_of arguments.now) }
{
    for argument in arguments {
        put_bytes(page, argument.as_slice())?;
        put_byte(page, 0)?;
    }
    Ok(())
}

fn put_zeros(page: &mut Vec<u8>, count: u32) -> Result<(), NoMemory>
    ensures { OnOk result (page.new.items ≡ page.old.items ++ replicate count 0) }
{
    let len = page.len() + count as usize;
    if page.resize(len, 0).is_err() {
        return Err(NoMemory);
    }
    Ok(())
}

// The whole longwords that hold so many bytes.
fn in_longwords(len: u32) -> u32
    requires { len ≤ 512 }
    ensures { result ≡ in_longwords len }
{
    (len + 3) / 4 * 4
}

// The bytes from SP on up to the stack's top.
#[tactic(auto, using(crate::proofs::Strings::area_count))]
fn area_len(arguments: &[Bytes]) -> u32
    requires { AreArguments arguments.now }
    ensures value { result ≡ length (argument_area arguments.now) }
    ensures few { result ≤ 560 }
{
    16 + 4 * arguments.len() as u32 + in_longwords(strings_len(arguments))
}

// The bytes from SP on up to the stack's top, after those of a page.
#[tactic(auto, using(crate::proofs::Strings::area_parts))]
fn put_area(page: &mut Vec<u8>, arguments: &[Bytes]) -> Result<(), NoMemory>
    requires few { AreArguments arguments.now }
    requires short { length page.old.items ≤ 1024 }
    ensures { OnOk result (page.new.items ≡ page.old.items ++ argument_area arguments.now) }
{
    let strings = strings_len(arguments);
    let room = in_longwords(strings);
    put_word(page, arguments.len() as u32)?;
    put_pointers(page, arguments, STACK_TOP - 4 - room)?;
    put_word(page, 0)?;
    put_word(page, 0)?;
    put_strings(page, arguments)?;
    put_zeros(page, room - strings)?;
    put_word(page, 0)
}

/// Stack page 0 of an image that starts with these arguments.
pub fn start_page(alloc: Global, arguments: &Arguments) -> Result<Bytes, NoMemory>
    ensures page { IfOk result (λ page. page ≡ start_page arguments.now) }
    ensures whole { IfOk result (λ page. length page ≡ 1024) }
{
    let arguments = arguments.as_slice();
    let mut page = Vec::new(alloc);
    put_zeros(&mut page, PAGE - area_len(arguments))?;
    put_area(&mut page, arguments)?;
    Ok(Bytes::from_vec(page))
}

/// The registers of an image that starts with these arguments: PC is after the entry mask, and SP at the
/// number of arguments.
#[tactic(auto, unfolding(flat_state::specs::Flat::start_regs))]
pub fn start_regs(entry: u32, arguments: &Arguments) -> Regs
    requires { entry + 2 < 2 ^ 32 }
    ensures { result ≡ start_regs entry arguments.now }
{
    let mut regs = Regs {
        r: [0; 16],
        n: false,
        z: false,
        v: false,
        c: false,
    };
    regs.r[14] = STACK_TOP - area_len(arguments.as_slice());
    regs.r[15] = entry + 2;
    regs
}
