//! The schedule of a load, drawn line by line by a linear congruential generator that the number seeds.
ghost use Rattle.std.specs.Prelude.{◌≡◌, ◌<◌, ◌^◌, IfOk};
ghost use Rattle.load_maker.specs.Load.{drawn_after, line_of_case, load_lines};

use std::alloc::{AllocError, Global};
use vm_facts::Event;

// The number that the generator gives after this one.
pub fn drawn_after(x: u64) -> u64
    requires { x < 2 ^ 32 }
    ensures value { result ≡ drawn_after x }
    ensures small { result < 2 ^ 31 }
{
    (1_103_515_245 * x + 12_345) % 0x8000_0000
}

// The line for one of sixteen cases.
fn line_of_case(q: u32) -> Event
    ensures { result ≡ line_of_case q }
{
    match q {
        0..=7 => Event::Dispatch {
            pid: q + 1,
            count: 50,
        },
        8..=11 => Event::Interrupt,
        12 | 13 => Event::Hands { count: 16 },
        14 => Event::Swapper,
        _ => Event::Audit,
    }
}

// The lines of the load of this number.
pub fn load_lines(alloc: Global, number: u32) -> Result<Vec<Event>, AllocError>
    ensures { IfOk result (λ lines. lines.items ≡ load_lines number) }
{
    let mut lines = Vec::with_capacity(alloc, 200)?;
    let mut x = u64::from(number);
    for _line in 0..200_u32 {
        x = drawn_after(x);
        lines.push(line_of_case((x / 65_536 % 16) as u32))?;
    }
    Ok(lines)
}
