//! What an instruction will write, told before anything is written.
ghost use Rattle.std.specs.Prelude.{◌≡◌, Some};
ghost use Rattle.user_vax.specs.Effects.{push_onto};
ghost use Rattle.vax_execute.specs.Outcomes.{IsFresh, IsSize, IsOutcome, effect_of};

use vm_facts::Regs;

/// A number of 1, 2 or 4 bytes that goes to memory, the lowest byte first.
#[derive(Clone, Copy, Debug, PartialEq, Eq)]
pub struct Write {
    pub address: u32,
    pub value: u32,
    pub size: u8,
}

/// What an instruction that calls no procedure will leave beside the registers: the number that it writes, and the number of
/// a system call if it is one.
#[derive(Clone, Copy, Debug, PartialEq, Eq)]
pub struct Outcome {
    pub write: Option<Write>,
    pub call: Option<i32>,
}

impl Outcome {
    /// Pushes a longword, the one number that is written.
    #[inline(always)]
    #[tactic(auto, unfolding(user_vax::specs::Effects::push_onto))]
    pub fn push(&mut self, regs: &mut Regs, value: u32)
        requires { IsFresh self.old }
        ensures effect { effect_of regs.new self.new ≡ push_onto (effect_of regs.old self.old) value }
        ensures sound { IsOutcome self.new }
    {
        let address = regs.r[14].wrapping_sub(4);
        self.write = Some(Write {
            address,
            value,
            size: 4,
        });
        regs.r[14] = address;
    }

    /// Writes the one number.
    #[inline(always)]
    pub fn write(&mut self, write: Write)
        requires fresh { IsFresh self.old }
        requires size { IsSize write.size }
        ensures written { self.new ≡ record self.old { write = Some write } }
        ensures sound { IsOutcome self.new }
    {
        self.write = Some(write);
    }

    /// Nothing is written, and nothing called.
    #[inline(always)]
    pub fn none() -> Outcome
        ensures { IsFresh result }
    {
        Outcome {
            write: None,
            call: None,
        }
    }
}
