//! Sets a register, or the condition codes by their three rules.
ghost use Rattle.std.specs.Prelude.{◌≡◌, ◌<◌, ◌⊎◌};
ghost use Rattle.user_vax.specs.Effects.{with_codes, with_move_codes, with_test_codes};
ghost use Rattle.user_vax.specs.Operands.{with_register};
ghost use Rattle.vax_execute.specs.Outcomes.{IsSize};

use vax_alu::Sum;
use vm_facts::Regs;

/// Sets one register.
pub fn set_register(regs: &mut Regs, reg: u8, value: u32)
    requires { reg < 16 }
    ensures { regs.new ≡ with_register regs.old reg value }
{
    regs.r[reg as usize] = value;
}

/// Sets the codes of a result.
pub fn set_codes(regs: &mut Regs, sum: Sum)
    ensures { regs.new ≡ with_codes regs.old sum }
{
    regs.n = sum.n;
    regs.z = sum.z;
    regs.v = sum.v;
    regs.c = sum.c;
}

/// Sets the codes of a moved value, which keep C.
pub fn set_move_codes(regs: &mut Regs, size: u8, value: u32)
    requires { IsSize size }
    ensures { regs.new ≡ with_move_codes regs.old size value }
{
    let least_negative = match size {
        1 => 0x80,
        2 => 0x8000,
        _ => 0x8000_0000,
    };
    regs.n = value >= least_negative;
    regs.z = value == 0;
    regs.v = false;
}

/// Sets the codes of a tested value.
pub fn set_test_codes(regs: &mut Regs, size: u8, value: u32)
    requires { IsSize size }
    ensures { regs.new ≡ with_test_codes regs.old size value }
{
    set_move_codes(regs, size, value);
    regs.c = false;
}
