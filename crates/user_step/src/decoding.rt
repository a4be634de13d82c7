//! A decoded instruction, beside the bytes that it was decoded from.
ghost use Rattle.std.specs.Prelude.{◌≡◌, ◌≤◌, true, false, Some};
ghost use Rattle.vax_code.specs.declared.instr.Decoded.TheVariants.{Is};
ghost use Rattle.vax_code.specs.Reading.{decoded};
ghost use Rattle.vax_code.specs.Table.{row_for};
ghost use Rattle.vax_code.specs.declared.instr.Operand.TheVariants.{Literal};
ghost use Rattle.vax_code.specs.Valid.{IsOperand};
ghost use Rattle.vax_execute.specs.Plain.{StaysInRegisters, is_at_hand, is_plain, is_push};
ghost use Rattle.user_step.specs.OneProof.{IsOperand-prop};

use vax_code::{Front, Instr, Row, decode_into, row_of};
use vax_execute::stays_in_registers;

/// An instruction with its row of the instruction table, and sixteen bytes that begin with it. It is known whether it stays in registers.
#[derive(Clone, Copy)]
pub struct Decoding {
    pub bytes: [u8; 16],
    pub instr: Instr,
    pub row: Row,
    pub stays: bool,
    ghost decodes: { decoded bytes ≡ Is instr },
    ghost listed: { row_for instr.op ≡ Some row },

    // Together these say `HasOperands` of the instruction.
    ghost first: { IsOperand instr.a } by { IsOperand-prop instr.a },
    ghost second: { IsOperand instr.b } by { IsOperand-prop instr.b },
    ghost third: { IsOperand instr.c } by { IsOperand-prop instr.c },
    ghost no_first: { instr.count ≤ 0 → instr.a ≡ Literal 0 },
    ghost no_second: { instr.count ≤ 1 → instr.b ≡ Literal 0 },
    ghost no_third: { instr.count ≤ 2 → instr.c ≡ Literal 0 },

    // Together these say `StaysInRegisters` of one that stays there.
    ghost plain: { stays ≡ true → is_plain row.name ≡ true },
    ghost pushes_none: { stays ≡ true → is_push row.name ≡ false },
    ghost first_at_hand: { stays ≡ true → is_at_hand instr.a ≡ true },
    ghost second_at_hand: { stays ≡ true → is_at_hand instr.b ≡ true },
    ghost third_at_hand: { stays ≡ true → is_at_hand instr.c ≡ true },
    ghost leaves: { stays ≡ false → StaysInRegisters row.name instr → ⊥ },
}

/// The instruction that sixteen bytes begin with, if there is one.
pub fn decode(bytes: &[u8; 16]) -> Option<Decoding> {
    let mut instr = Instr::blank();
    decode_into(&mut Front::of(bytes), &mut instr).ok()?;
    let row = row_of(instr.op)?;
    let stays = stays_in_registers(row.name, &instr);
    Some(Decoding {
        bytes: *bytes,
        instr,
        row,
        stays,
    })
}
