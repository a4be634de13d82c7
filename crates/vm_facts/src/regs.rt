//! The registers of a process with its condition codes.
/// The registers of a process, as the VAX has them: R0 to R11, AP (12), FP (13), SP (14) and PC (15),
/// and the condition codes negative, zero, overflow and carry.
#[derive(Clone, Copy, Debug, PartialEq, Eq, Drop)]
pub struct Regs {
    pub r: [u32; 16],
    pub n: bool,
    pub z: bool,
    pub v: bool,
    pub c: bool,
}
