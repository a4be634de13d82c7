//! Tests of the VAX: its arithmetic, its instructions, a step over a memory, the assembler, and the forms of its sources. There
//! is no code here but tests.
#![tactic(auto)]

#[cfg(test)]
mod assembler;
#[cfg(test)]
mod examples;
#[cfg(test)]
mod forms;
#[cfg(test)]
mod instructions;
#[cfg(test)]
mod lines;
#[cfg(test)]
mod operands;
