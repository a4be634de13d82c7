//! The system calls with their numbers, errors, limits and replies. The pager and the judge of transcripts share
//! them.
ghost use Rattle.std.specs.Prelude.{◌≡◌, ℕ};
ghost use Rattle.flat_model.specs.Calls.{call_of, number_of};

use flat_state::Change;
use vm_facts::{Bytes, Regs};

/// The system calls (the 4.3BSD book has their meaning, this project's profile their numbers).
#[derive(Clone, Copy, Debug, PartialEq, Eq, Drop)]
pub enum SystemCall {
    /// The process ends with a status.
    Exit,
    /// A child gets a copy of the space.
    Fork,
    /// Bytes go to the output.
    Write,
    /// The data segment ends at an address.
    Break,
    /// The process asks for its number.
    Getpid,
    /// The process starts another image.
    Execve,
    /// A child borrows the space.
    Vfork,
    /// The process waits for the end of a child.
    Wait,
}

/// What a system call comes to.
#[derive(Debug, Drop)]
pub enum Reply {
    /// The call answers this error, by the numbers of 4.3BSD, with the carry set.
    Fails(u32),
    /// The call leaves these registers, and does this to the processes and their spaces.
    Does(Regs, Change),
    /// The call writes these bytes, and answers their number with the carry clear.
    Writes(Bytes),
    /// The process waits: it has children, and none is a zombie.
    Waits,
    /// The process ends with this status.
    Exits(u32),
}

/// Error ENOENT: no such file.
pub const ENOENT: u32 = 2;

/// Error E2BIG: too many arguments, or a longer one than may be.
pub const E2BIG: u32 = 7;

/// Error EBADF: the number names no open file.
pub const EBADF: u32 = 9;

/// Error ECHILD: no children.
pub const ECHILD: u32 = 10;

/// Error EAGAIN: as many processes as may be.
pub const EAGAIN: u32 = 11;

/// Error ENOMEM: no room in memory or on swap.
pub const ENOMEM: u32 = 12;

/// Error EFAULT: an address outside the space.
pub const EFAULT: u32 = 14;

/// The bytes that one write call writes at most (this project's profile).
pub const WRITE_LIMIT: u32 = 1024;

/// The processes that may be, zombies counted (this project's profile).
pub const PROCESS_LIMIT: usize = 64;

/// The pages that a data segment may have (this project's profile).
pub const DATA_LIMIT: u32 = 4096;

/// The bytes in which a path or an argument must end (this project's profile).
pub const STRING_LIMIT: u32 = 64;

/// The arguments that execve may give (this project's profile).
pub const ARGUMENT_LIMIT: u32 = 8;

impl SystemCall {
    /// The call of a number; none where it names none of the eight.
    pub fn numbered(number: i32) -> Option<SystemCall>
        ensures { result ≡ call_of number }
    {
        match number {
            1 => Some(SystemCall::Exit),
            2 => Some(SystemCall::Fork),
            4 => Some(SystemCall::Write),
            17 => Some(SystemCall::Break),
            20 => Some(SystemCall::Getpid),
            59 => Some(SystemCall::Execve),
            66 => Some(SystemCall::Vfork),
            84 => Some(SystemCall::Wait),
            _ => None,
        }
    }

    /// Its number.
    pub fn number(self) -> u32
        ensures { result ≡ number_of self }
    {
        match self {
            SystemCall::Exit => 1,
            SystemCall::Fork => 2,
            SystemCall::Write => 4,
            SystemCall::Break => 17,
            SystemCall::Getpid => 20,
            SystemCall::Execve => 59,
            SystemCall::Vfork => 66,
            SystemCall::Wait => 84,
        }
    }
}
