//! The record of one process, and where it stands between its making and its end. While the process is out its
//! registers may be in its u page alone.
use vm_facts::Regs;

/// Where a process stands between its making and its end.
#[derive(Clone, Copy, Debug, PartialEq, Eq, Drop)]
pub enum Life {
    /// It has no space: within the vfork that makes it, or while one that runs in a borrowed space leaves that
    /// by an execve or its end.
    New,
    /// It runs in the space of this number.
    Holds(u32),
    /// It has lent the space `sid` to the process `child` of its vfork, until that gives it back.
    Lends { sid: u32, child: u32 },
    /// It has ended with this status, and its parent hasn't waited for it yet.
    Zombie(u32),
}

/// What is known of one process.
#[derive(Clone, Copy, Debug, PartialEq, Eq, Drop)]
pub struct Proc {
    pub pid: u32,
    /// The pid of the process that made it; 0 where there is none, or it has ended.
    pub parent: u32,
    pub regs: Regs,
    pub state: Life,
    /// It sleeps in wait, until one of its children is a zombie.
    pub asleep: bool,
    /// It is swapped out.
    pub out: bool,
    /// The space that it runs in is its parent's.
    pub borrowed: bool,
    /// The place in the journal since which it is resident, or out.
    pub since: u32,
}
