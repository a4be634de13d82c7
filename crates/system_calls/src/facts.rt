//! What the system says of a file, beside its bytes.

/// What the system says of a file, beside its bytes. Times are seconds, and billionths of one.
#[derive(Clone, Copy, PartialEq, Eq, Debug, Drop)]
pub struct FileFacts {
    /// Whether it is a plain file, and no folder, pipe, device or link.
    pub is_plain: bool,
    /// Whether it is a symbolic link, which only `facts_of` tells.
    pub is_link: bool,
    /// Its length in bytes. Of what isn't plain, and of some files as those of /proc, it may be 0 although there are bytes.
    pub len: u64,
    /// The device that it is on.
    pub device: u64,
    /// Its number on that device.
    pub number: u64,
    /// How many names it has.
    pub names: u64,
    /// The user to whom it belongs.
    pub owner: u32,
    /// When its bytes were last changed.
    pub modified: (i64, i64),
    /// When anything of it was last changed.
    pub changed: (i64, i64),
}
