//! Leaves out a transcript's last line where that is the line of a fault.
ghost use Rattle.std.specs.Prelude.{◌≡◌, ◌≤◌, ℕ, length};
ghost use Rattle.run_text.specs.Lines.{lines_in};
ghost use Rattle.replay_command.specs.LastLine.{is_fault_line, without_fault_line, IsLastStart};

// Where the last line begins. What its last byte is doesn't matter: the line may end with it or lack an end.
fn last_start(bytes: &[u8]) -> usize
    ensures { IsLastStart bytes.now result }
{
    let mut start = bytes.len().saturating_sub(1);
    while start > 0 && bytes[start - 1] != b'\n' {
        start -= 1;
    }
    start
}

fn is_fault_line(line: &[u8]) -> bool
    ensures { result ≡ is_fault_line line.now }
{
    line.starts_with(b"vmrun: ")
}

/// The bytes of a transcript without its last line, where that begins with `vmrun: `.
pub fn without_fault_line(bytes: &[u8]) -> &[u8]
    ensures lines { lines_in result.now ≡ without_fault_line (lines_in bytes.now) }
    ensures shorter { length result.now ≤ length bytes.now }
{
    let (front, last) = bytes.split_at(last_start(bytes));
    if is_fault_line(last) { front } else { bytes }
}
