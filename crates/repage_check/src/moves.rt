//! Whether neighbouring lines count more moves of the hands than one entry can. The trace alone is looked at, before
//! a machine is begun.
ghost use Rattle.std.specs.Prelude.{◌≡◌, ◌↔◌, ◌≤◌, ◌<◌, ◌+◌, ◌^◌, true};
ghost use Rattle.repage_check.specs.Moves.{moves_with, moves_by, HaveFewMoves};

use paged_model::Line;
use vm_facts::Entry;

// How many neighbouring entries count once this one came too.
fn moves_with(n: u64, e: &Entry) -> u64
    requires { n ≤ 1000000 }
    ensures value { result ≡ moves_with n e.now }
{
    match e {
        Entry::Hands { count } => n + u64::from(*count),
        Entry::Ran { count: 0, .. } => n,
        _ => 0,
    }
}

// How many neighbouring lines count once this one came too.
fn moves_by(n: u64, line: &Line) -> u64
    requires { n ≤ 1000000 }
    ensures value { result ≡ moves_by n line.now }
{
    match line {
        Line::RunLine(e) => moves_with(n, e),
        Line::Part(_) => n,
    }
}

/// Whether neighbouring lines count no more than a million moves. Each line of such a trace can be judged.
pub fn has_few_moves(lines: &[Line]) -> bool
    ensures { (result ≡ true) ↔ HaveFewMoves lines.now }
{
    let mut n = 0;
    for line in lines {
        n = moves_by(n, line);
        if n > 1_000_000 {
            return false;
        }
    }
    true
}
