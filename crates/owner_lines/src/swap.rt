//! The lines of the swap area: pieces that are held, and the free rows between them.
#![tactic(auto, using(run_text::proofs::Putting::text_none))]

ghost use Rattle.std.specs.Prelude.{◌≡◌, ◌++◌, codes};
ghost use Rattle.swap_book.specs.Book.{IsBook};
ghost use Rattle.run_text.specs.Writing.{PutsText};
ghost use Rattle.owner_lines.specs.Owners.{owner_of_piece, swap_line, piece_line, gap_line, swap_lines};
ghost use Rattle.owner_lines.specs.Pieces.{nearer, nearer_from, next_from};

use io_edge::{Failed, Sink};
use machine_state::Machine;
use run_text::{Writer, put_named};
use swap_book::{Held, Owner};

// The nearer of two pieces.
fn nearer(piece: Held, other: Option<Held>) -> Held
    ensures { result ≡ nearer piece other }
{
    match other {
        Some(other) => {
            if other.start < piece.start {
                other
            } else {
                piece
            }
        }
        None => piece,
    }
}

// The nearer of a piece and another one, or the other one where the piece begins below a block.
fn nearer_from(from: u32, piece: Held, other: Option<Held>) -> Option<Held>
    ensures { result ≡ nearer_from from piece other }
{
    if piece.start < from {
        other
    } else {
        Some(nearer(piece, other))
    }
}

// The piece that begins next, from a block on.
fn next_piece(holdings: &[Held], from: u32) -> Option<Held>
    ensures { result ≡ next_from from holdings.now }
{
    let mut next = None;
    let mut left = holdings.len();
    while left > 0 {
        left -= 1;
        next = nearer_from(from, holdings[left], next);
    }
    next
}

// Puts the line of blocks that nobody holds.
fn put_free<S: Sink>(out: &mut Writer<'_, S>, start: u32, blocks: u32) -> Result<(), Failed>
    ensures { PutsText S.Sink result (swap_line start blocks (codes " free")) out.old out.new }
{
    put_named(out, b"swap", &[start, blocks])?;
    out.put(b" free")?;
    out.put(b"\n")
}

// Puts the line of the blocks from one on to another, where there are any.
fn put_gap<S: Sink>(out: &mut Writer<'_, S>, start: u32, end: u32) -> Result<(), Failed>
    ensures { PutsText S.Sink result (gap_line start end) out.old out.new }
{
    if start < end {
        put_free(out, start, end - start)
    } else {
        Ok(())
    }
}

// Puts who holds a piece.
fn put_owner<S: Sink>(out: &mut Writer<'_, S>, owner: Owner) -> Result<(), Failed>
    ensures { PutsText S.Sink result (owner_of_piece owner) out.old out.new }
{
    match owner {
        Owner::Data(sid) => put_named(out, b" d", &[sid]),
        Owner::Stack(sid) => put_named(out, b" s", &[sid]),
        Owner::U(pid) => put_named(out, b" u", &[pid]),
        Owner::Text(image) => put_named(out, b" x", &[image]),
    }
}

// Puts the line of a piece.
fn put_piece<S: Sink>(out: &mut Writer<'_, S>, piece: Held) -> Result<(), Failed>
    ensures { PutsText S.Sink result (piece_line piece) out.old out.new }
{
    put_named(out, b"swap", &[piece.start, piece.length])?;
    put_owner(out, piece.owner)?;
    out.put(b"\n")
}

// Puts the line of a piece, and before it that of the free blocks from one on.
fn put_next<S: Sink>(out: &mut Writer<'_, S>, from: u32, piece: Held) -> Result<(), Failed>
    ensures { PutsText S.Sink result (gap_line from piece.start ++ piece_line piece) out.old out.new }
{
    put_gap(out, from, piece.start)?;
    put_piece(out, piece)
}

/// Puts the lines of an area of so many blocks, by rising blocks: the pieces that are held, and what is free between them.
pub(crate) fn put_blocks<S: Sink>(
    out: &mut Writer<'_, S>,
    holdings: &[Held],
    blocks: u32,
) -> Result<(), Failed>
    requires { IsBook blocks holdings.now }
    ensures { PutsText S.Sink result (swap_lines blocks holdings.now) out.old out.new }
{
    let mut from = 0;
    while let Some(piece) = next_piece(holdings, from) {
        put_next(out, from, piece)?;
        from = piece.start + piece.length;
    }
    put_gap(out, from, blocks)
}
