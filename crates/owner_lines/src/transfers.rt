//! The lines of the transfers in flight, page by page, the oldest first.
#![tactic(auto, using(run_text::proofs::Putting::text_none))]

ghost use Rattle.std.specs.Prelude.{◌≡◌, ◌+◌, ◌<◌, ◌^◌, [], ◌∷◌, ◌++◌, slice_get, codes};
ghost use Rattle.std.specs.List.{flat_map};
ghost use Rattle.machine_state.specs.Going.{IsRunning};
ghost use Rattle.machine_state.specs.View.{source_shown};
ghost use Rattle.run_text.specs.Text.{parts, page_text};
ghost use Rattle.run_text.specs.Writing.{PutsText};
ghost use Rattle.owner_lines.specs.Owners.{source_word, block_if, moved_line, transfers_from};
ghost use Rattle.owner_lines.specs.Carried.{transfer_if, block_read, inbound_line, outbound_line, flight_text};

use io_edge::{Failed, Sink};
use machine_state::Machine;
use run_text::{Writer, put_named, put_page};
use transfer_ring::{Inbound, Outbound, Source, Transfer};
use vm_facts::Page;

// The block that a page is read from, where it comes from swap.
fn block_read(source: Source) -> Option<u32>
    ensures { result ≡ block_read source }
{
    match source {
        Source::Swap(block) => Some(block),
        Source::File { .. } => None,
    }
}

// Puts a block after a space, where there is one.
fn put_block_if<S: Sink>(out: &mut Writer<'_, S>, block: Option<u32>) -> Result<(), Failed>
    ensures { PutsText S.Sink result (block_if block) out.old out.new }
{
    match block {
        Some(block) => put_named(out, b"", &[block]),
        None => Ok(()),
    }
}

// Puts the line of a page in a transfer.
fn put_moved_line<S: Sink>(
    out: &mut Writer<'_, S>,
    page: &Page,
    frame: u32,
    block: Option<u32>,
) -> Result<(), Failed>
    ensures { PutsText S.Sink result (moved_line page.now frame block) out.old out.new }
{
    out.put(b"part")?;
    put_page(out, page)?;
    put_named(out, b"", &[frame])?;
    put_block_if(out, block)?;
    out.put(b"\n")
}

// Puts the line of a page that is read.
fn put_inbound<S: Sink>(out: &mut Writer<'_, S>, part: &Inbound) -> Result<(), Failed>
    ensures { PutsText S.Sink result (inbound_line part.now) out.old out.new }
{
    put_moved_line(
        out,
        &part.page,
        part.token.number(),
        block_read(part.source),
    )
}

// Puts the line of a page that is written.
fn put_outbound<S: Sink>(out: &mut Writer<'_, S>, part: &Outbound) -> Result<(), Failed>
    ensures { PutsText S.Sink result (outbound_line part.now) out.old out.new }
{
    put_moved_line(out, &part.page, part.token.number(), Some(part.block))
}

// Puts the lines of the pages that are read.
fn put_all_inbound<S: Sink>(out: &mut Writer<'_, S>, parts: &[Inbound]) -> Result<(), Failed>
    ensures { PutsText S.Sink result (flat_map inbound_line parts.now) out.old out.new }
{
    for part in parts {
        put_inbound(out, part)?;
    }
    Ok(())
}

// Puts the lines of the pages that are written.
fn put_all_outbound<S: Sink>(out: &mut Writer<'_, S>, parts: &[Outbound]) -> Result<(), Failed>
    ensures { PutsText S.Sink result (flat_map outbound_line parts.now) out.old out.new }
{
    for part in parts {
        put_outbound(out, part)?;
    }
    Ok(())
}

// Where the pages of a read come from.
fn source_word(parts: &[Inbound]) -> &'static [u8]
    ensures { result.now ≡ source_word (source_shown parts.now) }
{
    match parts {
        [] => b" swap",
        [first, ..] => match first.source {
            Source::Swap(_) => b" swap",
            Source::File { .. } => b" file",
        },
    }
}

// Puts what stands after the number of a read, and the lines of its pages.
fn put_read<S: Sink>(
    out: &mut Writer<'_, S>,
    demanded: &Page,
    parts: &[Inbound],
) -> Result<(), Failed>
    ensures { PutsText S.Sink result
        (source_word (source_shown parts.now) ++ page_text demanded.now ++ codes "\n" ++ flat_map inbound_line parts.now) out.old out.new }
{
    out.put(source_word(parts))?;
    put_page(out, demanded)?;
    out.put(b"\n")?;
    put_all_inbound(out, parts)
}

// Puts what stands after the number of a write, and the lines of its pages.
fn put_write<S: Sink>(out: &mut Writer<'_, S>, parts: &[Outbound]) -> Result<(), Failed>
    ensures { PutsText S.Sink result (codes " write\n" ++ flat_map outbound_line parts.now) out.old out.new }
{
    out.put(b" write\n")?;
    put_all_outbound(out, parts)
}

// Puts what stands after the number of a transfer, and the lines of its pages.
fn put_flight<S: Sink>(out: &mut Writer<'_, S>, transfer: &Transfer) -> Result<(), Failed>
    ensures { PutsText S.Sink result (flight_text transfer.now) out.old out.new }
{
    match transfer {
        Transfer::Read { demanded, parts } => put_read(out, demanded, parts.as_slice()),
        Transfer::Write { parts } => put_write(out, parts.as_slice()),
    }
}

// Puts the lines of a transfer.
fn put_transfer<S: Sink>(
    out: &mut Writer<'_, S>,
    number: u32,
    transfer: &Transfer,
) -> Result<(), Failed>
    ensures { PutsText S.Sink result (codes "transfer" ++ parts (number ∷ []) ++ flight_text transfer.now) out.old out.new }
{
    put_named(out, b"transfer", &[number])?;
    put_flight(out, transfer)
}

// Puts the lines of the transfer at a place, where there is one.
fn put_transfer_at<S: Sink>(
    out: &mut Writer<'_, S>,
    machine: &Machine,
    place: u32,
) -> Result<(), Failed>
    requires running { IsRunning machine.now }
    requires few { place + 1 < 2 ^ 32 }
    ensures { PutsText S.Sink result (transfer_if machine.now.before (place + 1) (slice_get machine.now.kernel.place.transfers place)) out.old out.new }
{
    match machine.transfer(place) {
        Some(transfer) => put_transfer(out, place + 1, transfer),
        None => Ok(()),
    }
}

/// Puts the lines of the transfers in flight, the oldest first.
pub(crate) fn put_transfers<S: Sink>(
    out: &mut Writer<'_, S>,
    machine: &Machine,
) -> Result<(), Failed>
    requires { IsRunning machine.now }
    ensures { PutsText S.Sink result (transfers_from machine.now.before 1 machine.now.kernel.place.transfers) out.old out.new }
{
    for place in 0..machine.in_flight() {
        put_transfer_at(out, machine, place)?;
    }
    Ok(())
}
