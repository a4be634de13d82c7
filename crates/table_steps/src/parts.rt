//! A part of a move of the hands, alone: a page is made invalid, a write begins, or a clean frame is freed. The hands
//! must stay where they are.
ghost use Rattle.std.specs.Prelude.{◌≡◌, OnOk, OnErr};
ghost use Rattle.kernel_model.specs.HandParts.{ExpireComes, PartComes, expire_page, part_place};
ghost use Rattle.kernel_tables.specs.Known.{Known};
ghost use Rattle.kernel_tables.specs.Launches.{HasBlocks, MovedOn};
ghost use Rattle.kernel_tables.specs.Machine.{lists_of};
ghost use Rattle.kernel_tables.specs.View.{placement_of};

use crate::launching;
use flat_state::number_of;
use kernel_model::HandPart;
use kernel_tables::Tables;
use std::alloc::Global;
use vax_pte::Place;
use vm_facts::{NoMemory, Page};

// A valid page is invalid in its frame.
fn expire_page(tables: &mut Tables, page: Page)
    requires known { Known (lists_of tables.old) }
    requires can { ExpireComes (placement_of (lists_of tables.old)) page }
    ensures { MovedOn tables.old tables.new (expire_page (placement_of (lists_of tables.old)) page) }
{
    let (frame, changed) = tables.spaces.frame_of(page);
    let place = Place::Frame {
        f: frame,
        valid: false,
        changed,
    };
    tables.spaces.set_places(page, place);
}

/// A part of a move: a page is made invalid, the write of a run begins, or the frame of a clean page goes to the tail of the free list. Only a
/// write takes memory.
pub fn make_part(tables: &mut Tables, alloc: Global, part: HandPart) -> Result<(), NoMemory>
    requires known { Known (lists_of tables.old) }
    requires can { PartComes (placement_of (lists_of tables.old)) part }
    requires blocks { HasBlocks (placement_of (lists_of tables.old)) tables.old.book.holdings }
    ensures moved { OnOk result (MovedOn tables.old tables.new (part_place (placement_of (lists_of tables.old)) part)) }
    ensures same { OnErr result (tables.new ≡ tables.old) }
{
    match part {
        HandPart::Expires { page } => expire_page(tables, page),
        HandPart::Writes { lo, n } => {
            let parts = launching::room_in(alloc, n)?;
            launching::put_out(tables, parts, lo, number_of(lo), n);
        }
        HandPart::Frees { page } => launching::put_out(tables, Vec::new(alloc), page, 0, 0),
    }
    Ok(())
}
