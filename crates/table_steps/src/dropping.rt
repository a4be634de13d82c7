//! Pages of data and stack that a space loses; their frames go to the head of the free list. A page in a transfer may
//! not be dropped.
ghost use Rattle.std.specs.Prelude.{◌≡◌, ◌≢◌, ◌-◌, ◌≤◌, [], ◌∷◌, None, OnOk, slice_set};
ghost use Rattle.vm_facts.specs.Lists.{without};
ghost use Rattle.core_map.specs.Slots.{slot_at, token_of};
ghost use Rattle.core_map.specs.declared.slot.Slot.TheVariants.{Free as FreeSlot, Away as AwaySlot};
ghost use Rattle.page_model.specs.Placement.{state_of, IsThere};
ghost use Rattle.page_model.specs.PageBytes.{IsWritable};
ghost use Rattle.page_model.specs.Conditions.{EachPage, AtRest, LosesPages, IsSettled};
ghost use Rattle.flat_state.specs.PageNames.{pages_from};
ghost use Rattle.kernel_model.specs.Asks.{HasSpace};
ghost use Rattle.kernel_tables.specs.View.{placement_of};
ghost use Rattle.kernel_tables.specs.Machine.{lists_of};
ghost use Rattle.kernel_tables.specs.Known.{Known};
ghost use Rattle.table_steps.specs.Forgotten.{ForgotPage};
ghost use Rattle.kernel_tables.specs.Changing.{Dropped, Resized};

use core_map::{CoreMap, Whose};
use flat_state::beside;
use kernel_tables::Tables;
use swap_book::Owner;
use vax_pte::Place;
use vm_facts::{NoMemory, Page};

// A frame loses its page, and goes to the head of the free list.
fn drop_frame(core: &mut CoreMap, frame: u32)
    requires { slot_at core.old.slots frame ≢ AwaySlot }
    ensures free { core.new.free ≡ frame ∷ without frame core.old.free }
    ensures slots { core.new.slots ≡ slice_set core.old.slots frame (FreeSlot (token_of (slot_at core.old.slots frame)) None) }
{
    match core.owner(frame) {
        Whose::Free(_) => core.forget(frame),
        Whose::Resident(_) => {
            let token = core.lift(frame).release();
            core.give_head(token);
        }
        Whose::Away => unreachable!(),
    }
}

// A page that is in a frame is forgotten.
fn forget(tables: &mut Tables, page: Page, frame: u32)
    requires { slot_at tables.old.core.slots frame ≢ AwaySlot }
    ensures { ForgotPage tables.old tables.new page frame }
{
    drop_frame(&mut tables.core, frame);
    tables.core.stands();
    tables.spaces.set_places(page, Place::Zero);
}

/// A page of data or stack that is in no transfer is forgotten. One that wasn't filled yet stays as it is.
pub fn drop_page(tables: &mut Tables, page: Page)
    requires known { Known (lists_of tables.old) }
    requires writable { IsWritable page }
    requires there { IsThere (placement_of (lists_of tables.old)) page }
    requires rests { AtRest (state_of (placement_of (lists_of tables.old)) page) }
    ensures { Dropped tables.old tables.new (page ∷ []) }
{
    match tables.spaces.entry(page) {
        Some(Place::Frame { f, .. }) => forget(tables, page, f),
        Some(Place::Swap) => tables.spaces.set_places(page, Place::Zero),
        Some(Place::Zero) => {}
        Some(Place::Image(_)) => {}
        None => {}
    }
}

/// The pages of a segment from one on, up to another, are forgotten. Those that weren't filled yet are passed over.
pub fn drop_pages(tables: &mut Tables, page: Page, from: u32, to: u32)
    requires known { Known (lists_of tables.old) }
    requires writable { IsWritable page }
    requires there { EachPage (IsThere (placement_of (lists_of tables.old))) (pages_from page from (to - from)) }
    requires rest { EachPage (λ q. AtRest (state_of (placement_of (lists_of tables.old)) q)) (pages_from page from (to - from)) }
    ensures { Dropped tables.old tables.new (pages_from page from (to - from)) }
{
    let Some(index) = tables.spaces.home_of(page) else {
        return;
    };
    let mut v = from;
    while let Some(filled) = tables.spaces.next_filled_at(index, page, v, to) {
        drop_page(tables, beside(page, filled));
        v = filled + 1;
    }
}

/// Cuts or lengthens a space. Its pages that go are forgotten, and the pieces that it no longer needs are given
/// back. Without memory the pages of a space that grows are as before.
pub fn resize(
    tables: &mut Tables,
    sid: u32,
    data_pages: u32,
    stack_pages: u32,
) -> Result<(), NoMemory>
    requires known { Known (lists_of tables.old) }
    requires there { HasSpace (placement_of (lists_of tables.old)) sid }
    requires settled { LosesPages (placement_of (lists_of tables.old)) sid data_pages stack_pages → IsSettled (placement_of (lists_of tables.old)) sid }
    requires data_fits { data_pages ≤ 4096 }
    requires stack_fits { stack_pages ≤ 512 }
    ensures resized { OnOk result (Resized tables.old tables.new sid data_pages stack_pages) }
    ensures params { tables.new.params ≡ tables.old.params }
    ensures images { tables.new.images ≡ tables.old.images }
{
    let Some(index) = tables.spaces.index_of(sid) else {
        unreachable!()
    };
    let (data, stack) = tables.spaces.sizes_at(index);
    drop_pages(tables, Page::Data { sid, v: 0 }, data_pages, data);
    drop_pages(tables, Page::Stack { sid, v: 0 }, stack_pages, stack);
    tables.spaces.resize_at(index, data_pages, stack_pages)?;
    tables.book.shrink(Owner::Data(sid), 2 * data_pages);
    tables.book.shrink(Owner::Stack(sid), 2 * stack_pages);
    Ok(())
}
