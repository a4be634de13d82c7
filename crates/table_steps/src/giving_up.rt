//! A space goes, and with the last sharer its text. The space must have settled. Text that nobody shares rests in
//! free frames, where it may be found again.
ghost use Rattle.std.specs.Prelude.{◌≡◌, ◌<◌, ◌≤◌};
ghost use Rattle.vm_facts.specs.declared.page.Page.TheVariants.{Text as TextPage};
ghost use Rattle.text_table.specs.Texts.{text_numbered};
ghost use Rattle.page_model.specs.Conditions.{IsSettled, CanForget};
ghost use Rattle.page_model.specs.Place.{pages_of_space};
ghost use Rattle.kernel_model.specs.Asks.{HasSpace};
ghost use Rattle.kernel_tables.specs.Rising.{sids_of, StandsAt};
ghost use Rattle.kernel_tables.specs.View.{placement_of};
ghost use Rattle.kernel_tables.specs.Machine.{lists_of};
ghost use Rattle.kernel_tables.specs.Known.{Known};
ghost use Rattle.kernel_tables.specs.Gone.{left_page, left_pages, LeftText};
ghost use Rattle.kernel_tables.specs.Changing.{Dropped, GaveUp};

use crate::dropping;
use core_map::{CoreMap, Whose};
use kernel_tables::Tables;
use swap_book::Owner;
use vm_facts::Page;

// A page of text that nobody shares rests on the free list, if a frame has it.
fn leave_page(core: &mut CoreMap, image: u32, v: u32)
    ensures { core.new ≡ left_page core.old (TextPage image v) }
{
    let Some(frame) = core.find_text(image, v) else {
        return;
    };
    if let Whose::Resident(page) = core.owner(frame) {
        let token = core.lift(frame).release();
        core.give_tail(token, page);
    }
}

// The pages of a text that nobody shares rest.
fn leave_pages(core: &mut CoreMap, image: u32, pages: u32)
    ensures { core.new ≡ left_pages core.old image pages }
{
    for v in 0..pages {
        leave_page(core, image, v);
    }
}

// The pages of a space that is settled are forgotten.
fn drop_space(tables: &mut Tables, sid: u32, index: usize)
    requires known { Known (lists_of tables.old) }
    requires stands { StandsAt tables.old.spaces sid index }
    requires settled { IsSettled (placement_of (lists_of tables.old)) sid }
    ensures dropped { Dropped tables.old tables.new (pages_of_space (placement_of (lists_of tables.old)) sid) }
    ensures numbers { sids_of tables.new.spaces ≡ sids_of tables.old.spaces }
{
    let (data, stack) = tables.spaces.sizes_at(index);
    dropping::drop_pages(tables, Page::Data { sid, v: 0 }, 0, data);
    dropping::drop_pages(tables, Page::Stack { sid, v: 0 }, 0, stack);
}

// A space has left its image: with the last one the text's pages rest, and its pieces are given back.
fn leave_text(tables: &mut Tables, image: u32, pages: u32)
    requires from_one { 1 ≤ image }
    requires to_last { image ≤ 16 }
    requires shared { 0 < (text_numbered tables.old.texts image).sharers }
    ensures { LeftText tables.old tables.new image pages }
{
    tables.texts.leave(image);
    if tables.spaces.text_pages(image).is_some() {
        return;
    }
    leave_pages(&mut tables.core, image, pages);
    tables.book.drop_owner(Owner::Text(image));
}

/// Gives up a space that is settled: its pages and its pieces, and with the last space that shares it its image's
/// text.
pub fn give_up(tables: &mut Tables, sid: u32)
    requires known { Known (lists_of tables.old) }
    requires there { HasSpace (placement_of (lists_of tables.old)) sid }
    requires settled { IsSettled (placement_of (lists_of tables.old)) sid }
    requires forgets { CanForget (placement_of (lists_of tables.old)) sid }
    ensures { GaveUp tables.old tables.new sid }
{
    let Some(index) = tables.spaces.index_of(sid) else {
        unreachable!()
    };
    drop_space(tables, sid, index);
    let (image, pages) = tables.spaces.remove_at(index);
    tables.book.drop_owner(Owner::Data(sid));
    tables.book.drop_owner(Owner::Stack(sid));
    leave_text(tables, image, pages);
    tables.core.stands();
}
