//! The pages of a completed transfer land, one after another. Each frame comes back from its transfer here, and must
//! go to one place. The device was called before.
ghost use Rattle.std.specs.Prelude.{◌≡◌, ◌&&◌, ℕ, ◌<◌, ◌≤◌, ◌^◌, ◌∷◌, ◌++◌, [], List, length, map, false, Some, slice_set};
ghost use Rattle.vm_facts.specs.declared.page.Page.TheVariants.{Text as TextPage};
ghost use Rattle.text_table.specs.Texts.{IsTextTable};
ghost use Rattle.core_map.specs.Frames.{IsAway, HoldsNot};
ghost use Rattle.core_map.specs.declared.slot.Slot.TheVariants.{Free as FreeSlot};
ghost use Rattle.vax_pte.specs.declared.Place.TheVariants.{Frame as FramePlace};
ghost use Rattle.flat_state.specs.PageNames.{same_page};
ghost use Rattle.page_model.specs.Placement.{Reads, Writes};
ghost use Rattle.page_model.specs.Moves.{land_all, done};
ghost use Rattle.space_map.specs.Space.{Places};
ghost use Rattle.kernel_tables.specs.Shown.{entry_in, changed_named, placed};
ghost use Rattle.kernel_tables.specs.View.{source_shown, in_part, out_part, transfer_shown, placement_of};
ghost use Rattle.kernel_tables.specs.Known.{Known};
ghost use Rattle.kernel_tables.specs.Tied.{Tied};
ghost use Rattle.page_model.specs.Swapper.{is_settled};
ghost use Rattle.kernel_tables.specs.Machine.{lists_of};
ghost use Rattle.kernel_tables.specs.Done.{AreWholePages, IsWholeFlight};
ghost use Rattle.kernel_tables.specs.Steps.{source_by, arrives_dirty, dirty_shown, saved_texts};
ghost use Rattle.kernel_tables.specs.Moves.{LandedIn, LandedOut, LandedAll, closing_in, closing_out, ending};

use flat_state::is_same;
use frame_state::Free;
use kernel_tables::{Spaces, Tables};
use text_table::TextTable;
use transfer_ring::{Inbound, Outbound, Source, Transfer};
use vax_pte::Place;
use vm_facts::Page;

// Whether both are so.
fn both(one: bool, other: bool) -> bool
    ensures { result ≡ (one && other) }
{
    one && other
}

// Whether a read is from a file.
fn is_from_file(parts: &[Inbound]) -> bool
    ensures { source_by result ≡ source_shown parts.now }
{
    match parts {
        [] => false,
        [first, ..] => match first.source {
            Source::File { .. } => true,
            Source::Swap(_) => false,
        },
    }
}

// Whether the demanded page of a read is dirty.
fn arrives_dirty(texts: &TextTable, page: Page, from_file: bool) -> bool
    requires { (image v : ℕ) → page ≡ TextPage image v → (1 ≤ image) × (image ≤ 16) × (v < 2048) }
    ensures { result ≡ arrives_dirty texts.now page from_file }
{
    match page {
        Page::Text { image, v } => !texts.is_saved(image, v),
        _ => from_file,
    }
}

/// Whether a page must be written before its frame is given away, where its entry says whether it was changed.
pub fn is_dirty_as(texts: &TextTable, page: Page, changed: bool) -> bool
    requires { (image v : ℕ) → page ≡ TextPage image v → (1 ≤ image) × (image ≤ 16) × (v < 2048) }
    ensures { (spaces : List Places) → changed ≡ changed_named (entry_in spaces page) → result ≡ dirty_shown spaces texts.now page }
{
    match page {
        Page::Text { image, v } => !texts.is_saved(image, v),
        Page::Data { .. } | Page::Stack { .. } => changed,
    }
}

/// Whether a page must be written before its frame is given away.
pub fn is_dirty(spaces: &Spaces, texts: &TextTable, page: Page) -> bool
    requires { (image v : ℕ) → page ≡ TextPage image v → (1 ≤ image) × (image ≤ 16) × (v < 2048) }
    ensures { result ≡ dirty_shown spaces.now texts.now page }
{
    match page {
        Page::Text { image, v } => !texts.is_saved(image, v),
        Page::Data { .. } | Page::Stack { .. } => spaces.is_changed(page),
    }
}

// Text that was written is saved.
fn save_text(texts: &mut TextTable, page: Page)
    requires { (image v : ℕ) → page ≡ TextPage image v → (1 ≤ image) × (image ≤ 16) × (v < 2048) }
    ensures saved { texts.new ≡ saved_texts texts.old page }
    ensures table { (image v : ℕ) → page ≡ TextPage image v → IsTextTable texts.old }
{
    match page {
        Page::Text { image, v } => texts.set_saved(image, v, true),
        _ => {}
    }
}

/// Whether no transfer in flight names a page of this space, nor of its text where no other space shares that.
pub fn is_settled(tables: &Tables, sid: u32) -> bool
    requires { Tied (lists_of tables.now) }
    ensures { result ≡ is_settled (placement_of (lists_of tables.now)) sid }
{
    if tables.ring.names(sid) {
        return false;
    }
    match tables.spaces.image_of(sid) {
        None => true,
        Some(image) => {
            let named = tables.ring.names_text(image);
            !both(tables.texts.sharers(image) == 1, named)
        }
    }
}

/// A page's frame goes to the tail of the free list.
pub fn rest_page(tables: &mut Tables, token: Free, page: Page)
    requires away { IsAway tables.old.core token.number }
    requires not_held { HoldsNot tables.old.core page }
    requires small { token.number < 2 ^ 21 }
    ensures free { tables.new.core.free ≡ tables.old.core.free ++ token.number ∷ [] }
    ensures slots { tables.new.core.slots ≡ slice_set tables.old.core.slots token.number (FreeSlot token (Some page)) }
    ensures spaces { tables.new.spaces ≡ map (placed page (FramePlace token.number false false)) tables.old.spaces }
    ensures rest { tables.new ≡ record tables.old { core = tables.new.core; spaces = tables.new.spaces } }
{
    let place = Place::Frame {
        f: token.number(),
        valid: false,
        changed: false,
    };
    tables.core.give_tail(token, page);
    tables.spaces.set_places(page, place);
}

// A page that was read lands.
fn land_in(tables: &mut Tables, part: Inbound, demanded: Page, from_file: bool)
    requires away { IsAway tables.old.core part.token.number }
    requires not_held { HoldsNot tables.old.core part.page }
    requires small { part.token.number < 2 ^ 21 }
    requires texts { (image v : ℕ) → part.page ≡ TextPage image v → (1 ≤ image) × (image ≤ 16) × (v < 2048) }
    ensures landed { LandedIn (same_page part.page demanded) tables.old tables.new part.token part.page (arrives_dirty tables.old.texts part.page from_file) }
    ensures whole { length part.token.bytes ≡ 1024 }
{
    let Inbound {
        page,
        token,
        source: _,
    } = part;
    if is_same(page, demanded) {
        let dirty = arrives_dirty(&tables.texts, page, from_file);
        tables.seat(token.filled(), page, dirty);
    } else {
        rest_page(tables, token.filled().release(), page);
    }
}

// A page that was written lands.
fn land_out(tables: &mut Tables, part: Outbound)
    requires away { IsAway tables.old.core part.token.number }
    requires not_held { HoldsNot tables.old.core part.page }
    requires small { part.token.number < 2 ^ 21 }
    requires texts { (image v : ℕ) → part.page ≡ TextPage image v → (1 ≤ image) × (image ≤ 16) × (v < 2048) }
    ensures { LandedOut tables.old tables.new part.token part.page }
{
    let Outbound {
        page,
        token,
        block: _,
    } = part;
    save_text(&mut tables.texts, page);
    rest_page(tables, token.cleaned(), page);
}

// All pages of a read land, in turn.
fn land_reads(tables: &mut Tables, parts: &mut Vec<Inbound>, demanded: Page, from_file: bool)
    requires { Known (closing_in tables.old from_file demanded parts.old.items) }
    ensures place { placement_of (lists_of tables.new)
        ≡ land_all (record (placement_of (closing_in tables.old from_file demanded parts.old.items)) { transfers = map transfer_shown tables.old.ring })
        (Reads (source_by from_file) demanded) (map in_part parts.old.items) }
    ensures all { LandedAll tables.old tables.new (closing_in tables.old from_file demanded parts.old.items) }
    ensures whole { AreWholePages parts.old.items }
    ensures none { parts.new.items ≡ [] }
{
    if parts.is_empty() {
        return;
    }
    let part = parts.remove(0);
    land_in(tables, part, demanded, from_file);
    tables.core.stands();
    land_reads(tables, parts, demanded, from_file);
}

// All pages of a write land, in turn.
fn land_writes(tables: &mut Tables, parts: &mut Vec<Outbound>)
    requires { Known (closing_out tables.old parts.old.items) }
    ensures place { placement_of (lists_of tables.new)
        ≡ land_all (record (placement_of (closing_out tables.old parts.old.items)) { transfers = map transfer_shown tables.old.ring })
        Writes (map out_part parts.old.items) }
    ensures all { LandedAll tables.old tables.new (closing_out tables.old parts.old.items) }
    ensures none { parts.new.items ≡ [] }
{
    if parts.is_empty() {
        return;
    }
    let part = parts.remove(0);
    land_out(tables, part);
    tables.core.stands();
    land_writes(tables, parts);
}

/// The pages of a transfer that was completed land, in turn. What was read has a whole page for each.
pub fn land(tables: &mut Tables, transfer: Transfer)
    requires { Known (ending tables.old transfer) }
    ensures place { placement_of (lists_of tables.new) ≡ done (placement_of (ending tables.old transfer)) }
    ensures all { LandedAll tables.old tables.new (ending tables.old transfer) }
    ensures whole { IsWholeFlight transfer }
{
    match transfer {
        Transfer::Read {
            demanded,
            mut parts,
        } => {
            let from_file = is_from_file(&parts);
            land_reads(tables, &mut parts, demanded, from_file);
            parts.destroy_empty();
        }
        Transfer::Write { mut parts } => {
            land_writes(tables, &mut parts);
            parts.destroy_empty();
        }
    }
}
