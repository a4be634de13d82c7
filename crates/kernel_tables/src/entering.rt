//! A new space comes, in which an image starts. Its text is where a sharer or a frame has it already. Its number is
//! the next one, and it must stand last.
ghost use Rattle.std.specs.Prelude.{◌≡◌, ◌+◌, ◌^◌, ℕ, ◌≤◌, length, Some, IfOk, OnOk, OnErr};
ghost use Rattle.aout_image.specs.declared.Image.{Image as Facts};
ghost use Rattle.flat_state.specs.Numbers.{AllBelow};
ghost use Rattle.page_model.specs.Dues.{DueStand};
ghost use Rattle.page_model.specs.Place.{facts_numbered};
ghost use Rattle.kernel_tables.specs.Rising.{sids_of};
ghost use Rattle.kernel_tables.specs.Alike.{facts_in};
ghost use Rattle.kernel_tables.specs.View.{placement_of};
ghost use Rattle.kernel_tables.specs.Machine.{lists_of};
ghost use Rattle.kernel_tables.specs.Known.{Known};
ghost use Rattle.kernel_tables.specs.Added.{with_text_places, AddedSpace};
ghost use Rattle.kernel_tables.specs.Changing.{EnteredImage};

use crate::fill::DueFill;
use crate::tables::Tables;
use space_map::SpaceMap;
use std::alloc::Global;
use vm_facts::{Bytes, NoMemory, Page};

/// The number after this one; want of memory where there is none.
pub(crate) fn next(number: u32) -> Result<u32, NoMemory>
    ensures next { IfOk result (λ next. next ≡ number + 1) }
    ensures none { OnErr result (number + 1 ≡ 2 ^ 32) }
{
    match number.checked_add(1) {
        Some(next) => Ok(next),
        None => Err(NoMemory),
    }
}

impl Tables {
    // The pages of a new space's text are where they are known to be.
    fn place_text(&self, space: &mut SpaceMap)
        requires known { Known (lists_of self.now) }
        requires facts { facts_in 1 space.old.image (lists_of self.now).facts ≡ Some space.old.facts }
        ensures { space.new ≡ with_text_places (lists_of self.now) space.old }
    {
        self.core.stands();
        let image = space.image();
        for v in 0..space.text_pages() {
            space.set_place(Page::Text { image, v }, self.text_place(image, v));
        }
    }

    /// A new space, of the next number and of an image of the run, comes to share its image's text, and stands last among
    /// all.
    pub fn add_space(&mut self, mut space: SpaceMap) -> Result<(), NoMemory>
        requires known { Known (lists_of self.old) }
        requires below { AllBelow self.old.next_sid (sids_of self.old.spaces) }
        requires number { space.sid ≡ self.old.next_sid }
        requires facts { facts_in 1 space.image (lists_of self.old).facts ≡ Some space.facts }
        ensures added { OnOk result (AddedSpace self.old self.new space) }
        ensures params { self.new.params ≡ self.old.params }
        ensures images { self.new.images ≡ self.old.images }
    {
        self.place_text(&mut space);
        let image = space.image();
        let number = next(self.next_sid)?;
        self.spaces.push(space)?;
        self.texts.enter(image);
        self.next_sid = number;
        Ok(())
    }

    /// Makes a space, of the next number, in which an image starts. Its stack page 0 is due with these bytes, after what
    /// is due before. Answers its number.
    pub fn enter_image(&mut self, alloc: Global, image: u32, top: Bytes) -> Result<u32, NoMemory>
        requires known { Known (lists_of self.old) }
        requires below { AllBelow self.old.next_sid (sids_of self.old.spaces) }
        requires due { DueStand (placement_of (lists_of self.old)) }
        requires above { 1 ≤ image }
        requires within { image ≤ length self.old.images.items }
        requires whole { length top ≡ 1024 }
        ensures number { IfOk result (λ sid. sid ≡ self.old.next_sid) }
        ensures entered { OnOk result
            ((facts : Facts) → facts_numbered (lists_of self.old).facts image ≡ Some facts → EnteredImage self.old self.new image facts top) }
        ensures params { self.new.params ≡ self.old.params }
        ensures images { self.new.images ≡ self.old.images }
    {
        let sid = self.next_sid;
        let facts = self.images[image as usize - 1].facts;
        let space = SpaceMap::new(alloc, sid, image, facts, facts.data_pages(), 1)?;
        self.fills.reserve(1)?;
        self.add_space(space)?;
        self.fills.push_back_reserved(DueFill::Start {
            page: Page::Stack { sid, v: 0 },
            bytes: top,
        });
        Ok(sid)
    }
}
