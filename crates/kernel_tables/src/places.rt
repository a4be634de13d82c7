//! Where a page is, by all tables together: text that no space shares may still be in a frame. Nothing is moved here.
ghost use Rattle.std.specs.Prelude.{◌≡◌, ◌<◌, false, map};
ghost use Rattle.vm_facts.specs.declared.page.Page.TheVariants.{Text as TextPage};
ghost use Rattle.kernel_tables.specs.New.{AreSound};
ghost use Rattle.kernel_tables.specs.Shown.{entry_in};
ghost use Rattle.kernel_tables.specs.View.{pages_in, text_place};
ghost use Rattle.kernel_tables.specs.Machine.{lists_of};
ghost use Rattle.kernel_tables.specs.PlaceOf.{place_of, is_zero_place, names_zeros};

use crate::named::Named;
use crate::tables::Tables;
use vax_pte::Place;
use vm_facts::Page;

// Whether a place says that its page has zeros.
fn is_zero_place(place: Option<Place>) -> bool
    ensures { result ≡ is_zero_place place }
{
    matches!(place, Some(Place::Zero))
}

// How many pages the text of an image has; none where there is no such image.
fn text_pages_in(images: &[Named], image: u32) -> u32
    requires { AreSound (map (λ image. image.facts) images.now) }
    ensures { result ≡ pages_in 1 image (map (λ image. image.facts) images.now) }
{
    if image == 0 {
        return 0;
    }
    match images.get(image as usize - 1) {
        Some(named) => named.facts.text_pages(),
        None => 0,
    }
}

impl Tables {
    /// Where a page of text is: as the first space that shares it has it, or in a frame that still holds it.
    pub fn text_place(&self, image: u32, v: u32) -> Place
        ensures { result ≡ text_place self.now.spaces self.now.core.slots (TextPage image v) v }
    {
        if let Some(place) = self.spaces.entry(Page::Text { image, v }) {
            return place;
        }
        match self.core.find_text(image, v) {
            Some(f) => Place::Frame {
                f,
                valid: false,
                changed: false,
            },
            None => Place::Image(v),
        }
    }

    /// Where a page is; None where no live space and no image has it.
    pub fn place_of(&self, page: Page) -> Option<Place>
        requires { AreSound (lists_of self.now).facts }
        ensures { result ≡ place_of (lists_of self.now) page }
    {
        match page {
            Page::Text { image, v } => {
                if v < text_pages_in(self.images.as_slice(), image) {
                    Some(self.text_place(image, v))
                } else {
                    None
                }
            }
            Page::Data { .. } | Page::Stack { .. } => self.spaces.entry(page),
        }
    }

    /// Whether the entry of a data or stack page says that it has zeros.
    pub fn is_zero(&self, page: Page) -> bool
        ensures { result ≡ names_zeros page (entry_in self.now.spaces page) }
    {
        match page {
            Page::Text { .. } => false,
            Page::Data { .. } | Page::Stack { .. } => is_zero_place(self.spaces.entry(page)),
        }
    }
}
