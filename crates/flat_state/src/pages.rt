//! Pages by their names: their numbers, their neighbours, and whether two are one. Where a page is isn't known here.
ghost use Rattle.std.specs.Prelude.{◌≡◌};
ghost use Rattle.flat_state.specs.PageNames.{number_of, beside, same_page, is_among};

use vm_facts::Page;

/// The number of a page in its segment.
pub fn number_of(page: Page) -> u32
    ensures { result ≡ number_of page }
{
    match page {
        Page::Data { v, .. } | Page::Stack { v, .. } | Page::Text { v, .. } => v,
    }
}

/// Another page of the same segment.
pub fn beside(page: Page, v: u32) -> Page
    ensures { result ≡ beside page v }
{
    match page {
        Page::Data { sid, .. } => Page::Data { sid, v },
        Page::Stack { sid, .. } => Page::Stack { sid, v },
        Page::Text { image, .. } => Page::Text { image, v },
    }
}

/// Whether the two are one page.
pub fn is_same(page: Page, other: Page) -> bool
    ensures { result ≡ same_page page other }
{
    page == other
}

/// Whether a page is one of these.
pub fn is_among(page: Page, pages: &[Page]) -> bool
    ensures { result ≡ is_among page pages.now }
{
    for other in pages {
        if is_same(page, *other) {
            return true;
        }
    }
    false
}
