//! A few pages in order, kept with no memory taken. An instruction touches fewer than there is room for.
ghost use Rattle.std.specs.Prelude.{◌≡◌, ◌<◌, ◌≤◌, ◌==◌, List, [], ◌∷◌, ◌++◌, length, take};
ghost use Rattle.vm_facts.specs.declared.page.Page.{Page as PageName};

use std::marker::Model;
use vm_facts::Page;

/// At most 32 pages, in order.
#[derive(Drop)]
pub struct Touched {
    pages: [Page; 32],
    count: usize,
}

impl Model for Touched {
    ghost Value = { List PageName };

    ghost view = { λ touched. take touched.count touched.pages };

    ghost invariant = { λ touched. touched.count ≤ 32 };
}

impl Touched {
    /// No pages.
    pub fn none() -> Touched
        ensures { result ≡ [] }
    {
        Touched {
            pages: [Page::Text { image: 0, v: 0 }; 32],
            count: 0,
        }
    }

    /// The pages.
    pub fn as_slice(&self) -> &[Page]
        ensures value { result.now ≡ self.now }
        ensures few { length self.now ≤ 32 }
    {
        &self.pages[..self.count]
    }

    /// Whether there are 32.
    pub fn is_full(&self) -> bool
        ensures { result ≡ (length self.now == 32) }
    {
        self.as_slice().len() == 32
    }

    /// One more page, after the others.
    pub fn push(&mut self, page: Page)
        requires { length self.old < 32 }
        ensures { self.new ≡ self.old ++ page ∷ [] }
    {
        self.pages[self.count] = page;
        self.count += 1;
    }
}
