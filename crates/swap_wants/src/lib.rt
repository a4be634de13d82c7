//! Pieces of swap space that are found for what owners want: all of them, or none.
//!
//! - Want: the blocks that an owner is to hold in all; `image_wants` has those of the space in which an image starts.
//! - `find_all` finds the pieces of several wants, one after another, in a swap book, and keeps them or gives them back.
#![tactic(auto)]

ghost use Rattle.std.specs.Prelude.{◌≡◌, ◌<◌, ◌*◌, ◌∷◌, [], length, IfOk, OnOk, OnErr};
ghost use Rattle.aout_image.specs.Image.{IsSound, text_pages_of, image_data_pages};
ghost use Rattle.swap_book.specs.declared.Owner.TheVariants.{Text as TextOf, Data as DataOf, Stack as StackOf};
ghost use Rattle.swap_dmap.specs.Chunks.{pieces, chunk_start};
ghost use Rattle.swap_book.specs.Owners.{same_owner as is_same_owner};
ghost use Rattle.swap_book.specs.Holdings.{of_owner, kept};
ghost use Rattle.swap_book.specs.Book.{with_holdings};
ghost use Rattle.swap_wants.specs.GivingBack.{MayGiveBack};
ghost use Rattle.swap_wants.specs.Wants.{CanAsk, fits_for, book_asked, is_kept};

use aout_image::Image;
use swap_book::{Grown, Held, Owner, SwapBook};
use swap_dmap::{chunk, chunks_for};
use vm_facts::NoMemory;

/// The blocks that an owner is to hold in all.
#[derive(Clone, Copy, Debug, PartialEq, Eq, Drop)]
pub struct Want {
    pub owner: Owner,
    pub blocks: u32,
}

/// What the space with this number wants, in which an image starts: the image's text, where no other space shares it, the
/// data, and one page of stack.
pub fn image_wants(facts: &Image, image: u32, sid: u32) -> [Want; 3]
    requires { IsSound facts.now }
    ensures { result ≡ record { owner = TextOf image; blocks = 2 * text_pages_of facts.now }
        ∷ record { owner = DataOf sid; blocks = 2 * image_data_pages facts.now }
        ∷ record { owner = StackOf sid; blocks = 2 } ∷ [] }
{
    [
        Want {
            owner: Owner::Text(image),
            blocks: 2 * facts.text_pages(),
        },
        Want {
            owner: Owner::Data(sid),
            blocks: 2 * facts.data_pages(),
        },
        Want {
            owner: Owner::Stack(sid),
            blocks: 2,
        },
    ]
}

// Whether the two are one owner.
fn same_owner(a: Owner, b: Owner) -> bool
    ensures { result ≡ is_same_owner a b }
{
    a == b
}

// How many pieces an owner holds.
fn pieces_held(holdings: &[Held], owner: Owner) -> usize
    ensures { result ≡ length (of_owner owner holdings.now) }
{
    holdings
        .iter()
        .filter(|held| same_owner(held.owner, owner))
        .count()
}

// How many blocks the first chunks of data or stack have, which are fewer chunks than so many blocks want.
fn blocks_in(chunks: u32, blocks: u32) -> u32
    requires { chunks < length (pieces blocks) }
    ensures { result ≡ chunk_start chunks }
{
    if chunks == 0 {
        return 0;
    }
    blocks_in(chunks - 1, blocks) + chunk(chunks - 1)
}

// An owner keeps its first pieces.
fn give_back(book: &mut SwapBook, want: Want, keep: usize)
    requires { MayGiveBack want.owner want.blocks keep book.old.holdings }
    ensures { book.new ≡ with_holdings book.old (kept want.owner keep book.old.holdings) }
{
    match want.owner {
        Owner::Data(_) | Owner::Stack(_) => {
            if keep < chunks_for(want.blocks) as usize {
                book.shrink(want.owner, blocks_in(keep as u32, want.blocks));
            }
        }
        Owner::U(_) | Owner::Text(_) => {
            if keep == 0 {
                book.drop_owner(want.owner);
            }
        }
    }
}

// Whether what was found is kept.
fn is_kept(keeps: bool, found: &Result<bool, NoMemory>) -> bool
    ensures { result ≡ is_kept keeps found.now }
{
    keeps && matches!(found, Ok(true))
}

/// Finds the pieces with which each owner holds its blocks, and keeps them, or gives them back. False comes exactly
/// where they find no place; then and without memory the holdings are as before.
pub fn find_all(book: &mut SwapBook, wants: &[Want], keeps: bool) -> Result<bool, NoMemory>
    requires { CanAsk book.old.holdings wants.now }
    ensures answer { IfOk result (λ fits. fits ≡ fits_for book.old.size book.old.holdings wants.now) }
    ensures book { OnOk result (book.new ≡ book_asked keeps book.old wants.now) }
    ensures err { OnErr result (book.new ≡ book.old) }
{
    let [first, rest @ ..] = wants else {
        return Ok(true);
    };
    let held = pieces_held(book.holdings(), first.owner);
    if let Grown::NoFit(_) = book.grow(first.owner, first.blocks)? {
        return Ok(false);
    }
    let found = find_all(book, rest, keeps);
    if is_kept(keeps, &found) {
        return found;
    }
    give_back(book, *first, held);
    found
}
