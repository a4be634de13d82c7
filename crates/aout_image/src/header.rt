//! Judges a file by its first bytes, and writes the header of a new image. Of several reasons against a file the
//! first is told.
ghost use Rattle.std.specs.Prelude.{◌≡◌, ◌≤◌, ◌+◌, ℕ, List, length, min, take};
ghost use Rattle.aout_image.specs.Image.{IfImage, IsSound, file_length_of, header_of, judged_image, judged_of, judged_facts, judgement, kind_of, magic_of, word_at, facts_of};

use crate::{Image, Judged, Kind};
use byteorder::{ByteOrder, LittleEndian};

// The first reason against an image of a known kind whose file has `len` bytes.
#[tactic(auto, unfolding(crate::specs::Image::judged_facts))]
fn judge(image: Image, len: u64) -> Judged
    ensures { result ≡ judged_facts image len }
{
    if image.is_ragged() {
        Judged::NotImage(3)
    } else if image.is_too_large() {
        Judged::NotImage(4)
    } else if len < image.file_length() {
        Judged::NotImage(5)
    } else if image.starts_outside() {
        Judged::NotImage(6)
    } else {
        Judged::Is(image)
    }
}

fn kind_named(magic: u32) -> Option<Kind>
    ensures { result ≡ kind_of magic }
{
    match magic {
        0x107 => Some(Kind::Impure),
        0x108 => Some(Kind::Shared),
        0x10b => Some(Kind::Paged),
        _ => None,
    }
}

fn magic(kind: Kind) -> u32
    ensures { result ≡ magic_of kind }
{
    match kind {
        Kind::Impure => 0x107,
        Kind::Shared => 0x108,
        Kind::Paged => 0x10b,
    }
}

// The four bytes at a place of the header.
fn word(head: &[u8], at: usize) -> u32
    requires { at + 4 ≤ length head.now }
    ensures { result ≡ word_at head.now at }
{
    LittleEndian::read_u32(&head[at..])
}

#[tactic(auto, unfolding(crate::specs::Image::facts_of))]
fn facts(head: &[u8], kind: Kind) -> Image
    requires { 32 ≤ length head.now }
    ensures { result ≡ facts_of head.now kind }
{
    Image {
        kind,
        text_len: word(head, 4),
        data_len: word(head, 8),
        bss_len: word(head, 12),
        entry: word(head, 20),
    }
}

/// Judges a file of `len` bytes by its first bytes, `head`. Symbols and relocation are ignored.
pub fn read_image(head: &[u8], len: u64) -> Judged
    requires { length head.now ≡ min 32 len }
    ensures judged { result ≡ judgement head.now len }
    ensures of_the_file { (bytes : List ℕ) → take 32 bytes ≡ head.now → length bytes ≡ len
        → result ≡ judged_of (judged_image bytes) }
    ensures sound { IfImage result IsSound }
    ensures whole { IfImage result (λ image. file_length_of image ≤ len) }
{
    if len < 32 {
        return Judged::NotImage(1);
    }
    match kind_named(word(head, 0)) {
        None => Judged::NotImage(2),
        Some(kind) => judge(facts(head, kind), len),
    }
}

/// Writes the header of an image, with no symbols and no relocation.
pub fn write_image(image: &Image, out: &mut [u8; 32])
    ensures header { out.new ≡ header_of image.now }
    ensures reads_back { (len : ℕ) → IsSound image.now → file_length_of image.now ≤ len
        → judgement out.new len ≡ Judged.Is image.now }
{
    let words = [
        magic(image.kind),
        image.text_len,
        image.data_len,
        image.bss_len,
        0,
        image.entry,
        0,
        0,
    ];
    LittleEndian::write_u32_into(&words, out);
}
