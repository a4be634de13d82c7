//! U pages: the registers of a process that is out, and the sizes of its space, as the bytes of one page. What is
//! packed must be read back the same; no table is touched.
ghost use Rattle.std.specs.Prelude.{◌≡◌, ◌^◌, ◌<◌, ◌≤◌, ◌+◌, ◌*◌, ◌++◌, ℕ, length, take, drop, get_or, flat_map};
ghost use Rattle.byteorder.specs.Endian.{little_number, IsRead};
ghost use Rattle.aout_image.specs.Image.{word_bytes};
ghost use Rattle.kernel_model.specs.UPage.{u_page, regs_in, bit_of, codes_of, has_bit, longwords, AllLongwords, AreRegs};

use byteorder::{ByteOrder, LittleEndian};
use vm_facts::Regs;

// A code, as a number of this weight.
fn bit(code: bool, weight: u32) -> u32
    ensures { result ≡ bit_of code weight }
{
    if code { weight } else { 0 }
}

// The codes as one number.
fn codes(regs: &Regs) -> u32
    ensures { result ≡ codes_of regs.now }
{
    bit(regs.n, 8) + bit(regs.z, 4) + bit(regs.v, 2) + bit(regs.c, 1)
}

// Whether a number has the bit of this weight.
fn has_bit(codes: u32, weight: u32) -> bool
    requires { 0 < weight }
    ensures { result ≡ has_bit codes weight }
{
    codes / weight % 2 == 1
}

// Longwords, one after another, in a page from a place on.
fn put_words(page: &mut [u8], at: usize, words: &[u32])
    requires { at + 4 * length words.now ≤ length page.old }
    ensures { page.new ≡ take at page.old ++ flat_map word_bytes words.now ++ drop (at + 4 * length words.now) page.old }
{
    LittleEndian::write_u32_into(words, &mut page[at..at + 4 * words.len()]);
}

// Each is a longword.
fn are_longwords(words: &[u32])
    ensures { AllLongwords words.now }
{}

// Sixteen registers, each a longword.
fn are_registers(r: &[u32; 16])
    ensures count { length r.now ≡ 16 }
    ensures each { AllLongwords r.now }
{
    are_longwords(r);
}

/// What is so of all registers: they are sixteen longwords.
pub fn are_regs(regs: &Regs)
    ensures { AreRegs regs.now }
{
    are_registers(&regs.r);
}

/// The u page of a process with these registers, whose space has so many pages of data and of stack.
pub fn u_page(regs: &Regs, data_pages: u32, stack_pages: u32) -> [u8; 1024]
    ensures page { result ≡ u_page regs.now data_pages stack_pages }
    ensures regs { AreRegs regs.now }
{
    are_registers(&regs.r);
    let mut page = [0u8; 1024];
    put_words(&mut page, 0, &regs.r);
    put_words(&mut page, 64, &[codes(regs), data_pages, stack_pages]);
    page
}

// Longwords, one after another, from the front of some bytes.
fn read_words(bytes: &[u8], words: &mut [u32])
    requires { 4 * length words.old ≤ length bytes.now }
    ensures read { IsRead (λ n xs. little_number n xs) 4 (take (4 * length words.new) bytes.now) words.new }
    ensures count { length words.new ≡ length words.old }
{
    LittleEndian::read_u32_into(&bytes[..4 * words.len()], words);
}

// The longword at a place in some bytes.
fn word_at(bytes: &[u8], at: usize) -> u32
    requires { at + 4 ≤ length bytes.now }
    ensures { result ≡ little_number 4 (drop at bytes.now) }
{
    LittleEndian::read_u32(&bytes[at..])
}

// The first longwords of a page.
fn words_in(page: &[u8; 1024]) -> [u32; 16]
    ensures { result ≡ longwords 16 page.now }
{
    let mut words = [0u32; 16];
    read_words(page, &mut words);
    words
}

// The longword after the registers of a u page.
fn codes_in(page: &[u8; 1024]) -> u32
    ensures { result ≡ get_or (longwords 17 page.now) 16 0 }
{
    word_at(page, 64)
}

/// The registers that a u page holds.
pub fn regs_in(page: &[u8; 1024]) -> Regs
    ensures { result ≡ regs_in page.now }
{
    let codes = codes_in(page);
    Regs {
        r: words_in(page),
        n: has_bit(codes, 8),
        z: has_bit(codes, 4),
        v: has_bit(codes, 2),
        c: has_bit(codes, 1),
    }
}
