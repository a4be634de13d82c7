//! Images: headers made word by word, as the book has them, and what the files give to the pages.
ghost use Rattle.aout_image.specs.Image.{IsSound};

use crate::checks::is;
use aout_image::{Image, Judged, Kind, read_image, write_image};
use byteorder::{ByteOrder, LittleEndian};
use std::process::Abort;

const IMPURE: u32 = 0o407;

const SHARED: u32 = 0o410;

const PAGED: u32 = 0o413;

// The header of these sizes, made word by word.
fn header(magic: u32, text: u32, data: u32, bss: u32, entry: u32) -> [u8; 32] {
    let mut head = [0; 32];
    LittleEndian::write_u32_into(&[magic, text, data, bss, 0, entry, 0, 0], &mut head);
    head
}

const FULL: u32 = u32::MAX;

// The magic number, the lengths of text, data and bss, the entry, the length of the file, and why it is no image.
static REFUSED: [(u32, u32, u32, u32, u32, u64, u8); 11] = [
    (0o411, 1000, 0, 0, 0, 32, 2),
    (PAGED, 1000, 0, 0, 0, 4096, 3),
    (SHARED, 2_097_153, 0, 0, 0, 32, 4),
    (PAGED, 0, 0, 4_194_305, 0, 32, 4),
    (PAGED, 1024, 0, 0, 0, 2047, 5),
    (IMPURE, 64, 0, 0, 0, 95, 5),
    (SHARED, 64, 0, 0, 0, 95, 5),
    (PAGED, 0, 1024, 0, 1022, 2048, 6),
    (IMPURE, 64, 0, 0, 62, 96, 6),
    // Sums of more than 32 bits.
    (IMPURE, FULL, 1, FULL, 0, 32, 4),
    (SHARED, 64, 0, 0, FULL, 96, 6),
];

#[test]
fn a_file_is_refused_for_its_first_reason(rt: HostRuntime) {
    for row in REFUSED.iter() {
        let (magic, text, data, bss, entry, len, reason) = *row;

        // No file here is shorter than its header.
        let judged = read_image(&header(magic, text, data, bss, entry), u64::max(len, 32));
        let sizes = [magic, text, data, bss, entry];
        is(
            &rt,
            &(sizes, len, judged),
            &(sizes, len, Judged::NotImage(reason)),
        );
    }
    let impure = Image {
        kind: Kind::Impure,
        text_len: 64,
        data_len: 0,
        bss_len: 0,
        entry: 61,
    };
    let found = [
        read_image(&[0; 31], 31),
        read_image(&header(IMPURE, 64, 0, 0, 61), 96),
    ];
    is(&rt, &found, &[Judged::NotImage(1), Judged::Is(impure)]);
}

#[test]
fn a_written_header_is_read_back(rt: HostRuntime) {
    let image = Image {
        kind: Kind::Shared,
        text_len: 1500,
        data_len: 600,
        bss_len: 4000,
        entry: 0x102,
    };
    let mut head = [0xff; 32];
    write_image(&image, &mut head);
    let read = read_image(&head, 32 + 1500 + 600);
    is(
        &rt,
        &(image.file_length(), head, read),
        &(
            32 + 1500 + 600,
            header(SHARED, 1500, 600, 4000, 0x102),
            Judged::Is(image),
        ),
    );
}

// The sizes of a header: its magic number, and the lengths of text, data and bss.
type Sizes = (u32, u32, u32, u32);

// The image of a file of this length whose header has these sizes.
fn image_of(rt: &impl Abort, sizes: Sizes, len: u64) -> Image
    ensures { IsSound result }
{
    let (magic, text, data, bss) = sizes;
    match read_image(&header(magic, text, data, bss, 0), u64::max(len, 32)) {
        Judged::Is(image) => image,
        Judged::NotImage(reason) => panic!(rt; "no image: {reason}"),
    }
}

// What the file gives to a page of text, or of data: from where on, and how many bytes.
fn span_of(image: &Image, of_text: bool, v: u32) -> Option<(u64, u32)>
    requires { IsSound image.now }
{
    match of_text {
        true if v < image.text_pages() => Some(image.file_span(true, v)),
        false if v < image.data_pages() => Some(image.file_span(false, v)),
        _ => None,
    }
}

const DATA_ALONE: Sizes = (PAGED, 0, 1024, 0);

const SHARED_TEXT: Sizes = (SHARED, 1500, 600, 4000);

const IMPURE_TEXT: Sizes = (IMPURE, 1500, 600, 4000);

const PAGED_TEXT: Sizes = (PAGED, 2048, 1024, 0);

// The sizes of a header, the length of the file, how many pages of text and of data there are, and where data begins.
static COUNTS: [(Sizes, u64, (u32, u32, u32)); 4] = [
    (DATA_ALONE, 2048, (0, 1, 0)),
    (SHARED_TEXT, 2132, (2, 5, 2048)),
    (IMPURE_TEXT, 2132, (0, 6, 0)),
    (PAGED_TEXT, 4096, (2, 1, 2048)),
];

#[test]
fn an_image_has_pages_of_text_and_of_data(rt: HostRuntime) {
    for row in COUNTS.iter() {
        let (sizes, len, pages) = *row;
        let image = image_of(&rt, sizes, len);
        let found = (image.text_pages(), image.data_pages(), image.data_start());
        is(&rt, &(sizes, found), &(sizes, pages));
    }
}

// The sizes of a header, the length of the file, whether a page is of text, its number, and what the file gives to it.
static SPANS: [(Sizes, u64, bool, u32, (u64, u32)); 6] = [
    (SHARED_TEXT, 2132, true, 1, (32 + 1024, 476)),
    (SHARED_TEXT, 2132, false, 0, (32 + 1500, 600)),
    (SHARED_TEXT, 2132, false, 4, (32 + 1500 + 600, 0)),
    (IMPURE_TEXT, 2132, false, 2, (32 + 2048, 52)),
    (PAGED_TEXT, 4096, true, 1, (2048, 1024)),
    (PAGED_TEXT, 4096, false, 0, (3072, 1024)),
];

#[test]
fn pages_are_filled_from_the_file_as_far_as_it_goes(rt: HostRuntime) {
    for row in SPANS.iter() {
        let (sizes, len, of_text, v, span) = *row;
        let image = image_of(&rt, sizes, len);
        let found = span_of(&image, of_text, v);
        is(
            &rt,
            &(sizes, of_text, v, found),
            &(sizes, of_text, v, Some(span)),
        );
    }
}
