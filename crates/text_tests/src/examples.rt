//! What was written down of load 7 before there was a crate that makes loads.

/// Bytes that stand at an address.
pub struct Part {
    pub at: u16,
    pub bytes: &'static [u8],
}

/// What `w` of load 7 has at its addresses, where it isn't zero. It changes 47 pages.
pub static W: [Part; 25] = [
    Part {
        at: 0x02,
        bytes: b"\xde\x9f\xa0\x00\x00\x00\x5c",
    },
    Part {
        at: 0x09,
        bytes: b"\xbc\x11",
    },
    Part {
        at: 0x0b,
        bytes: b"\xbc\x02",
    },
    Part {
        at: 0x0d,
        bytes: b"\xe8\x51\x36",
    },
    Part {
        at: 0x10,
        bytes: b"\xd0\x1e\x53",
    },
    Part {
        at: 0x13,
        bytes: b"\xd0\x8f\x00\x04\x00\x00\x54",
    },
    Part {
        at: 0x1a,
        bytes: b"\xd0\x8f\x2f\x00\x00\x00\x55",
    },
    Part {
        at: 0x21,
        bytes: b"\xd6\x64",
    },
    Part {
        at: 0x23,
        bytes: b"\xc0\x8f\x00\x04\x00\x00\x54",
    },
    Part {
        at: 0x2a,
        bytes: b"\xf5\x55\xf4",
    },
    Part {
        at: 0x2d,
        bytes: b"\xf5\x53\xe3",
    },
    Part {
        at: 0x30,
        bytes: b"\xbc\x8f\x54\x00",
    },
    Part {
        at: 0x34,
        bytes: b"\xde\x9f\xa8\x00\x00\x00\x5c",
    },
    Part {
        at: 0x3b,
        bytes: b"\xbc\x04",
    },
    Part {
        at: 0x3d,
        bytes: b"\xde\x9f\xb8\x00\x00\x00\x5c",
    },
    Part {
        at: 0x44,
        bytes: b"\xbc\x01",
    },
    Part {
        at: 0x46,
        bytes: b"\xde\x9f\xc0\x00\x00\x00\x5c",
    },
    Part {
        at: 0x4d,
        bytes: b"\xbc\x3b",
    },
    Part {
        at: 0x4f,
        bytes: b"\xbc\x01",
    },
    Part {
        at: 0xa0,
        bytes: b"\x01\x00\x00\x00\x00\xc0\x00\x00",
    },
    Part {
        at: 0xa8,
        bytes: b"\x03\x00\x00\x00\x01\x00\x00\x00\xe0\x00\x00\x00\x02\x00\x00\x00",
    },
    Part {
        at: 0xb8,
        bytes: b"\x01\x00\x00\x00",
    },
    Part {
        at: 0xc0,
        bytes: b"\x03\x00\x00\x00\xd0\x00\x00\x00",
    },
    Part {
        at: 0xd0,
        bytes: b"\x76",
    },
    Part {
        at: 0xe0,
        bytes: b"\x77\x0a",
    },
];

/// The same of `v`.
pub static V: [Part; 14] = [
    Part {
        at: 0x02,
        bytes: b"\xd0\x1e\x53",
    },
    Part {
        at: 0x05,
        bytes: b"\xd0\x8f\x00\x04\x00\x00\x54",
    },
    Part {
        at: 0x0c,
        bytes: b"\xd0\x8f\x2f\x00\x00\x00\x55",
    },
    Part {
        at: 0x13,
        bytes: b"\xd6\x64",
    },
    Part {
        at: 0x15,
        bytes: b"\xc0\x8f\x00\x04\x00\x00\x54",
    },
    Part {
        at: 0x1c,
        bytes: b"\xf5\x55\xf4",
    },
    Part {
        at: 0x1f,
        bytes: b"\xf5\x53\xe3",
    },
    Part {
        at: 0x22,
        bytes: b"\xde\x9f\xa8\x00\x00\x00\x5c",
    },
    Part {
        at: 0x29,
        bytes: b"\xbc\x04",
    },
    Part {
        at: 0x2b,
        bytes: b"\xde\x9f\xb8\x00\x00\x00\x5c",
    },
    Part {
        at: 0x32,
        bytes: b"\xbc\x01",
    },
    Part {
        at: 0xa8,
        bytes: b"\x03\x00\x00\x00\x01\x00\x00\x00\xe0\x00\x00\x00\x02\x00\x00\x00",
    },
    Part {
        at: 0xb8,
        bytes: b"\x01\x00\x00\x00",
    },
    Part {
        at: 0xe0,
        bytes: b"\x76\x0a",
    },
];

/// The schedule of load 7: the process of a dispatch, or the letter of another line.
pub const LINES: &[u8] = b"\
    hw53463w22h4w3h3i7w5h48ih182i76w3i544ii58whhwww1i2\
    2mhi2w3457hw6i521ii4h615hii15642ii1i6i5iw8ii68iiwi\
    11783i6mh36him5hw3i2hhhm6mw3iiiih6m678m7iiiii56mm2\
    h233i4ii83mm6i8iw55547h2hii75iihmmw5ih1hiw1whhiiiw";
