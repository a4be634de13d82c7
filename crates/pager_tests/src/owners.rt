//! The text of a machine in which one process began: its lines against what the sizes of the pieces say.
ghost use Rattle.std.specs.Prelude.{◌≡◌, map, length, IfOk};
ghost use Rattle.machine_state.specs.Going.{IsRunning};
ghost use Rattle.machine_state.specs.Machine.{image_shown};
ghost use Rattle.machine_state.specs.New.{AreSound};
ghost use Rattle.machine_state.specs.Sourced.{AreNames};

use aout_image::{Image, Kind};
use io_edge::{MemSink, Moved};
use machine_state::{Machine, Named};
use owner_lines::write_owners;
use std::alloc::{AllocError, Global};
use std::process::Abort;
use vm_facts::Params;

// One image, of a page of text and a page of data.
fn one_image(alloc: Global) -> Result<Vec<Named>, AllocError>
    ensures one { IfOk result (λ images. length images.items ≡ 1) }
    ensures sound { IfOk result (λ images. AreSound (map (λ image. image.facts) images.items)) }
    ensures names { IfOk result (λ images. AreNames (map image_shown images.items)) }
{
    let mut images = Vec::new(alloc);
    images.push(Named {
        name: String::from_str(alloc, "first")?,
        file: 0,
        facts: Image {
            kind: Kind::Shared,
            text_len: 1000,
            data_len: 100,
            bss_len: 0,
            entry: 0,
        },
    })?;
    Ok(images)
}

// A machine of 4 frames and 70 blocks, in which a process of that image began.
fn begun(rt: &impl Abort, alloc: Global) -> Machine
    ensures { IsRunning result }
{
    let params = Params {
        frames: 4,
        swap_blocks: 70,
        limit: 1,
        journal: 1,
    };
    let images = one_image(alloc).expect(rt, "memory for an image");
    let mut machine = Machine::new(alloc, params, images).expect(rt, "memory for the tables");
    let began = machine.begin(1, 1).expect(rt, "memory for a process");
    assert!(rt; began);
    machine
}

// The four frames are free, the stack page is due, and the pieces of text, data, stack and u page lie one behind the other.
const LINES: &[u8] = b"\
    entries 0 end\n\
    hands 2 1\n\
    frame 1 free 1\n\
    frame 2 free 2\n\
    frame 3 free 3\n\
    frame 4 free 4\n\
    process 1 in 1\n\
    registers 1 0 0 0 0 0 0 0 0 0 0 0 0 0 0 2147478500 2\n\
    due s 1 0\n\
    swap 0 2 x 1\n\
    swap 2 32 d 1\n\
    swap 34 32 s 1\n\
    swap 66 2 u 1\n\
    swap 68 2 free\n";

#[test]
fn the_lines_of_a_machine_with_a_process_that_began(rt: HostRuntime) {
    let sink = MemSink::new(rt.alloc(), 500, Vec::new(rt.alloc()));
    let mut sink = sink.expect(&rt, "memory for an output");
    let machine = begun(&rt, rt.alloc());
    let moved = write_owners(&mut sink, &machine, true);
    machine.end();
    assert_eq!(rt; (moved, sink.written()), (Moved::Done, LINES));
}
