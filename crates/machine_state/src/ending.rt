//! The end of a machine, which spends all tokens. No device may be called, and nothing can come after it.
use crate::machine::Machine;
use table_steps::ending::{end_ring, end_transfer};
use table_steps::kernel_tables::Tables;

impl Machine {
    /// Ends the machine: a transfer that is in flight, or that failed, is given up with no call of a device.
    pub fn end(self) {
        let Machine {
            tables,
            journal: _,
            stopped: _,
            room: _,
            lost,
            alloc: _,
        } = self;
        let Tables {
            params: _,
            images: _,
            core,
            ring,
            spaces: _,
            texts: _,
            processes: _,
            book: _,
            fills: _,
            front: _,
            back: _,
            next_pid: _,
            next_sid: _,
            found: _,
        } = tables;
        match lost {
            Some(transfer) => end_transfer(transfer),
            None => {}
        }
        end_ring(ring);
        core.close();
    }
}
