//! What a procedure call pushes, kept with no memory taken.
ghost use Rattle.std.specs.Prelude.{◌≡◌, ◌<◌, ◌+◌, slice_index, take};
ghost use Rattle.user_vax.specs.Effects.{push_onto};
ghost use Rattle.user_vax.specs.Frames.{with_aligned_stack};
ghost use Rattle.vax_execute.specs.Outcomes.{ArePushes, HasSize, IsAtFrame, IsUnpushed, bytes_in, counted_bytes, frame_in, pushing};

use crate::outcome::Write;
use vm_facts::Regs;

/// What a procedure call pushes: the count of its arguments, if it pushes one, and then the longwords of its frame, of which there
/// are up to 17. Each longword of the frame lies just below the one before.
#[derive(Clone, Copy, Debug, PartialEq, Eq)]
pub struct Pushes {
    /// The address of the count, where it is pushed.
    pub counted_at: Option<u32>,
    /// The first longword of the frame lies just below it.
    pub top: u32,
    /// The count, or whatever stands in its place, and then the frame.
    pub longwords: [u32; 18],
    /// So many longwords the frame has.
    pub frame_length: u8,
}

impl Pushes {
    pub fn none() -> Pushes
        ensures { IsUnpushed result }
    {
        Pushes {
            counted_at: None,
            top: 0,
            longwords: [0; 18],
            frame_length: 0,
        }
    }

    /// The count, where it is pushed.
    pub fn counted(&self) -> Option<Write>
        ensures bytes { bytes_in result ≡ counted_bytes self.now.counted_at (slice_index self.now.longwords 0) }
        ensures size { HasSize result }
    {
        match self.counted_at {
            None => None,
            Some(address) => Some(Write {
                address,
                value: self.longwords[0],
                size: 4,
            }),
        }
    }

    /// The longwords of the frame, in order.
    pub fn frame(&self) -> &[u32]
        requires { ArePushes self.now }
        ensures { result.now ≡ frame_in self.now }
    {
        &self.longwords[1..self.frame_length as usize + 1]
    }

    /// The count, or whatever stands in its place, and then the frame.
    pub fn with_count(&self) -> &[u32]
        requires { ArePushes self.now }
        ensures { result.now ≡ take (self.now.frame_length + 1) self.now.longwords }
    {
        &self.longwords[..self.frame_length as usize + 1]
    }

    /// Pushes the count.
    #[tactic(auto, using(crate::proofs::Pushing::counted_pushed), unfolding(user_vax::specs::Effects::push_onto))]
    pub fn push_count(&mut self, regs: &mut Regs, count: u32)
        requires { IsUnpushed self.old }
        ensures effect { pushing regs.new self.new ≡ push_onto (pushing regs.old self.old) count }
        ensures unframed { self.new.frame_length ≡ 0 }
    {
        let address = regs.r[14].wrapping_sub(4);
        self.longwords[0] = count;
        self.counted_at = Some(address);
        regs.r[14] = address;
    }

    /// The frame begins where SP stands without its two low bits.
    pub fn begin_frame(&mut self, regs: &mut Regs)
        requires { self.old.frame_length ≡ 0 }
        ensures effect { pushing regs.new self.new ≡ record (pushing regs.old self.old) { regs = with_aligned_stack regs.old } }
        ensures unframed { self.new.frame_length ≡ 0 }
        ensures place { IsAtFrame regs.new self.new }
    {
        let top = regs.r[14] / 4 * 4;
        self.top = top;
        regs.r[14] = top;
    }

    /// Pushes one more longword of the frame.
    #[tactic(auto, using(crate::proofs::Pushing::pushed_more), unfolding(user_vax::specs::Effects::push_onto))]
    pub fn push(&mut self, regs: &mut Regs, value: u32)
        requires room { self.old.frame_length < 17 }
        requires place { IsAtFrame regs.old self.old }
        ensures effect { pushing regs.new self.new ≡ push_onto (pushing regs.old self.old) value }
        ensures place { IsAtFrame regs.new self.new }
        ensures longer { self.new.frame_length ≡ self.old.frame_length + 1 }
    {
        self.frame_length += 1;
        self.longwords[self.frame_length as usize] = value;
        regs.r[14] = regs.r[14].wrapping_sub(4);
    }
}
