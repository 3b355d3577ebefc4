// Frames: calls of methods, and those that wait below the topmost one.
ghost use Rattle.std.specs.Prelude.{◌≡◌, ◌+◌, ◌<◌, ◌∷◌, ◌++◌, [], min, length, take, MatchOption, if◌then◌else◌, nat_lt};
ghost use Rattle.model.specs.Machine.{zeros};
ghost use Rattle.machine.specs.Views.{waiting, caller_of, callers_of, frame_of};

// Where a thread stands.
#[derive(Clone, Copy)]
pub struct Stand {
    pub method: u8,
    pub index: u32,
}

// A call of a method: where it stands, and its registers.
#[derive(Clone, Copy)]
pub struct Frame {
    pub method: u8,
    pub index: u32,
    pub regs: [i32; 8],
}

// The frames that a thread was called from: the first `depth` of `frames`, the oldest first, in fixed
// memory. The kit's `ArrayVec` is not `Copy`, as a thread is.
#[derive(Clone, Copy)]
pub struct Callers {
    pub depth: u8,
    pub frames: [Frame; 15],
}

// The index of a frame that waits, which is at most 65,535.
pub(crate) fn rest(index: u32) -> u32
    ensures { result ≡ waiting index }
{
    index.min(65535)
}

impl Frame {
    // A frame at the start of a method.
    pub(crate) fn start(method: u8, regs: [i32; 8]) -> Frame
        ensures { frame_of result ≡ record { method = method; index = 0; regs = regs } }
    {
        Frame {
            method,
            index: 0,
            regs,
        }
    }

    // r0 to r3.
    pub(crate) fn arguments(&self) -> [i32; 4]
        ensures { result ≡ take 4 self.now.regs }
    {
        let [a, b, c, d, ..] = self.regs;
        [a, b, c, d]
    }

    // The frame of a method that this one calls: r0 to r3 copied, r4 to r7 zero.
    pub(crate) fn called(&self, method: u8) -> Frame
        ensures { frame_of result ≡ record { method = method; index = 0; regs = take 4 self.now.regs ++ zeros 4 } }
    {
        let [a, b, c, d, ..] = self.regs;
        Frame::start(method, [a, b, c, d, 0, 0, 0, 0])
    }
}

impl Callers {
    // How many there are.
    pub(crate) fn len(&self) -> u8
        ensures count { result ≡ length (callers_of self.now) }
        ensures stored { result ≡ min self.now.depth 15 }
    {
        self.depth.min(15)
    }

    // One more frame, where there is room for it: whether there is.
    pub(crate) fn push(&mut self, frame: Frame) -> bool
        ensures room { result ≡ nat_lt (length (callers_of self.old)) 15 }
        ensures callers { callers_of self.new ≡ (if nat_lt (length (callers_of self.old)) 15 then caller_of frame ∷ callers_of self.old else callers_of self.old) }
    {
        if self.depth >= 15 {
            return false;
        }
        self.frames[self.depth as usize] = frame;
        self.depth += 1;
        true
    }

    // Takes the newest frame.
    pub(crate) fn pop(&mut self) -> Option<Frame>
        ensures { MatchOption result ((callers_of self.old ≡ []) × (callers_of self.new ≡ [])) (λ f. callers_of self.old ≡ caller_of f ∷ callers_of self.new) }
    {
        let depth = self.len().checked_sub(1)?;
        self.depth = depth;
        Some(self.frames[depth as usize])
    }
}
