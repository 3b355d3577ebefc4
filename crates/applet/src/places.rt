// The places of an applet's methods.
ghost use Rattle.std.specs.Prelude.{◌≡◌, ◌+◌, ◌<◌, ◌≤◌, [], ◌∷◌, ◌++◌, take};

// Up to 32 places, in fixed memory. The kit's `ArrayVec` is not `Copy`, as an applet is.
#[derive(Clone, Copy)]
pub(crate) struct Places {
    count: u8,
    all: [usize; 32],
    ghost few: { count ≤ 32 },
}

impl Places {
    // None yet.
    pub(crate) fn new() -> Places
        ensures { result.count ≡ 0 }
    {
        Places {
            count: 0,
            all: [0; 32],
        }
    }

    // One place more.
    pub(crate) fn push(&mut self, place: usize)
        requires { self.old.count < 32 }
        ensures count { self.new.count ≡ self.old.count + 1 }
        ensures places { take self.new.count self.new.all ≡ take self.old.count self.old.all ++ place ∷ [] }
    {
        self.all[usize::from(self.count)] = place;
        self.count += 1;
    }

    // How many there are.
    pub(crate) fn count(&self) -> u8
        ensures { result ≡ self.now.count }
    {
        self.count
    }

    // The places in order.
    pub(crate) fn as_slice(&self) -> &[usize]
        ensures { result.now ≡ take self.now.count self.now.all }
    {
        &self.all[..usize::from(self.count)]
    }
}
