//! A guard over a scratch slice.

#![tactic(auto)]

ghost use Rattle.std.specs.Prelude.{◌≡◌, length, replicate};

/// Holds a scratch slice, and fills it with zeros when it is dropped: on every way out of the function that
/// holds it, refusals and early returns included.
pub struct Wipe<'a> {
    pub scratch: &'a mut [u16],
}

impl Drop for Wipe<'_> {
    fn drop(self)
        ensures { self.exit.0.now ≡ replicate (length self.entry.scratch.now) 0 }
    {
        self.scratch.fill(0);
        let Wipe { scratch: _ } = self;
    }
}
