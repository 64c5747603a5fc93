//! The slip of a reading: the right to book it, to hand its point over, or to withdraw it.
ghost use Rattle.std.specs.Prelude.{◌≡◌};

/// A slip: its number and its point. It cannot be copied and has to be ended: a slip that is let go
/// does not compile.
pub struct Slip {
    pub(crate) number: u32,
    pub(crate) point: usize,
}

impl Slip {
    /// The slip's number, by readings from 1.
    pub fn number(&self) -> u32
        ensures { result ≡ self.now.number }
    {
        self.number
    }

    /// The point that was read, numbered from 0 as admitted.
    pub fn point(&self) -> usize
        ensures { result ≡ self.now.point }
    {
        self.point
    }
}
