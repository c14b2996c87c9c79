//! The level at which a pin acts.

ghost use Rattle.std.specs.Prelude.{◌≡◌, Some};
ghost use Rattle.cell_types.specs.Letters.{level_of};

/// The level at which a pin acts: a clock by its edge to that level.
#[derive(Clone, Copy, Debug, PartialEq, Eq)]
pub enum Level {
    Low,
    High,
}

impl Level {
    /// The letter of the level in the name of a gate.
    pub(crate) fn letter(self) -> u8
        ensures value { level_of result ≡ Some self }
    {
        match self {
            Level::Low => b'N',
            Level::High => b'P',
        }
    }
}
