//! Levels as parameters.

ghost use Rattle.std.specs.Prelude.{◌≡◌};
ghost use Rattle.net_model.specs.Proc.Sync.{polarity_of};

use cell_types::Level;

/// The number of a level: 1 where it is the high one.
pub fn polarity_of(level: Level) -> u32
    ensures value { result ≡ polarity_of level }
{
    match level {
        Level::Low => 0,
        Level::High => 1,
    }
}
