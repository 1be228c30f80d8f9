ghost use Rattle.std.specs.Prelude.{pos, negsuc, ◌≤ℤ◌};

// A tuner: how far the string is off, in hundredths of a semitone, and whether the display is held.
// While it is unplugged, its properties cannot be read.
#[derive(Drop)]
pub struct Tuner {
    pub(crate) cents: i32,
    pub(crate) locked: bool,
    pub(crate) unplugged: bool,
    ghost low: { negsuc 49 ≤ℤ cents },
    ghost high: { cents ≤ℤ pos 50 },
}
