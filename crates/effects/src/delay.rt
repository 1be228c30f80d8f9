ghost use Rattle.std.specs.Prelude.{◌≤◌};

use crate::text::Text;

// An echo: how much of it is fed back, and the name that the player gave it.
#[derive(Drop)]
pub struct Delay {
    pub(crate) bypassed: bool,
    pub(crate) feedback: u32,
    pub(crate) label: Text,
    ghost limit: { feedback ≤ 999 },
}
