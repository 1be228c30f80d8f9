ghost use Rattle.std.specs.Prelude.{◌≡◌, ◌≤◌, ◌-◌, true, take, drop, replicate};
ghost use Rattle.effects.specs.Texts.{plain};

// A text of at most 64 bytes, each 32 to 126. `Text::new` makes one.
// The bytes stand in the value itself, with their number beside them, since a property's memory is fixed: no heap.
#[derive(Clone, Copy, Debug, PartialEq, Eq)]
pub struct Text {
    pub(crate) len: usize,
    pub(crate) bytes: [u8; 64],
    ghost short: { len ≤ 64 },
    ghost shown: { plain (take len bytes) ≡ true },
    // Zeros follow the text, so that `==` compares texts.
    ghost cleared: { drop len bytes ≡ replicate (64 - len) 0 },
}
