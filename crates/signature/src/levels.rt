// How deep containers may still nest.
ghost use Rattle.std.specs.Prelude.{◌≡◌};
ghost use Rattle.signature.specs.Depth.{full, in_array, in_structure, in_variant};

#[derive(Clone, Copy, Debug, PartialEq, Eq)]
pub struct Levels {
    pub arrays: usize,
    pub structures: usize,
    pub all: usize,
}

// Each container lowers other counts: one function for all three would take them as numbers, and say less.
impl Levels {
    // Nothing is nested yet.
    #[tactic(auto, unfolding(crate::specs::Depth::full))]
    pub fn full() -> Levels
        ensures { result ≡ full }
    {
        Levels {
            arrays: 32,
            structures: 32,
            all: 64,
        }
    }

    // What is left inside one more array.
    pub fn in_array(self) -> Option<Levels>
        ensures { result ≡ in_array self }
    {
        Some(Levels {
            arrays: self.arrays.checked_sub(1)?,
            all: self.all.checked_sub(1)?,
            ..self
        })
    }

    // What is left inside one more structure or dictionary entry.
    pub fn in_structure(self) -> Option<Levels>
        ensures { result ≡ in_structure self }
    {
        Some(Levels {
            structures: self.structures.checked_sub(1)?,
            all: self.all.checked_sub(1)?,
            ..self
        })
    }

    // What is left inside one more variant.
    pub fn in_variant(self) -> Option<Levels>
        ensures { result ≡ in_variant self }
    {
        Some(Levels {
            all: self.all.checked_sub(1)?,
            ..self
        })
    }
}
