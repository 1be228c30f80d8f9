ghost use Rattle.std.specs.Prelude.{◌≡◌};
ghost use Rattle.std.specs.Result.{result_ok};
ghost use Rattle.std.specs.Str.{bytes_eq};
ghost use Rattle.names.specs.Standard.{standard_name, standard_of};

// The standard interfaces.
#[derive(Clone, Copy, PartialEq, Eq, Debug)]
pub enum Standard {
    Introspectable,
    ObjectManager,
    Peer,
    Properties,
}

// A name that no standard interface has.
#[derive(Clone, Copy, PartialEq, Eq, Debug)]
pub struct NotStandard;

impl Standard {
    const ALL: [Standard; 4] = [
        Standard::Introspectable,
        Standard::ObjectManager,
        Standard::Peer,
        Standard::Properties,
    ];

    #[tactic(auto, unfolding(crate::specs::Standard::standard_name))]
    pub fn name(self) -> &'static [u8]
        ensures { result.now ≡ standard_name self }
    {
        match self {
            Standard::Introspectable => b"org.freedesktop.DBus.Introspectable",
            Standard::ObjectManager => b"org.freedesktop.DBus.ObjectManager",
            Standard::Peer => b"org.freedesktop.DBus.Peer",
            Standard::Properties => b"org.freedesktop.DBus.Properties",
        }
    }

    pub fn is_named(self, name: &[u8]) -> bool
        ensures { result ≡ bytes_eq name.now (standard_name self) }
    {
        name == self.name()
    }

    // The standard interface of this name, if there is one.
    pub fn of(name: &[u8]) -> Option<Standard>
        ensures { result ≡ standard_of name.now }
    {
        Standard::try_from(name).ok()
    }
}

impl TryFrom<&[u8]> for Standard {
    type Error = NotStandard;

    ghost try_from_gives = { λ name r. result_ok r ≡ standard_of name.now };

    fn try_from(name: &[u8]) -> Result<Standard, NotStandard> {
        Standard::ALL
            .iter()
            .copied()
            .find(|kind| kind.is_named(name))
            .ok_or(NotStandard)
    }
}
