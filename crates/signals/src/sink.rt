// Signals, and the sinks that take them.
ghost use Rattle.std.specs.Prelude.{◌≡◌, Bool, List, [], is_ok};
ghost use Rattle.signals.specs.Signals.{SignalModel, offered, seen_signal};

// The signals of an object manager.
#[derive(Clone, Copy, Debug, PartialEq, Eq)]
pub enum Kind {
    InterfacesAdded,
    InterfacesRemoved,
}

// A signal of the manager at a path.
#[derive(Clone, Copy)]
pub struct Signal<'a> {
    pub kind: Kind,
    pub path: &'a [u8],
    pub body: &'a [u8],
}

// A sink did not take a signal.
#[derive(Clone, Copy, Debug, PartialEq, Eq)]
pub struct Refused;

// Keeps the signals that wait. Which further ones it takes is its own affair.
pub trait Sink {
    ghost waiting: { Self → List SignalModel };

    ghost fits: { Self → SignalModel → Bool };

    // Whether it takes this signal.
    fn accepts(&self, signal: Signal<'_>) -> bool
        ensures { result ≡ fits self.now (seen_signal signal.entry) };

    // Appends the signal, or refuses it and keeps the list as it is.
    fn deliver(&mut self, signal: Signal<'_>) -> Result<(), Refused>
        ensures answer { is_ok result ≡ fits self.old (seen_signal signal.entry) }
        ensures after { waiting self.new ≡ offered (fits self.old (seen_signal signal.entry)) (waiting self.old) (seen_signal signal.entry) };

    // Empties the list.
    fn drain(&mut self)
        ensures { waiting self.new ≡ [] };
}
