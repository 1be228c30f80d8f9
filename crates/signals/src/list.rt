// A sink over memory that the caller lends.
ghost use Rattle.std.specs.Prelude.{◌≡◌, min, [], length};
ghost use Rattle.std.specs.List.{slice_get};
ghost use Rattle.std.specs.Option.{option_map};
ghost use Rattle.signals.specs.Lists.{before, list_fits, list_waiting, piece};
ghost use Rattle.signals.specs.Signals.{seen_signal};

use crate::sink::{Kind, Refused, Signal, Sink};

// A signal's kind, and where in the text its path begins, its body begins and its body ends.
#[derive(Clone, Copy)]
pub struct Record {
    pub kind: Kind,
    pub start: usize,
    pub middle: usize,
    pub end: usize,
}

// Signals in lent records, one after another, and their bytes in lent text.
// No heap: the caller lends both, so each has how much of it is in use beside it. No invariant: a record is plain data
// with places in the text, and whatever numbers it has, what it says is told.
#[derive(Drop)]
pub struct SignalList<'a> {
    records: &'a mut [Record],
    text: &'a mut [u8],
    count: usize,
    used: usize,
}

// Where the text before these records ends.
fn text_before(records: &[Record], used: usize) -> usize
    ensures { result ≡ before used records.now }
{
    records.iter().fold(used, |end, r| end.min(r.start))
}

// The bytes from one place to another, of the first `limit`.
fn cut(text: &[u8], limit: usize, from: usize, to: usize) -> &[u8]
    ensures { result.now ≡ piece text.now limit from to }
{
    let to = to.min(limit).min(text.len());
    text.get(from..to).unwrap_or_default()
}

impl<'a> SignalList<'a> {
    // An empty list.
    #[tactic(auto, unfolding(crate::specs::Lists::told))]
    pub fn new(records: &'a mut [Record], text: &'a mut [u8]) -> SignalList<'a>
        ensures records { result.records ≡ records.entry }
        ensures text { result.text ≡ text.entry }
        ensures empty { list_waiting result ≡ [] }
        ensures unused { (result.count ≡ 0) × (result.used ≡ 0) }
    {
        SignalList {
            records,
            text,
            count: 0,
            used: 0,
        }
    }
}

impl SignalList<'_> {
    // How many signals wait.
    pub fn len(&self) -> usize
        ensures value { result ≡ length (list_waiting self.now) }
        ensures records { result ≡ min self.now.count (length self.now.records.now) }
    {
        self.count.min(self.records.len())
    }

    // The signal of a number, the first being 0.
    pub fn get(&self, i: usize) -> Option<Signal<'_>>
        ensures { option_map seen_signal result ≡ slice_get (list_waiting self.now) i }
    {
        let waiting = &self.records[..self.len()];
        let record = waiting.get(i)?;
        let limit = text_before(&waiting[i + 1..], self.used);
        Some(Signal {
            kind: record.kind,
            path: cut(self.text, limit, record.start, record.middle),
            body: cut(self.text, limit, record.middle, record.end),
        })
    }
}

impl Sink for SignalList<'_> {
    ghost waiting = { list_waiting };

    ghost fits = { list_fits };

    fn accepts(&self, signal: Signal<'_>) -> bool {
        if self.count >= self.records.len() || self.used > self.text.len() {
            return false;
        }
        let left = self.text.len() - self.used;
        signal.path.len() <= left && signal.body.len() <= left - signal.path.len()
    }

    fn deliver(&mut self, signal: Signal<'_>) -> Result<(), Refused> {
        if !self.accepts(signal) {
            return Err(Refused);
        }
        let start = self.used;
        let middle = start + signal.path.len();
        let end = middle + signal.body.len();
        self.text[start..middle].copy_from_slice(signal.path);
        self.text[middle..end].copy_from_slice(signal.body);
        self.records[self.count] = Record {
            kind: signal.kind,
            start,
            middle,
            end,
        };
        self.used = end;
        self.count += 1;
        Ok(())
    }

    #[tactic(auto, unfolding(crate::specs::Lists::told))]
    fn drain(&mut self) {
        self.count = 0;
        self.used = 0;
    }
}
