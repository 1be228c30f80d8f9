// The outbox: the caller's bytes, up to where they hold whole messages, and the next serial. A message is written as a draft.
ghost use Rattle.std.specs.Prelude.{◌≡◌, min, false, length, take, drop, is_ok};
ghost use Rattle.outbox.specs.Drafts.{Grew, Sent, Went, drafted, following, fresh, kept, left};
ghost use Rattle.outbox.specs.Marshal.{Part, le32, raw};
ghost use Rattle.outbox.specs.Pours.{Patched, Poured};

use crate::writing::{Full, patch_u32, put_raw};

// What can be written as a part of a message.
pub trait Marshal {
    ghost part: { Self → Part };

    fn marshal(&self, bytes: &mut [u8], from: usize) -> Result<usize, Full>
        ensures { Poured bytes.old from bytes.new result (part self.now) };
}

// Bytes that are a part as they are.
#[derive(Clone, Copy)]
pub struct Raw<'a>(pub &'a [u8]);

impl Marshal for Raw<'_> {
    ghost part = { λ s. raw s.0.now };

    fn marshal(&self, bytes: &mut [u8], from: usize) -> Result<usize, Full> {
        put_raw(bytes, from, self.0)
    }
}

// How far the bytes hold messages, and the serial of the next one. The bytes stand beside it: they are the caller's fixed
// memory, lent to each write, and a draft borrows the mark alone.
#[derive(Drop)]
pub struct Mark {
    fill: usize,
    serial: u32,
}

impl Mark {
    pub fn new() -> Mark
        ensures { result ≡ fresh }
    {
        Mark { fill: 0, serial: 1 }
    }
}

// A message that is being written, after what the mark holds. Unless it is kept, the mark goes back to where it was.
// No ghost field `start ≤ mark.now.fill`: the check says "import cycle", since the definitions of drafts name this struct.
pub struct Draft<'a> {
    mark: &'a mut Mark,
    start: usize,
}

impl Drop for Draft<'_> {
    fn drop(self)
        ensures fill { self.exit.0.now.fill ≡ self.entry.start }
        ensures serial { self.exit.0.now.serial ≡ self.entry.mark.now.serial }
    {
        self.mark.fill = self.start;
        let Draft { mark: _, start: _ } = self;
    }
}

impl<'a> Draft<'a> {
    // A message after what the mark holds. While it stands, the mark is lent to it.
    pub fn begin(mark: &'a mut Mark) -> Draft<'a>
        ensures lent { result.mark ≡ mark.entry }
        ensures start { result.start ≡ mark.old.fill }
    {
        let start = mark.fill;
        Draft { mark, start }
    }

    // The serial that the message will have.
    pub fn serial(&self) -> u32
        ensures { result ≡ self.now.mark.now.serial }
    {
        self.mark.serial
    }

    // Where in the bytes the message begins; their end, if they do not go so far.
    pub fn start(&self, bytes: &[u8]) -> usize
        ensures { result ≡ min self.now.start (length bytes.now) }
    {
        self.start.min(bytes.len())
    }

    // How much of the message there is.
    pub fn len(&self) -> usize
        ensures { result ≡ drafted self.now }
    {
        self.mark.fill.saturating_sub(self.start)
    }

    // One part more, into the bytes that the mark is of. Its offset is counted from the message's first byte.
    // Where there is no room, the mark and what stands before the message are as they were.
    pub fn put<M: Marshal>(&mut self, bytes: &mut [u8], value: &M) -> Result<(), Full>
        ensures went { Went self.old bytes.old self.new bytes.new result (M.part value.now) }
        ensures stays { is_ok result ≡ false → self.new.mark.now.fill ≡ self.old.mark.now.fill }
    {
        let at = self.len();
        let from = self.start(bytes);
        let len = value.marshal(&mut bytes[from..], at)?;
        self.mark.fill = self.start + len;
        Ok(())
    }

    // The message has so many bytes now, which were written from its start on.
    pub fn grow_to(&mut self, bytes: &[u8], len: usize) -> Result<(), Full>
        ensures { Grew self.old bytes.now self.new result len }
    {
        if self.start > bytes.len() || len > bytes.len() - self.start {
            return Err(Full);
        }
        self.mark.fill = self.start + len;
        Ok(())
    }

    // Overwrites 32 bits of the message, at their offset from its first byte, as a length that is known only later.
    pub fn patch_u32(&self, bytes: &mut [u8], at: usize, n: u32) -> Result<(), Full>
        ensures patched { Patched (drop self.now.start bytes.old) at (drop self.now.start bytes.new) result (le32 n) }
        ensures below { take self.now.start bytes.new ≡ take self.now.start bytes.old }
        ensures size { length bytes.new ≡ length bytes.old }
    {
        let from = self.start(bytes);
        patch_u32(&mut bytes[from..], at, n)
    }

    // Takes the draft apart, so that its `drop` does not run: the mark stays behind the message, and its serial is used.
    pub fn keep(self)
        ensures fill { self.exit.0.now.fill ≡ self.entry.mark.now.fill }
        ensures serial { self.exit.0.now.serial ≡ following self.entry.mark.now.serial }
    {
        let Draft { mark, start: _ } = self;
        mark.serial = mark.serial.checked_add(1).unwrap_or(1);
    }
}

// The caller's bytes, with the mark of what they hold. No invariant ties the two: both are public, whoever puts them
// together owes nothing, and each method has an answer for a mark past the bytes.
#[derive(Drop)]
pub struct Outbox<'a> {
    pub bytes: &'a mut [u8],
    pub mark: Mark,
}

impl<'a> Outbox<'a> {
    // It holds nothing, and the first serial is 1.
    pub fn new(bytes: &'a mut [u8]) -> Outbox<'a>
        ensures lent { result.bytes ≡ bytes.entry }
        ensures mark { result.mark ≡ fresh }
    {
        Outbox {
            bytes,
            mark: Mark::new(),
        }
    }

    // The messages, one after another.
    pub fn written(&self) -> &[u8]
        ensures { result.now ≡ kept self.now }
    {
        let end = self.bytes.len().min(self.mark.fill);
        &self.bytes[..end]
    }

    // How many bytes they have.
    pub fn len(&self) -> usize
        ensures { result ≡ length (kept self.now) }
    {
        self.mark.fill.min(self.bytes.len())
    }

    // How many bytes more fit.
    pub fn left(&self) -> usize
        ensures { result ≡ left self.now }
    {
        self.bytes.len().saturating_sub(self.mark.fill)
    }

    // The serial of the next message.
    pub fn serial(&self) -> u32
        ensures { result ≡ self.now.mark.serial }
    {
        self.mark.serial
    }

    // No messages any more; serials go on.
    pub fn clear(&mut self)
        ensures fill { self.new.mark.fill ≡ 0 }
        ensures serial { self.new.mark.serial ≡ self.old.mark.serial }
        ensures bytes { self.new.bytes ≡ self.old.bytes }
    {
        self.mark.fill = 0;
    }

    // One message more, whole, or none of it.
    pub fn send<M: Marshal>(&mut self, message: &M) -> Result<(), Full>
        ensures { Sent self.old self.new result (M.part message.now 0) }
    {
        let Outbox { bytes, mark } = self;
        let mut draft = Draft::begin(mark);
        draft.put(bytes, message)?;
        draft.keep();
        Ok(())
    }
}

#[cfg(test)]
mod tests {
    use super::*;

    // The second message fits exactly; a third does not, and changes nothing.
    #[test]
    fn whole_messages(rt: HostRuntime) {
        let mut bytes = [9u8; 5];
        let mut outbox = Outbox::new(&mut bytes);
        assert!(rt; outbox.send(&Raw(b"abc")).is_ok());
        assert!(rt; outbox.send(&Raw(b"def")).is_err());
        assert_eq!(rt; outbox.len(), 3);
        assert_eq!(rt; outbox.serial(), 2);
        assert_eq!(rt; outbox.left(), 2);
        assert!(rt; outbox.send(&Raw(b"gh")).is_ok());
        assert!(rt; outbox.written() == b"abcgh".as_slice());
        assert!(rt; outbox.send(&Raw(b"i")).is_err());
        assert_eq!(rt; outbox.serial(), 3);
        outbox.clear();
        assert_eq!(rt; outbox.len(), 0);
        assert_eq!(rt; outbox.serial(), 3);
    }

    // The last serial of 32 bits, and then 1.
    #[test]
    fn serials_go_round(rt: HostRuntime) {
        let mut bytes = [9u8; 8];
        let mut mark = Mark {
            fill: 0,
            serial: u32::MAX,
        };
        let mut draft = Draft::begin(&mut mark);
        assert_eq!(rt; draft.serial(), u32::MAX);
        assert!(rt; draft.put(&mut bytes, &Raw(b"ab")).is_ok());
        assert_eq!(rt; draft.len(), 2);
        draft.keep();
        assert_eq!(rt; mark.serial, 1);
        assert_eq!(rt; mark.fill, 2);
        {
            let mut draft = Draft::begin(&mut mark);
            assert!(rt; draft.put(&mut bytes, &Raw(b"cde")).is_ok());
            assert_eq!(rt; draft.len(), 3);
        }
        assert_eq!(rt; mark.serial, 1);
        assert_eq!(rt; mark.fill, 2);
    }
}
