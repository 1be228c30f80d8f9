// What the bytes of padding and of a text may be.
ghost use Rattle.std.specs.Prelude.{◌≡◌};
ghost use Rattle.names.specs.Names.{all, valid_path};
ghost use Rattle.wire.specs.Text.{nonzero, utf8, valid_text, zero?};

use names::grammar::Alphabet;
use std::str::from_utf8;

pub(crate) fn all_zero(bytes: &[u8]) -> bool
    ensures { result ≡ all zero? bytes.now }
{
    bytes.iter().all(|b| *b == 0)
}

fn no_zero(bytes: &[u8]) -> bool
    ensures { result ≡ all nonzero bytes.now }
{
    bytes.iter().all(|b| *b != 0)
}

// Whether these bytes are a string's: UTF-8 without U+0000.
#[tactic(auto, unfolding(crate::specs::Text::valid_text))]
pub(crate) fn is_text(bytes: &[u8]) -> bool
    ensures { result ≡ valid_text bytes.now }
{
    no_zero(bytes) && is_utf8(bytes)
}

#[tactic(auto, using(crate::proofs::Bytes::utf8s))]
fn is_utf8(bytes: &[u8]) -> bool
    ensures { result ≡ utf8 bytes.now }
{
    from_utf8(bytes).is_ok()
}

pub(crate) fn is_path(bytes: &[u8]) -> bool
    ensures { result ≡ valid_path bytes.now }
{
    Alphabet::Path.check(bytes).is_ok()
}
