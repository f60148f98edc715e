ghost use Rattle.std.specs.Prelude.{◌≡◌, Some, None, if◌then◌else◌};
ghost use Rattle.std.specs.List.{list_all};
ghost use Rattle.rv_fields.specs.Name.{is_name, is_name_byte};

use std::marker::Model;
use std::{fmt, str};

/// The length of the longest name.
const LONGEST: usize = 24;

/// A name: a string of 1 to 24 bytes, each a letter `a` to `z`, a digit, `_` or `.`.
#[derive(Clone, Copy, Debug, PartialEq, Eq, Hash)]
pub struct Name {
    len: usize,
    /// The bytes of the name, and zeros behind them.
    bytes: [u8; LONGEST],
}

impl Model for Name {
    ghost use Rattle.std.specs.Prelude.{◌≡◌, ◌-◌, ◌++◌, List, ℕ, take, length, replicate, IsTrue};
    ghost use Rattle.rv_fields.specs.Name.{is_name, padded};

    ghost Value = { List ℕ };

    ghost view = { λ a. take a.len a.bytes };

    ghost inverse = { λ bytes. record { len = length bytes; bytes = padded bytes } };

    ghost invariant = { λ a. IsTrue (is_name (take a.len a.bytes)) × (length (take a.len a.bytes) ≡ a.len) × (padded (take a.len a.bytes) ≡ a.bytes) };
}

impl Name {
    /// The bytes of the name.
    pub fn bytes(&self) -> &[u8]
        ensures { result.now ≡ self.now }
    {
        &self.bytes[..self.len]
    }

    /// The name as text.
    #[tactic(auto, using(crate::proofs::Names::name_is_text))]
    pub fn as_str(&self) -> &str
        ensures { result.now ≡ self.now }
    {
        match str::from_utf8(&self.bytes[..self.len]) {
            Ok(text) => text,
            Err(_) => unreachable!("a name is ASCII"),
        }
    }
}

impl fmt::Display for Name {
    ghost output = { λ name. Some name };

    fn fmt<W: fmt::Write>(&self, f: &mut fmt::Formatter<W>) -> fmt::Result {
        f.pad(self.as_str())
    }
}

/// The name of these bytes; none where they are no name.
pub fn name_of(bytes: &[u8]) -> Option<Name>
    ensures { result ≡ (if is_name bytes.now then Some bytes.now else None) }
{
    if !is_name(bytes) {
        return None;
    }
    let len = bytes.len();
    let mut held = [0; LONGEST];
    held[..len].copy_from_slice(bytes);
    Some(Name { len, bytes: held })
}

fn is_name(bytes: &[u8]) -> bool
    ensures { result ≡ is_name bytes.now }
{
    let len = bytes.len();
    1 <= len && len <= LONGEST && has_name_bytes(bytes)
}

/// Whether each byte may stand in a name.
fn has_name_bytes(bytes: &[u8]) -> bool
    ensures { result ≡ list_all is_name_byte bytes.now }
{
    bytes.iter().all(|byte| is_name_byte(*byte))
}

fn is_name_byte(byte: u8) -> bool
    ensures { result ≡ is_name_byte byte }
{
    matches!(byte, b'a'..=b'z' | b'0'..=b'9' | b'_' | b'.')
}
