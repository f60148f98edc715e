//! What `{}` shows of the fields of a line.
ghost use Rattle.std.specs.Prelude.{◌≡◌, ◌<◌, ℕ, List, map, Some};
ghost use Rattle.std.specs.Option.{option_map_or};
ghost use Rattle.std.specs.List.{flat_map};
ghost use Rattle.std.specs.Fmt.{WritesOnOk};
ghost use Rattle.trace_fields.specs.Trails.{entry_seen};
ghost use Rattle.trace_fields.specs.Text.{slash, hex, word_text, byte_text, letter_text, none_text, write_text, access_text, entry_text, trail_text, trap_text, joined_by};

use crate::access::AccessText;
use crate::entry::EntryText;
use crate::trail::TrailText;
use crate::trap::TrapText;
use rv_fields::Name;
use std::fmt;

#[cfg(test)]
mod tests;

/// A number, which is shown in hexadecimal digits.
#[derive(Clone, Copy)]
pub struct Hex(pub u64);

impl fmt::Display for Hex {
    ghost output = { λ number. Some (hex number.0) };

    fn fmt<W: fmt::Write>(&self, f: &mut fmt::Formatter<W>) -> fmt::Result {
        let number = self.0;
        write!(f, "{number:x}")
    }
}

/// An instruction word, which is shown in eight hexadecimal digits.
#[derive(Clone, Copy)]
pub struct Word(pub u32);

impl fmt::Display for Word {
    ghost output = { λ word. Some (word_text word.0) };

    #[tactic(auto, using(crate::proofs::Digits::padded_hex))]
    fn fmt<W: fmt::Write>(&self, f: &mut fmt::Formatter<W>) -> fmt::Result {
        let word = self.0;
        write!(f, "{word:08x}")
    }
}

/// Bytes, each of which is shown in two hexadecimal digits.
#[derive(Clone, Copy)]
pub struct BytesText<'a>(pub &'a [u8]);

impl fmt::Display for BytesText<'_> {
    ghost output = { λ bytes. Some (flat_map byte_text bytes.0.now) };

    fn fmt<W: fmt::Write>(&self, f: &mut fmt::Formatter<W>) -> fmt::Result {
        for byte in self.0 {
            write!(f, "{byte:02x}")?;
        }
        Ok(())
    }
}

/// Shows the parts, with the separator between each two.
fn show_joined<W: fmt::Write, T: fmt::Display>(
    f: &mut fmt::Formatter<W>,
    parts: &[T],
    separator: char,
) -> fmt::Result
    requires ascii { separator < 128 }
    ensures { (text : T → List ℕ) → ((part : T) → T.output part ≡ Some (text part))
        → WritesOnOk W.write_str_gives f.old result (joined_by separator (map text parts.now)) f.new }
{
    if let [first, rest @ ..] = parts {
        first.fmt(f)?;
        for part in rest {
            f.write_char(separator)?;
            part.fmt(f)?;
        }
    }
    Ok(())
}

/// The labels of a path.
#[derive(Clone, Copy)]
pub struct PathText<'a>(pub &'a [Name]);

impl fmt::Display for PathText<'_> {
    ghost output = { λ path. Some (joined_by slash path.0.now) };

    fn fmt<W: fmt::Write>(&self, f: &mut fmt::Formatter<W>) -> fmt::Result {
        show_joined(f, self.0, '/')
    }
}

/// A letter, as its ASCII byte.
#[derive(Clone, Copy)]
struct Letter(u8);

impl fmt::Display for Letter {
    ghost output = { λ letter. Some (letter_text letter.0) };

    fn fmt<W: fmt::Write>(&self, f: &mut fmt::Formatter<W>) -> fmt::Result {
        f.write_char(char::from(self.0))
    }
}

/// What is shown as `-` where there is nothing.
#[derive(Clone, Copy)]
pub struct OrNone<T>(pub Option<T>);

impl<T: fmt::Display> fmt::Display for OrNone<T> {
    ghost output = { λ shown. option_map_or T.output shown.0 (Some none_text) };

    fn fmt<W: fmt::Write>(&self, f: &mut fmt::Formatter<W>) -> fmt::Result {
        match &self.0 {
            Some(value) => value.fmt(f),
            None => write!(f, "-"),
        }
    }
}

/// A register that is written, and its new value.
#[derive(Clone, Copy)]
pub struct Written(pub (u8, u64));

impl fmt::Display for Written {
    ghost output = { λ written. Some (write_text written.0) };

    fn fmt<W: fmt::Write>(&self, f: &mut fmt::Formatter<W>) -> fmt::Result {
        let (register, value) = self.0;
        write!(f, "{register}:{value:x}")
    }
}

impl fmt::Display for AccessText {
    ghost output = { λ access. Some (access_text access) };

    fn fmt<W: fmt::Write>(&self, f: &mut fmt::Formatter<W>) -> fmt::Result {
        let AccessText {
            kind,
            va,
            pa,
            size,
            read,
            wrote,
        } = *self;
        let kind = Letter(kind);
        let read = OrNone(read.map(Hex));
        let wrote = OrNone(wrote.map(Hex));
        write!(f, "{kind}:{va:x}:{pa:x}")?;
        write!(f, ":{size}:{read}:{wrote}")
    }
}

impl fmt::Display for EntryText {
    ghost output = { λ entry. Some (entry_text (entry_seen entry)) };

    fn fmt<W: fmt::Write>(&self, f: &mut fmt::Formatter<W>) -> fmt::Result {
        let EntryText { at, pte } = *self;
        write!(f, "{at:x}:{pte:x}")
    }
}

impl fmt::Display for TrailText {
    ghost output = { λ trail. Some (trail_text trail) };

    fn fmt<W: fmt::Write>(&self, f: &mut fmt::Formatter<W>) -> fmt::Result {
        match self.entries() {
            [] => write!(f, "-"),
            entries => show_joined(f, entries, ','),
        }
    }
}

impl fmt::Display for TrapText {
    ghost output = { λ trap. Some (trap_text trap) };

    fn fmt<W: fmt::Write>(&self, f: &mut fmt::Formatter<W>) -> fmt::Result {
        let TrapText {
            cause,
            epc,
            tval,
            to,
        } = *self;
        let to = Letter(to);
        write!(f, "{cause}:{epc:x}:{tval:x}:{to}")
    }
}
