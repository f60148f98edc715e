//! Texts that are cut at a byte: lines, fields and the parts of fields.
ghost use Rattle.std.specs.Prelude.{◌≡◌, ◌==◌, ◌<◌, [], ◌∷◌, length, position, MatchOption, IfSome};
ghost use Rattle.std.specs.List.{slice_split};
ghost use Rattle.trace_fields.specs.Parts.{parts_left};

/// What stands before the first such byte, and what stands behind it; none where the bytes lack it.
pub fn cut(bytes: &[u8], byte: u8) -> Option<(&[u8], &[u8])>
    ensures parts { let split = slice_split (λ b. b == byte) in
        MatchOption result (split bytes.now ≡ bytes.now ∷ [])
        (λ parts. split bytes.now ≡ parts.0.now ∷ split parts.1.now) }
    ensures shorter { IfSome result (λ parts. length parts.1.now < length bytes.now) }
{
    let at = place_of(bytes, byte)?;
    Some((&bytes[..at], &bytes[at + 1..]))
}

fn place_of(bytes: &[u8], byte: u8) -> Option<usize>
    ensures { result ≡ position (λ b. b == byte) bytes.now }
{
    bytes.iter().position(|b| *b == byte)
}

/// The parts of a text, taken one after another.
#[derive(Clone, Copy)]
pub(crate) struct Parts<'a> {
    /// What stands behind the parts that were taken, where any part does.
    pub(crate) left: Option<&'a [u8]>,
    /// The byte that parts them.
    pub(crate) by: u8,
}

impl<'a> Parts<'a> {
    pub(crate) fn of(text: &'a [u8], by: u8) -> Parts<'a>
        ensures { parts_left result ≡ slice_split (λ b. b == by) text.now }
    {
        Parts {
            left: Some(text),
            by,
        }
    }

    /// The next part; none where all were taken.
    pub(crate) fn next(&mut self) -> Option<&'a [u8]>
        ensures part { MatchOption result ((parts_left self.old ≡ []) × (parts_left self.new ≡ [])) (λ part. parts_left self.old ≡ part.now ∷ parts_left self.new) }
        ensures same { self.new.by ≡ self.old.by }
    {
        let text = self.left?;
        match cut(text, self.by) {
            Some((part, rest)) => {
                self.left = Some(rest);
                Some(part)
            }
            None => {
                self.left = None;
                Some(text)
            }
        }
    }
}
