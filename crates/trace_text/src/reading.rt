//! The first line of a file, and what readers of lines share.
ghost use Rattle.std.specs.Prelude.{◌≡◌, ◌≤◌, ◌+◌, None, MatchResult};
ghost use Rattle.std.specs.Option.{unwrap_or};
ghost use Rattle.rv_fields.specs.Play.{most_harts};
ghost use Rattle.trace_fields.specs.Fields.{fields_in, first_wrong};
ghost use Rattle.trace_text.specs.Text.{header_fields};
ghost use Rattle.trace_text.specs.Orders.{first_line_tests, number_in};
ghost use Rattle.trace_fields.specs.Taking.{IsWrongBy, whole_line};

use rv_fields::MOST_HARTS;
use trace_fields::{Fields, LineFault};

/// The number of fields of the first line.
pub(crate) const HEADER_FIELDS: u32 = 3;

/// The number of harts that the first line of a file of this kind tells.
pub(crate) fn header(text: &[u8], kind: &str) -> Result<u8, LineFault>
    ensures { let fields = fields_in text.now in
        MatchResult result
        (λ harts. (first_wrong 1 (first_line_tests kind.now) fields ≡ None) × (harts ≡ number_in fields 2)
        × (fields ≡ header_fields kind.now harts) × (1 ≤ harts) × (harts ≤ most_harts))
        (λ fault. IsWrongBy (first_line_tests kind.now) (whole_line 1 fields) fault) }
{
    let mut fields = Fields::of(1, text);
    fields.keyword(kind)?;
    fields.keyword("1")?;
    let harts = fields.count_below(MOST_HARTS + 1)?;
    fields.end()?;
    Ok(harts as u8)
}

/// The fault of a line that no newline ends: where no field is at fault, the one behind its last.
pub(crate) fn at_end(line: u64, fault: Option<LineFault>, fields: u32) -> LineFault
    requires { fields ≤ 100 }
    ensures { result ≡ unwrap_or fault (LineFault.At line (fields + 1)) }
{
    fault.unwrap_or(LineFault::At {
        line,
        field: fields + 1,
    })
}
