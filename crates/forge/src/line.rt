ghost use Rattle.std.specs.Prelude.{◌≡◌, [], OnOk, OnErr};
ghost use Rattle.std.specs.Fmt.{AppendsText, with_newline};

use rv_fields::NoMemory;
use std::alloc::Global;
use std::fmt;

/// Puts what `{}` shows of the value, and a newline, in place of what `out` holds.
pub(crate) fn write_line<D: fmt::Display + Drop>(
    alloc: Global,
    line: D,
    out: &mut Vec<u8>,
) -> Result<(), NoMemory>
    ensures text { OnOk result (AppendsText [] out.new.items (with_newline (D.output line))) }
    ensures emptied { OnErr result (out.new.items ≡ []) }
{
    out.clear();
    let text = format!(in alloc; "{line}\n")?;
    out.extend_from_slice(text.as_bytes())?;
    Ok(())
}
