ghost use Rattle.std.specs.Prelude.{◌≡◌, ◌<◌, Some, length};
ghost use Rattle.std.specs.List.{slice_get};
ghost use Rattle.rv_fields.specs.RowTable.{name_of, form_of, mask_of, value_of};
ghost use Rattle.rv_table.specs.Listing.{listed_entry, defined};

use crate::table::{Entry, Row, entries};
use rv_fields::{Form, Ins};

/// The instruction's row.
pub fn row(ins: Ins) -> Row
    ensures name { result.name.now ≡ name_of ins }
    ensures mask { result.mask ≡ mask_of (form_of ins) }
    ensures value { result.value ≡ value_of ins }
    ensures form { result.form ≡ form_of ins }
{
    let Entry(_, form, name, value) = line_of(ins);
    Row {
        name,
        mask: mask(form),
        value,
        form,
    }
}

/// The instruction's line of the table.
pub fn line_of(ins: Ins) -> Entry
    ensures { listed_entry result ≡ defined ins }
{
    entry_at(entries(), ins as usize)
}

fn entry_at(table: &[Entry], place: usize) -> Entry
    requires { place < length table.now }
    ensures { slice_get table.now place ≡ Some result }
{
    table[place]
}

/// The bits that tell the rows of the form from others.
pub fn mask(form: Form) -> u32
    ensures { result ≡ mask_of form }
{
    match form {
        Form::U | Form::J => 0x0000_007f,
        Form::I | Form::B | Form::S | Form::C | Form::K => 0x0000_707f,
        Form::H6 => 0xfc00_707f,
        Form::H5 | Form::R => 0xfe00_707f,
        Form::A => 0xf800_707f,
        Form::L => 0xf9f0_707f,
        Form::V => 0xfe00_7fff,
        Form::N => 0xffff_ffff,
    }
}
