ghost use Rattle.std.specs.Prelude.{◌≡◌, ◌↔◌, Some, find};
ghost use Rattle.rv_fields.specs.declared.row_table.Ins.{Ins};
ghost use Rattle.rv_fields.specs.RowTable.{ins_called, name_of};
ghost use Rattle.rv_table.specs.Listing.{listed_entry, has_name};

use crate::table::{Entry, entries};
use rv_fields::Ins;

/// The instruction of this name; none where no row has it.
pub fn by_name(name: &str) -> Option<Ins>
    ensures value { result ≡ ins_called name.now }
    ensures name { (i : Ins) → (result ≡ Some i) ↔ (name_of i ≡ name.now) }
{
    let Entry(ins, ..) = first_named(entries(), name)?;
    Some(ins)
}

/// The first line of the table with this name.
fn first_named(table: &[Entry], name: &str) -> Option<Entry>
    ensures { result ≡ find (λ entry. has_name name.now (listed_entry entry)) table.now }
{
    table.iter().copied().find(|entry| entry.2 == name)
}
