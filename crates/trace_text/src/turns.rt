ghost use Rattle.std.specs.Prelude.{[], ◌∷◌, Some};
ghost use Rattle.std.specs.Fmt.{decimal};
ghost use Rattle.trace_fields.specs.Text.{joined_by, space_byte};

use std::fmt;

/// So many steps of one hart, one after another.
#[derive(Clone, Copy)]
pub(crate) struct Turns {
    pub(crate) hart: u8,
    pub(crate) count: usize,
}

impl fmt::Display for Turns {
    ghost output = { λ turns. Some (joined_by space_byte (decimal turns.hart ∷ decimal turns.count ∷ [])) };

    fn fmt<W: fmt::Write>(&self, f: &mut fmt::Formatter<W>) -> fmt::Result {
        let Turns { hart, count } = *self;
        write!(f, "{hart} {count}")
    }
}
