ghost use Rattle.std.specs.Prelude.{◌≡◌};
ghost use Rattle.value_file.specs.Register.{initial_value, present_value};

/// What is known of a register.
#[derive(Clone, Copy, Debug, PartialEq, Eq)]
pub enum Register {
    /// No event has read, written or fixed it.
    Untouched,
    /// It was written before anything read it.
    Written { present: u64 },
    /// Its starting value was fixed.
    Fixed { initial: u64, present: u64 },
}

impl Register {
    /// Its starting value, if that was fixed.
    pub fn initial(self) -> Option<u64>
        ensures { result ≡ initial_value self }
    {
        match self {
            Register::Untouched | Register::Written { .. } => None,
            Register::Fixed { initial, .. } => Some(initial),
        }
    }

    /// Its present value, if it is touched.
    pub fn present(self) -> Option<u64>
        ensures { result ≡ present_value self }
    {
        match self {
            Register::Untouched => None,
            Register::Written { present } | Register::Fixed { present, .. } => Some(present),
        }
    }

    /// The register after a write.
    pub fn written(self, value: u64) -> Register
        ensures initial { initial_value result ≡ initial_value self }
        ensures present { present_value result ≡ Some value }
    {
        match self {
            Register::Untouched | Register::Written { .. } => Register::Written { present: value },
            Register::Fixed { initial, .. } => Register::Fixed {
                initial,
                present: value,
            },
        }
    }
}
