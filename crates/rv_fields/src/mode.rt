/// A privilege mode: user, supervisor or machine.
#[derive(Clone, Copy, Debug, PartialEq, Eq)]
pub enum Mode {
    U,
    S,
    M,
}
