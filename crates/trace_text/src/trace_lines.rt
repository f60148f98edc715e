ghost use Rattle.std.specs.Prelude.{◌<◌, ◌≤◌, ◌+◌, ◌^◌, length};
ghost use Rattle.rv_fields.specs.Play.{most_harts};

/// The lines of a trace, read one after another.
#[derive(Debug, Drop)]
pub struct TraceLines<'a> {
    pub(crate) harts: u8,
    /// The number of the next line, from 2 on.
    pub(crate) number: u64,
    /// The text from that line on.
    pub(crate) rest: &'a [u8],

    ghost some: { 1 ≤ harts },
    ghost few: { harts ≤ most_harts },
    ghost behind: { 1 < number },
    ghost within: { number + length rest.now < 2 ^ 64 },
}
