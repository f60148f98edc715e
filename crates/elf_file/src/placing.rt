ghost use Rattle.std.specs.Prelude.{◌≡◌, ℕ, ◌+◌, ◌<◌, ◌^◌, length};
ghost use Rattle.ram_image.specs.Segments.{stretch_of};
ghost use Rattle.elf_file.specs.Writing.{placed_segment, page_from, trimmed};

use ram_image::Segment;

/// The page size of a file, to which each segment is aligned.
pub const PAGE: usize = 4096;

/// A segment with the offset of its bytes in the file.
#[derive(Debug, Drop)]
pub struct Placed<'a> {
    pub offset: usize,
    /// The segment's bytes up to the last that isn't zero.
    pub bytes: &'a [u8],
    pub segment: &'a Segment,
}

impl<'a> Placed<'a> {
    ghost use Rattle.elf_file.specs.Placing.{view};

    /// The segment at the first page behind so many bytes.
    pub fn behind(end: usize, segment: &'a Segment) -> Placed<'a>
        requires { end < 2 ^ 63 }
        ensures { view result ≡ placed_segment (page_from end) (stretch_of segment.entry.now) }
    {
        Placed {
            offset: end.next_multiple_of(PAGE),
            bytes: trimmed(&segment.bytes),
            segment,
        }
    }

    /// The length of a file that ends with the segment's bytes.
    pub fn end(&self) -> usize
        requires { self.now.offset + length self.now.bytes.now < 2 ^ 64 }
        ensures { result ≡ self.now.offset + length self.now.bytes.now }
    {
        self.offset + self.bytes.len()
    }
}

/// The bytes up to the last that isn't zero.
#[tactic(auto, using(crate::proofs::Trimming::trims))]
fn trimmed(mut bytes: &[u8]) -> &[u8]
    ensures { result.now ≡ trimmed bytes.entry.now }
{
    while let [front @ .., 0] = bytes {
        bytes = front;
    }
    bytes
}
