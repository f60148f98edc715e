ghost use Rattle.std.specs.Prelude.{◌≡◌, ◌+◌, ◌<◌, ◌^◌, ◌↔◌, [], IsTrue, All, map, nat_le, option_map, find, not};
ghost use Rattle.ram_image.specs.Segments.{lies_in_ram, is_apart};
ghost use Rattle.elf_file.specs.Faults.{first_failed, header_span, apart_test, apart_tests, Finds};
ghost use Rattle.elf_file.specs.declared.fault.ElfFault.TheVariants.{Clash};
ghost use Rattle.elf_file.specs.Taken.{IsSpread, IsTaken, AreTaken};

use crate::fault::ElfFault;
use crate::fields::ProgramHeader;
use std::alloc::Global;
use std::collections::BTreeMap;

/// Finds the first two segments that share an address: of all such pairs one with the earliest second segment, and
/// with the earliest first one for that. It takes as many steps as there are segments, and for each as many as a
/// look-up in a map of them takes.
pub fn check_apart(alloc: Global, headers: &[ProgramHeader]) -> Result<(), ElfFault>
    requires { All (λ h. IsTrue (lies_in_ram (header_span h))) headers.now }
    ensures { Finds result (first_failed (apart_tests [] headers.now)) }
{
    let mut ends = BTreeMap::new(alloc);
    for (place, header) in headers.iter().enumerate() {
        if let Some(clash) = clash_with(&headers[..place], &ends, header) {
            return Err(clash);
        }
        if header.memsz > 0 {
            ends.insert(header.paddr, header.paddr + header.memsz)?;
        }
    }
    Ok(())
}

/// The clash of a segment with the first of those before it that share an address with it. `ends` has where those
/// begin and end.
fn clash_with(
    before: &[ProgramHeader],
    ends: &BTreeMap<u64, u64>,
    header: &ProgramHeader,
) -> Option<ElfFault>
    requires ram { IsTrue (lies_in_ram (header_span header.now)) }
    requires taken { AreTaken before.now ends.now }
    ensures { result ≡ first_failed (map (apart_test header.now) before.now) }
{
    if header.memsz > 0 && is_taken(ends, header.paddr, header.paddr + header.memsz) {
        first_clash(before, header)
    } else {
        None
    }
}

/// Whether a segment of the map has an address from `at` on and before `end`.
fn is_taken(ends: &BTreeMap<u64, u64>, at: u64, end: u64) -> bool
    requires { IsSpread ends.now }
    ensures { IsTrue result ↔ IsTaken ends.now at end }
{
    match ends.range(..end).next_back() {
        Some((_, last)) => *last > at,
        None => false,
    }
}

/// The clash of a segment with the first of the others that share an address with it.
fn first_clash(others: &[ProgramHeader], header: &ProgramHeader) -> Option<ElfFault>
    ensures { result ≡ option_map (λ a. Clash a.number header.now.number) (find (λ a. not (is_apart (header_span a) (header_span header.now))) others.now) }
{
    others
        .iter()
        .find(|other| !is_apart(other, header))
        .map(|other| ElfFault::Clash {
            a: other.number,
            b: header.number,
        })
}

/// Whether the segments share no address.
fn is_apart(a: &ProgramHeader, b: &ProgramHeader) -> bool
    ensures { result ≡ is_apart (header_span a.now) (header_span b.now) }
{
    a.memsz == 0 || b.memsz == 0 || ends_before(a, b) || ends_before(b, a)
}

/// Whether the first segment has no address from the second one's first on.
fn ends_before(a: &ProgramHeader, b: &ProgramHeader) -> bool
    ensures { result ≡ nat_le (a.now.paddr + a.now.memsz) b.now.paddr }
{
    a.memsz <= b.paddr && a.paddr <= b.paddr - a.memsz
}
