ghost use Rattle.std.specs.Prelude.{◌≡◌, ◌↔◌, Some, find, ◌==◌};
ghost use Rattle.std.specs.Str.{bytes_eq};
ghost use Rattle.rv_fields.specs.Csr as table;

/// A control and status register.
#[derive(Clone, Copy, Debug, PartialEq, Eq)]
pub enum Csr {
    Sstatus,
    Stvec,
    Sscratch,
    Sepc,
    Scause,
    Stval,
    Satp,
    Mstatus,
    Medeleg,
    Mideleg,
    Mie,
    Mtvec,
    Mscratch,
    Mepc,
    Mcause,
    Mtval,
    Pmpcfg0,
    Pmpaddr0,
    Mhartid,
}

/// The registers in the order of their numbers.
pub const CSRS: [Csr; 19] = [
    Csr::Sstatus,
    Csr::Stvec,
    Csr::Sscratch,
    Csr::Sepc,
    Csr::Scause,
    Csr::Stval,
    Csr::Satp,
    Csr::Mstatus,
    Csr::Medeleg,
    Csr::Mideleg,
    Csr::Mie,
    Csr::Mtvec,
    Csr::Mscratch,
    Csr::Mepc,
    Csr::Mcause,
    Csr::Mtval,
    Csr::Pmpcfg0,
    Csr::Pmpaddr0,
    Csr::Mhartid,
];

/// One row of the table of registers.
#[derive(Clone, Copy, Debug, Drop)]
pub struct CsrRow {
    /// The name in assembly, as `mstatus`.
    pub name: &'static str,
    pub number: u16,
    /// The bits that a write changes; all others stay.
    pub writable: u64,
    /// The bits that read as 1 whatever was written.
    pub constant: u64,
}

const ALL_BITS: u64 = 0xffff_ffff_ffff_ffff;

/// All bits but the two lowest, which the address of an instruction doesn't need.
const ADDRESS_BITS: u64 = 0xffff_ffff_ffff_fffc;

const NO_BITS: u64 = 0;

/// The register's row.
pub fn csr_row(csr: Csr) -> CsrRow
    ensures name { result.name.now ≡ (table.csr_row csr).name }
    ensures number { result.number ≡ (table.csr_row csr).number }
    ensures writable { result.writable ≡ (table.csr_row csr).writable }
    ensures constant { result.constant ≡ (table.csr_row csr).constant }
{
    match csr {
        Csr::Sstatus => row_of("sstatus", 0x100, 0xc0122, 0x2_0000_0000),
        Csr::Stvec => row_of("stvec", 0x105, ADDRESS_BITS, NO_BITS),
        Csr::Sscratch => row_of("sscratch", 0x140, ALL_BITS, NO_BITS),
        Csr::Sepc => row_of("sepc", 0x141, ADDRESS_BITS, NO_BITS),
        Csr::Scause => row_of("scause", 0x142, ALL_BITS, NO_BITS),
        Csr::Stval => row_of("stval", 0x143, ALL_BITS, NO_BITS),
        Csr::Satp => row_of("satp", 0x180, ALL_BITS, NO_BITS),
        Csr::Mstatus => row_of("mstatus", 0x300, 0x7e19aa, 0xa_0000_0000),
        Csr::Medeleg => row_of("medeleg", 0x302, 0xb3ff, NO_BITS),
        Csr::Mideleg => row_of("mideleg", 0x303, NO_BITS, NO_BITS),
        Csr::Mie => row_of("mie", 0x304, NO_BITS, NO_BITS),
        Csr::Mtvec => row_of("mtvec", 0x305, ADDRESS_BITS, NO_BITS),
        Csr::Mscratch => row_of("mscratch", 0x340, ALL_BITS, NO_BITS),
        Csr::Mepc => row_of("mepc", 0x341, ADDRESS_BITS, NO_BITS),
        Csr::Mcause => row_of("mcause", 0x342, ALL_BITS, NO_BITS),
        Csr::Mtval => row_of("mtval", 0x343, ALL_BITS, NO_BITS),
        Csr::Pmpcfg0 => row_of("pmpcfg0", 0x3a0, NO_BITS, NO_BITS),
        Csr::Pmpaddr0 => row_of("pmpaddr0", 0x3b0, NO_BITS, NO_BITS),
        Csr::Mhartid => row_of("mhartid", 0xf14, NO_BITS, NO_BITS),
    }
}

fn row_of(name: &'static str, number: u16, writable: u64, constant: u64) -> CsrRow
    ensures name { result.name.now ≡ name.now }
    ensures number { result.number ≡ number }
    ensures writable { result.writable ≡ writable }
    ensures constant { result.constant ≡ constant }
{
    CsrRow {
        name,
        number,
        writable,
        constant,
    }
}

/// The register's number: bits 31 to 20 of the instructions that name it.
pub fn csr_number(csr: Csr) -> u16
    ensures { result ≡ table.csr_number csr }
{
    csr_row(csr).number
}

/// The register with the number.
#[tactic(auto, using(crate::proofs::OneCsr::one_number))]
pub fn csr_of(number: u16) -> Option<Csr>
    ensures value { result ≡ table.csr_at number }
    ensures one { (csr : Csr) → (result ≡ Some csr) ↔ (table.csr_number csr ≡ number) }
{
    first_numbered(&CSRS, number)
}

fn first_numbered(csrs: &[Csr], number: u16) -> Option<Csr>
    ensures { result ≡ find (λ csr. table.csr_number csr == number) csrs.now }
{
    csrs.iter().copied().find(|csr| csr_number(*csr) == number)
}

/// The register with the name, as assembly has it.
pub fn csr_named(name: &str) -> Option<Csr>
    ensures value { result ≡ table.csr_called name.now }
    ensures one { (csr : Csr) → (result ≡ Some csr) ↔ (table.csr_name csr ≡ name.now) }
{
    first_named(&CSRS, name)
}

fn first_named(csrs: &[Csr], name: &str) -> Option<Csr>
    ensures { result ≡ find (λ csr. bytes_eq (table.csr_name csr) name.now) csrs.now }
{
    csrs.iter().copied().find(|csr| csr_row(*csr).name == name)
}

#[cfg(test)]
mod tests;
