ghost use Rattle.std.specs.Prelude.{◌≡◌};
ghost use Rattle.boot_words.specs.Layout.{boot_block_at, boot_csrs_at, boot_registers_at, code_start};

use rv_fields::RESET_PC;

/// Where every hart begins.
pub const DISPATCHER_AT: u64 = RESET_PC;

/// Where the trap handler of mode M stands.
pub const M_HANDLER_AT: u64 = 0x8002_0000;

/// Where the trap handler of mode S stands.
pub const S_HANDLER_AT: u64 = 0x8002_1000;

/// Where the boot block of hart 0 stands.
const BOOT_BLOCKS_AT: u64 = 0x8000_1000;

/// How far apart the boot blocks of neighbouring harts stand.
const BOOT_BLOCK_STEP: u64 = 0x1000;

/// How far the values of the CSRs stand behind the start of their boot block.
pub const CSRS_OFFSET: u16 = 0x400;

/// How far the values of x1 to x31 stand behind the start of their boot block.
pub const REGISTERS_OFFSET: u16 = 0x478;

/// Where the code window of hart 0 begins.
const CODE_WINDOWS_AT: u64 = 0x8400_0000;

/// How far apart the code windows of neighbouring harts begin.
const CODE_WINDOW_STEP: u64 = 0x10_0000;

/// The address of a hart's boot block.
pub fn boot_block_at(hart: u8) -> u64
    ensures { result ≡ boot_block_at hart }
{
    BOOT_BLOCKS_AT + u64::from(hart) * BOOT_BLOCK_STEP
}

/// The address of a hart's starting values of CSRs.
pub fn boot_csrs_at(hart: u8) -> u64
    ensures { result ≡ boot_csrs_at hart }
{
    boot_block_at(hart) + u64::from(CSRS_OFFSET)
}

/// The address of a hart's starting values of x1 to x31.
pub fn boot_registers_at(hart: u8) -> u64
    ensures { result ≡ boot_registers_at hart }
{
    boot_block_at(hart) + u64::from(REGISTERS_OFFSET)
}

/// The first address of a hart's code window.
pub fn code_start(hart: u8) -> u64
    ensures { result ≡ code_start hart }
{
    CODE_WINDOWS_AT + u64::from(hart) * CODE_WINDOW_STEP
}
