ghost use Rattle.std.specs.Prelude.{◌≡◌, ◌<◌, ◌*◌, ◌^◌, length};
ghost use Rattle.rv_fields.specs.Status.{mode_number};
ghost use Rattle.region_plan.specs.Plan.{no_hart};
ghost use Rattle.region_plan.specs.Request.{no_items};
ghost use Rattle.region_plan.specs.Views.{plan_at, planned_hart};
ghost use Rattle.boot_words.specs.Boot.{boot_csrs, boot_registers};
ghost use Rattle.boot_words.specs.Booting.{BootsAlways};
ghost use Rattle.boot_words.specs.Layout.{window_by};
ghost use Rattle.boot_words.specs.Startup.{start_csrs};
ghost use Rattle.value_file.specs.Values.{initial_of};

use crate::layout::{M_HANDLER_AT, code_start};
use region_plan::{HartPlan, Plan};
use rv_csr::{CsrFile, reset_of};
use rv_fields::Mode;
use value_file::ValueFile;

/// mstatus with MPIE, as `mret` leaves it.
const MPIE_IS_1: u64 = 0x80;

/// The virtual address of the handler of mode S: the last page of the lower half of Sv39.
const S_HANDLER_PAGE: u64 = 0x3f_ffff_f000;

/// The highest address that pmpaddr0 can hold, so that its entry covers all memory.
const ALL_MEMORY: u64 = 0x3f_ffff_ffff_ffff;

/// pmpcfg0 with a naturally aligned region open to reads, writes and fetches.
const OPEN_TO_ALL: u64 = 0x1f;

/// What a boot block loads: the CSRs in the order in which it writes them, and x1 to x31.
#[derive(Clone, Copy)]
pub struct BootValues {
    pub csrs: [u64; 15],
    pub x: [u64; 31],
}

/// The values that a hart of the plan starts with, where these starting values of its registers are fixed.
pub fn boot_values(plan: &Plan, hart: u8, values: &ValueFile) -> BootValues
    requires { hart < length plan.now.harts.items }
    ensures csrs { result.csrs ≡ boot_csrs (plan_at plan.now.harts.items hart) hart }
    ensures registers { result.x ≡ boot_registers (initial_of values.now) }
    // From every reset a hart loads such values, and goes on at its start.
    ensures boots { BootsAlways }
{
    BootValues {
        csrs: csrs(plan.hart(hart), hart),
        x: registers(values),
    }
}

/// The values of a hart's CSRs.
fn csrs(plan: &HartPlan, hart: u8) -> [u64; 15]
    ensures { result ≡ boot_csrs (planned_hart plan.now no_items) hart }
{
    [
        boot_mstatus(plan.mode),
        0, // medeleg
        0, // mideleg
        0, // mie
        M_HANDLER_AT, // mtvec
        0, // mscratch
        window(plan.mode, hart), // mepc
        S_HANDLER_PAGE, // stvec
        0, // sscratch
        0, // sepc
        0, // scause
        0, // stval
        0, // satp
        ALL_MEMORY, // pmpaddr0
        OPEN_TO_ALL, // pmpcfg0
    ]
}

/// mstatus with the mode in its field MPP, so that mret goes on in this mode.
fn boot_mstatus(mode: Mode) -> u64
    ensures { result ≡ mode_number mode * 2 ^ 11 }
{
    let number: u64 = match mode {
        Mode::U => 0,
        Mode::S => 1,
        Mode::M => 3,
    };
    number << 11
}

/// The first code address. A job can't give the harts of modes S and U one yet.
fn window(mode: Mode, hart: u8) -> u64
    ensures { result ≡ window_by (record no_hart { mode = mode }) hart }
{
    match mode {
        Mode::M => code_start(hart),
        Mode::S | Mode::U => 0,
    }
}

/// The CSRs that the boot of a hart of mode M leaves.
pub fn start_csrs(hart: u8) -> CsrFile
    ensures { result ≡ start_csrs no_hart hart }
{
    reset_of(
        hart,
        &[
            0, // sstatus
            S_HANDLER_PAGE, // stvec
            0, // sscratch
            0, // sepc
            0, // scause
            0, // stval
            0, // satp
            MPIE_IS_1, // mstatus
            0, // medeleg
            0, // mideleg
            0, // mie
            M_HANDLER_AT, // mtvec
            0, // mscratch
            code_start(hart), // in mepc
            0, // mcause
            0, // mtval
            0, // pmpcfg0
            0, // pmpaddr0
            0, // mhartid
        ],
    )
}

/// The starting values of x1 to x31.
fn registers(values: &ValueFile) -> [u64; 31]
    ensures { result ≡ boot_registers (initial_of values.now) }
{
    let mut x = [0; 31];
    for place in 0..31 {
        x[place] = values.initial(place as u8 + 1);
    }
    x
}
