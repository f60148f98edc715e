ghost use Rattle.std.specs.Prelude.{◌≡◌, ◌≤◌, ◌<◌, ◌↔◌, ℕ, List, length, IfOk, IfErr, MatchResult, None, Some, true, false};
ghost use Rattle.rv_fields.specs.Memory.{whole};
ghost use Rattle.rv_fields.specs.Play.{most_harts};
ghost use Rattle.rv_machine.specs.Views.{machine_seen, reset_hart};
ghost use Rattle.trace_replay.specs.Judging.{IsInRange};
ghost use Rattle.ram_image.specs.Ram.{memory};
ghost use Rattle.trace_text.specs.Orders.{IsOrder, order_fault};
ghost use Rattle.trace_text.specs.Reading.{Begins, unread};
ghost use Rattle.trace_text.specs.Text.{order_text};
ghost use Rattle.trace_text.specs.Traces.{trace_fault};
ghost use Rattle.elf_file.specs.Faults.{file_fault};
ghost use Rattle.elf_file.specs.Loading as loading;
ghost use Rattle.trace_replay.specs.Passes.{Passes, PassesFrom};
ghost use Rattle.trace_replay.specs.Verdicts.{IsFaultOf, IsTraceFault, IsVerdict, is_agreement};

use crate::judge::Judge;
use crate::verdict::{ReplayFault, Verdict};
use elf_file::read_elf;
use ram_image::Ram;
use rv_fields::{MOST_HARTS, NoMemory};
use rv_machine::{Machine, Reset};
use std::alloc::Global;
use trace_text::{TraceLines, read_order};

/// Loads the program afresh, steps each of its harts from this reset in the order, and compares what they do with what the trace tells.
///
/// The play goes through the order once, and the trace is read beside it, one line after another.
pub fn replay(
    alloc: Global,
    elf: &[u8],
    order: &[u8],
    trace: &[u8],
    reset: &Reset,
) -> Result<Verdict, ReplayFault>
    // It is that of the first difference between the trace and the play, by the order of comparing.
    ensures verdict { IfOk result (IsVerdict reset.now elf.now order.now trace.now) }
    // It agrees exactly where the files pass from this reset.
    ensures agrees { IfOk result (λ verdict. (is_agreement verdict ≡ true) ↔ PassesFrom reset.now elf.now order.now trace.now) }
    // Files that pass from every reset agree, whatever this one is.
    ensures passing { Passes elf.now order.now trace.now → IfOk result (λ verdict. is_agreement verdict ≡ true) }
    // The fault is that of the first file that isn't in its form, or memory ran out.
    ensures fault { IfErr result (IsFaultOf elf.now order.now trace.now) }
{
    let ram = load(alloc, elf)?;
    let (harts, order) = order_of(alloc, order)?;
    let lines = lines_of(trace)?;
    let told_harts = lines.harts();
    let mut machine = machine_of(alloc, ram, harts, *reset)?;
    let mut judge = Judge::new(lines);
    judge.play(alloc, &mut machine, &order)?;
    Ok(judge.verdict(alloc, harts, told_harts)?)
}

/// The RAM that the program is loaded as.
fn load(alloc: Global, elf: &[u8]) -> Result<Ram, ReplayFault>
    ensures loaded { IfOk result (λ ram. (a : ℕ) → loading.load elf.now a ≡ Some (memory ram a)) }
    ensures sound { IfOk result (λ ram. file_fault elf.now ≡ None) }
    ensures fault { IfErr result (λ fault. (order trace : List ℕ) → IsFaultOf elf.now order trace fault) }
{
    read_elf(alloc, elf).map_err(ReplayFault::of_elf)
}

/// The number of harts of an order, and the hart of each step.
#[tactic(auto, using(crate::proofs::Agreement::order_sound))]
fn order_of(alloc: Global, order: &[u8]) -> Result<(u8, Vec<u8>), ReplayFault>
    ensures read { IfOk result (λ read. IsOrder read.0 read.1.items × (order.now ≡ order_text read.0 read.1.items)) }
    ensures sound { IfOk result (λ read. order_fault order.now ≡ None) }
    ensures fault { IfErr result (λ fault. (elf trace : List ℕ) → file_fault elf ≡ None → IsFaultOf elf order.now trace fault) }
{
    read_order(alloc, order).map_err(ReplayFault::of_order)
}

/// So many harts at the reset, over the RAM.
fn machine_of(alloc: Global, ram: Ram, harts: u8, reset: Reset) -> Result<Machine, NoMemory>
    requires few { harts ≤ most_harts }
    ensures memory { IfOk result (λ m. (machine_seen m).seen ≡ record { byte = whole (memory ram); link = λ h g. Some false }) }
    ensures harts { IfOk result (λ m. (h : ℕ) → h < harts → (machine_seen m).harts h ≡ reset_hart h reset) }
    ensures count { IfOk result (λ m. length m.harts.items ≡ harts) }
    ensures small { IsInRange reset }
{
    let resets = [reset; MOST_HARTS];
    Machine::new(alloc, ram, &resets[..usize::from(harts)])
}

/// The lines of a trace, of which the first is read.
fn lines_of(trace: &[u8]) -> Result<TraceLines, ReplayFault>
    ensures { MatchResult result (λ lines. Begins trace.now (unread lines)) (IsTraceFault (trace_fault trace.now)) }
{
    TraceLines::of(trace).map_err(ReplayFault::of_trace)
}
