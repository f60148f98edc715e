ghost use Rattle.std.specs.Prelude.{◌≡◌, ℕ, ◌+◌, ◌-◌, ◌*◌, ◌<◌, ◌≤◌, ◌++◌, ◌∷◌, [], length, replicate, IfOk, OnOk, IsTrue};
ghost use Rattle.ram_image.specs.Pieces.{laid};
ghost use Rattle.ram_image.specs.Segments.{Stretch, stretch_of, stretches, are_sound, memory_of};
ghost use Rattle.region_plan.specs.Plan.{Work, hart_count};
ghost use Rattle.rv_fields.specs.Play.{most_harts};
ghost use Rattle.region_plan.specs.Views.{IsPlannedBy};
ghost use Rattle.boot_words.specs.Layout.{boot_block_at, code_start, dispatcher_at, m_handler_at};
ghost use Rattle.run_merge.specs.Image.{AreImagesOf, boot_pieces, handler_pieces, image, initial_in, program, startup_pieces, value_bytes, word_bytes};
ghost use Rattle.run_merge.specs.Run.{images_of, run_lines};
ghost use Rattle.value_file.specs.Values.{initial_of};

use crate::run::{HartProgram, Run};
use boot_words::{
    DISPATCHER_AT, M_HANDLER_AT, S_HANDLER_AT, boot_block, boot_block_at, boot_csrs_at,
    boot_registers_at, boot_values, code_start, dispatcher, handler,
};
use ram_image::Segment;
use region_plan::Plan;
use rv_fields::{Mode, NoMemory};
use std::alloc::Global;
use value_file::ValueFile;

/// The rights of a segment that harts read and execute.
const READ_EXECUTE: u32 = 5;

const PAGE: u64 = 4096;

impl Run {
    /// The segments of the program: the dispatcher and the boot blocks of all harts, the trap handlers, and the code
    /// of each hart.
    pub fn segments(&self, alloc: Global) -> Result<Vec<Segment>, NoMemory>
        // They are the program of every work that the plan is of.
        ensures program { IfOk result (λ segments. (work : Work) → IsPlannedBy self.now.plan.harts.items work
            → stretches segments.items ≡ program work (images_of self.now.harts.items)) }
        ensures count { IfOk result (λ segments. length segments.items ≤ 72) }
        ensures sound { IfOk result (λ segments. IsTrue (are_sound (stretches segments.items))) }
        // The memory that they hold is the image of the run's lines, where the harts bring what these tell.
        ensures image { IfOk result (λ segments. (work : Work) → IsPlannedBy self.now.plan.harts.items work
            → AreImagesOf work (run_lines self.now) (images_of self.now.harts.items)
            → (a : ℕ) → memory_of (stretches segments.items) a ≡ image work (run_lines self.now) a) }
    {
        let harts = self.harts.as_slice();
        let mut segments = Vec::with_capacity(alloc, 2 + harts.len())?;
        segments.push(startup_segment(alloc, &self.plan, harts)?)?;
        segments.push(handler_segment(alloc)?)?;
        for (hart, program) in harts.iter().enumerate() {
            segments.push(code_segment(alloc, hart as u8, program.words.as_slice())?)?;
        }
        Ok(segments)
    }
}

/// The dispatcher's page, and a page for the boot block of each hart.
fn startup_segment(alloc: Global, plan: &Plan, harts: &[HartProgram]) -> Result<Segment, NoMemory>
    requires most { length harts.now ≤ most_harts }
    requires planned { length plan.now.harts.items ≡ length harts.now }
    ensures { IfOk result (λ s. (work : Work) → IsPlannedBy plan.now.harts.items work
        → stretch_of s ≡ record {
          at = dispatcher_at;
          bytes = laid dispatcher_at (startup_pieces work (initial_in (images_of harts.now)));
          size = 0x1000 + hart_count work * 0x1000;
          flags = 5;
        }) }
{
    let mut bytes = Vec::new(alloc);
    lay_words(&mut bytes, 0, &dispatcher(harts.len() as u8))?;
    for (hart, program) in harts.iter().enumerate() {
        lay_boot_block(&mut bytes, plan, hart as u8, &program.values)?;
    }
    Ok(Segment {
        at: DISPATCHER_AT,
        bytes,
        size: (1 + harts.len() as u64) * PAGE,
        flags: READ_EXECUTE,
    })
}

/// Lays the boot block of a hart of the plan, whose registers start with these values, behind the bytes of the
/// dispatcher's segment.
fn lay_boot_block(
    bytes: &mut Vec<u8>,
    plan: &Plan,
    hart: u8,
    values: &ValueFile,
) -> Result<(), NoMemory>
    requires hart { hart < most_harts }
    requires planned { hart < length plan.now.harts.items }
    requires place { dispatcher_at + length bytes.old.items ≤ boot_block_at hart }
    ensures { OnOk result ((work : Work) → IsPlannedBy plan.now.harts.items work → bytes.new.items
        ≡ bytes.old.items ++ laid (dispatcher_at + length bytes.old.items) (boot_pieces work (λ h. initial_of values.now) hart)) }
{
    let values = boot_values(plan, hart, values);
    lay_words(bytes, startup_place(boot_block_at(hart)), &boot_block())?;
    lay_values(bytes, startup_place(boot_csrs_at(hart)), &values.csrs)?;
    lay_values(bytes, startup_place(boot_registers_at(hart)), &values.x)?;
    Ok(())
}

/// The place of an address among the bytes of the dispatcher's segment.
fn startup_place(at: u64) -> usize
    requires { dispatcher_at ≤ at }
    ensures { dispatcher_at + result ≡ at }
{
    (at - DISPATCHER_AT) as usize
}

/// The pages of both trap handlers.
fn handler_segment(alloc: Global) -> Result<Segment, NoMemory>
    ensures { IfOk result (λ s. stretch_of s
        ≡ record { at = m_handler_at; bytes = laid m_handler_at handler_pieces; size = 0x2000; flags = 5 }) }
{
    let at = M_HANDLER_AT;
    let mut bytes = Vec::new(alloc);
    lay_words(&mut bytes, 0, &handler(Mode::M))?;
    lay_words(&mut bytes, (S_HANDLER_AT - at) as usize, &handler(Mode::S))?;
    Ok(Segment {
        at,
        bytes,
        size: 2 * PAGE,
        flags: READ_EXECUTE,
    })
}

/// The first page of a hart's code.
fn code_segment(alloc: Global, hart: u8, words: &[u32]) -> Result<Segment, NoMemory>
    ensures { IfOk result (λ s. stretch_of s
        ≡ record { at = code_start hart; bytes = word_bytes words.now; size = 0x1000; flags = 5 }) }
{
    let mut bytes = Vec::new(alloc);
    lay_words(&mut bytes, 0, words)?;
    Ok(Segment {
        at: code_start(hart),
        bytes,
        size: PAGE,
        flags: READ_EXECUTE,
    })
}

/// Lays words from a place on behind the bytes, with zeros before them.
fn lay_words(bytes: &mut Vec<u8>, place: usize, words: &[u32]) -> Result<(), NoMemory>
    requires { length bytes.old.items ≤ place }
    ensures { OnOk result (bytes.new.items
        ≡ bytes.old.items ++ (replicate (place - length bytes.old.items) 0 ++ word_bytes words.now)) }
{
    bytes.resize(place, 0)?;
    for word in words {
        bytes.extend_from_slice(&word.to_le_bytes())?;
    }
    Ok(())
}

/// Lays values from a place on behind the bytes, with zeros before them.
fn lay_values(bytes: &mut Vec<u8>, place: usize, values: &[u64]) -> Result<(), NoMemory>
    requires { length bytes.old.items ≤ place }
    ensures { OnOk result (bytes.new.items
        ≡ bytes.old.items ++ (replicate (place - length bytes.old.items) 0 ++ value_bytes values.now)) }
{
    bytes.resize(place, 0)?;
    for value in values {
        bytes.extend_from_slice(&value.to_le_bytes())?;
    }
    Ok(())
}
