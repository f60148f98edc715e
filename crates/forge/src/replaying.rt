ghost use Rattle.std.specs.Prelude.{◌≡◌, [], ◌∷◌, map, option_map, string_bytes, IfOk, IfErr};
ghost use Rattle.forge.specs.Words.{replay, replaying_of};
ghost use Rattle.forge.specs.Ends.{Causes, IsJudged, ending_on, status_of};

use crate::files::read_inputs;
use crate::line::write_line;
use crate::stop::{Reason, Stop};
use crate::words::are_files;
use std::alloc::Global;
use store_face::Store;
use trace_replay::{ReplayFault, Reset, Verdict, replay};

/// The most bytes that an input file has.
const MOST_BYTES: usize = 536_870_912;

/// The reset from which the program is played.
const ZEROS: Reset = Reset {
    x: [0; 31],
    csrs: [0; 19],
};

/// The command `replay`, as its words spell it.
#[derive(Clone, Copy, Debug)]
pub(crate) struct Replay<'a> {
    pub(crate) elf: &'a str,
    pub(crate) order: &'a str,
    pub(crate) trace: &'a str,
}

impl<'a> Replay<'a> {
    ghost use Rattle.forge.specs.Stops.{replaying_seen, ending_of, EndsBy, IsStoppedForm, stop_ending};

    /// What the words behind the command's name ask for, if they are ELF ORDER TRACE.
    pub(crate) fn parse(words: &'a [String]) -> Option<Replay<'a>>
        ensures { option_map replaying_seen result ≡ replaying_of (map string_bytes words.entry.now) }
    {
        let [elf, order, trace] = words else {
            return None;
        };
        let files = [elf.as_str(), order.as_str(), trace.as_str()];
        if !are_files(&files) {
            return None;
        }
        let [elf, order, trace] = files;
        Some(Replay { elf, order, trace })
    }

    /// Plays the program and compares it with the trace. The result is the status: 0 where they agree, else 1.
    pub(crate) fn run<S: Store>(
        &self,
        alloc: Global,
        store: &mut S,
        out: &mut Vec<u8>,
    ) -> Result<u8, Stop<'a>>
        ensures { EndsBy (Causes (replay (replaying_seen self.now)) (S.state store.old) (S.state store.new)) result out.new.items }
    {
        let inputs = read_inputs(
            alloc,
            store,
            &[self.elf, self.order, self.trace],
            MOST_BYTES,
        )?;
        let verdict = self.judge(alloc, &inputs[0], &inputs[1], &inputs[2])?;
        let status = status_of(&verdict);
        write_line(alloc, verdict, out)?;
        Ok(status)
    }

    /// The verdict on the contents of the three files.
    fn judge(
        &self,
        alloc: Global,
        elf: &[u8],
        order: &[u8],
        trace: &[u8],
    ) -> Result<Verdict, Stop<'a>>
        ensures judged { IfOk result (λ verdict. IsJudged elf.now order.now trace.now (ending_on verdict)) }
        ensures stopped { IfErr result (λ stop.
            IsStoppedForm (replay (replaying_seen self.now)) (elf.now ∷ order.now ∷ trace.now ∷ []) (ending_of stop)) }
    {
        match replay(alloc, elf, order, trace, &ZEROS) {
            Ok(verdict) => Ok(verdict),
            Err(fault) => Err(self.stop_at(fault)),
        }
    }

    /// The stop at what one of the files holds.
    fn stop_at(&self, fault: ReplayFault) -> Stop<'a>
        ensures { ending_of result ≡ stop_ending (replaying_seen self.now) fault }
    {
        match fault {
            ReplayFault::Elf(fault) => Stop::Refused {
                name: self.elf,
                reason: Reason::Elf(fault),
            },
            ReplayFault::Order(fault) => Stop::Refused {
                name: self.order,
                reason: Reason::Line(fault),
            },
            ReplayFault::Trace(fault) => Stop::Refused {
                name: self.trace,
                reason: Reason::Line(fault),
            },
            ReplayFault::Memory => Stop::Memory,
        }
    }
}

/// The status that the verdict ends the command with.
fn status_of(verdict: &Verdict) -> u8
    ensures { result ≡ status_of (ending_on verdict.now) }
{
    match verdict {
        Verdict::Agrees { .. } => 0,
        Verdict::Differs(_) => 1,
    }
}
