ghost use Rattle.std.specs.Prelude.{◌≡◌, ◌≢◌, [], ◌∷◌, map, option_map, string_bytes, IfOk, IfErr, OnOk};
ghost use Rattle.forge.specs.Words.{making_of};
ghost use Rattle.forge.specs.Ends.{LeftBy, Unchanged, Causes};

use crate::files::{read_inputs, write_output};
use crate::line::write_line;
use crate::made::Made;
use crate::making::make_serial;
use crate::stop::Stop;
use crate::words::{are_files, seed_of};
use choice_tree::Trees;
use job_read::read_job;
use std::alloc::Global;
use store_face::Store;

/// The most bytes that an input file has.
const MOST_BYTES: usize = 4_194_304;

/// The command `make-serial`, as its words spell it.
#[derive(Clone, Copy, Debug)]
pub(crate) struct MakeSerial<'a> {
    pub(crate) job: &'a str,
    pub(crate) trees: &'a str,
    pub(crate) seed: u64,
    pub(crate) elf: &'a str,
    pub(crate) order: &'a str,
    pub(crate) trace: &'a str,

    ghost elf_order: { elf.now ≢ order.now },
    ghost elf_trace: { elf.now ≢ trace.now },
    ghost order_trace: { order.now ≢ trace.now },
}

impl<'a> MakeSerial<'a> {
    ghost use Rattle.forge.specs.Stops.{making_seen, serial_seen, ending_of, EndsBy, files_of, IsMade, IsMadeFrom, IsStoppedForm, Becomes, StopsLate};

    /// What the words behind the command's name ask for, if they are JOB TREES SEED ELF ORDER TRACE.
    pub(crate) fn parse(words: &'a [String]) -> Option<MakeSerial<'a>>
        ensures { option_map making_seen result ≡ making_of (map string_bytes words.entry.now) }
    {
        let [job, trees, seed, elf, order, trace] = words else {
            return None;
        };
        let files = [
            job.as_str(),
            trees.as_str(),
            elf.as_str(),
            order.as_str(),
            trace.as_str(),
        ];
        let seed = seed_of(seed)?;
        if !are_files(&files) {
            return None;
        }
        let [job, trees, elf, order, trace] = files;
        Some(MakeSerial {
            job,
            trees,
            seed,
            elf,
            order,
            trace,
        })
    }

    /// Makes and writes the three files. The result is the status. The line to print is in `out` before the first write.
    pub(crate) fn run<S: Store>(
        &self,
        alloc: Global,
        store: &mut S,
        out: &mut Vec<u8>,
    ) -> Result<u8, Stop<'a>>
        ensures { EndsBy (Causes (serial_seen self.now) (S.state store.old) (S.state store.new)) result out.new.items }
    {
        let made = self.make(alloc, store)?;
        write_line(alloc, made.counts, out)?;
        self.write(store, &made)?;
        Ok(made.counts.status())
    }

    /// Makes the three files from what the store holds.
    fn make<S: Store>(&self, alloc: Global, store: &mut S) -> Result<Made, Stop<'a>>
        ensures unchanged { Unchanged (S.state store.old) (S.state store.new) }
        ensures made { IfOk result (λ made.
            IsMade (serial_seen self.now) (S.state store.old) (files_of (making_seen self.now) made) made.counts) }
        ensures stopped { IfErr result (λ stop. Causes (serial_seen self.now) (S.state store.old) (S.state store.new) (ending_of stop)) }
    {
        let inputs = read_inputs(alloc, store, &[self.job, self.trees], MOST_BYTES)?;
        self.make_from(alloc, &inputs[0], &inputs[1])
    }

    /// Makes the three files from the contents of the input files.
    fn make_from(&self, alloc: Global, job: &[u8], trees: &[u8]) -> Result<Made, Stop<'a>>
        ensures made { IfOk result (IsMadeFrom (making_seen self.now) job.now trees.now) }
        ensures stopped { IfErr result (λ stop. IsStoppedForm (serial_seen self.now) (job.now ∷ trees.now ∷ []) (ending_of stop)) }
    {
        let job = read_job(alloc, job).map_err(|fault| Stop::at_content(self.job, fault))?;
        let trees = Trees::read(alloc, trees).map_err(|fault| Stop::at_content(self.trees, fault))?;
        Ok(make_serial(alloc, &job, &trees, self.seed)?)
    }

    /// Writes the three files.
    fn write<S: Store>(&self, store: &mut S, made: &Made) -> Result<(), Stop<'a>>
        ensures written { OnOk result (Becomes (S.state store.old) (S.state store.new) (LeftBy (files_of (making_seen self.now) made.now) 3)) }
        ensures stopped { IfErr result (λ stop.
            StopsLate (files_of (making_seen self.now) made.now) (S.state store.old) (S.state store.new) (ending_of stop)) }
    {
        write_output(store, self.elf, &made.elf)?;
        write_output(store, self.order, &made.order)?;
        write_output(store, self.trace, &made.trace)
    }
}
