ghost use Rattle.std.specs.Prelude.{◌⊎◌, map, string_bytes};
ghost use Rattle.forge.specs.Ends.{out_of_memory, Ends};
ghost use Rattle.forge.specs.Stops.{ending_of, IsTold, IsCause, EndsBy};

use crate::command::Command;
use crate::line::write_line;
use crate::stop::Stop;
use std::alloc::Global;
use store_face::Store;

/// Does what the words of the command line say, over the store: all commands that wait for nobody. `out` is emptied
/// first, and receives the line to print, with its newline. The result is the exit status:
///
/// | status | meaning |
/// |---|---|
/// | 0 | the three files are written and no request was refused, or the trace tells what the program does |
/// | 1 | the trace tells otherwise than the program does |
/// | 2 | the three files are written, and some request was refused, which the trace tells |
/// | 3 | the words are not a command |
/// | 4 | a file can't be read |
/// | 5 | a file can't be written |
/// | 6 | an input file isn't accepted |
/// | 7 | an input file is too long |
/// | 8 | out of memory; nothing is printed |
pub fn plain_top<S: Store>(alloc: Global, words: &[String], store: &mut S, out: &mut Vec<u8>) -> u8
    ensures { Ends (map string_bytes words.now) (S.state store.old) (S.state store.new) result out.new.items }
{
    match run(alloc, words, store, out) {
        Ok(status) => status,
        Err(stop) => tell(alloc, stop, out),
    }
}

/// Runs the command that the words are. The result is the status of its success.
fn run<'a, S: Store>(
    alloc: Global,
    words: &'a [String],
    store: &mut S,
    out: &mut Vec<u8>,
) -> Result<u8, Stop<'a>>
    ensures { EndsBy (IsCause (map string_bytes words.entry.now) (S.state store.old) (S.state store.new)) result out.new.items }
{
    let command = Command::parse(words).ok_or(Stop::Usage)?;
    command.run(alloc, store, out)
}

/// Tells of the stop in `out`, in place of what it holds: the exit status, which is 8, out of memory, where there is
/// none for the line.
fn tell(alloc: Global, stop: Stop, out: &mut Vec<u8>) -> u8
    ensures { IsTold (ending_of stop.entry) result out.new.items ⊎ IsTold out_of_memory result out.new.items }
{
    if stop == Stop::Memory || write_line(alloc, stop, out).is_err() {
        out.clear();
        return Stop::Memory.status();
    }
    stop.status()
}
