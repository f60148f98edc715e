ghost use Rattle.std.specs.Prelude.{◌≡◌, map, option_map, string_bytes};

use crate::replaying::Replay;
use crate::serial::MakeSerial;
use crate::stop::Stop;
use std::alloc::Global;
use store_face::Store;

/// What the words of a command line ask for.
#[derive(Clone, Copy, Debug)]
pub(crate) enum Command<'a> {
    MakeSerial(MakeSerial<'a>),
    Replay(Replay<'a>),
}

impl<'a> Command<'a> {
    ghost use Rattle.forge.specs.Words.{command_of};
    ghost use Rattle.forge.specs.Ends.{Causes};
    ghost use Rattle.forge.specs.Stops.{command_seen, EndsBy};

    /// The command that the words are, if they are one: its name, and what it takes.
    pub(crate) fn parse(words: &'a [String]) -> Option<Command<'a>>
        ensures { option_map command_seen result ≡ command_of (map string_bytes words.entry.now) }
    {
        let (name, words) = words.split_first()?;
        match name.as_str() {
            "make-serial" => MakeSerial::parse(words).map(Command::MakeSerial),
            "replay" => Replay::parse(words).map(Command::Replay),
            _ => None,
        }
    }

    /// Runs the command. Where it did what it was asked for, the result is its status, and `out` has the line to print.
    pub(crate) fn run<S: Store>(
        &self,
        alloc: Global,
        store: &mut S,
        out: &mut Vec<u8>,
    ) -> Result<u8, Stop<'a>>
        ensures { EndsBy (Causes (command_seen self.now) (S.state store.old) (S.state store.new)) result out.new.items }
    {
        match self {
            Command::MakeSerial(command) => command.run(alloc, store, out),
            Command::Replay(command) => command.run(alloc, store, out),
        }
    }
}
