use crate::fault::{StoreFault, record_fault};
use crate::files::Files;
use crate::store::Store;
use std::alloc::Global;

/// A store in memory, of which some calls fail as they are told to.
#[derive(Drop)]
pub struct MemStore {
    pub files: Files,
    /// How many calls there have been.
    pub calls: u64,
    /// The numbers of the calls that fail, counted from 0 over reads and writes.
    pub failing: Vec<u64>,
    pub read_faults: u64,
    pub write_faults: u64,
    /// The name of the last call that failed.
    pub last: Vec<u8>,
}

impl MemStore {
    ghost use Rattle.std.specs.Prelude.{◌≡◌, ◌≢◌, ◌+◌, ◌-◌, ◌^◌, min, List, ℕ, [], Some, None, IsSome, IsTrue, ◌↔◌, true, false, OnErr, IsErr};
    ghost use Rattle.std.specs.List.{Contains};
    ghost use Rattle.store_face.specs.Calls.{Reads, Writes};
    ghost use Rattle.store_face.specs.Held.{files_held};
    ghost use Rattle.store_face.specs.Seen.{store_state};

    /// A store with no file, of which no call fails.
    pub fn new(alloc: Global) -> MemStore
        ensures files { (name : List ℕ) → files_held result.files name ≡ None }
        ensures calls { result.calls ≡ 0 }
        ensures failing { result.failing.items ≡ [] }
        ensures read_faults { result.read_faults ≡ 0 }
        ensures write_faults { result.write_faults ≡ 0 }
        ensures last { result.last.items ≡ [] }
    {
        MemStore {
            files: Files::new(alloc),
            calls: 0,
            failing: Vec::new(alloc),
            read_faults: 0,
            write_faults: 0,
            last: Vec::new(alloc),
        }
    }

    /// Whether this call is one of those that fail. Counts the call.
    fn is_failing_call(&mut self) -> bool
        ensures failing { IsTrue result ↔ Contains self.old.failing.items self.old.calls }
        ensures counted { self.new ≡ record self.old { calls = min (self.old.calls + 1) (2 ^ 64 - 1) } }
    {
        let number = self.calls;
        self.calls = number.saturating_add(1);
        self.failing.contains(&number)
    }

    /// As `Store::read_whole`.
    pub fn read(&mut self, name: &str, most: usize, into: &mut Vec<u8>) -> Result<bool, StoreFault>
        ensures reads { Reads name.now most (store_state self.old) (store_state self.new) result into.new.items }
        ensures failing { self.new.failing.items ≡ self.old.failing.items }
        ensures calls { self.new.calls ≡ min (self.old.calls + 1) (2 ^ 64 - 1) }

        // A call fails if it is to fail or if there is no such file, and else it doesn't.
        ensures told { Contains self.old.failing.items self.old.calls → IsErr result }
        ensures missing { files_held self.old.files name.now ≡ None → IsErr result }
        ensures else_not { ¬ Contains self.old.failing.items self.old.calls → IsSome (files_held self.old.files name.now) → result ≢ Err StoreFault.Failed }

        ensures one_more { result ≡ Err StoreFault.Failed → self.new.read_faults ≡ min (self.old.read_faults + 1) (2 ^ 64 - 1) }
        ensures no_fault { result ≢ Err StoreFault.Failed → store_state self.new ≡ store_state self.old }
    {
        if self.is_failing_call() {
            return Err(record_fault(name, &mut self.read_faults, &mut self.last));
        }
        let Some(content) = self.files.get(name) else {
            return Err(record_fault(name, &mut self.read_faults, &mut self.last));
        };
        if content.len() > most {
            return Ok(false);
        }
        into.clear();
        into.extend_from_slice(content)?;
        Ok(true)
    }

    /// As `Store::write_whole`.
    pub fn write(&mut self, name: &str, bytes: &[u8]) -> Result<(), StoreFault>
        ensures writes { Writes name.now bytes.now (store_state self.old) (store_state self.new) result }
        ensures unchanged { OnErr result (files_held self.new.files ≡ files_held self.old.files) }
        ensures failing { self.new.failing.items ≡ self.old.failing.items }
        ensures calls { self.new.calls ≡ min (self.old.calls + 1) (2 ^ 64 - 1) }

        // A call fails if it is to fail, and else it doesn't.
        ensures told { Contains self.old.failing.items self.old.calls → IsErr result }
        ensures else_not { ¬ Contains self.old.failing.items self.old.calls → result ≢ Err StoreFault.Failed }

        ensures one_more { result ≡ Err StoreFault.Failed → self.new.write_faults ≡ min (self.old.write_faults + 1) (2 ^ 64 - 1) }
        ensures not_counted { result ≢ Err StoreFault.Failed → self.new.write_faults ≡ self.old.write_faults }
        ensures not_named { result ≢ Err StoreFault.Failed → self.new.last.items ≡ self.old.last.items }
    {
        if self.is_failing_call() {
            return Err(record_fault(name, &mut self.write_faults, &mut self.last));
        }
        self.files.put(name, bytes)?;
        Ok(())
    }
}

impl Store for MemStore {
    ghost use Rattle.store_face.specs.Seen.{store_state};

    ghost state = { store_state };

    fn read_whole(
        &mut self,
        name: &str,
        most: usize,
        into: &mut Vec<u8>,
    ) -> Result<bool, StoreFault> {
        self.read(name, most, into)
    }

    fn write_whole(&mut self, name: &str, bytes: &[u8]) -> Result<(), StoreFault> {
        self.write(name, bytes)
    }
}
