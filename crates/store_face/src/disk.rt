ghost use Rattle.std.specs.Prelude.{◌≡◌, ◌≤◌, true, length, IfOk, vec_len};

use crate::fault::{StoreFault, record_fault};
use crate::store::Store;
use std::alloc::{AllocError, Global};
use std::io::{ErrorKind, Read, Write};
use std::rt::Files;
use std::{fs, io};

/// How many bytes are read at a time.
const CHUNK: usize = 64 * 1024;

/// The files of the system, by their paths. What they hold is not told.
#[derive(Drop)]
pub struct RealStore<'a, R> {
    pub rt: &'a R,
    pub read_faults: u64,
    pub write_faults: u64,
    /// The name of the last call that failed.
    pub last: Vec<u8>,
}

impl<'a, R: Files + AllocGlobal> RealStore<'a, R> {
    ghost use Rattle.std.specs.Prelude.{[]};

    /// The files that the runtime reaches, with no call so far.
    pub fn new(rt: &'a R) -> RealStore<'a, R>
        ensures read_faults { result.read_faults ≡ 0 }
        ensures write_faults { result.write_faults ≡ 0 }
        ensures last { result.last.items ≡ [] }
    {
        RealStore {
            rt,
            read_faults: 0,
            write_faults: 0,
            last: Vec::new(rt.alloc()),
        }
    }
}

impl<R: Files + AllocGlobal> Store for RealStore<'_, R> {
    ghost use Rattle.store_face.specs.Seen.{silent};

    ghost state = { λ store. silent store.read_faults store.write_faults store.last.items };

    fn read_whole(
        &mut self,
        name: &str,
        most: usize,
        into: &mut Vec<u8>,
    ) -> Result<bool, StoreFault> {
        match read_file(self.rt, name, most, into) {
            Err(StoreFault::Failed) => Err(record_fault(
                name,
                &mut self.read_faults,
                &mut self.last,
            )),
            answer => answer,
        }
    }

    fn write_whole(&mut self, name: &str, bytes: &[u8]) -> Result<(), StoreFault> {
        match write_file(self.rt, name, bytes) {
            Ok(()) => Ok(()),
            Err(_) => Err(record_fault(name, &mut self.write_faults, &mut self.last)),
        }
    }
}

/// A buffer of so many bytes.
fn zeros(alloc: Global, len: usize) -> Result<Vec<u8>, AllocError>
    ensures { IfOk result (λ buffer. vec_len buffer ≡ len) }
{
    vec![in alloc; 0; len]
}

/// Reads the file of the name into `into`, or one byte more than `most` of it.
fn read_file<R: Files + AllocGlobal>(
    rt: &R,
    name: &str,
    most: usize,
    into: &mut Vec<u8>,
) -> Result<bool, StoreFault>
    ensures { result ≡ Ok true → length into.new.items ≤ most }
{
    into.clear();
    let Ok(mut file) = fs::open(rt, name) else {
        return Err(StoreFault::Failed);
    };
    let mut chunk = zeros(rt.alloc(), CHUNK)?;
    for _ in 0..u64::MAX {
        let wanted = CHUNK.min((most - into.len()).saturating_add(1));
        match file.read(&mut chunk[..wanted]) {
            Ok(0) => return Ok(true),
            Ok(count) => into.extend_from_slice(&chunk[..count])?,
            Err(error) if error.kind() == ErrorKind::Interrupted => {}
            Err(_) => return Err(StoreFault::Failed),
        }
        if into.len() > most {
            return Ok(false);
        }
    }
    Err(StoreFault::Failed)
}

/// Writes the file of the name anew.
fn write_file<R: Files>(rt: &R, name: &str, bytes: &[u8]) -> io::Result<()> {
    fs::create(rt, name)?.write_all(bytes)
}
