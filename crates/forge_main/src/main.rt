//! Makes machine tests from jobs, as the words of the command line say.
#![tactic(auto)]

use forge::plain_top;
use std::alloc::AllocError;
use std::env;
use std::io::{ErrorKind, Write};
use std::process::ExitCode;
use std::rt::Env;
use store_face::RealStore;

/// The exit status where the program is out of memory.
const OUT_OF_MEMORY: u8 = 8;

fn main(rt: HostRuntime) -> ExitCode {
    let Ok(words) = command_words(&rt) else {
        return ExitCode::from(OUT_OF_MEMORY);
    };
    let mut store = RealStore::new(&rt);
    let mut out = Vec::new(rt.alloc());
    let status = plain_top(rt.alloc(), &words, &mut store, &mut out);
    // The status stands where the line can't be printed, too.
    let _ = rt.stdout().write_all(&out);
    ExitCode::from(status)
}

/// The words after the program's name. Where one isn't UTF-8 there are none, which is not a command either.
fn command_words<R: Env + AllocGlobal>(rt: &R) -> Result<Vec<String>, AllocError> {
    match env::args(rt) {
        Ok(words) => words.skip(1).collect(rt.alloc()),
        Err(error) if error.kind() == ErrorKind::OutOfMemory => Err(AllocError),
        Err(_) => Ok(Vec::new(rt.alloc())),
    }
}
