//! Reads the words of a case; the module of the vectors says what they mean.

use rv_csr::Csr;
use rv_fields::{Mode, csr_named};
use rv_step::{AccessKind, Accessed, Reserved, Trap};
use std::alloc::Global;
use std::test::*;

/// What a case tells of the hart and of memory, before the step or behind it.
#[derive(Drop)]
pub struct State {
    pub mode: Mode,
    pub pc: u64,
    pub x: Vec<(u8, u64)>,
    pub csrs: Vec<(Csr, u64)>,
    pub reserved: Option<Reserved>,
    /// Doublewords, each with its physical address.
    pub memory: Vec<(u64, u64)>,
}

impl State {
    fn new(alloc: Global) -> State {
        State {
            mode: Mode::M,
            pc: 0,
            x: Vec::new(alloc),
            csrs: Vec::new(alloc),
            reserved: None,
            memory: Vec::new(alloc),
        }
    }

    /// Takes in `MODE:PC`.
    fn begin(&mut self, rest: &str) -> Result<(), Fail> {
        let (mode, pc) = halves(rest)?;
        self.mode = mode_named(mode)?;
        self.pc = hexadecimal(pc)?;
        Ok(())
    }

    /// Takes in a word of the key, whose rest this is.
    fn take(&mut self, key: &str, rest: &str) -> Result<(), Fail> {
        if let Some(number) = key.strip_prefix('x') {
            self.x.push((decimal(number)?, hexadecimal(rest)?))?;
        } else if key == "at" {
            self.memory.push(two(rest)?)?;
        } else if key == "reserved" {
            let (pa, size) = halves(rest)?;
            self.reserved = Some(Reserved {
                pa: hexadecimal(pa)?,
                size: decimal(size)?,
            });
        } else {
            let csr = csr_named(key).ok_or("the name of a CSR")?;
            self.csrs.push((csr, hexadecimal(rest)?))?;
        }
        Ok(())
    }
}

/// A case, as far as it was read.
#[derive(Drop)]
pub struct Case {
    /// The word that begins the case.
    pub title: String,
    /// The instruction, with its physical address.
    pub word: Option<(u64, u32)>,
    pub before: State,
    pub after: State,
    pub is_fetched: bool,
    pub access: Option<Accessed>,
    /// The entries that the data access reads, each with its address.
    pub trail: Vec<(u64, u64)>,
    pub trap: Option<Trap>,
    /// Whether the words are of the state behind the step.
    is_behind: bool,
}

impl Case {
    pub fn new(alloc: Global, title: &str) -> Result<Case, Fail> {
        Ok(Case {
            title: format!(in alloc; "{title}")?,
            word: None,
            before: State::new(alloc),
            after: State::new(alloc),
            is_fetched: true,
            access: None,
            trail: Vec::new(alloc),
            trap: None,
            is_behind: false,
        })
    }

    /// Takes in a word.
    pub fn take(&mut self, word: &str) -> Result<(), Fail> {
        let (key, rest) = match word.split_once(':') {
            Some(halves) => halves,
            None => (word, ""),
        };
        match key {
            "before" => self.before.begin(rest)?,
            "after" => {
                self.is_behind = true;
                self.after.begin(rest)?;
            }
            "word" => {
                let (at, number) = two(rest)?;
                self.word = Some((at, u32::try_from(number)?));
            }
            "unfetched" => self.is_fetched = false,
            "load" => self.access = Some(access(AccessKind::Load, rest)?),
            "store" => self.access = Some(access(AccessKind::Store, rest)?),
            "lr" => self.access = Some(access(AccessKind::Lr, rest)?),
            "sc" => self.access = Some(access(AccessKind::Sc, rest)?),
            "amo" => self.access = Some(access(AccessKind::Amo, rest)?),
            "read" => {
                let made = self.access.as_mut().ok_or("an access that reads")?;
                made.read = Some(hexadecimal(rest)?);
            }
            "wrote" => {
                let made = self.access.as_mut().ok_or("an access that writes")?;
                made.wrote = Some(hexadecimal(rest)?);
            }
            "entry" => self.trail.push(two(rest)?)?,
            "trap" => self.trap = Some(trap(rest)?),
            _ if self.is_behind => self.after.take(key, rest)?,
            _ => self.before.take(key, rest)?,
        }
        Ok(())
    }
}

/// `SIZE:VA:PA`.
fn access(kind: AccessKind, rest: &str) -> Result<Accessed, Fail> {
    let (size, places) = halves(rest)?;
    let (va, pa) = two(places)?;
    Ok(Accessed {
        kind,
        va,
        pa,
        size: decimal(size)?,
        read: None,
        wrote: None,
    })
}

/// `CAUSE:EPC:TVAL:MODE`.
fn trap(rest: &str) -> Result<Trap, Fail> {
    let (cause, rest) = halves(rest)?;
    let (epc, rest) = halves(rest)?;
    let (tval, mode) = halves(rest)?;
    Ok(Trap {
        cause: u64::from(decimal(cause)?),
        epc: hexadecimal(epc)?,
        tval: hexadecimal(tval)?,
        to: mode_named(mode)?,
    })
}

fn two(rest: &str) -> Result<(u64, u64), Fail> {
    let (first, second) = halves(rest)?;
    Ok((hexadecimal(first)?, hexadecimal(second)?))
}

fn halves(rest: &str) -> Result<(&str, &str), Fail> {
    Ok(rest.split_once(':').ok_or("a colon")?)
}

fn hexadecimal(digits: &str) -> Result<u64, Fail> {
    Ok(u64::from_str_radix(digits, 16)?)
}

fn decimal(digits: &str) -> Result<u8, Fail> {
    Ok(u8::from_str_radix(digits, 10)?)
}

fn mode_named(name: &str) -> Result<Mode, Fail> {
    match name {
        "U" => Ok(Mode::U),
        "S" => Ok(Mode::S),
        "M" => Ok(Mode::M),
        _ => Err(Fail::from("a mode")),
    }
}
