ghost use Rattle.std.specs.Prelude.{◌≡◌, ◌+◌, ◌-◌, ◌*◌, ◌/◌, ◌%◌, ◌≤◌, ◌<◌, ◌↔◌, ◌&&◌, ◌⊎◌, ℕ, length, slice_index, slice_index_or, nat_le, nat_lt, ◌^◌, false, replicate, IsTrue, IsSome, IfSome, Some, OnOk, OnErr, IfOk, if◌then◌else◌};
ghost use Rattle.ram_image.specs.Segments.{memory_of, stretches, laid_over};
ghost use Rattle.rv_fields.specs.Memory.{in_ram, number_of, told, whole, stored, IsSize, ram_start, ram_end};

use crate::segment::Segment;
use rv_fields::{NoMemory, RAM_END, RAM_START, in_ram};
use std::alloc::Global;

const PAGE_SIZE: usize = 4096;

/// The size of a page, for addresses.
const PAGE: u64 = 4096;

/// How many pages RAM has.
const PAGE_COUNT: usize = ((RAM_END - RAM_START) / PAGE) as usize;

/// A page of zeros: room for stores to one page of RAM, which needs no memory any more.
#[derive(Drop)]
pub struct Spare {
    zeros: Box<[u8; PAGE_SIZE]>,
    ghost zeros_are: { zeros.value ≡ replicate 4096 0 },
}

impl Spare {
    pub fn new(alloc: Global) -> Result<Spare, NoMemory> {
        let zeros = Box::new(alloc, [0; PAGE_SIZE])?;
        Ok(Spare { zeros })
    }
}

/// The bytes of RAM. A page is kept where something was written; all else is 0.
#[derive(Drop)]
pub struct Ram {
    pages: Vec<Option<Box<[u8; PAGE_SIZE]>>>,
    ghost whole: { length pages.items ≡ (ram_end - ram_start) / 4096 },
}

impl Ram {
    ghost use Rattle.ram_image.specs.Ram.{memory, is_reserved, bytes_from};

    /// The number of `size` bytes at the address, the lowest first; none where a byte lies outside RAM.
    pub fn load(&self, at: u64, size: u8) -> Option<u64>
        requires some { 0 < size }
        requires most { size ≤ 8 }
        ensures value { told (whole (memory self.now)) at size ≡ Some result }
        ensures inside { IsSome result ↔ IsTrue (in_ram at size) }
        ensures small { IfSome result (λ number. number < 2 ^ (8 * size)) }
    {
        if !in_ram(at, u64::from(size)) {
            return None;
        }
        let place = (at - RAM_START) as usize;
        let (page, first) = (place / PAGE_SIZE, place % PAGE_SIZE);
        let past = first + usize::from(size);
        if past > PAGE_SIZE {
            return Some(self.number_by_bytes(at, size));
        }
        match &self.pages[page] {
            Some(bytes) => Some(number_of(&bytes[first..past])),
            None => Some(0),
        }
    }

    /// The number of so many bytes, each of them looked up.
    fn number_by_bytes(&self, at: u64, size: u8) -> u64
        requires most { size ≤ 8 }
        requires inside { IsTrue (in_ram at size) }
        ensures number { result ≡ number_of (bytes_from (memory self.now) at size) }
        ensures small { result < 2 ^ (8 * size) }
    {
        let mut bytes = [0; 8];
        for index in 0..size {
            bytes[usize::from(index)] = self.byte(at + u64::from(index));
        }
        number_of(&bytes[..usize::from(size)])
    }

    /// The memory of the segments as far as it is RAM, and 0 elsewhere. Where segments share addresses, the first of
    /// them counts.
    pub fn from_segments(alloc: Global, segments: &[Segment]) -> Result<Ram, NoMemory>
        ensures { IfOk result (λ ram. (a : ℕ) → memory ram a
            ≡ (if in_ram a 1 then memory_of (stretches segments.now) a else 0)) }
    {
        let mut ram = Ram::zeros(alloc)?;
        let mut left = segments.len();
        while left > 0 {
            left -= 1;
            let segment = &segments[left];
            ram.lay(alloc, segment.at, &segment.bytes, segment.size)?;
        }
        Ok(ram)
    }

    /// RAM that holds 0 everywhere.
    pub fn zeros(alloc: Global) -> Result<Ram, NoMemory>
        ensures { IfOk result (λ ram. (a : ℕ) → memory ram a ≡ 0) }
    {
        let mut pages = Vec::with_capacity(alloc, PAGE_COUNT)?;
        for _ in 0..PAGE_COUNT {
            pages.push(None)?;
        }
        Ok(Ram { pages })
    }

    /// Lays the bytes over what is there, from the address on, and zeros behind them up to so many addresses. What
    /// would lie outside RAM is passed over. Where memory runs out, some of them may be laid.
    pub fn lay(&mut self, alloc: Global, at: u64, bytes: &[u8], size: u64) -> Result<(), NoMemory>
        ensures laid { OnOk result ((a : ℕ) → memory self.new a ≡ laid_over (memory self.old) at bytes.now size a) }
        ensures partly { OnErr result ((a : ℕ) → (memory self.new a ≡ memory self.old a)
            ⊎ (memory self.new a ≡ laid_over (memory self.old) at bytes.now size a)) }
        ensures stays { (a : ℕ) → IsTrue (is_reserved self.old a) → IsTrue (is_reserved self.new a) }
    {
        let end = at.saturating_add(size).min(RAM_END);
        let mut from = at.max(RAM_START);
        while from < end {
            let to = end.min((from / PAGE + 1) * PAGE);
            self.lay_part(alloc, from, to, part(bytes, from - at, to - at))?;
            from = to;
        }
        Ok(())
    }

    /// Lays the bytes, and zeros behind them, over what is there from one address of a page up to another.
    fn lay_part(&mut self, alloc: Global, at: u64, to: u64, bytes: &[u8]) -> Result<(), NoMemory>
        requires inside { (ram_start ≤ at) × (at < ram_end) × (to ≤ ram_end) }
        requires room { at + length bytes.now ≤ to }
        requires page { (at - ram_start) % 4096 + (to - at) ≤ 4096 }
        ensures laid { OnOk result ((a : ℕ) → memory self.new a
            ≡ (if nat_le at a && nat_lt a to then slice_index bytes.now (a - at) else memory self.old a)) }
        ensures unchanged { OnErr result ((a : ℕ) → memory self.new a ≡ memory self.old a) }
        ensures stays { (a : ℕ) → IsTrue (is_reserved self.old a) → IsTrue (is_reserved self.new a) }
    {
        if bytes.is_empty() && !self.is_reserved(at) {
            return Ok(());
        }
        self.reserve(alloc, at)?;
        self.put(at, to, bytes);
        Ok(())
    }

    /// Whether so many bytes from the address on lie in RAM.
    pub fn holds(&self, at: u64, size: u8) -> bool
        ensures { result ≡ in_ram at size }
    {
        in_ram(at, u64::from(size))
    }

    /// Whether there is room for stores to the page of the address.
    pub fn is_reserved(&self, at: u64) -> bool
        requires { IsTrue (in_ram at 1) }
        ensures { result ≡ is_reserved self.now at }
    {
        self.pages[(at - RAM_START) as usize / PAGE_SIZE].is_some()
    }

    /// Makes room for stores to the page of the address. Outside RAM there is none to be made.
    pub fn reserve(&mut self, alloc: Global, at: u64) -> Result<(), NoMemory>
        ensures reserved { OnOk result ((a : ℕ) → IsTrue (in_ram at 1) → a / 4096 ≡ at / 4096
            → IsTrue (is_reserved self.new a)) }
        ensures stays { (a : ℕ) → IsTrue (is_reserved self.old a) → IsTrue (is_reserved self.new a) }
        ensures same { (a : ℕ) → memory self.new a ≡ memory self.old a }
    {
        if !in_ram(at, 1) {
            return Ok(());
        }
        if !self.is_reserved(at) {
            let spare = Spare::new(alloc)?;
            self.reserve_with(at, spare);
        }
        Ok(())
    }

    /// Makes room for stores to the page of the address by a spare page.
    pub fn reserve_with(&mut self, at: u64, spare: Spare)
        requires inside { IsTrue (in_ram at 1) }
        requires unreserved { is_reserved self.old at ≡ false }
        ensures reserved { (a : ℕ) → a / 4096 ≡ at / 4096 → IsTrue (is_reserved self.new a) }
        ensures stays { (a : ℕ) → IsTrue (is_reserved self.old a) → IsTrue (is_reserved self.new a) }
        ensures same { (a : ℕ) → memory self.new a ≡ memory self.old a }
    {
        let Spare { zeros } = spare;
        self.pages[(at - RAM_START) as usize / PAGE_SIZE] = Some(zeros);
    }

    /// Stores the lowest `size` bytes of the value at the address, the lowest first.
    pub fn store(&mut self, at: u64, size: u8, value: u64)
        requires size { IsSize size }
        requires aligned { at % size ≡ 0 }
        requires inside { IsTrue (in_ram at size) }
        requires reserved { IsTrue (is_reserved self.old at) }
        ensures stored { (a : ℕ) → whole (memory self.new) a ≡ stored (whole (memory self.old)) at size value a }
        ensures stays { (a : ℕ) → IsTrue (is_reserved self.old a) → IsTrue (is_reserved self.new a) }
    {
        let bytes = value.to_le_bytes();
        self.put(at, at + u64::from(size), &bytes[..usize::from(size)]);
    }

    /// The byte at an address of RAM.
    fn byte(&self, at: u64) -> u8
        requires { IsTrue (in_ram at 1) }
        ensures { result ≡ memory self.now at }
    {
        let place = (at - RAM_START) as usize;
        match &self.pages[place / PAGE_SIZE] {
            Some(bytes) => bytes[place % PAGE_SIZE],
            None => 0,
        }
    }

    /// Puts the bytes, and zeros behind them, to the addresses from one of a page up to another.
    fn put(&mut self, at: u64, to: u64, bytes: &[u8])
        requires inside { (ram_start ≤ at) × (at < ram_end) × (to ≤ ram_end) }
        requires room { at + length bytes.now ≤ to }
        requires page { (at - ram_start) % 4096 + (to - at) ≤ 4096 }
        requires reserved { IsTrue (is_reserved self.old at) }
        ensures put { (a : ℕ) → memory self.new a
            ≡ (if nat_le at a && nat_lt a to then slice_index bytes.now (a - at) else memory self.old a) }
        ensures stays { (a : ℕ) → IsTrue (is_reserved self.old a) → IsTrue (is_reserved self.new a) }
    {
        let place = (at - RAM_START) as usize;
        let (page, first) = (place / PAGE_SIZE, place % PAGE_SIZE);
        let past = first + (to - at) as usize;
        if let Some(kept) = &mut self.pages[page] {
            put_in(&mut kept[..], first, past, bytes);
        }
    }
}

/// The bytes from one place up to another, as far as there are any.
fn part(bytes: &[u8], from: u64, to: u64) -> &[u8]
    requires { from ≤ to }
    ensures short { length result.now ≤ to - from }
    ensures bytes { (k : ℕ) → k < to - from → slice_index result.now k ≡ slice_index bytes.now (from + k) }
{
    let len = bytes.len() as u64;
    &bytes[from.min(len) as usize..to.min(len) as usize]
}

/// The number that at most eight bytes spell, the lowest first.
fn number_of(bytes: &[u8]) -> u64
    requires { length bytes.now ≤ 8 }
    ensures number { result ≡ number_of bytes.now }
    ensures small { result < 2 ^ (8 * length bytes.now) }
{
    let mut padded = [0; 8];
    padded[..bytes.len()].copy_from_slice(bytes);
    u64::from_le_bytes(padded)
}

/// Puts the bytes, and zeros behind them, to the places from one up to another.
fn put_in(page: &mut [u8], first: usize, past: usize, bytes: &[u8])
    requires room { first + length bytes.now ≤ past }
    requires inside { past ≤ length page.old }
    ensures { (k : ℕ) → slice_index page.new k
        ≡ (if nat_le first k && nat_lt k past then slice_index bytes.now (k - first) else slice_index page.old k) }
{
    let zeros = first + bytes.len();
    page[first..zeros].copy_from_slice(bytes);
    page[zeros..past].fill(0);
}
