//! The fields of a line, taken one after another.
ghost use Rattle.std.specs.Prelude.{◌≡◌, ◌≢◌, ◌+◌, ◌<◌, ◌≤◌, [], List, ℕ, MatchResult, IfSome, length};
ghost use Rattle.std.specs.List.{flat_map, AllByRecursion};
ghost use Rattle.std.specs.Fmt.{decimal};
ghost use Rattle.std.specs.Str.Parse.{digits_value};
ghost use Rattle.trace_fields.specs.Text.{hex, word_text, kind_text, cause_text, or_none, write_text, access_text, trail_text, trap_text, joined_by, slash, byte_text};
ghost use Rattle.trace_fields.specs.Fields.{FieldTest, fields_in, is_word, is_decimal, is_another_hart};
ghost use Rattle.trace_fields.specs.Numbers.{decimal_below, word_reading};
ghost use Rattle.trace_fields.specs.Readings.{hex_reading, count_reading, kind_reading, cause_reading, number_reading, preambles, name_reading, register_reading, space_reading, path_reading, bytes_reading, optional, write_reading, access_reading, trail_reading, trap_reading};
ghost use Rattle.trace_fields.specs.Ranges.{IsAnyOf, IsName, IsPath, AreFixedBytes, IsWrite, IsAccess, IsEntry, IsTrap};
ghost use Rattle.trace_fields.specs.Bounds.{count_bound, hex_bound, word_bound, register_bound, space_bound, most_entries, most_fields};
ghost use Rattle.trace_fields.specs.Taking.{left, whole_line, IsWrongBy, Took, Passed, Takes, Lacks};

use crate::access::AccessText;
use crate::fault::LineFault;
use crate::parts::Parts;
use crate::request::{Cause, Kind};
use crate::trail::TrailText;
use crate::trap::TrapText;
use crate::{numbers, readings};
use rv_fields::{Name, name_of};
use std::alloc::Global;

/// The fields of a line, taken one after another.
#[derive(Clone, Copy)]
pub struct Fields<'a> {
    /// The number of the line, from 1 on.
    line: u64,
    /// The number of the next field, from 1 on.
    number: u32,
    parts: Parts<'a>,
}

impl<'a> Fields<'a> {
    /// The fields of the line of this number, which has this text.
    pub fn of(line: u64, text: &'a [u8]) -> Fields<'a>
        ensures { left result ≡ whole_line line (fields_in text.now) }
    {
        Fields {
            line,
            number: 1,
            parts: Parts::of(text, b' '),
        }
    }

    /// The fault that the next field is wrong, missing or too many.
    pub fn fault(&self) -> LineFault
        ensures { result ≡ LineFault.At (left self.now).line (left self.now).number }
    {
        LineFault::At {
            line: self.line,
            field: self.number,
        }
    }

    /// The next field, whatever it is.
    pub fn next(&mut self) -> Result<&'a [u8], LineFault>
        requires { (left self.old).number < most_fields }
        ensures { MatchResult result (λ field. Took self.old self.new field.now) (λ fault. ((left self.old).fields ≡ []) × ((test : FieldTest) → Lacks test self.old fault)) }
    {
        let fault = self.fault();
        let field = self.parts.next().ok_or(fault)?;
        self.number += 1;
        Ok(field)
    }

    /// The end of the line.
    pub fn end(&self) -> Result<(), LineFault>
        ensures { MatchResult result (λ end. (left self.now).fields ≡ []) (λ fault. IsWrongBy [] (left self.now) fault) }
    {
        let mut parts = self.parts;
        match parts.next() {
            Some(_) => Err(self.fault()),
            None => Ok(()),
        }
    }

    /// A hart below this number.
    pub fn hart(&mut self, harts: u8) -> Result<u8, LineFault>
        requires { (left self.old).number < most_fields }
        ensures { Takes (decimal_below harts) decimal (λ h. h < harts) (λ v. v) self.old self.new result }
    {
        let fault = self.fault();
        let told = numbers::decimal_below(self.next()?, u64::from(harts)).ok_or(fault)?;
        Ok(told as u8)
    }

    /// A number that counts something.
    pub fn count(&mut self) -> Result<u32, LineFault>
        requires { (left self.old).number < most_fields }
        ensures { Takes count_reading decimal (λ n. n < count_bound) (λ v. v) self.old self.new result }
    {
        let fault = self.fault();
        readings::count_of(self.next()?).ok_or(fault)
    }

    /// A number in hexadecimal digits.
    pub fn hex(&mut self) -> Result<u64, LineFault>
        requires { (left self.old).number < most_fields }
        ensures { Takes hex_reading hex (λ n. n < hex_bound) (λ v. v) self.old self.new result }
    {
        let fault = self.fault();
        numbers::hex_of(self.next()?).ok_or(fault)
    }

    /// A word.
    pub fn word(&mut self) -> Result<u32, LineFault>
        requires { (left self.old).number < most_fields }
        ensures { Takes word_reading word_text (λ w. w < word_bound) (λ v. v) self.old self.new result }
    {
        let fault = self.fault();
        numbers::word_of(self.next()?).ok_or(fault)
    }

    /// A register, x1 to x31.
    pub fn register(&mut self) -> Result<u32, LineFault>
        requires { (left self.old).number < most_fields }
        ensures { Takes register_reading decimal (λ r. (1 ≤ r) × (r < register_bound)) (λ v. v) self.old self.new result }
    {
        let fault = self.fault();
        let told = readings::register_of(self.next()?).ok_or(fault)?;
        Ok(told.into())
    }

    /// An address space.
    pub fn space(&mut self) -> Result<u32, LineFault>
        requires { (left self.old).number < most_fields }
        ensures { Takes space_reading decimal (λ s. s < space_bound) (λ v. v) self.old self.new result }
    {
        let fault = self.fault();
        readings::space_of(self.next()?).ok_or(fault)
    }

    /// The number of words of a preamble.
    pub fn preamble(&mut self) -> Result<u32, LineFault>
        requires { (left self.old).number < most_fields }
        ensures { Takes (number_reading preambles) decimal (IsAnyOf preambles) (λ v. v) self.old self.new result }
    {
        let fault = self.fault();
        readings::preamble_of(self.next()?).ok_or(fault)
    }

    /// The kind of a request.
    pub fn kind(&mut self) -> Result<Kind, LineFault>
        requires { (left self.old).number < most_fields }
        ensures { Takes kind_reading kind_text (λ kind. Unit {0}) (λ v. v) self.old self.new result }
    {
        let fault = self.fault();
        readings::kind_of(self.next()?).ok_or(fault)
    }

    /// The cause of a refusal.
    pub fn cause(&mut self) -> Result<Cause, LineFault>
        requires { (left self.old).number < most_fields }
        ensures { Takes cause_reading cause_text (λ cause. Unit {0}) (λ v. v) self.old self.new result }
    {
        let fault = self.fault();
        readings::cause_of(self.next()?).ok_or(fault)
    }

    /// A name.
    pub fn name(&mut self) -> Result<Name, LineFault>
        requires { (left self.old).number < most_fields }
        ensures { Takes name_reading (λ name. name) IsName (λ v. v) self.old self.new result }
    {
        let fault = self.fault();
        name_of(self.next()?).ok_or(fault)
    }

    /// The register that a step wrote, where it wrote one.
    pub fn write(&mut self) -> Result<Option<(u8, u64)>, LineFault>
        requires { (left self.old).number < most_fields }
        ensures { Takes (optional write_reading) (or_none write_text) (λ write. IfSome write IsWrite) (λ v. v) self.old self.new result }
    {
        let fault = self.fault();
        readings::optional_write_of(self.next()?).ok_or(fault)
    }

    /// What a step read or wrote in memory, where it did.
    pub fn access(&mut self) -> Result<Option<AccessText>, LineFault>
        requires { (left self.old).number < most_fields }
        ensures { Takes (optional access_reading) (or_none access_text) (λ access. IfSome access IsAccess) (λ v. v) self.old self.new result }
    {
        let fault = self.fault();
        readings::optional_access_of(self.next()?).ok_or(fault)
    }

    /// The page table entries by which an address is translated.
    pub fn trail(&mut self) -> Result<TrailText, LineFault>
        requires { (left self.old).number < most_fields }
        ensures { Takes trail_reading trail_text (λ trail. (length trail ≤ most_entries) × AllByRecursion IsEntry trail) (λ v. v) self.old self.new result }
    {
        let fault = self.fault();
        readings::trail_of(self.next()?).ok_or(fault)
    }

    /// The trap that a step took, where it took one.
    pub fn trap(&mut self) -> Result<Option<TrapText>, LineFault>
        requires { (left self.old).number < most_fields }
        ensures { Takes (optional trap_reading) (or_none trap_text) (λ trap. IfSome trap IsTrap) (λ v. v) self.old self.new result }
    {
        let fault = self.fault();
        readings::optional_trap_of(self.next()?).ok_or(fault)
    }

    /// The labels of a path.
    pub fn path(&mut self, alloc: Global) -> Result<Vec<Name>, LineFault>
        requires { (left self.old).number < most_fields }
        ensures { Takes path_reading (joined_by slash) IsPath (λ path. path.items) self.old self.new result }
    {
        let fault = self.fault();
        readings::path_of(alloc, self.next()?)?.ok_or(fault)
    }

    /// Bytes with which memory starts.
    pub fn bytes(&mut self, alloc: Global) -> Result<Vec<u8>, LineFault>
        requires { (left self.old).number < most_fields }
        ensures { Takes bytes_reading (flat_map byte_text) AreFixedBytes (λ bytes. bytes.items) self.old self.new result }
    {
        let fault = self.fault();
        readings::bytes_of(alloc, self.next()?)?.ok_or(fault)
    }

    /// Just this word.
    pub fn keyword(&mut self, word: &str) -> Result<(), LineFault>
        requires { (left self.old).number < most_fields }
        ensures { MatchResult result (λ taken. Passed (is_word word.now) self.old self.new word.now) (λ fault. Lacks (is_word word.now) self.old fault) }
    {
        let fault = self.fault();
        if self.next()? != word.as_bytes() {
            return Err(fault);
        }
        Ok(())
    }

    /// A number from 1 on and below the bound.
    pub fn count_below(&mut self, bound: usize) -> Result<usize, LineFault>
        requires { (left self.old).number < most_fields }
        ensures { MatchResult result
            (λ count. (field : List ℕ) × Passed (is_decimal 1 bound) self.old self.new field × (count ≡ digits_value 10 field) × (0 < count) × (count < bound))
            (λ fault. Lacks (is_decimal 1 bound) self.old fault) }
    {
        let fault = self.fault();
        numbers::count_below(self.next()?, bound).ok_or(fault)
    }

    /// A hart below this number, and not the one of the line before.
    pub fn other_hart(&mut self, harts: u8, last: Option<u8>) -> Result<u8, LineFault>
        requires { (left self.old).number < most_fields }
        ensures { MatchResult result
            (λ hart. (field : List ℕ) × Passed (is_another_hart harts last) self.old self.new field × (hart ≡ digits_value 10 field) × (hart < harts)
            × IfSome last (λ before. before ≢ hart))
            (λ fault. Lacks (is_another_hart harts last) self.old fault) }
    {
        let fault = self.fault();
        readings::other_hart(self.next()?, harts, last).ok_or(fault)
    }
}
