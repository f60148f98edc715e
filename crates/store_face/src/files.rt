use rv_fields::NoMemory;
use std::alloc::Global;
use std::collections::BTreeMap;

/// Files in memory: names to bytes.
#[derive(Drop)]
pub struct Files {
    entries: BTreeMap<String, Vec<u8>>,
    alloc: Global,
}

impl Files {
    ghost use Rattle.std.specs.Prelude.{◌≡◌, ◌≢◌, List, ℕ, Some, None, OnOk, OnErr, option_map};
    ghost use Rattle.store_face.specs.Held.{files_held};

    /// No file. It takes no memory.
    pub fn new(alloc: Global) -> Files
        ensures { (name : List ℕ) → files_held result name ≡ None }
    {
        Files {
            entries: BTreeMap::new(alloc),
            alloc,
        }
    }

    /// Puts the bytes under the name, in place of what it held.
    pub fn put(&mut self, name: &str, bytes: &[u8]) -> Result<(), NoMemory>
        ensures put { OnOk result (files_held self.new name.now ≡ Some bytes.now) }
        ensures others { (other : List ℕ) → other ≢ name.now → files_held self.new other ≡ files_held self.old other }
        ensures unchanged { OnErr result (files_held self.new ≡ files_held self.old) }
    {
        let key = String::from_str(self.alloc, name)?;
        let content = Vec::from_slice(self.alloc, bytes)?;
        self.entries.insert(key, content)?;
        Ok(())
    }

    /// The bytes under the name, if there are any.
    pub fn get(&self, name: &str) -> Option<&[u8]>
        ensures { option_map (λ bytes. bytes.now) result ≡ files_held self.now name.now }
    {
        self.entries.get(name).map(|bytes| bytes.as_slice())
    }
}
