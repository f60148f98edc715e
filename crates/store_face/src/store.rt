use crate::fault::StoreFault;

/// A store of files by name. It counts its failed calls, and keeps the name of the last.
pub trait Store {
    ghost use Rattle.std.specs.Prelude.{ℕ};
    ghost use Rattle.store_face.specs.State.{State};
    ghost use Rattle.store_face.specs.Calls.{Reads, Writes};

    ghost state: { Self → State };

    /// Reads the file of the name into `into`, which is emptied first. False says that the file is longer than
    /// `most`. After a false or an error `into` holds anything.
    fn read_whole(
        &mut self,
        name: &str,
        most: usize,
        into: &mut Vec<u8>,
    ) -> Result<bool, StoreFault>
        ensures { Reads name.now most (state self.old) (state self.new) result into.new.items };

    /// Writes the bytes under the name, in place of what it held. After an error the name holds anything.
    fn write_whole(&mut self, name: &str, bytes: &[u8]) -> Result<(), StoreFault>
        ensures { Writes name.now bytes.now (state self.old) (state self.new) result };
}
