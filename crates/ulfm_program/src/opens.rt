//! What opens files by their names.
ghost use Rattle.std.specs.Prelude.{◌≡◌, ℕ, List, Option, IfOk};

use std::fs::File;
use std::io;
use std::io::Read;
use std::rt::LibcRuntime;

/// What opens files by their names.
pub trait Opens {
    /// A file that is open.
    type Opened: Read + Drop;

    /// The bytes of the file of a name, where they are known.
    ghost bytes_of: { Self → List ℕ → Option (List ℕ) };

    /// Opens the file of a name, to be read from its beginning.
    ///
    /// # Errors
    ///
    /// What the system says.
    fn open_named(&self, name: &str) -> io::Result<Self::Opened>
        ensures { IfOk result (λ opened. Self.Opened.remaining opened ≡ bytes_of self.now name.now) };
}

// Of the system's files no bytes are known: no contract can say what stands on a disk.
impl Opens for LibcRuntime {
    ghost use Rattle.std.specs.Prelude.{None};

    type Opened = File;

    ghost bytes_of = { λ _ _. None };

    fn open_named(&self, name: &str) -> io::Result<File> {
        Ok(File::open(self, name)?)
    }
}
