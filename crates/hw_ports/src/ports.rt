ghost use Rattle.std.specs.Prelude.{◌≡◌, ◌<◌, ℕ, List, [], length, None, Ok, IfOk};
ghost use Rattle.std.specs.declared.option.Option.{Option};
ghost use Rattle.std.specs.Io.{ReadsAtMost, WritesAtMost};
ghost use Rattle.std.specs.Io.KnownBytes.{ReadConsumes, WriteAppends};
ghost use Rattle.hw_ports.specs.declared.ports.FileError.TheVariants.{OutOfMemory as NoMemory};
ghost use Rattle.hw_ports.specs.Causes.{HasCause};
ghost use Rattle.hw_ports.specs.Content.{AddsRead, Content, Reads, failed_after};
ghost use Rattle.hw_ports.specs.Written.{AddsPiece};

use std::alloc::{AllocError, Global};
use thiserror::Error;

/// A read or a write failed. The port's count of faults has risen.
#[derive(Clone, Copy, Debug, PartialEq, Eq, Error)]
#[error("the read or write failed")]
pub struct Failed;

/// How much of a file was read.
#[derive(Clone, Copy, Debug, PartialEq, Eq)]
pub enum FileText {
    /// All of it.
    Whole,
    /// The file has more bytes than the limit; nothing is said of the bytes that were read.
    Longer,
}

/// Why a file was not read.
#[derive(Clone, Copy, Debug, PartialEq, Eq, Error)]
pub enum FileError {
    #[error("the file could not be read")]
    Failed,
    #[error("out of memory")]
    OutOfMemory,
}

impl From<AllocError> for FileError {
    ghost from_gives = { λ _ e. e ≡ NoMemory };

    fn from(_: AllocError) -> Self {
        FileError::OutOfMemory
    }
}

/// Files by their names. What is under a name is observable or not; over memory it is.
pub trait Files {
    /// What is under a name: these bytes, nothing, or something that can't be observed.
    ghost content: { Self → List ℕ → Content };

    /// The names that were read, the oldest first. It only grows; a read that ends because memory ran out may leave no
    /// name, and has read nothing then.
    ghost reads: { Self → List (List ℕ) };

    /// The names whose reads failed, the oldest first. It only grows, and a name's count of faults is how often it
    /// is there.
    ghost failed: { Self → List (List ℕ) };

    /// Reads the file of a name into `into`, which is empty. `Longer` comes exactly if the read doesn't fail and
    /// the file has more than `limit` bytes. A name under which there is nothing is `Failed`. Memory for the lists of
    /// names is taken before the read. With `Longer` or an error nothing is said of what `into` holds.
    fn read(
        &mut self,
        alloc: Global,
        name: &str,
        limit: u64,
        into: &mut Vec<u8>,
    ) -> Result<FileText, FileError>
        requires { into.old.items ≡ [] }
        ensures bytes { Reads (content self.old name.now) limit result into.new.items }
        ensures reads { AddsRead result (reads self.old) (reads self.new) name.now }
        ensures failed { failed self.new ≡ failed_after result (failed self.old) name.now }
        ensures content { (other : List ℕ) → content self.new other ≡ content self.old other };
}

/// A source of bytes.
pub trait Source {
    /// The bytes that are left, if that is observable.
    ghost left: { Self → Option (List ℕ) };

    /// How often a read failed. It never falls.
    ghost faults: { Self → ℕ };

    /// Gives the next bytes, at most as many as `into` has room for, and returns how many: 0 for a slice that isn't
    /// empty is the end. A failed read gives none. A read into an empty slice returns 0 and is no read.
    fn read(&mut self, into: &mut [u8]) -> Result<usize, Failed>
        ensures bound { ReadsAtMost result into.new }
        ensures empty { length into.old ≡ 0 → result ≡ Ok 0 }
        ensures bytes { ReadConsumes (left self.old) (left self.new) result into.new }
        ensures cause { HasCause (faults self.old) (faults self.new) result };
}

/// A sink of bytes.
pub trait Sink {
    /// The bytes that it took, if that is observable.
    ghost taken: { Self → Option (List ℕ) };

    /// The pieces that it was given, the oldest first, when that is observable.
    ghost pieces: { Self → Option (List (List ℕ)) } = { λ _. None };

    /// How often a write failed. It never falls.
    ghost faults: { Self → ℕ };

    /// Takes a prefix of the piece, at least one byte of a piece that isn't empty, and returns how many. A failed
    /// write takes none. A write of an empty piece returns 0 and is no write.
    fn write(&mut self, piece: &[u8]) -> Result<usize, Failed>
        ensures bound { WritesAtMost result piece.now }
        ensures some { IfOk result (λ count. 0 < length piece.now → 0 < count) }
        ensures empty { length piece.now ≡ 0 → result ≡ Ok 0 }
        ensures bytes { WriteAppends (taken self.old) (taken self.new) result piece.now }
        ensures pieces { AddsPiece (pieces self.old) (pieces self.new) piece.now }
        ensures cause { HasCause (faults self.old) (faults self.new) result };
}
