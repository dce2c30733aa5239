ghost use Rattle.std.specs.Prelude.{◌≡◌, [], IfOk, IfSome};
ghost use Rattle.hw_ports.specs.Content.{GivesText, Unobservable};

use crate::stored_file::reserved_entry;
use crate::{FileError, FileText, Files};
use hw_base::ByteList;
use std::alloc::Global;
use std::fs::File;
use std::io;
use std::io::{ErrorKind, Read};
use std::rt::Files as HostFiles;

/// The host's files. What is under a name isn't observable: that these reads give the bytes of the file is tested.
/// Contracts see the names that were read, and those whose reads failed.
#[derive(Drop)]
pub struct RealFiles<R: HostFiles> {
    host: R,
    reads: Vec<ByteList>,
    failed: Vec<ByteList>,
}

impl<R: HostFiles> RealFiles<R> {
    /// The host's files, with no read yet. It takes no memory.
    pub fn new(alloc: Global, host: R) -> RealFiles<R>
        ensures reads { ⟦<RealFiles<R> as Files>⟧.reads result ≡ [] }
        ensures failed { ⟦<RealFiles<R> as Files>⟧.failed result ≡ [] }
    {
        RealFiles {
            host,
            reads: Vec::new(alloc),
            failed: Vec::new(alloc),
        }
    }
}

impl<R: HostFiles> Files for RealFiles<R> {
    ghost content = { λ _ _. Unobservable };

    ghost reads = { λ f. f.reads.items };

    ghost failed = { λ f. f.failed.items };

    fn read(
        &mut self,
        alloc: Global,
        name: &str,
        limit: u64,
        into: &mut Vec<u8>,
    ) -> Result<FileText, FileError> {
        let failed = reserved_entry(&mut self.failed, alloc, name.as_bytes())?;
        let read = reserved_entry(&mut self.reads, alloc, name.as_bytes())?;
        self.reads.push(read).unwrap();
        match read_host(&self.host, name, limit, into) {
            Ok(text) => Ok(text),
            Err(error) => {
                if error.kind() == ErrorKind::OutOfMemory {
                    return Err(FileError::OutOfMemory);
                }
                self.failed.push(failed).unwrap();
                Err(FileError::Failed)
            }
        }
    }
}

fn read_host<R: HostFiles>(
    host: &R,
    name: &str,
    limit: u64,
    into: &mut Vec<u8>,
) -> io::Result<FileText>
    requires { into.old.items ≡ [] }
{
    read_text(File::open(host, name)?, limit, into)
}

// All that a reader has left, or word that it is more than the limit. At most one byte more than the limit is read.
fn read_text<R: Read + Drop>(reader: R, limit: u64, into: &mut Vec<u8>) -> io::Result<FileText>
    requires { into.old.items ≡ [] }
    ensures { IfOk result (λ text. IfSome (R.remaining reader) (λ bytes. GivesText bytes limit text into.new.items)) }
{
    reader.take(limit.saturating_add(1)).read_to_end(into)?;
    if into.len() as u64 > limit {
        Ok(FileText::Longer)
    } else {
        Ok(FileText::Whole)
    }
}
