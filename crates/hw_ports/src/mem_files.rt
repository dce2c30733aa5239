ghost use Rattle.std.specs.Prelude.{◌≡◌, ℕ, List, [], ◌∷◌, ◌++◌, OnOk, OnErr, Err};
ghost use Rattle.std.specs.Option.{option_copied};
ghost use Rattle.hw_ports.specs.Calls.{one_more};
ghost use Rattle.hw_ports.specs.Content.{AddsRead, Reads, failed_after, Bytes};
ghost use Rattle.hw_ports.specs.Memory.{FilesState, FileFails, content_in, first_of};
ghost use Rattle.hw_ports.specs.declared.ports.FileError.TheVariants.{Failed};

use crate::stored_file::{StoredFile, reserved_entry};
use crate::{CallList, FileError, FileText, Files};
use hw_base::{ByteList, OutOfMemory};
use std::alloc::Global;
use std::marker::Model;

/// Files over memory, whose listed reads fail.
#[derive(Drop)]
pub struct MemFiles {
    files: Vec<StoredFile>,
    reads: Vec<ByteList>,
    failed: Vec<ByteList>,
    fail: CallList,
    calls: u64,
}

impl Model for MemFiles {
    ghost Value = { FilesState };

    ghost view = { λ f. record {
      files = f.files.items;
      reads = f.reads.items;
      failed = f.failed.items;
      failing = f.fail;
      calls = f.calls;
    } };
}

impl MemFiles {
    /// No file. The reads of `fail` fail, counted from 1. It takes no memory.
    pub fn new(alloc: Global, fail: CallList) -> MemFiles
        ensures { result ≡ record { files = []; reads = []; failed = []; failing = fail; calls = 0 } }
    {
        MemFiles {
            files: Vec::new(alloc),
            reads: Vec::new(alloc),
            failed: Vec::new(alloc),
            fail,
            calls: 0,
        }
    }

    /// Puts bytes under a name. Of a name that is added twice the first counts. After memory ran out the files are
    /// as before.
    pub fn add(&mut self, name: &str, text: &[u8]) -> Result<(), OutOfMemory>
        ensures ok { OnOk result (self.new ≡ record self.old { files = self.old.files ++ record { name = name.now; text = text.now } ∷ [] }) }
        ensures err { OnErr result (self.new ≡ self.old) }
    {
        let alloc = *self.files.allocator();
        let name = Vec::from_slice(alloc, name.as_bytes())?;
        let text = Vec::from_slice(alloc, text)?;
        let file = StoredFile {
            name: ByteList::from_vec(name),
            text: ByteList::from_vec(text),
        };
        match self.files.push(file) {
            Ok(()) => Ok(()),
            Err(_) => Err(OutOfMemory),
        }
    }
}

impl Files for MemFiles {
    ghost content = { λ f name. content_in f.files name };

    ghost reads = { λ f. f.reads };

    ghost failed = { λ f. f.failed };

    /// Fails exactly at a listed read and for a name that was not added.
    fn read(
        &mut self,
        alloc: Global,
        name: &str,
        limit: u64,
        into: &mut Vec<u8>,
    ) -> Result<FileText, FileError>
        requires { into.old.items ≡ [] }
        ensures bytes { Reads (content_in self.old.files name.now) limit result into.new.items }
        ensures reads { AddsRead result self.old.reads self.new.reads name.now }
        ensures failed { self.new.failed ≡ failed_after result self.old.failed name.now }
        ensures content { (other : List ℕ) → content_in self.new.files other ≡ content_in self.old.files other }
        ensures listed { result ≡ Err Failed → FileFails self.old name.now }
        ensures unlisted { OnOk result (FileFails self.old name.now → ⊥) }
        ensures files { self.new.files ≡ self.old.files }
        ensures failing { self.new.failing ≡ self.old.failing }
        ensures calls { self.new.calls ≡ one_more self.old.calls }
    {
        self.calls = self.calls.saturating_add(1);
        let failed = reserved_entry(&mut self.failed, alloc, name.as_bytes())?;
        let read = reserved_entry(&mut self.reads, alloc, name.as_bytes())?;
        self.reads.push(read).unwrap();
        if self.fail.lists(self.calls) {
            self.failed.push(failed).unwrap();
            return Err(FileError::Failed);
        }
        match find(&self.files, name.as_bytes()) {
            None => {
                self.failed.push(failed).unwrap();
                Err(FileError::Failed)
            }
            Some(file) => copy_text(file.text.as_slice(), limit, into),
        }
    }
}

// The first file of this name.
fn find<'a>(files: &'a [StoredFile], name: &[u8]) -> Option<&'a StoredFile>
    ensures { option_copied result ≡ first_of files.now name.now }
{
    files.iter().find(|file| file.name.as_slice() == name)
}

// All the text, or word that it is longer.
fn copy_text(text: &[u8], limit: u64, into: &mut Vec<u8>) -> Result<FileText, FileError>
    requires { into.old.items ≡ [] }
    ensures bytes { Reads (Bytes text.now) limit result into.new.items }
    ensures failed { result ≡ Err Failed → ⊥ }
{
    if text.len() as u64 > limit {
        return Ok(FileText::Longer);
    }
    into.extend_from_slice(text)?;
    Ok(FileText::Whole)
}
