//! The files of a host, with a count of how often one was opened.
use std::alloc::Allocator;
use std::cell::Cell;
use std::fs::{Metadata, OpenOptions};
use std::io;
use std::rt::Files;

#[derive(Drop)]
pub struct CountingHost<'a, R: Files> {
    host: &'a R,
    opened: Cell<u64>,
}

impl<'a, R: Files> CountingHost<'a, R> {
    pub fn new(host: &'a R) -> CountingHost<'a, R> {
        CountingHost {
            host,
            opened: Cell::new(0),
        }
    }

    /// How often a file was opened, or could not be.
    pub fn opened(&self) -> u64 {
        self.opened.get()
    }
}

impl<R: Files> Files for CountingHost<'_, R> {
    type File = R::File;

    type Dir = R::Dir;

    fn open_file(&self, how: &OpenOptions, path: &str) -> io::Result<R::File> {
        self.opened.set(self.opened.get().saturating_add(1));
        self.host.open_file(how, path)
    }

    fn open_dir(&self, path: &str) -> io::Result<R::Dir> {
        self.host.open_dir(path)
    }

    fn metadata(&self, path: &str) -> io::Result<Metadata> {
        self.host.metadata(path)
    }

    fn symlink_metadata(&self, path: &str) -> io::Result<Metadata> {
        self.host.symlink_metadata(path)
    }

    fn copy(&self, from: &str, to: &str) -> io::Result<u64> {
        self.host.copy(from, to)
    }

    fn rename(&self, from: &str, to: &str) -> io::Result<()> {
        self.host.rename(from, to)
    }

    fn remove_file(&self, path: &str) -> io::Result<()> {
        self.host.remove_file(path)
    }

    fn create_dir(&self, path: &str) -> io::Result<()> {
        self.host.create_dir(path)
    }

    fn remove_dir(&self, path: &str) -> io::Result<()> {
        self.host.remove_dir(path)
    }

    fn remove_dir_all<B: Allocator>(&self, alloc: B, path: &str) -> io::Result<()> {
        self.host.remove_dir_all(alloc, path)
    }
}
