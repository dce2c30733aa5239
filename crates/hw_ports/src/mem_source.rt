ghost use Rattle.std.specs.Prelude.{◌≡◌, ◌<◌, ℕ, length, Ok, Some, IfOk, OnErr, OnOk};
ghost use Rattle.std.specs.Io.{ReadsAtMost};
ghost use Rattle.std.specs.Io.KnownBytes.{ReadConsumes};
ghost use Rattle.hw_ports.specs.Causes.{HasCause};
ghost use Rattle.hw_ports.specs.Memory.{SourceState, SourceFails, source_count, source_after};

use crate::pieces::Rest;
use crate::{CallList, Failed, Source};
use hw_base::OutOfMemory;
use std::alloc::Global;
use std::marker::Model;

/// Input over memory, in pieces, whose listed reads fail.
#[derive(Drop)]
pub struct MemSource {
    rest: Rest,
    piece: u32,
    fail: CallList,
    calls: u64,
    faults: u64,
}

impl Model for MemSource {
    ghost Value = { SourceState };

    ghost view = { λ s. record { left = s.rest; piece = s.piece; failing = s.fail; calls = s.calls; faults = s.faults } };

    ghost invariant = { λ s. 0 < s.piece };
}

impl MemSource {
    /// The bytes as input, at most `piece` bytes a read. `piece` is at least 1. The reads of `fail` fail,
    /// counted from 1.
    pub fn new(
        alloc: Global,
        bytes: &[u8],
        piece: u32,
        fail: CallList,
    ) -> Result<MemSource, OutOfMemory>
        requires { 0 < piece }
        ensures { IfOk result (λ s. s ≡ record { left = bytes.now; piece = piece; failing = fail; calls = 0; faults = 0 }) }
    {
        Ok(MemSource {
            rest: Rest::new(alloc, bytes)?,
            piece,
            fail,
            calls: 0,
            faults: 0,
        })
    }
}

impl Source for MemSource {
    ghost left = { λ s. Some s.left };

    ghost faults = { λ s. s.faults };

    /// Fails exactly at a listed read.
    fn read(&mut self, into: &mut [u8]) -> Result<usize, Failed>
        ensures bound { ReadsAtMost result into.new }
        ensures empty { length into.old ≡ 0 → result ≡ Ok 0 }
        ensures bytes { ReadConsumes (Some self.old.left) (Some self.new.left) result into.new }
        ensures cause { HasCause self.old.faults self.new.faults result }
        ensures listed { OnErr result (SourceFails self.old) }
        ensures unlisted { OnOk result (0 < length into.old → SourceFails self.old → ⊥) }
        ensures count { IfOk result (λ count. count ≡ source_count self.old (length into.old)) }
        ensures after { self.new ≡ source_after self.old (length into.old) }
    {
        if into.is_empty() {
            return Ok(0);
        }
        self.calls = self.calls.saturating_add(1);
        if self.fail.lists(self.calls) {
            self.faults = self.faults.saturating_add(1);
            return Err(Failed);
        }
        Ok(self.rest.give(into, self.piece as usize))
    }
}
