ghost use Rattle.std.specs.Prelude.{◌≡◌, ◌<◌, ◌≤◌, ℕ, [], length, Ok, Some, None, IfOk, OnErr, OnOk, vec_len, vec_capacity};
ghost use Rattle.std.specs.Io.{WritesAtMost};
ghost use Rattle.std.specs.Io.KnownBytes.{WriteAppends};
ghost use Rattle.hw_ports.specs.Causes.{HasCause};
ghost use Rattle.hw_ports.specs.Written.{AddsPiece};
ghost use Rattle.hw_ports.specs.Memory.{SinkState, SinkFails, sink_count, sink_after};

use crate::{CallList, Failed, Sink};
use hw_base::OutOfMemory;
use std::alloc::Global;
use std::marker::Model;

/// Output over memory, in pieces, with a bounded room, whose listed writes fail. All of its room is taken when it is
/// made, so a write never wants memory.
#[derive(Drop)]
pub struct MemSink {
    bytes: Vec<u8>,
    room: u64,
    piece: u32,
    fail: CallList,
    calls: u64,
    faults: u64,
}

impl Model for MemSink {
    ghost Value = { SinkState };

    ghost view = { λ s. record {
      taken = s.bytes.items;
      room = s.room;
      piece = s.piece;
      failing = s.fail;
      calls = s.calls;
      faults = s.faults;
    } };

    ghost invariant = { λ s. (vec_len s.bytes ≤ s.room) × (s.room ≤ vec_capacity s.bytes) × (0 < s.piece) };
}

impl MemSink {
    /// A sink that has room for `room` bytes and takes at most `piece` bytes a write. `piece` is at least 1. The
    /// writes of `fail` fail, counted from 1.
    pub fn new(alloc: Global, room: u64, piece: u32, fail: CallList) -> Result<MemSink, OutOfMemory>
        requires { 0 < piece }
        ensures { IfOk result (λ s. s ≡ record { taken = []; room = room; piece = piece; failing = fail; calls = 0; faults = 0 }) }
    {
        Ok(MemSink {
            bytes: Vec::with_capacity(alloc, room as usize)?,
            room,
            piece,
            fail,
            calls: 0,
            faults: 0,
        })
    }

    /// The bytes that it took.
    pub fn taken(&self) -> &[u8]
        ensures { result.now ≡ self.now.taken }
    {
        self.bytes.as_slice()
    }
}

impl Sink for MemSink {
    ghost taken = { λ s. Some s.taken };

    ghost faults = { λ s. s.faults };

    /// Fails exactly at a listed write and when the room is used up.
    fn write(&mut self, piece: &[u8]) -> Result<usize, Failed>
        ensures bound { WritesAtMost result piece.now }
        ensures some { IfOk result (λ count. 0 < length piece.now → 0 < count) }
        ensures empty { length piece.now ≡ 0 → result ≡ Ok 0 }
        ensures bytes { WriteAppends (Some self.old.taken) (Some self.new.taken) result piece.now }
        ensures pieces { AddsPiece None None piece.now }
        ensures cause { HasCause self.old.faults self.new.faults result }
        ensures listed { OnErr result (SinkFails self.old) }
        ensures unlisted { OnOk result (0 < length piece.now → SinkFails self.old → ⊥) }
        ensures count { IfOk result (λ count. count ≡ sink_count self.old (length piece.now)) }
        ensures after { self.new ≡ sink_after self.old piece.now }
    {
        if piece.is_empty() {
            return Ok(0);
        }
        self.calls = self.calls.saturating_add(1);
        let room = self.room as usize - self.bytes.len();
        if room == 0 || self.fail.lists(self.calls) {
            self.faults = self.faults.saturating_add(1);
            return Err(Failed);
        }
        let count = piece.len().min(room.min(self.piece as usize));
        self.bytes.extend_from_slice(&piece[..count]).unwrap();
        Ok(count)
    }
}
