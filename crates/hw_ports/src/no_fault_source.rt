ghost use Rattle.std.specs.Prelude.{◌≡◌, ◌<◌, length, Ok, Some, IfOk, min};
ghost use Rattle.std.specs.Io.{ReadsAtMost};
ghost use Rattle.std.specs.Io.KnownBytes.{ReadConsumes};
ghost use Rattle.hw_ports.specs.Causes.{HasCause};
ghost use Rattle.hw_ports.specs.Memory.{PiecesState};

use crate::pieces::Rest;
use crate::{Failed, Source};
use hw_base::OutOfMemory;
use std::alloc::Global;
use std::marker::Model;

/// Input over memory, in pieces, that never fails: its count of faults is 0.
#[derive(Drop)]
pub struct NoFaultSource {
    rest: Rest,
    piece: u32,
}

impl Model for NoFaultSource {
    ghost Value = { PiecesState };

    ghost view = { λ s. record { left = s.rest; piece = s.piece } };

    ghost invariant = { λ s. 0 < s.piece };
}

impl NoFaultSource {
    /// The bytes as input, at most `piece` bytes a read. `piece` is at least 1.
    pub fn new(alloc: Global, bytes: &[u8], piece: u32) -> Result<NoFaultSource, OutOfMemory>
        requires { 0 < piece }
        ensures { IfOk result (λ s. s ≡ record { left = bytes.now; piece = piece }) }
    {
        Ok(NoFaultSource {
            rest: Rest::new(alloc, bytes)?,
            piece,
        })
    }
}

impl Source for NoFaultSource {
    ghost left = { λ s. Some s.left };

    ghost faults = { λ _. 0 };

    fn read(&mut self, into: &mut [u8]) -> Result<usize, Failed>
        ensures bound { ReadsAtMost result into.new }
        ensures empty { length into.old ≡ 0 → result ≡ Ok 0 }
        ensures bytes { ReadConsumes (Some self.old.left) (Some self.new.left) result into.new }
        ensures cause { HasCause 0 0 result }
        ensures count { result ≡ Ok (min (length into.old) (min self.old.piece (length self.old.left))) }
        ensures piece { self.new.piece ≡ self.old.piece }
    {
        Ok(self.rest.give(into, self.piece as usize))
    }
}
