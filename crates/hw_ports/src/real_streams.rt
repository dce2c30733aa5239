ghost use Rattle.std.specs.Prelude.{◌≡◌};

use crate::{Failed, Sink, Source};
use std::io::{Read, Write};

/// Input from any reader. What is left is what the reader says that it has left: over memory these are its bytes, over
/// the host they aren't observable.
#[derive(Drop)]
pub struct RealIn<R: Read> {
    inner: R,
    faults: u64,
}

impl<R: Read> RealIn<R> {
    /// The reader's bytes as input, with no fault yet.
    pub fn new(inner: R) -> RealIn<R>
        ensures left { ⟦<RealIn<R> as Source>⟧.left result ≡ R.remaining inner }
        ensures faults { ⟦<RealIn<R> as Source>⟧.faults result ≡ 0 }
    {
        RealIn { inner, faults: 0 }
    }
}

impl<R: Read> Source for RealIn<R> {
    ghost left = { λ s. R.remaining s.inner };

    ghost faults = { λ s. s.faults };

    fn read(&mut self, into: &mut [u8]) -> Result<usize, Failed> {
        if into.is_empty() {
            return Ok(0);
        }
        match self.inner.read(into) {
            Ok(count) => Ok(count),
            Err(_) => {
                self.faults = self.faults.saturating_add(1);
                Err(Failed)
            }
        }
    }
}

/// Output to any writer. What it took is what the writer says that it holds: over memory these are its bytes, over the
/// host they aren't observable.
#[derive(Drop)]
pub struct RealOut<W: Write> {
    inner: W,
    faults: u64,
}

impl<W: Write> RealOut<W> {
    /// The writer as output, with no fault yet.
    pub fn new(inner: W) -> RealOut<W>
        ensures taken { ⟦<RealOut<W> as Sink>⟧.taken result ≡ W.contents inner }
        ensures faults { ⟦<RealOut<W> as Sink>⟧.faults result ≡ 0 }
    {
        RealOut { inner, faults: 0 }
    }
}

impl<W: Write> Sink for RealOut<W> {
    ghost taken = { λ s. W.contents s.inner };

    ghost faults = { λ s. s.faults };

    /// A write that took nothing of a piece that isn't empty is a fault too.
    fn write(&mut self, piece: &[u8]) -> Result<usize, Failed> {
        if piece.is_empty() {
            return Ok(0);
        }
        match self.inner.write(piece) {
            Ok(count) if count > 0 => Ok(count),
            _ => {
                self.faults = self.faults.saturating_add(1);
                Err(Failed)
            }
        }
    }
}
