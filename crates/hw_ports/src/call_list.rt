ghost use Rattle.std.specs.Prelude.{◌≡◌, ℕ, List, [], ◌∷◌, ◌++◌, OnOk, OnErr};
ghost use Rattle.hw_ports.specs.Calls.{is_listed};

use hw_base::OutOfMemory;
use std::alloc::Global;
use std::marker::Model;

/// The numbers of the calls that are to fail, counted from 1. Contracts see a list of numbers.
#[derive(Drop)]
pub struct CallList {
    calls: Vec<u64>,
}

impl Model for CallList {
    ghost Value = { List ℕ };

    ghost view = { λ l. l.calls.items };
}

impl CallList {
    /// No call fails. It takes no memory.
    pub fn new(alloc: Global) -> CallList
        ensures { result ≡ [] }
    {
        CallList {
            calls: Vec::new(alloc),
        }
    }

    /// Lists a call, counted from 1. After memory ran out the list is as before.
    pub fn push(&mut self, call: u64) -> Result<(), OutOfMemory>
        ensures ok { OnOk result (self.new ≡ self.old ++ call ∷ []) }
        ensures err { OnErr result (self.new ≡ self.old) }
    {
        match self.calls.push(call) {
            Ok(()) => Ok(()),
            Err(_) => Err(OutOfMemory),
        }
    }

    /// Whether a call is listed.
    pub fn lists(&self, call: u64) -> bool
        ensures { result ≡ is_listed self.now call }
    {
        self.calls.iter().any(|listed| *listed == call)
    }
}
