ghost use Rattle.hw_base.specs.TaggedAddress.{address_of};
ghost use Rattle.tbi_memory.specs.AddressSpace.{read};
ghost use Rattle.tbi_memory.specs.MappedBytes.{byte_at};
ghost use Rattle.std.specs.Prelude.{◌≡◌, ℕ, ◌+◌, ◌^◌, ◌<◌, length, None, Ok};
ghost use Rattle.std.specs.Result.{result_err};

use crate::mem_fault::MemFault;
use crate::memory::{Memory, address};

impl Memory {
    /// Why the `n` bytes from `v` on can't be read, or `None` if all are mapped.
    pub fn read_fault(&self, v: u64, n: u64) -> Option<MemFault>
        ensures { result ≡ result_err (read self.now v n) }
    {
        let a = address(v);
        let until = self.mapped_until(a);
        if until - a < n {
            Some(MemFault::Unmapped(until))
        } else {
            None
        }
    }

    /// Some mapped bytes from `v` on, one after the other, without a copy: mostly all up to the end of their part. There are
    /// none only if the first isn't mapped.
    pub fn run_from(&self, v: u64) -> &[u8]
        ensures bytes { read self.now v (length result.now) ≡ Ok result.now }
        ensures below { address_of v + length result.now < 2 ^ 56 }
        ensures none { length result.now ≡ 0 → byte_at self.now.bytes (address_of v) ≡ None }
    {
        let a = address(v);
        if self.heap.holds(a, 1) {
            self.heap.bytes.run_from(a - self.heap.at)
        } else if self.stacks.holds(a, 1) {
            self.stacks.bytes.run_from(a - self.stacks.at)
        } else if self.variables.holds(a, 1) {
            self.variables.bytes.run_from(a - self.variables.at)
        } else if self.constants.holds(a, 1) {
            self.constants.bytes.run_from(a - self.constants.at)
        } else {
            &[]
        }
    }
}
