ghost use Rattle.hw_base.specs.Bytes.{byte_order};
ghost use Rattle.tbi_memory.specs.declared.mem_fault.MemFault.TheVariants.{Unmapped};
ghost use Rattle.tbi_memory.specs.AddressSpace.{AddressSpace};
ghost use Rattle.tbi_memory.specs.MappedBytes.{byte_at};
ghost use Rattle.ir_lib.specs.Strings.{checked_from, checked_string, mapped_end, scan_bound, string_at, string_from};
ghost use Rattle.std.specs.declared.cmp.Ordering.TheVariants.{Equal};
ghost use Rattle.std.specs.Prelude.{◌≡◌, ℕ, ◌+◌, ◌<◌, ◌^◌, List, None, Ok, Err};

/// A string whose check passes is read, with the same bytes.
pub fn a_checked_string_is_read()
    ensures { (space : AddressSpace) (number : ℕ) (bytes : List ℕ) → checked_string space number ≡ Ok bytes → string_at space number ≡ Ok bytes }
{}

/// No scan of a string runs out of its steps: with more of them it gives the same, and if it fails, the address that it
/// gives isn't mapped.
pub fn no_scan_runs_out()
    ensures read { (space : AddressSpace) (number more : ℕ) → mapped_end space.bytes < 2 ^ 56
        → string_from space (scan_bound space number + more) number ≡ string_at space number }
    ensures checked { (space : AddressSpace) (number more : ℕ) → mapped_end space.bytes < 2 ^ 56
        → checked_from space (scan_bound space number + more) number ≡ checked_string space number }
    ensures unmapped { (space : AddressSpace) (number address : ℕ) → mapped_end space.bytes < 2 ^ 56
        → string_at space number ≡ Err (Unmapped address) → byte_at space.bytes address ≡ None }
{}

/// Bytes are equal to themselves.
pub fn bytes_equal_themselves()
    ensures { (bytes : List ℕ) → byte_order bytes bytes ≡ Equal }
{}
