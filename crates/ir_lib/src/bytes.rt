ghost use Rattle.hw_base.specs.Bytes.{byte_order, order_bits};
ghost use Rattle.ir_lib.specs.Calls.{compared, order_value};
ghost use Rattle.tbi_memory.specs.declared.mem_fault.MemFault.{MemFault};
ghost use Rattle.tbi_memory.specs.AddressSpace.{filled, moved, read};
ghost use Rattle.std.specs.Int.{cast_unsigned, w32};
ghost use Rattle.std.specs.Prelude.{◌≡◌, ℕ, List, length, None, IfOk, OnOk, Ok, Err};
ghost use Rattle.std.specs.Result.{result_err};

use std::cmp::Ordering;
use tbi_memory::{MemFault, Memory};

/// Copies the `n` bytes from `from` on to `to`, as if all were read first: the two runs may overlap. It fails if one of the
/// bytes from `from` on isn't mapped, or else if one of those from `to` on isn't, or else if one of the latter is a constant's.
/// Then nothing changes.
pub fn copy(mem: &mut Memory, to: u64, from: u64, n: u64) -> Result<(), MemFault>
    ensures ok { OnOk result (moved mem.old to from n ≡ Ok mem.new) }
    ensures err { (fault : MemFault) → result ≡ Err fault → (moved mem.old to from n ≡ Err fault) × (mem.new ≡ mem.old) }
{
    mem.move_bytes(to, from, n)
}

/// Writes the byte `b` into each of the `n` bytes from `at` on. It fails if one of them isn't mapped, or else if one is a
/// constant's. Then nothing changes.
pub fn set(mem: &mut Memory, at: u64, b: u8, n: u64) -> Result<(), MemFault>
    ensures ok { OnOk result (filled mem.old at n b ≡ Ok mem.new) }
    ensures err { (fault : MemFault) → result ≡ Err fault → (filled mem.old at n b ≡ Err fault) × (mem.new ≡ mem.old) }
{
    mem.fill(at, n, b)
}

/// Compares the `n` bytes from `a` on with those from `b` on: -1, 0 or 1, by the first two that differ. Bytes have no sign. It
/// fails with the first address from `a` on that isn't mapped, even if bytes before it differ, or else with that from `b` on.
/// So the fault is that of `a` exactly if `mem.is_mapped(a, n)` is false.
pub fn compare(mem: &Memory, a: u64, b: u64, n: u64) -> Result<i32, MemFault>
    ensures value { result ≡ compared (read mem.now a n) (read mem.now b n) }
    ensures bits { (first second : List ℕ) → read mem.now a n ≡ Ok first → read mem.now b n ≡ Ok second
        → IfOk result (λ value. cast_unsigned w32 value ≡ order_bits (byte_order first second)) }
{
    match mem.read_fault(a, n) {
        Some(fault) => return Err(fault),
        None => {}
    }
    match mem.read_fault(b, n) {
        Some(fault) => return Err(fault),
        None => {}
    }
    Ok(value_of(order_of(mem, a, b, n)))
}

/// An order as a number.
fn value_of(order: Ordering) -> i32
    ensures { result ≡ order_value order }
{
    match order {
        Ordering::Less => -1,
        Ordering::Equal => 0,
        Ordering::Greater => 1,
    }
}

/// The order of the `n` bytes from `a` on and those from `b` on, all of them mapped. As many as both have in one run are
/// compared at once.
fn order_of(mem: &Memory, a: u64, b: u64, n: u64) -> Ordering
    requires first { result_err (read mem.now a n) ≡ None }
    requires second { result_err (read mem.now b n) ≡ None }
    ensures { compared (read mem.now a n) (read mem.now b n) ≡ Ok (order_value result) }
{
    let mut first = a;
    let mut second = b;
    let mut left = n;
    while left > 0 {
        let xs = mem.run_from(first);
        let ys = mem.run_from(second);
        let count = left.min(xs.len().min(ys.len()) as u64);
        let order = order_of_runs(&xs[..count as usize], &ys[..count as usize]);
        if order.is_ne() {
            return order;
        }
        first += count;
        second += count;
        left -= count;
    }
    Ordering::Equal
}

/// The order of two runs of one length.
fn order_of_runs(xs: &[u8], ys: &[u8]) -> Ordering
    requires { length xs.now ≡ length ys.now }
    ensures { result ≡ byte_order xs.now ys.now }
{
    xs.cmp(&ys)
}
