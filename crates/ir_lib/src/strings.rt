ghost use Rattle.hw_base.specs.TaggedAddress.{address_of};
ghost use Rattle.ir_lib.specs.Calls.{length_of};
ghost use Rattle.ir_lib.specs.Strings.{checked_string, string_at};
ghost use Rattle.std.specs.Prelude.{◌≡◌, ℕ, ◌+◌, ◌^◌, ◌<◌, List, ◌++◌, IfOk, OnOk, OnErr, Ok, Some};

use crate::string_fault::StringFault;
use hw_base::OutOfMemory;
use memchr::memchr;
use tbi_memory::{MemFault, Memory, Mismatch};

/// How many addresses there are: bits 55 to 0 of a number are its address.
const ADDRESSES: u64 = 0x100_0000_0000_0000;

/// The address that a number points to.
fn address(v: u64) -> u64
    ensures { result ≡ address_of v }
{
    v % ADDRESSES
}

/// How many bytes the string at `at` has, without its 0. No tags are tested. It fails with the first address of the string
/// that isn't mapped.
pub fn length(mem: &Memory, at: u64) -> Result<u64, MemFault>
    ensures length { result ≡ length_of (string_at mem.now at) }
    ensures inside { IfOk result (λ len. address_of at + len < 2 ^ 56) }
{
    let mut place = at;
    loop {
        let run = mem.run_from(place);
        if run.is_empty() {
            return Err(MemFault::Unmapped(address(place)));
        }
        match memchr(0, run) {
            Some(i) => return Ok(place - at + i as u64),
            None => {}
        }
        place += run.len() as u64;
    }
}

/// Tests the tags of the string at `at` and of its 0 against the tag of `at`, each byte as an access by itself. It returns how
/// many bytes the string has, without its 0, or the first byte that is refused.
pub fn check_string(mem: &Memory, at: u64) -> Result<u64, StringFault>
    ensures { result ≡ length_of (checked_string mem.now at) }
{
    match length_that_passes(mem, at) {
        Some(len) => Ok(len),
        None => check_each(mem, at),
    }
}

/// The length of the string at `at`, if one access to all of it and to its 0 passes the check.
fn length_that_passes(mem: &Memory, at: u64) -> Option<u64>
    ensures { (len : ℕ) → result ≡ Some len → length_of (checked_string mem.now at) ≡ Ok len }
{
    match length(mem, at) {
        Ok(len) => match mem.check(at, len + 1) {
            Ok(()) => Some(len),
            Err(_) => None,
        },
        Err(_) => None,
    }
}

/// The check of a string byte by byte.
#[cold]
fn check_each(mem: &Memory, at: u64) -> Result<u64, StringFault>
    ensures { result ≡ length_of (checked_string mem.now at) }
{
    let mut place = at;
    loop {
        match mem.check(place, 1) {
            Err(found) => return Err(StringFault { at: place, found }),
            Ok(()) => {}
        }
        let run = mem.run_from(place);
        if run.is_empty() {
            return Err(StringFault {
                at: place,
                found: Mismatch::Unmapped(address(place)),
            });
        }
        if run[0] == 0 {
            return Ok(place - at);
        }
        place += 1;
    }
}

/// Adds the `len` bytes of the string at `at`, all without its 0, to the end of `out`. It fails only if memory runs out; then
/// `out` is as before.
pub fn push_string(mem: &Memory, at: u64, len: u64, out: &mut Vec<u8>) -> Result<(), OutOfMemory>
    requires length { length_of (string_at mem.now at) ≡ Ok len }
    ensures ok { (bytes : List ℕ) → string_at mem.now at ≡ Ok bytes → OnOk result (out.new.items ≡ out.old.items ++ bytes) }
    ensures err { OnErr result (out.new.items ≡ out.old.items) }
{
    let before = out.len();
    let mut place = at;
    let mut left = len;
    while left > 0 {
        let run = mem.run_from(place);
        let count = left.min(run.len() as u64);
        match out.extend_from_slice(&run[..count as usize]) {
            Ok(()) => {}
            Err(_) => {
                out.truncate(before);
                return Err(OutOfMemory);
            }
        }
        place += count;
        left -= count;
    }
    Ok(())
}
