ghost use Rattle.std.specs.Prelude.{◌≡◌, ℕ, ◌+◌, ◌-◌, ◌%◌, ◌^◌, ◌<◌, List, [], ◌∷◌, ◌++◌, length, Ok, Err};
ghost use Rattle.ir_lib.specs.Calls.{compared, length_of};
ghost use Rattle.ir_lib.specs.Strings.{string_at};
ghost use Rattle.tbi_memory.specs.AddressSpace.{read};
ghost use Rattle.ir_machine.specs.ByteFunctions.{copy_step, memcmp_step, set_step};
ghost use Rattle.ir_machine.specs.RunStates.{IsOutcome, IsPlainOutcome};
ghost use Rattle.ir_machine.specs.StepEnds.{gives_to, prints};
ghost use Rattle.ir_machine.specs.TextFunctions.{puts_step, string_refused, strlen_step};

use crate::progress::Progress;
use crate::run::Run;
use hw_base::{Access, Site};
use ir_lib::{compare, copy, length, push_string, set};
use tbi_memory::MemFault;

/// How many addresses there are: bits 55 to 0 of a number are its address.
const ADDRESSES: u64 = 0x100_0000_0000_0000;

impl Run {
    /// The result of a call has a number, if it has a register, and the task goes on.
    pub fn give_result(&mut self, to: Option<u32>, n: u128) -> Progress
        requires { self.old.seen.frame.place + 1 < 2 ^ 64 }
        ensures { IsPlainOutcome (gives_to self.old.seen to n) result self.new }
    {
        self.set_result(to, n);
        self.go_on()
    }

    /// `memcpy`, `memmove` and their intrinsics copy bytes from one number to another, which is the result, as if all were read
    /// first (ISO C, "The memmove function").
    #[tactic(auto, unfolding(crate::specs::ByteFunctions::copy_step))]
    pub fn copy(&mut self, site: Site, to: Option<u32>, target: u64, from: u64, n: u64) -> Progress
        requires place { self.old.seen.frame.place + 1 < 2 ^ 64 }
        requires chains { length self.old.seen.shared.chains < 2 ^ 32 - 1 }
        ensures { IsOutcome (copy_step self.old.seen site to target from n) result self.new }
    {
        match copy(&mut self.memory, target, from, n) {
            Ok(()) => self.give_result(to, target as u128),
            Err(fault) => self.not_moved(site, from, target, n, fault),
        }
    }

    /// `memset` and its intrinsic write the low byte of a number into so many bytes, and give the first one's number (ISO C, "The
    /// memset function").
    #[tactic(auto, unfolding(crate::specs::ByteFunctions::set_step))]
    pub fn set_bytes(
        &mut self,
        site: Site,
        to: Option<u32>,
        target: u64,
        value: u32,
        n: u64,
    ) -> Progress
        requires place { self.old.seen.frame.place + 1 < 2 ^ 64 }
        requires chains { length self.old.seen.shared.chains < 2 ^ 32 - 1 }
        ensures { IsOutcome (set_step self.old.seen site to target value n) result self.new }
    {
        match set(&mut self.memory, target, (value % 256) as u8, n) {
            Ok(()) => self.give_result(to, target as u128),
            Err(fault) => self.refused(site, Access::Write, n, target, fault),
        }
    }

    /// `memcmp` compares two runs of bytes by the first two that differ (ISO C, "The memcmp function").
    #[tactic(auto, unfolding(crate::specs::ByteFunctions::memcmp_step))]
    pub fn memcmp(
        &mut self,
        site: Site,
        to: Option<u32>,
        first: u64,
        second: u64,
        n: u64,
    ) -> Progress
        requires place { self.old.seen.frame.place + 1 < 2 ^ 64 }
        requires chains { length self.old.seen.shared.chains < 2 ^ 32 - 1 }
        ensures { IsOutcome (memcmp_step self.old.seen site to first second n) result self.new }
    {
        match compare(&self.memory, first, second, n) {
            Ok(order) => self.give_result(to, order.cast_unsigned() as u128),
            Err(fault) => self.not_compared(site, to, first, second, n, fault),
        }
    }

    /// The run ends since memory refuses to read one of two runs of bytes.
    #[cold]
    #[tactic(auto, unfolding(crate::specs::ByteFunctions::memcmp_step))]
    fn not_compared(
        &mut self,
        site: Site,
        to: Option<u32>,
        first: u64,
        second: u64,
        n: u64,
        fault: MemFault,
    ) -> Progress
        requires chains { length self.old.seen.shared.chains < 2 ^ 32 - 1 }
        requires refused { compared (read self.old.seen.shared.memory first n) (read self.old.seen.shared.memory second n) ≡ Err fault }
        ensures { IsOutcome (memcmp_step self.old.seen site to first second n) result self.new }
    {
        if self.memory.is_mapped(first, n) {
            self.refused(site, Access::Read, n, second, fault)
        } else {
            self.refused(site, Access::Read, n, first, fault)
        }
    }

    /// `strlen` counts the bytes of a string before its first 0 (ISO C, "The strlen function").
    #[tactic(auto, unfolding(crate::specs::TextFunctions::strlen_step))]
    pub fn strlen(&mut self, site: Site, to: Option<u32>, start: u64) -> Progress
        requires place { self.old.seen.frame.place + 1 < 2 ^ 64 }
        requires chains { length self.old.seen.shared.chains < 2 ^ 32 - 1 }
        ensures { IsOutcome (strlen_step self.old.seen site to start) result self.new }
    {
        match length(&self.memory, start) {
            Ok(len) => self.give_result(to, len as u128),
            Err(fault) => self.text_refused(site, start, fault),
        }
    }

    /// `puts` prints a string and a line feed, and gives 0 (ISO C, "The puts function"; that the result is 0 is this project's choice).
    #[tactic(auto, unfolding(crate::specs::TextFunctions::puts_step))]
    pub fn puts(&mut self, site: Site, to: Option<u32>, start: u64) -> Progress
        requires place { self.old.seen.frame.place + 1 < 2 ^ 64 }
        requires chains { length self.old.seen.shared.chains < 2 ^ 32 - 1 }
        ensures { IsOutcome (puts_step self.old.seen site to start) result self.new }
    {
        match length(&self.memory, start) {
            Ok(len) => self.print_line(to, start, len),
            Err(fault) => self.text_refused(site, start, fault),
        }
    }

    /// The string of so many bytes at a number is printed, and a line feed.
    fn print_line(&mut self, to: Option<u32>, start: u64, len: u64) -> Progress
        requires place { self.old.seen.frame.place + 1 < 2 ^ 64 }
        requires text { length_of (string_at self.old.seen.shared.memory start) ≡ Ok len }
        ensures { (bytes : List ℕ) → string_at self.old.seen.shared.memory start ≡ Ok bytes
            → IsOutcome (prints self.old.seen to 0 (bytes ++ 10 ∷ [])) result self.new }
    {
        self.printed.clear();
        match push_string(&self.memory, start, len, &mut self.printed) {
            Ok(()) => {}
            Err(_) => return Progress::NoMemory,
        }
        match self.printed.push(10) {
            Ok(()) => {}
            Err(_) => return Progress::NoMemory,
        }
        self.set_result(to, 0);
        self.go_to(self.place() + 1);
        Progress::Printed
    }

    /// The run ends since a byte of the string at a number isn't mapped.
    #[cold]
    fn text_refused(&mut self, site: Site, start: u64, fault: MemFault) -> Progress
        requires chains { length self.old.seen.shared.chains < 2 ^ 32 - 1 }
        ensures { IsOutcome (string_refused self.old.seen site start fault) result self.new }
    {
        let number = match fault {
            MemFault::Unmapped(address) => {
                start.wrapping_add(address.saturating_sub(start % ADDRESSES))
            }
            MemFault::ReadOnly => start,
        };
        self.refused(site, Access::Read, 1, number, fault)
    }
}
