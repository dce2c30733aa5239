ghost use Rattle.std.specs.Prelude.{◌≡◌, ◌≢◌, ℕ, ◌+◌, ◌-◌, ◌^◌, ◌<◌, ◌≤◌, min, IfOk, OnOk, Ok, Err, None, Some, length};
ghost use Rattle.hw_base.specs.declared.accesses.Access.TheVariants.{Read};
ghost use Rattle.hw_base.specs.declared.endings.Full.{Full as NoRoom};
ghost use Rattle.hw_tags.specs.Words.{coming};
ghost use Rattle.tag_alloc.specs.declared.blocks.Block.{Block};
ghost use Rattle.tag_alloc.specs.HeapBlocks.{free_mismatch, freed_block};
ghost use Rattle.tag_alloc.specs.HeapSteps.{AfterBirth, after_death, allocated};
ghost use Rattle.tbi_memory.specs.AddressSpace.{moved};
ghost use Rattle.ir_machine.specs.BlockFunctions.{block_freed, free_step, malloc_step, moved_block, realloc_step, with_birth, with_death, with_new_block};
ghost use Rattle.ir_machine.specs.RunStates.{AddsChain, AreNext, Grows, GrowsLittle, HasRoom, IsOutcome};
ghost use Rattle.ir_machine.specs.State.{MachineOutcome, MachineSeen, MachineSetting};
ghost use Rattle.ir_machine.specs.StepEnds.{chain_at, chain_known, gives_to, goes_on, with_read, with_write};

use crate::found::Found;
use crate::progress::{Ending, Progress};
use crate::run::Run;
use hw_base::{Access, Full, OutOfMemory, Site};
use hw_tags::Words;
use tbi_memory::MemFault;

impl Run {
    /// The birth of a block of so many bytes, with a chain. The result is the tagged address of its first byte. If there is no
    /// place for it nothing changes.
    fn new_block(&mut self, words: &mut Words, size: u128, chain: u32) -> Result<u64, Full>
        requires room { HasRoom self.old.seen.shared }
        ensures ok { IfOk result (λ number. (after : AfterBirth)
            × (allocated self.old.seen.shared.heap self.old.seen.shared.memory (coming words.old 0) size self.old.seen.shared.births chain ≡ Ok after)
            × (after.number ≡ number) × (self.new ≡ record self.old { seen = with_birth self.old.seen after })) }
        ensures grows { OnOk result (Grows 0 1 1 words.old words.new self.old.seen.shared self.new.seen.shared) }
        ensures full { (full : NoRoom) → result ≡ Err full → (word : ℕ)
            → allocated self.old.seen.shared.heap self.old.seen.shared.memory word size self.old.seen.shared.births chain ≡ Err full }
        ensures stays { (full : NoRoom) → result ≡ Err full → self.new ≡ self.old }
        ensures words_stay { (full : NoRoom) → result ≡ Err full → words.new ≡ words.old }
    {
        match self
            .heap
            .malloc(&mut self.memory, words, size, self.births, chain)
        {
            Ok(number) => {
                self.births += 1;
                self.drawn += 1;
                Ok(number)
            }
            Err(full) => Err(full),
        }
    }

    /// The death of the block that a number names, with a chain.
    fn end_block(&mut self, words: &mut Words, number: u64, chain: u32) -> Result<(), OutOfMemory>
        requires drawn { self.old.seen.shared.drawn < 2 ^ 64 - 1 }
        requires ring { 1 ≤ length self.old.seen.shared.heap.freed }
        requires task { self.old.seen.task ≡ 0 }
        requires passes { free_mismatch self.old.seen.shared.heap number ≡ None }
        requires names { (block : Block) × (freed_block self.old.seen.shared.heap number ≡ Some block) }
        ensures state { OnOk result ((block : Block) → freed_block self.old.seen.shared.heap number ≡ Some block
            → self.new ≡ record self.old { seen = with_death self.old.seen (after_death self.old.seen.shared.heap self.old.seen.shared.memory (coming words.old 0) 0 chain block) }) }
        ensures grows { OnOk result (Grows 0 0 1 words.old words.new self.old.seen.shared self.new.seen.shared) }
    {
        match self.heap.reserve() {
            Ok(()) => {}
            Err(_) => return Err(OutOfMemory),
        }
        match self.heap.free(&mut self.memory, words, number, 0, chain) {
            Ok(()) => {
                self.drawn += 1;
                Ok(())
            }
            Err(_) => unreachable!(),
        }
    }

    /// `malloc` gives a new block of so many bytes; a full heap ends the run (ISO C, "The malloc function").
    #[tactic(auto, unfolding(crate::specs::BlockFunctions::malloc_step))]
    pub fn malloc(&mut self, words: &mut Words, site: Site, to: Option<u32>, size: u128) -> Progress
        requires place { self.old.seen.frame.place + 1 < 2 ^ 64 }
        requires chains { length self.old.seen.shared.chains < 2 ^ 32 - 2 }
        requires room { HasRoom self.old.seen.shared }
        ensures step { (setting : MachineSetting) → AreNext setting words.old self.old.seen.shared.drawn
            → IsOutcome (malloc_step setting self.old.seen site to size) result self.new }
        ensures grows { result ≢ Progress.NoMemory → GrowsLittle words.old words.new self.old.seen.shared self.new.seen.shared }
    {
        let chain = match self.push_chain(site) {
            Ok(chain) => chain,
            Err(OutOfMemory) => return Progress::NoMemory,
        };
        match self.new_block(words, size, chain) {
            Ok(number) => {
                self.set_result(to, number as u128);
                self.go_on()
            }
            Err(full) => self.end(Ending::Full(full)),
        }
    }

    /// `free` ends the block that a number names, nothing if the number is 0 (ISO C, "The free function").
    #[tactic(auto, unfolding(crate::specs::BlockFunctions::free_step))]
    pub fn free(&mut self, words: &mut Words, site: Site, number: u64) -> Progress
        requires task { self.old.seen.task ≡ 0 }
        requires place { self.old.seen.frame.place + 1 < 2 ^ 64 }
        requires chains { length self.old.seen.shared.chains < 2 ^ 32 - 2 }
        requires room { HasRoom self.old.seen.shared }
        ensures step { (setting : MachineSetting) → AreNext setting words.old self.old.seen.shared.drawn
            → IsOutcome (free_step setting self.old.seen site number) result self.new }
        ensures grows { result ≢ Progress.NoMemory → GrowsLittle words.old words.new self.old.seen.shared self.new.seen.shared }
    {
        match self.heap.to_free(number) {
            Err(found) => self.report(site, Access::Free, 0, number, Found::Block(found)),
            Ok(None) => self.go_on(),
            Ok(Some(_)) => self.free_block(words, site, number),
        }
    }

    /// The block of a number, which may be freed, ends.
    fn free_block(&mut self, words: &mut Words, site: Site, number: u64) -> Progress
        requires task { self.old.seen.task ≡ 0 }
        requires place { self.old.seen.frame.place + 1 < 2 ^ 64 }
        requires chains { length self.old.seen.shared.chains < 2 ^ 32 - 2 }
        requires room { HasRoom self.old.seen.shared }
        requires passes { free_mismatch self.old.seen.shared.heap number ≡ None }
        requires names { (block : Block) × (freed_block self.old.seen.shared.heap number ≡ Some block) }
        ensures step { (setting : MachineSetting) (block : Block) → AreNext setting words.old self.old.seen.shared.drawn → freed_block self.old.seen.shared.heap number ≡ Some block
            → IsOutcome (goes_on (block_freed setting (chain_known self.old.seen site) (chain_at self.old.seen site) block)) result self.new }
        ensures grows { result ≢ Progress.NoMemory → GrowsLittle words.old words.new self.old.seen.shared self.new.seen.shared }
    {
        let chain = match self.push_chain(site) {
            Ok(chain) => chain,
            Err(OutOfMemory) => return Progress::NoMemory,
        };
        match self.end_block(words, number, chain) {
            Ok(()) => self.go_on(),
            Err(OutOfMemory) => Progress::NoMemory,
        }
    }

    /// `realloc` gives a new block with the first bytes of the old one, which ends. For the number 0 it is `malloc`; a full heap
    /// ends the run (ISO C, "The realloc function").
    #[tactic(auto, unfolding(crate::specs::BlockFunctions::realloc_step))]
    pub fn realloc(
        &mut self,
        words: &mut Words,
        site: Site,
        to: Option<u32>,
        number: u64,
        size: u64,
    ) -> Progress
        requires task { self.old.seen.task ≡ 0 }
        requires place { self.old.seen.frame.place + 1 < 2 ^ 64 }
        requires chains { length self.old.seen.shared.chains < 2 ^ 32 - 2 }
        requires room { HasRoom self.old.seen.shared }
        ensures step { (setting : MachineSetting) → AreNext setting words.old self.old.seen.shared.drawn
            → IsOutcome (realloc_step setting self.old.seen site to number size) result self.new }
        ensures grows { result ≢ Progress.NoMemory → GrowsLittle words.old words.new self.old.seen.shared self.new.seen.shared }
    {
        match self.heap.to_free(number) {
            Err(found) => self.report(site, Access::Free, 0, number, Found::Block(found)),
            Ok(None) => self.malloc(words, site, to, size as u128),
            Ok(Some(old)) => self.renew_block(words, site, to, number, size, old.size),
        }
    }

    /// A new block of `size` bytes takes the place of the one that a number names, which has `old_size`.
    fn renew_block(
        &mut self,
        words: &mut Words,
        site: Site,
        to: Option<u32>,
        number: u64,
        size: u64,
        old_size: u64,
    ) -> Progress
        requires task { self.old.seen.task ≡ 0 }
        requires place { self.old.seen.frame.place + 1 < 2 ^ 64 }
        requires chains { length self.old.seen.shared.chains < 2 ^ 32 - 2 }
        requires room { HasRoom self.old.seen.shared }
        requires passes { free_mismatch self.old.seen.shared.heap number ≡ None }
        requires names { (block : Block) × (freed_block self.old.seen.shared.heap number ≡ Some block) }
        ensures step { (setting : MachineSetting) (block : Block) → AreNext setting words.old self.old.seen.shared.drawn
            → freed_block self.old.seen.shared.heap number ≡ Some block → block.size ≡ old_size
            → IsOutcome (with_new_block setting (chain_known self.old.seen site) size (chain_at self.old.seen site)
            (moved_block setting site to number size (chain_at self.old.seen site) block)) result self.new }
        ensures grows { result ≢ Progress.NoMemory → GrowsLittle words.old words.new self.old.seen.shared self.new.seen.shared }
    {
        let chain = match self.push_chain(site) {
            Ok(chain) => chain,
            Err(OutOfMemory) => return Progress::NoMemory,
        };
        match self.new_block(words, size as u128, chain) {
            Ok(fresh) => {
                self.move_block(words, site, to, chain, number, fresh, old_size.min(size))
            }
            Err(full) => self.end(Ending::Full(full)),
        }
    }

    /// The first `n` bytes of the block that a number names are copied to a new one. Then the block ends, with a chain.
    fn move_block(
        &mut self,
        words: &mut Words,
        site: Site,
        to: Option<u32>,
        chain: u32,
        number: u64,
        new: u64,
        n: u64,
    ) -> Progress
        requires task { self.old.seen.task ≡ 0 }
        requires place { self.old.seen.frame.place + 1 < 2 ^ 64 }
        requires chains { length self.old.seen.shared.chains < 2 ^ 32 - 1 }
        requires drawn { self.old.seen.shared.drawn < 2 ^ 64 - 1 }
        requires ring { 1 ≤ length self.old.seen.shared.heap.freed }
        requires passes { free_mismatch self.old.seen.shared.heap number ≡ None }
        requires names { (block : Block) × (freed_block self.old.seen.shared.heap number ≡ Some block) }
        ensures step { (setting : MachineSetting) (block : Block) (size : ℕ) → AreNext setting words.old self.old.seen.shared.drawn
            → freed_block self.old.seen.shared.heap number ≡ Some block → min block.size size ≡ n
            → IsOutcome (moved_block setting site to number size chain block self.old.seen new) result self.new }
        ensures grows { result ≢ Progress.NoMemory → Grows 1 0 1 words.old words.new self.old.seen.shared self.new.seen.shared }
    {
        match self.memory.move_bytes(new, number, n) {
            Ok(()) => self.end_moved(words, to, chain, number, new),
            Err(fault) => self.not_moved(site, number, new, n, fault),
        }
    }

    /// The block that a number names ends, with a chain, and the number of a new one is the result.
    fn end_moved(
        &mut self,
        words: &mut Words,
        to: Option<u32>,
        chain: u32,
        number: u64,
        new: u64,
    ) -> Progress
        requires task { self.old.seen.task ≡ 0 }
        requires place { self.old.seen.frame.place + 1 < 2 ^ 64 }
        requires drawn { self.old.seen.shared.drawn < 2 ^ 64 - 1 }
        requires ring { 1 ≤ length self.old.seen.shared.heap.freed }
        requires passes { free_mismatch self.old.seen.shared.heap number ≡ None }
        requires names { (block : Block) × (freed_block self.old.seen.shared.heap number ≡ Some block) }
        ensures step { (setting : MachineSetting) (block : Block) → AreNext setting words.old self.old.seen.shared.drawn
            → freed_block self.old.seen.shared.heap number ≡ Some block
            → IsOutcome (gives_to (block_freed setting self.old.seen chain block) to new) result self.new }
        ensures grows { result ≢ Progress.NoMemory → Grows 0 0 1 words.old words.new self.old.seen.shared self.new.seen.shared }
    {
        match self.end_block(words, number, chain) {
            Ok(()) => {
                self.set_result(to, new as u128);
                self.go_on()
            }
            Err(OutOfMemory) => Progress::NoMemory,
        }
    }

    /// The run ends since memory refuses to move bytes from a number to a new one.
    #[cold]
    pub fn not_moved(
        &mut self,
        site: Site,
        number: u64,
        new: u64,
        n: u64,
        fault: MemFault,
    ) -> Progress
        requires chains { length self.old.seen.shared.chains < 2 ^ 32 - 1 }
        requires refused { moved self.old.seen.shared.memory new number n ≡ Err fault }
        ensures step { (go : MachineSeen → MachineOutcome)
            → IsOutcome (with_read self.old.seen site Read n number (λ bytes. with_write self.old.seen site new bytes go)) result self.new }
        ensures adds { result ≢ Progress.NoMemory → AddsChain self.old.seen.shared self.new.seen.shared }
    {
        if self.memory.is_mapped(number, n) {
            self.refused(site, Access::Write, n, new, fault)
        } else {
            self.refused(site, Access::Read, n, number, fault)
        }
    }
}
