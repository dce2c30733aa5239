ghost use Rattle.std.specs.Prelude.{◌≡◌, ℕ, ◌+◌, ◌%◌, ◌^◌, ◌<◌, ◌≤◌, All, OnOk, IfOk, Ok, Err, Some, None, option_map, slice_get};
ghost use Rattle.hw_base.specs.declared.numbers.TheConstants.{STACK_LENGTH};
ghost use Rattle.hw_base.specs.declared.endings.Full.{Full};
ghost use Rattle.hw_base.specs.AddressMap.{frame_size};
ghost use Rattle.hw_tags.specs.Words.{coming};
ghost use Rattle.stack_tags.specs.declared.enter_error.EnterError.{EnterError};
ghost use Rattle.stack_tags.specs.Frames.{LivingFrame, no_frames, top_above};
ghost use Rattle.stack_tags.specs.FrameSteps.{with_variables};
ghost use Rattle.stack_tags.specs.KeptFrames.{bytes_of, stack_refusal, frame_on, with_entered, frames_left, memory_left, newest_variable};

use crate::entered_frames::{EnteredFrame, make_room, top_of};
use crate::variables::{Variable, frame_bytes, push_variables, put_variables};
use crate::{EnterError, FrameRecord};
use free_ring::Ring;
use hw_base::{Full, OutOfMemory, STACK_LENGTH, SizeList, Space};
use hw_tags::{Words, frame_tag};
use std::alloc::Global;
use std::marker::Model;
use tbi_memory::Memory;

/// The tag of a number begins at this bit's value.
const TAG_UNIT: u64 = 0x100_0000_0000_0000;

/// The frames of one task. Contracts see the living and the ended ones, newest first, the address after the stack's last byte,
/// and how many ended frames are remembered. The room for the ended frames is taken at the start.
#[derive(Drop)]
pub(crate) struct TaskStack {
    end: u64,
    variables: Vec<Variable>,
    entered: Vec<EnteredFrame>,
    ended: Ring<FrameRecord>,
}

impl Model for TaskStack {
    ghost use Rattle.std.specs.Prelude.{reverse};
    ghost use Rattle.stack_tags.specs.KeptFrames.{OneStack, living_of, IsStack};

    ghost Value = { OneStack };

    ghost view = { λ s. record { end = s.end; frames = record { living = living_of s.variables.items (reverse s.entered.items); ended = s.ended.kept }; ring = s.ended.size } };

    ghost invariant = { λ s. IsStack s.end s.variables.items (reverse s.entered.items) };
}

impl TaskStack {
    /// A stack of `STACK_LENGTH` bytes that ends at an address, without frames. It fails only if memory runs out.
    pub(crate) fn new(alloc: Global, end: u64, ring: u32) -> Result<TaskStack, OutOfMemory>
        requires whole { end % 16 ≡ 0 }
        requires not_below { STACK_LENGTH ≤ end }
        requires small { end < 2 ^ 56 }
        requires some { 1 ≤ ring }
        ensures { IfOk result (λ s. s ≡ record { end = end; frames = no_frames; ring = ring }) }
    {
        let ended = Ring::new(alloc, ring)?;
        Ok(TaskStack {
            end,
            variables: Vec::new(alloc),
            entered: Vec::new(alloc),
            ended,
        })
    }

    /// The lowest address of the newest frame, or the stack's end if there is none.
    fn top(&self) -> u64
        ensures value { result ≡ top_above self.now.end self.now.frames.living }
        ensures not_above { result ≤ self.now.end }
        ensures within { self.now.end ≤ result + STACK_LENGTH }
        ensures whole { result % 16 ≡ 0 }
        ensures low { STACK_LENGTH ≤ self.now.end }
        ensures small { self.now.end < 2 ^ 56 }
    {
        top_of(self.entered.as_slice(), self.end)
    }

    /// Why there is no room for a frame of so many bytes, if there is none.
    fn refusal(&self, asked: u128) -> Option<Full>
        ensures { result ≡ stack_refusal self.now asked }
    {
        let living = self.end - self.top();
        if asked <= (STACK_LENGTH - living) as u128 {
            None
        } else {
            Some(Full {
                space: Space::Stack,
                asked,
                living,
            })
        }
    }

    /// Enters a frame with variables of these sizes. The result is its lowest address. After an error all is as before.
    pub(crate) fn enter(
        &mut self,
        mem: &mut Memory,
        words: &mut Words,
        func: u32,
        sizes: &SizeList,
        birth: u32,
        born: u32,
    ) -> Result<u64, EnterError>
        requires { All (λ size. size < 2 ^ 64) sizes.now }
        ensures fits { OnOk result (stack_refusal self.old (frame_size sizes.now) ≡ None) }
        ensures frame { OnOk result (self.new ≡ with_entered self.old (frame_on self.old func (coming words.old 0) sizes.now birth born)) }
        ensures memory { OnOk result (mem.new ≡ with_variables mem.old (coming words.old 0) 0 (frame_on self.old func 0 sizes.now birth born).frame.low sizes.now) }
        ensures low { IfOk result (λ low. low ≡ top_above self.new.end self.new.frames.living) }
        ensures drawn { OnOk result ((k : ℕ) → coming words.new k ≡ coming words.old (k + 1)) }
        ensures full { (full : Full) → result ≡ Err (EnterError.Full full) → stack_refusal self.old (frame_size sizes.now) ≡ Some full }
        ensures memory_ran_out { result ≡ Err EnterError.OutOfMemory → stack_refusal self.old (frame_size sizes.now) ≡ None }
        ensures stays { (error : EnterError) → result ≡ Err error → self.new ≡ self.old }
        ensures memory_stays { (error : EnterError) → result ≡ Err error → mem.new ≡ mem.old }
        ensures words_stay { (error : EnterError) → result ≡ Err error → words.new ≡ words.old }
    {
        let asked = frame_bytes(sizes);
        match self.refusal(asked) {
            Some(full) => return Err(EnterError::Full(full)),
            None => {}
        }
        let low = self.top() - asked as u64;
        let count = sizes.len() as usize;
        match make_room(&mut self.entered, &mut self.variables, count) {
            Ok(()) => {}
            Err(_) => return Err(EnterError::OutOfMemory),
        }
        let first = self.variables.len();
        let word = words.next();
        push_variables(&mut self.variables, sizes, low);
        put_variables(mem, &self.variables[first..], word);
        let frame = FrameRecord {
            func,
            low,
            word,
            birth,
            born,
            died: None,
        };
        let _pushed = self.entered.push(EnteredFrame { frame, first });
        Ok(low)
    }

    /// Leaves the newest frame: its granules have the tag 0, and it is remembered. If there is none nothing changes.
    pub(crate) fn leave(&mut self, mem: &mut Memory, died: u32)
        ensures frames { self.new ≡ record self.old { frames = frames_left self.old.ring died self.old.frames.living self.old.frames } }
        ensures memory { mem.new ≡ memory_left mem.old self.old.frames.living }
    {
        match self.entered.pop() {
            Some(newest) => {
                let frame = newest.frame;
                let end = top_of(self.entered.as_slice(), self.end);
                mem.tag_plain(frame.low, end - frame.low, 0);
                self.variables.truncate(newest.first);
                self.ended.push(FrameRecord {
                    died: Some(died),
                    ..frame
                });
            }
            None => {}
        }
    }

    /// The tagged address of a variable of the newest frame, counted from 0, or 0 if there is no frame.
    pub(crate) fn variable(&self, k: u32) -> u64
        ensures { result ≡ newest_variable self.now.frames.living k }
    {
        match self.entered.last() {
            Some(newest) => {
                let tag = frame_tag(newest.frame.word, k);
                let place = match self.variables.get(newest.first.saturating_add(k as usize)) {
                    Some(variable) => variable.place,
                    None => top_of(&self.entered[..self.entered.len() - 1], self.end),
                };
                tag as u64 * TAG_UNIT + place
            }
            None => 0,
        }
    }

    /// The living frame that is number `i` from 0, counted from the newest, if there are so many.
    pub(crate) fn living(&self, i: u32) -> Option<FrameRecord>
        ensures { result ≡ option_map (λ living. living.frame) (slice_get self.now.frames.living i) }
    {
        let count = self.entered.len();
        let i = i as usize;
        if i < count {
            Some(self.entered[count - 1 - i].frame)
        } else {
            None
        }
    }

    /// The ended frame that is number `i` from 0, counted from the newest, if so many are remembered.
    pub(crate) fn ended(&self, i: u32) -> Option<FrameRecord>
        ensures { result ≡ slice_get self.now.frames.ended i }
    {
        self.ended.newest_first(i)
    }
}
