ghost use Rattle.std.specs.Prelude.{◌≡◌, ℕ, ◌+◌, ◌<◌, length, IfOk};
ghost use Rattle.hw_tags.specs.Word.{repeated};

use hw_base::{ByteList, OutOfMemory};
use std::alloc::Global;

/// A list that isn't empty, and the place in it from which words are read on and on.
#[derive(Drop)]
pub(crate) struct RepeatedList {
    list: ByteList,
    at: u64,
    ghost within: { at < length list },
}

impl RepeatedList {
    /// A copy of the list, at its first word.
    pub(crate) fn new(alloc: Global, list: &ByteList) -> Result<RepeatedList, OutOfMemory>
        requires { 0 < length list.now }
        ensures list { IfOk result (λ r. r.list ≡ list.now) }
        ensures at { IfOk result (λ r. r.at ≡ 0) }
    {
        let items = Vec::from_slice(alloc, list.as_slice())?;
        Ok(RepeatedList {
            list: ByteList::from_vec(items),
            at: 0,
        })
    }

    /// The word at the place, which moves on by one, and from the end to the beginning.
    pub(crate) fn next(&mut self) -> u8
        ensures first { result ≡ repeated self.old.list self.old.at }
        ensures rest { (k : ℕ) → repeated self.new.list (self.new.at + k)
            ≡ repeated self.old.list (self.old.at + (k + 1)) }
    {
        let word = self.list.as_slice()[self.at as usize];
        let following = self.at + 1;
        self.at = if following == self.list.len() {
            0
        } else {
            following
        };
        word
    }
}
