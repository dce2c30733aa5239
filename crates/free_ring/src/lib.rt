//! The last records that a task remembers, at most so many: the blocks that it freed, or the frames that it ended. The main
//! calls are `Ring::push`, after which the oldest record is dropped if too many are kept, and `Ring::newest_first`. The
//! layer above relies on that pushing takes no memory, and that the kept records are the definitions' list, newest first.
#![tactic(auto)]

mod laws;
mod ring;

pub use laws::the_last_records_are_kept;
pub use ring::Ring;

#[cfg(test)]
mod tests;
