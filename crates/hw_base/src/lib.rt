//! The types that every layer shares: values and places of the source program, kinds of accesses, faults and
//! operators, the program's statuses, and the small lists that contracts see as lists of numbers.
//! It does no work: the layers above build these values, match on them and compare them.
#![tactic(auto)]

mod accesses;
mod byte_list;
mod endings;
mod numbers;
mod operators;
mod out_of_memory;
mod pointers;
mod size_list;

pub use accesses::{Access, Kind, Reason};
pub use byte_list::ByteList;
pub use endings::{Full, Input, Space, Status, Trap};
pub use numbers::{
    GLOBALS_AT, HEAP_AT, MOST_FRAMES, MOST_GLOBALS, MOST_HEAP, MOST_NESTING, MOST_RING, MOST_SIZE,
    MOST_STEPS, MOST_TASKS, MOST_TEXT, MOST_WORDS, MUTEX_SIZE, PAGE, STACK_LENGTH, STACKS_AT,
    TASK_NUMBER_SIZE,
};
pub use operators::{BinOp, BitOp, CastOp, OverOp, Pred, RmwOp};
pub use out_of_memory::OutOfMemory;
pub use pointers::{Base, Obj, Pointer, Site};
pub use size_list::SizeList;

#[cfg(test)]
mod tests {
    use super::*;
    use std::test::Fail;

    #[test]
    fn lists_keep_what_is_pushed_in_order(rt: HostRuntime) -> Result<(), Fail> {
        let mut bytes = ByteList::new(rt.alloc());
        assert!(rt; bytes.is_empty());
        for byte in [7u8, 0, 255] {
            assert_eq!(rt; bytes.push(byte), Ok(()));
        }
        assert_eq!(rt; bytes.len(), 3);
        assert_eq!(rt; bytes.as_slice(), [7, 0, 255].as_slice());
        assert_eq!(rt; bytes.get(2), Some(255));
        assert_eq!(rt; bytes.get(3), None);
        let again = ByteList::from_vec([7u8, 0].to_vec(rt.alloc())?);
        assert_eq!(rt; again.as_slice(), [7, 0].as_slice());
        let mut sizes = SizeList::new(rt.alloc());
        assert!(rt; sizes.is_empty());
        assert_eq!(rt; sizes.push(1 << 80), Ok(()));
        assert_eq!(rt;
            (sizes.len(), sizes.get(0), sizes.get(1)),
            (1, Some(1 << 80), None)
        );
        Ok(())
    }
}
