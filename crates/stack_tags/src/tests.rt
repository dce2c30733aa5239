ghost use Rattle.std.specs.Prelude.{◌<◌, length};

use super::*;
use hw_base::{ByteList, Full, OutOfMemory, SizeList, Space};
use hw_tags::{Words, WordsSpec};
use std::alloc::Global;
use std::test::Fail;
use tbi_memory::{Layout, Memory};

/// Memory with no globals and no heap.
fn stacks_alone(alloc: Global) -> Result<Memory, OutOfMemory> {
    let layout = Layout {
        constants: 0,
        variables_at: 0x1_1000,
        variables: 0,
        heap: 0,
    };
    Memory::new(alloc, &layout)
}
