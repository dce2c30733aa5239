//! The numbers of the machine and of the text, each once: code and definitions name them. Addresses and lengths are in
//! bytes. All of them are this project's choice.

/// The longest text that is read, in bytes: 16 MiB.
pub const MOST_TEXT: u64 = 16_777_216;

/// How many brackets may be open at once in a text.
pub const MOST_NESTING: u32 = 64;

/// The first address of the global constants. The variables follow them from the next page on.
pub const GLOBALS_AT: u64 = 0x1_0000;

/// The variables begin at a multiple of this many bytes.
pub const PAGE: u64 = 4_096;

/// The first address of the first task's stack. The stacks follow each other.
pub const STACKS_AT: u64 = 0x1000_0000;

/// The length of a stack in bytes: 256 KiB.
pub const STACK_LENGTH: u64 = 0x4_0000;

/// The first address of the heap.
pub const HEAP_AT: u64 = 0x2000_0000;

/// How many tasks can start in a run, the one of `main` among them.
pub const MOST_TASKS: u32 = 64;

/// How many frames a task can have.
pub const MOST_FRAMES: u32 = 4_096;

/// The bytes of a task's number in memory, and its alignment.
pub const TASK_NUMBER_SIZE: u32 = 8;

/// The bytes of a mutex in memory, and its alignment.
pub const MUTEX_SIZE: u32 = 4;

/// How many bytes all globals can take, each in its rounded size.
pub const MOST_GLOBALS: u64 = 16_777_200;

/// The greatest size of a type and of a variable, in bytes: 2^40.
pub const MOST_SIZE: u64 = 0x100_0000_0000;

/// The greatest heap, in bytes: 256 MiB.
pub const MOST_HEAP: u64 = 0x1000_0000;

/// The greatest bound on the steps of a run.
pub const MOST_STEPS: u64 = 1_000_000_000;

/// How many freed blocks, and how many ended frames, a task can be told to remember.
pub const MOST_RING: u32 = 65_536;

/// How many words a list of words can have.
pub const MOST_WORDS: u64 = 65_536;
