use hw_base::Full;

/// Why a frame isn't entered: its task's stack has no room for it, or the host's memory ran out.
#[derive(Clone, Copy, Debug, PartialEq, Eq)]
pub enum EnterError {
    Full(Full),
    OutOfMemory,
}
