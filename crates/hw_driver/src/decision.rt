ghost use Rattle.std.specs.Prelude.{◌≡◌};

use hw_base::{ByteList, Status};

/// A closing text. Those that report a failure take no memory.
#[derive(Drop)]
pub enum Text {
    Usage,
    FileFault,
    Memory,
    Own(ByteList),
}

impl Text {
    ghost use Rattle.hw_driver.specs.Decided.{text_view};

    pub fn as_slice(&self) -> &[u8]
        ensures { result.now ≡ text_view self.now }
    {
        match self {
            Text::Usage => b"usage: hwasan_ir MODE FILE [options]\n",
            Text::FileFault => b"fault: file\n",
            Text::Memory => b"memory\n",
            Text::Own(text) => text.as_slice(),
        }
    }
}

/// What the program decided on: its status, what it writes to `out`, and its closing text.
#[derive(Drop)]
pub struct Decision {
    pub status: Status,
    pub output: ByteList,
    pub text: Text,
}
