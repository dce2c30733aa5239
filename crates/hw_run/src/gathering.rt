ghost use Rattle.std.specs.Prelude.{◌≡◌, ◌++◌, OnOk, take};

use hw_base::{ByteList, OutOfMemory};
use ir_machine::Machine;

/// Adds the first `count` bytes that the last step wrote that wrote any, or all if there are fewer.
#[inline(never)]
pub fn gather(machine: &Machine, count: u64, output: &mut ByteList) -> Result<(), OutOfMemory>
    ensures { OnOk result (output.new ≡ output.old ++ take count machine.now.run.printed) }
{
    for i in 0..count {
        match machine.wrote(i) {
            Some(byte) => output.push(byte)?,
            None => return Ok(()),
        }
    }
    Ok(())
}
