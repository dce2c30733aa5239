ghost use Rattle.std.specs.Prelude.{◌≡◌, ◌+◌, ◌<◌, ◌≤◌, OnOk, OnErr, reverse};
ghost use Rattle.std.specs.Vec.{vec_len, vec_capacity};
ghost use Rattle.stack_tags.specs.KeptFrames.{top_of_entered};

use crate::FrameRecord;
use crate::variables::Variable;
use hw_base::OutOfMemory;

/// A living frame, and where its variables begin among those of its task.
#[derive(Clone, Copy)]
pub struct EnteredFrame {
    pub frame: FrameRecord,
    pub first: usize,
}

/// The lowest address of the newest of these frames, or the stack's end if there is none.
pub(crate) fn top_of(frames: &[EnteredFrame], end: u64) -> u64
    ensures { result ≡ top_of_entered end (reverse frames.now) }
{
    match frames.last() {
        Some(newest) => newest.frame.low,
        None => end,
    }
}

/// Makes room for one more frame, and for so many more variables. Frames and variables stay, whether there is memory or not.
pub(crate) fn make_room(
    frames: &mut Vec<EnteredFrame>,
    variables: &mut Vec<Variable>,
    count: usize,
) -> Result<(), OutOfMemory>
    ensures frames { frames.new.items ≡ frames.old.items }
    ensures variables { variables.new.items ≡ variables.old.items }
    ensures frame_fits { OnOk result (vec_len frames.new < vec_capacity frames.new) }
    ensures variables_fit { OnOk result (vec_len variables.new + count ≤ vec_capacity variables.new) }
{
    frames.try_reserve(1)?;
    variables.try_reserve(count)?;
    Ok(())
}
