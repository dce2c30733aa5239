ghost use Rattle.std.specs.Prelude.{◌≡◌, ◌+◌, ◌*◌, ◌^◌, ◌<◌, ◌≤◌, ◌++◌, All, Some, length, slice_get};
ghost use Rattle.std.specs.Vec.{vec_len, vec_capacity};
ghost use Rattle.hw_base.specs.AddressMap.{frame_size, rounded_size};
ghost use Rattle.stack_tags.specs.KeptFrames.{variables_at, with_each, AreObjects};

use hw_base::SizeList;
use hw_tags::frame_tag;
use tbi_memory::Memory;

/// A variable of a living frame: its lowest address without a tag, and its size in bytes.
#[derive(Clone, Copy)]
pub struct Variable {
    pub place: u64,
    pub size: u64,
}

/// The bytes that a variable of a size takes, in whole granules.
pub(crate) fn rounded(size: u64) -> u128
    ensures value { result ≡ rounded_size size }
    ensures below { result ≤ 2 ^ 64 }
    ensures not_below { size ≤ result }
    ensures some { 16 ≤ result }
{
    (size.max(1) as u128 + 15) / 16 * 16
}

/// The size at a place of a list.
fn size_at(sizes: &SizeList, k: u64) -> u64
    requires inside { k < length sizes.now }
    requires small { All (λ size. size < 2 ^ 64) sizes.now }
    ensures { slice_get sizes.now k ≡ Some result }
{
    match sizes.get(k) {
        Some(size) => size as u64,
        None => unreachable!(),
    }
}

/// The bytes that a frame takes whose variables have these sizes.
pub(crate) fn frame_bytes(sizes: &SizeList) -> u128
    requires { All (λ size. size < 2 ^ 64) sizes.now }
    ensures value { result ≡ frame_size sizes.now }
    ensures count { 16 * length sizes.now ≤ result }
{
    let count = sizes.len();
    let mut sum = 0u128;
    let mut k = 0;
    while k < count {
        sum += rounded(size_at(sizes, k));
        k += 1;
    }
    sum
}

/// Adds the variables of a frame from a place on, for which there is room in the list.
pub(crate) fn push_variables(variables: &mut Vec<Variable>, sizes: &SizeList, low: u64)
    requires room { vec_len variables.old + length sizes.now ≤ vec_capacity variables.old }
    requires small { All (λ size. size < 2 ^ 64) sizes.now }
    requires end { low + frame_size sizes.now < 2 ^ 56 }
    ensures { variables.new.items ≡ variables.old.items ++ variables_at low sizes.now }
{
    let count = sizes.len();
    let mut place = low;
    let mut k = 0;
    while k < count {
        let size = size_at(sizes, k);
        let _pushed = variables.push(Variable { place, size });
        place += rounded(size) as u64;
        k += 1;
    }
}

/// Variables are born in memory, from the first one on, with the tags of a word.
#[tactic(auto, unfolding(crate::specs::KeptFrames::with_each))]
pub(crate) fn put_variables(mem: &mut Memory, variables: &[Variable], word: u8)
    requires few { length variables.now < 2 ^ 32 }
    requires objects { AreObjects variables.now }
    ensures { mem.new ≡ with_each mem.old word 0 variables.now }
{
    let mut rest = variables;
    let mut k = 0u32;
    while let [variable, after @ ..] = rest {
        mem.fresh_object(variable.place, variable.size, frame_tag(word, k));
        rest = after;
        k += 1;
    }
}
