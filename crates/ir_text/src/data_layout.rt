ghost use Rattle.std.specs.Prelude.{◌≡◌, ◌*◌, ◌==◌, [], ◌∷◌, IfOk};
ghost use Rattle.std.specs.List.{slice_split};
ghost use Rattle.std.specs.Option.{option_map_or};
ghost use Rattle.ir_core.specs.Layout.{int_align};
ghost use Rattle.ir_text.specs.DataLayout.{is_pointer_field, is_alignment_taken, is_second_taken, is_pair_taken, is_part_taken, is_layout_taken};

use crate::names::string_bytes;
use crate::numbers::small_number;
use hw_base::OutOfMemory;
use std::alloc::Global;

fn is_pointer_field(name: &[u8]) -> bool
    ensures { result ≡ is_pointer_field name.now }
{
    name == b"p".as_slice() || name == b"p0".as_slice()
}

/// The alignment of an integer of so many bits, in bits.
fn alignment_in_bits(width: u32) -> u32
    ensures { result ≡ 8 * int_align width }
{
    if width <= 8 {
        8
    } else if width <= 16 {
        16
    } else if width <= 32 {
        32
    } else if width <= 64 {
        64
    } else {
        128
    }
}

fn is_alignment_taken(width: u32, alignment: u32) -> bool
    ensures { result ≡ is_alignment_taken width alignment }
{
    if 1 <= width && width <= 128 {
        alignment == alignment_in_bits(width)
    } else {
        true
    }
}

/// Whether what stands second is taken behind this field, if that isn't a pointer's.
fn is_second_taken(name: &[u8], second: &[u8]) -> bool
    ensures { result ≡ is_second_taken name.now second.now }
{
    match name {
        [] => true,
        [b, digits @ ..] => {
            if *b == b'i' {
                is_alignment_taken(small_number(digits), small_number(second))
            } else {
                true
            }
        }
    }
}

/// What stands before the first byte of one kind, and what stands behind it where there is one.
fn cut(bytes: &[u8], at: u8) -> (&[u8], Option<&[u8]>)
    ensures { slice_split (λ b. b == at) bytes.now ≡ result.0.now ∷ option_map_or (λ rest. slice_split (λ b. b == at) rest.now) result.1 [] }
{
    for (i, b) in bytes.iter().enumerate() {
        if *b == at {
            return (&bytes[..i], Some(&bytes[i + 1..]));
        }
    }
    (bytes, None)
}

/// Whether a field is taken with what stands second.
fn is_pair_taken(name: &[u8], second: &[u8]) -> bool
    ensures { result ≡ is_pair_taken name.now second.now }
{
    if is_pointer_field(name) {
        small_number(second) == 64
    } else {
        is_second_taken(name, second)
    }
}

fn is_part_taken(part: &[u8]) -> bool
    ensures { result ≡ is_part_taken part.now }
{
    let (name, behind) = cut(part, b':');
    match behind {
        None => name != b"E".as_slice(),
        Some(rest) => {
            let (second, _) = cut(rest, b':');
            is_pair_taken(name, second)
        }
    }
}

/// Whether the data layout that a string writes, given with its quotes, is taken (LLVM Language Reference, "Data Layout"):
/// little-endian, pointers of 64 bits, and integers of 1 to 128 bits aligned as this program aligns them. The only error is
/// want of memory.
pub fn is_layout_taken(alloc: Global, bytes: &[u8]) -> Result<bool, OutOfMemory>
    ensures { IfOk result (λ taken. taken ≡ is_layout_taken bytes.now) }
{
    let layout = string_bytes(alloc, bytes)?;
    Ok(
        layout
            .as_slice()
            .split(|b| *b == b'-')
            .all(|part| is_part_taken(part)),
    )
}
