ghost use Rattle.std.specs.Prelude.{◌≡◌, ℕ, ◌+◌, ◌%◌, ◌^◌, ◌<◌, ◌≤◌, All, IfOk, List, length, if◌then◌else◌, sum_by};
ghost use Rattle.hw_base.specs.AddressMap.{program_map, rounded_size};
ghost use Rattle.hw_base.specs.declared.numbers.TheConstants.{GLOBALS_AT, MOST_GLOBALS, STACKS_AT};
ghost use Rattle.hw_tags.specs.Words.{coming};
ghost use Rattle.ir_core.specs.Layout.{align_up};
ghost use Rattle.ir_core.specs.declared.ir_module.GlobalVar.{GlobalVar};
ghost use Rattle.ir_core.specs.Resolved.{IsPieceOf};
ghost use Rattle.global_tags.specs.GlobalBytes.{piece_number, with_global, with_globals, with_pieces};
ghost use Rattle.global_tags.specs.GlobalPlaces.{descriptors_of, global_number, global_size, global_words, number_of};
ghost use Rattle.global_tags.specs.Loading.{AreLoadable, CanBeLoaded, HasRoomForGlobals, IsLoadablePart, IsPlaced};

use crate::Descriptor;
use crate::places::{Taken, global_size, rounded_size, taken_by, variables_at, with_one};
use hw_base::{GLOBALS_AT, OutOfMemory};
use hw_tags::{Words, global_tag};
use ir_core::{GlobalVar, Module, Operand, Part, TypeLayout, ValueList};
use std::alloc::Global;
use tbi_memory::Memory;

/// The globals of a module in memory, in order of the text.
pub type Descriptors = ValueList<Descriptor>;

/// The tagged address so many bytes after the start of a global; a number past the end names no global, and then it is `off`.
#[inline(always)]
pub fn global_number(descriptors: &Descriptors, global: u32, off: u64) -> u64
    ensures { result ≡ global_number descriptors.now global off }
{
    match descriptors.get(global as u64) {
        Some(descriptor) => (descriptor.tag as u64 * 0x100_0000_0000_0000)
            .wrapping_add(descriptor.at)
            .wrapping_add(off),
        None => off,
    }
}

/// The place of the next global, after those that took so much.
fn place_after(taken: Taken, first_variable: u64, constant: bool) -> u64
    requires few { taken.constants + taken.variables ≤ MOST_GLOBALS }
    requires near { first_variable + taken.variables ≤ STACKS_AT }
    ensures { result ≡ (if constant then GLOBALS_AT + taken.constants else first_variable + taken.variables) }
{
    if constant {
        GLOBALS_AT + taken.constants
    } else {
        first_variable + taken.variables
    }
}

/// Where globals lie and which tags they have, for the one tag word of all of them.
fn described(
    alloc: Global,
    layouts: &[TypeLayout],
    globals: &[GlobalVar],
    word: u8,
) -> Result<Descriptors, OutOfMemory>
    requires { sum_by (λ (g : GlobalVar). rounded_size (global_size layouts.now g)) globals.now ≤ MOST_GLOBALS }
    ensures value { IfOk result (λ found. (heap : ℕ) → found ≡ descriptors_of (program_map heap) layouts.now globals.now word) }
    ensures placed { IfOk result (λ found. All IsPlaced found) }
{
    let first_variable = variables_at(taken_by(layouts, globals));
    let mut taken = Taken {
        constants: 0,
        variables: 0,
    };
    let mut found = Descriptors::new(alloc);
    for global in globals {
        let size = global_size(layouts, global);
        found.push(Descriptor {
            at: place_after(taken, first_variable, global.constant),
            size: size as u32,
            tag: global_tag(word, found.len() as u32),
            constant: global.constant,
        })?;
        taken = with_one(taken, rounded_size(size), global.constant);
    }
    Ok(found)
}

/// The number that a piece of an initializer stores.
fn piece_number(descriptors: &Descriptors, value: Operand) -> u128
    ensures { result ≡ piece_number descriptors.now value }
{
    match value {
        Operand::Reg(_) => 0,
        Operand::Int(n) => n,
        Operand::Null => 0,
        Operand::Global { global, off } => global_number(descriptors, global, off) as u128,
    }
}

/// Writes the pieces of an initializer at a place.
fn write_pieces(mem: &mut Memory, descriptors: &Descriptors, place: u64, pieces: &[Part])
    requires place { place < 2 ^ 40 }
    requires pieces { All (IsLoadablePart (length descriptors.now)) pieces.now }
    ensures { mem.new ≡ with_pieces descriptors.now mem.old place pieces.now }
{
    for piece in pieces {
        mem.load_global(
            place + piece.at,
            piece.size,
            piece_number(descriptors, piece.value),
        );
    }
}

/// Writes the first bytes of a global and its tags.
fn write_global(
    mem: &mut Memory,
    descriptors: &Descriptors,
    descriptor: Descriptor,
    global: &GlobalVar,
)
    requires placed { IsPlaced descriptor }
    requires pieces { All (IsLoadablePart (length descriptors.now)) global.now.init }
    ensures { mem.new ≡ with_global descriptors.now mem.old descriptor global.now }
{
    write_pieces(mem, descriptors, descriptor.at, global.init.as_slice());
    mem.tag_object(descriptor.at, descriptor.size as u64, descriptor.tag);
}

/// Writes globals, each at the place of its descriptor.
fn write_globals(mem: &mut Memory, descriptors: &Descriptors, globals: &[GlobalVar])
    requires placed { All IsPlaced descriptors.now }
    requires pieces { AreLoadable (length descriptors.now) globals.now }
    ensures { mem.new ≡ with_globals descriptors.now mem.old descriptors.now globals.now }
{
    for (k, global) in globals.iter().enumerate() {
        match descriptors.get(k as u64) {
            Some(descriptor) => write_global(mem, descriptors, descriptor, global),
            None => return,
        }
    }
}

/// Puts the globals of a module into memory: their first bytes, constants too, and their tags. It draws one tag word for all of
/// them, if there are any. The result is where they lie, in order of the text. The error is that memory ran out; the memory
/// and the words are of no use then.
pub fn load(
    alloc: Global,
    program: &Module,
    mem: &mut Memory,
    words: &mut Words,
) -> Result<Descriptors, OutOfMemory>
    requires { CanBeLoaded program.now }
    ensures descriptors { IfOk result (λ found. (heap : ℕ) → found ≡ descriptors_of (program_map heap) program.now.layouts program.now.globals (coming words.old 0)) }
    ensures memory { IfOk result (λ found. mem.new ≡ with_globals found mem.old found program.now.globals) }
    ensures words { IfOk result (λ found. (k : ℕ) → coming words.new k ≡ coming words.old (global_words program.now.globals + k)) }
{
    if program.globals.is_empty() {
        return Ok(Descriptors::new(alloc));
    }
    let layouts = program.layouts.as_slice();
    let globals = program.globals.as_slice();
    let found = described(alloc, layouts, globals, words.next())?;
    write_globals(mem, &found, globals);
    Ok(found)
}
