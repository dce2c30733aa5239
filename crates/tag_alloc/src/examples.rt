ghost use Rattle.hw_base.specs.declared.endings.Full.{Full};
ghost use Rattle.hw_base.specs.declared.endings.Space.TheVariants.{Heap};
ghost use Rattle.tbi_memory.specs.AddressSpace.{tag_at};
ghost use Rattle.tbi_memory.specs.MappedBytes.{byte_at};
ghost use Rattle.tbi_memory.specs.SmallSpace.{small_space};
ghost use Rattle.tag_alloc.specs.declared.blocks.FreeMismatch.{FreeMismatch};
ghost use Rattle.tag_alloc.specs.HeapBlocks.{free_mismatch, place_of_new, freed_by};
ghost use Rattle.tag_alloc.specs.HeapSteps.{allocated};
ghost use Rattle.tag_alloc.specs.SmallHeap.{
  empty_heap,
  first_block,
  second_block,
  heap_of_one,
  heap_of_two,
  heap_of_one_freed,
};
ghost use Rattle.std.specs.Prelude.{◌≡◌, ℕ, Some, None, Ok, Err, [], ◌∷◌};

/// Births on a heap of 64 bytes: 17 bytes for the word 41 have the tag 0x2a and are at the heap's start; 16 bytes then
/// follow their two granules; 17 bytes have no place any more. When the first block was freed its place is the least again.
pub fn births_by_example()
    ensures first { allocated empty_heap small_space 41 17 1 0 ≡ Ok heap_of_one }
    ensures number { heap_of_one.number ≡ 3026418950129844224 }
    ensures last_byte { byte_at heap_of_one.space.bytes 536870943 ≡ Some 42 }
    ensures second { allocated heap_of_one.heap heap_of_one.space 3 16 2 0 ≡ Ok heap_of_two }
    ensures living_size { heap_of_two.heap.living_size ≡ 48 }
    ensures freed_size { heap_of_one_freed.heap.living_size ≡ 16 }
    ensures in_order { heap_of_two.heap.living ≡ first_block ∷ second_block ∷ [] }
    ensures full { allocated heap_of_two.heap heap_of_two.space 0 17 3 0 ≡ Err (record { space = Heap; asked = 17; living = 48 }) }
    ensures again { place_of_new heap_of_one_freed.heap 17 ≡ Some 536870912 }
{}

/// Frees on that heap: the first block's number passes, and so does 0; another tag, an address inside the block, and the
/// number of a freed block don't. The freed granules have the tag after 0x2a, since the word gives the block's own.
pub fn frees_by_example()
    ensures passes { free_mismatch heap_of_two.heap 3026418950129844224 ≡ None }
    ensures zero { free_mismatch heap_of_two.heap 0 ≡ None }
    ensures another_tag { free_mismatch heap_of_two.heap 536870912 ≡ Some (record { pointer = 0; block = Some 42 }) }
    ensures inside { free_mismatch heap_of_two.heap 3026418950129844225 ≡ Some (record { pointer = 42; block = None }) }
    ensures twice { free_mismatch heap_of_one_freed.heap 3026418950129844224 ≡ Some (record { pointer = 42; block = None }) }
    ensures free_tag { tag_at heap_of_one_freed.space 536870928 ≡ Some 43 }
    ensures other_tag { tag_at heap_of_one_freed.space 536870944 ≡ Some 4 }
    ensures byte_stays { byte_at heap_of_one_freed.space.bytes 536870943 ≡ Some 42 }
    ensures is_remembered { freed_by heap_of_one_freed.heap 0 ≡ record { block = first_block; died = 7 } ∷ [] }
{}
