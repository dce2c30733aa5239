ghost use Rattle.tag_alloc.specs.declared.blocks.Block.{Block};
ghost use Rattle.hw_base.specs.AddressMap.{AddressMap, rounded_size};
ghost use Rattle.hw_holes.specs.FreeRanges.{place_for, taken, given};
ghost use Rattle.hw_tags.specs.LeastPlace.{least_fit};
ghost use Rattle.tbi_memory.specs.AddressSpace.{AddressSpace};
ghost use Rattle.tag_alloc.specs.HeapBlocks.{HeapState, IsFreeable, IsTableOfBlocks, free_mismatch, heap_at_start, span_of, with_block, with_task, without_block};
ghost use Rattle.tag_alloc.specs.HeapTables.{AreInOrder, gaps};
ghost use Rattle.tag_alloc.specs.HeapSteps.{AfterBirth, after_death, allocated};
ghost use Rattle.std.specs.Prelude.{◌≡◌, ◌≢◌, ℕ, ◌↔◌, ◌⊎◌, ◌%◌, ◌==◌, List, None, Ok, Some, map, slice_get};
ghost use Rattle.std.specs.List.{find};

/// A free is refused exactly if its number isn't 0 and no living block begins at its address with its tag.
pub fn the_free_rule()
    ensures { (heap : HeapState) (number : ℕ) → ((free_mismatch heap number ≡ None) ↔ IsFreeable heap number) }
{}

/// After a birth the table has the new block and the ones before; after a death it has the ones that begin elsewhere.
pub fn the_table_of_blocks()
    ensures born { (block : Block) (blocks : List Block) → (i : ℕ) × (slice_get (with_block block blocks) i ≡ Some block) }
    ensures stays { (block other : Block) (blocks : List Block) (i : ℕ) → slice_get blocks i ≡ Some other
        → (j : ℕ) × (slice_get (with_block block blocks) j ≡ Some other) }
    ensures no_other { (block other : Block) (blocks : List Block) (i : ℕ) → slice_get (with_block block blocks) i ≡ Some other
        → (other ≡ block) ⊎ ((j : ℕ) × (slice_get blocks j ≡ Some other)) }
    ensures dead { (address : ℕ) (block : Block) (blocks : List Block) (i : ℕ) → slice_get (without_block address blocks) i ≡ Some block
        → (block.at ≢ address) × ((j : ℕ) × (slice_get blocks j ≡ Some block)) }
    ensures others_stay { (address : ℕ) (block : Block) (blocks : List Block) (i : ℕ) → slice_get blocks i ≡ Some block → block.at ≢ address
        → (j : ℕ) × (slice_get (without_block address blocks) j ≡ Some block) }
{}

/// No two living blocks begin at one address, and the living size is the sum of their rounded sizes: at the start, and after
/// each birth and death.
pub fn the_living_size_is_the_sum()
    ensures start { (places : AddressMap) (ring : ℕ) → IsTableOfBlocks (heap_at_start places ring) }
    ensures task { (heap : HeapState) → IsTableOfBlocks heap → IsTableOfBlocks (with_task heap) }
    ensures born { (heap : HeapState) (space : AddressSpace) (word size birth born : ℕ) (after : AfterBirth)
        → IsTableOfBlocks heap → allocated heap space word size birth born ≡ Ok after → IsTableOfBlocks after.heap }
    ensures died { (heap : HeapState) (space : AddressSpace) (word task died i : ℕ) (block : Block)
        → IsTableOfBlocks heap → slice_get heap.living i ≡ Some block
        → IsTableOfBlocks (after_death heap space word task died block).heap }
{}

/// The free ranges of a heap are the gaps between its living blocks: the lowest place among them is the least place of the
/// definition, and they are the gaps again after a birth there and after a death.
pub fn the_free_ranges_are_the_gaps()
    ensures place { (size low high : ℕ) (blocks : List Block) → low % 16 ≡ 0 → high % 16 ≡ 0 → AreInOrder low high blocks
        → place_for (rounded_size size) (gaps low high blocks) ≡ least_fit (map span_of blocks) (rounded_size size) low high }
    ensures born { (block : Block) (low high : ℕ) (blocks : List Block) → low % 16 ≡ 0 → high % 16 ≡ 0 → AreInOrder low high blocks
        → place_for (rounded_size block.size) (gaps low high blocks) ≡ Some block.at
        → (taken (rounded_size block.size) (gaps low high blocks) ≡ gaps low high (with_block block blocks))
        × AreInOrder low high (with_block block blocks) }
    ensures died { (block : Block) (low high : ℕ) (blocks : List Block) → high % 16 ≡ 0 → AreInOrder low high blocks
        → find (λ b. b.at == block.at) blocks ≡ Some block
        → (given block.at (rounded_size block.size) (gaps low high blocks) ≡ gaps low high (without_block block.at blocks))
        × AreInOrder low high (without_block block.at blocks) }
{}
