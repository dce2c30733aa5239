ghost use Rattle.std.specs.Prelude.{◌≡◌, ℕ, ◌+◌, ◌++◌, List, [], ◌∷◌, length, true, Ok, Err};
ghost use Rattle.hw_base.specs.AddressMap.{rounded_size};
ghost use Rattle.hw_base.specs.declared.endings.Full.{Full};
ghost use Rattle.hw_base.specs.declared.endings.Space.TheVariants.{Heap as HeapSpace};
ghost use Rattle.hw_base.specs.declared.pointers.Site.{Site};
ghost use Rattle.hw_tags.specs.LeastPlace.{IsLeastPlace, IsPlace};
ghost use Rattle.tag_story.specs.Story.{StorySetting, Story, StoryBirth, Placed, no_story};
ghost use Rattle.tag_story.specs.StoryFacts.{HasRoom, AreNextNews, IsNextNews, IsLaidOut, IsObject};
ghost use Rattle.tag_story.specs.StoryTags.{covers};
ghost use Rattle.tag_story.specs.Telling.{told, on_told, all_told, living_spans};
ghost use Rattle.ir_meaning.specs.Births.{Heap, is_living};
ghost use Rattle.ir_meaning.specs.State.{Born, News};

/// What holds of every story, for a map whose ranges are whole granules and apart: it holds before anything is born, and each
/// birth and each death keeps it, and so do births and deaths in order. All objects are aligned and in the range of their region, living ones are apart, tags are
/// in their ranges, and a free tag is never that of its block. The function does nothing when it runs.
pub fn stories_are_laid_out()
    ensures start { (e : StorySetting) → IsLaidOut e no_story }
    ensures told { (e : StorySetting) (w v : Story) (news : News) → HasRoom e → IsLaidOut e w → IsNextNews e w news
        → told e w news ≡ Ok v → IsLaidOut e v }
    ensures all { (e : StorySetting) (w v : Story) (news : List News) → HasRoom e → IsLaidOut e w → AreNextNews e w news
        → all_told e w news ≡ Ok v → IsLaidOut e v }
{}

/// A granule belongs to one living object at most. The function does nothing when it runs.
pub fn granules_have_one_owner()
    ensures { (e : StorySetting) (w : Story) (g n k m j : ℕ) (b c : StoryBirth) (x y : Placed) → IsLaidOut e w
        → IsObject w.births n k b x → IsObject w.births m j c y
        → is_living b.life ≡ true → is_living c.life ≡ true
        → covers x g ≡ true → covers y g ≡ true → (n ≡ m) × (k ≡ j) }
{}

/// A block has the least place: it is wholly in the heap, begins on a granule, overlaps no living block, and there is no lower
/// place of which all this is true. The heap is full exactly if there is none, and then its numbers are the size that was asked for
/// and what the living blocks take. The function does nothing when it runs.
pub fn a_block_has_the_least_place()
    ensures found { (e : StorySetting) (w v : Story) (number task size : ℕ) (chain : List Site)
        → told e w (Born number Heap task chain (size ∷ [])) ≡ Ok v
        → (birth : StoryBirth) × (x : Placed) × IsObject v.births (length w.births) 0 birth x × (x.size ≡ size)
        × IsLeastPlace (living_spans w.births) (rounded_size size) e.places.heap_at (e.places.heap_at + e.places.heap_length) x.at }
    ensures full { (e : StorySetting) (w : Story) (number task size : ℕ) (chain : List Site) (full : Full)
        → told e w (Born number Heap task chain (size ∷ [])) ≡ Err full
        → (full ≡ record { space = HeapSpace; asked = size; living = w.heap_size })
        × ((address : ℕ) → ¬ IsPlace (living_spans w.births) (rounded_size size) e.places.heap_at (e.places.heap_at + e.places.heap_length) address) }
{}

/// The story of a longer list of births and deaths goes on from the one of its beginning. The function does nothing when it
/// runs.
pub fn stories_go_on()
    ensures { (e : StorySetting) (w : Story) (first second : List News)
        → all_told e w (first ++ second) ≡ on_told (all_told e w first) (λ v. all_told e v second) }
{}
