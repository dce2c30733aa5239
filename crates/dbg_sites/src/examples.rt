ghost use Rattle.dbg_sites.specs.ChainTable.{chain_of, pushed};
ghost use Rattle.dbg_sites.specs.FrameExamples.{example_frames, frame_in};
ghost use Rattle.dbg_sites.specs.Frames.{unplaced};
ghost use Rattle.std.specs.Prelude.{◌≡◌, ℕ, [], ◌∷◌, Some, None, codes};

/// A site in front of the empty chain, and another in front of that; putting the first there once more gives its number.
pub fn chains_by_example()
    ensures first { (pushed [] 0 (record { func = 1; inst = 2 })).number ≡ 1 }
    ensures second { chain_of (pushed (pushed [] 0 (record { func = 1; inst = 2 })).table 1 (record { func = 0; inst = 5 })).table 2
        ≡ record { func = 0; inst = 5 } ∷ record { func = 1; inst = 2 } ∷ [] }
    ensures again { (pushed (pushed (pushed [] 0 (record { func = 1; inst = 2 })).table 1 (record { func = 0; inst = 5 })).table 0 (record { func = 1; inst = 2 })).number
        ≡ 1 }
{}

/// A location with its place; one that was inlined, with the place of the call; a block of another file; a `file:` that names no
/// file, and a scope without a function's name, which give the name in the program and no place at that level; no location.
pub fn frames_by_example()
    ensures plain { example_frames (Some 1) ≡ frame_in (codes "run") (codes "run.c") 7 9 ∷ [] }
    ensures inlined { example_frames (Some 0) ≡ frame_in (codes "least") (codes "least.h") 3 5 ∷ frame_in (codes "run") (codes "run.c") 7 9 ∷ [] }
    ensures other_file { example_frames (Some 7) ≡ frame_in (codes "run") (codes "least.h") 2 1 ∷ [] }
    ensures no_file { example_frames (Some 9) ≡ unplaced (codes "_Z3runv") ∷ [] }
    ensures no_name { example_frames (Some 10) ≡ unplaced (codes "_Z3runv") ∷ frame_in (codes "run") (codes "run.c") 7 9 ∷ [] }
    ensures no_location { example_frames None ≡ unplaced (codes "_Z3runv") ∷ [] }
{}
