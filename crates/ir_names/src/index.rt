ghost use Rattle.std.specs.Prelude.{◌≡◌, ◌<◌, ◌^◌, ℕ, List, Option, Some, None, length, OnOk, IfOk, if◌then◌else◌};
ghost use Rattle.std.specs.Str.{bytes_eq};
ghost use Rattle.ir_names.specs.Keys.{first_with};
ghost use Rattle.ir_names.specs.Faults.{is_repeated};
ghost use Rattle.ir_names.specs.Places.{keys_in, place_or, place_in, IsIndex};

use hw_base::OutOfMemory;
use std::alloc::Global;
use std::collections::BTreeMap;
use std::marker::Model;

/// Keys in a row, and where each stands first. Contracts see the row of keys.
#[derive(Drop)]
pub struct Index<'a> {
    keys: &'a [Vec<u8>],
    places: BTreeMap<&'a [u8], usize>,
}

impl<'a> Model for Index<'a> {
    ghost use Rattle.std.specs.Prelude.{ℕ, List};
    ghost use Rattle.ir_names.specs.Places.{keys_in, IsIndex};

    ghost Value = { List (List ℕ) };

    ghost view = { λ x. keys_in x.keys.now };

    ghost invariant = { λ x. IsIndex x.places (keys_in x.keys.now) };
}

/// Adds the place of a key that has none yet.
fn insert_first<'a>(
    places: &mut BTreeMap<&'a [u8], usize>,
    key: &'a [u8],
    place: usize,
) -> Result<(), OutOfMemory>
    ensures { OnOk result ((q : List ℕ) → place_in places.new q ≡ place_or (place_in places.old q) (if bytes_eq q key.now then Some place else None)) }
{
    if !places.contains_key(key) {
        places.insert(key, place)?;
    }
    Ok(())
}

/// For each key the place of the first of these.
fn places_of<'a>(
    alloc: Global,
    keys: &'a [Vec<u8>],
) -> Result<BTreeMap<&'a [u8], usize>, OutOfMemory>
    ensures { IfOk result (λ places. IsIndex places (keys_in keys.now)) }
{
    let mut places = BTreeMap::new(alloc);
    let mut place: usize = 0;
    let _count = keys.len();
    let mut rest = keys;
    while let [key, after @ ..] = rest {
        insert_first(&mut places, key.as_slice(), place)?;
        place += 1;
        rest = after;
    }
    Ok(places)
}

impl<'a> Index<'a> {
    /// The index of keys in a row. The only error is want of memory.
    pub fn new(alloc: Global, keys: &'a [Vec<u8>]) -> Result<Index<'a>, OutOfMemory>
        ensures { IfOk result (λ index. index ≡ keys_in keys.now) }
    {
        let places = places_of(alloc, keys)?;
        Ok(Index { keys, places })
    }

    /// The number of the first key that is this one, or none.
    pub fn first_with(&self, key: &[u8]) -> Option<usize>
        ensures { result ≡ first_with key.now self.now }
    {
        self.places.get(key).copied()
    }

    /// Whether a key with number `i` stands at a lower number too.
    pub fn is_repeated(&self, i: usize, key: &[u8]) -> bool
        ensures { result ≡ is_repeated self.now i key.now }
    {
        match self.first_with(key) {
            None => false,
            Some(first) => first < i,
        }
    }
}
