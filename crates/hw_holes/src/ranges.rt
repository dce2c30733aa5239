ghost use Rattle.std.specs.Prelude.{◌≡◌, ◌+◌, ◌<◌, ◌≤◌, ◌++◌, length, take, drop};
ghost use Rattle.std.specs.Vec.{vec_len, vec_capacity};
ghost use Rattle.hw_holes.specs.FreeRanges.{first_fit, first_reaching, joined};

/// Addresses that are free: from the first up to the one past the last, in bytes.
#[derive(Clone, Copy)]
pub struct FreeRange {
    pub from: u64,
    pub to: u64,
}

/// The place in the list of the first range of at least `size` bytes, or the length of the list.
pub(crate) fn first_fit(ranges: &[FreeRange], size: u64) -> usize
    ensures { result ≡ first_fit size ranges.now }
{
    let mut rest = ranges;
    let mut place = 0;
    while let [range, after @ ..] = rest {
        if size <= range.to && range.from <= range.to - size {
            return place;
        }
        rest = after;
        place += 1;
    }
    place
}

/// The place in the list of the first range that ends at `at` or later, or the length of the list.
pub(crate) fn first_reaching(ranges: &[FreeRange], at: u64) -> usize
    ensures { result ≡ first_reaching at ranges.now }
{
    let mut rest = ranges;
    let mut place = 0;
    while let [range, after @ ..] = rest {
        if at <= range.to {
            return place;
        }
        rest = after;
        place += 1;
    }
    place
}

/// Puts a range at a place of the list, and joins it with the one that is there if they touch. There is room for it.
pub(crate) fn put_joined(ranges: &mut Vec<FreeRange>, place: usize, from: u64, to: u64)
    requires within { place ≤ vec_len ranges.old }
    requires room { vec_len ranges.old < vec_capacity ranges.old }
    ensures items { ranges.new.items ≡ take place ranges.old.items ++ joined from to (drop place ranges.old.items) }
    ensures len { vec_len ranges.new ≤ vec_len ranges.old + 1 }
    ensures capacity { vec_capacity ranges.old ≤ vec_capacity ranges.new }
{
    if place < ranges.len() && ranges[place].from == to {
        let last = ranges[place].to;
        ranges[place] = FreeRange { from, to: last };
    } else {
        let _inserted = ranges.insert(place, FreeRange { from, to });
    }
}
