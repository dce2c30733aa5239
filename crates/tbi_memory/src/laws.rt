ghost use Rattle.hw_base.specs.AddressMap.{rounded_size, granule_of};
ghost use Rattle.hw_base.specs.TaggedAddress.{address_of};
ghost use Rattle.hw_shadow.specs.ObjectTags.{object_tags};
ghost use Rattle.hw_base.specs.AddressMap.{AddressMap};
ghost use Rattle.tbi_memory.specs.declared.layout.Layout.{Layout};
ghost use Rattle.tbi_memory.specs.AddressSpace.{AddressSpace, granules_of, is_in, mapped_ranges, read, space_at_start, written, zero_if};
ghost use Rattle.tbi_memory.specs.MappedBytes.{Range, byte_at, write};
ghost use Rattle.tbi_memory.specs.ObjectMemory.{with_fresh_object};
ghost use Rattle.std.specs.List.{list_any};
ghost use Rattle.std.specs.Prelude.{
  ◌≡◌,
  ℕ,
  ◌+◌,
  ◌/◌,
  ◌<◌,
  ◌≤◌,
  map,
  Some,
  List,
  length,
  is_some,
  Ok,
  slice_get,
};

/// At the start the mapped ranges are mapped and nothing else is; each byte is zero, and each tag is 0.
pub fn all_is_zero_at_the_start()
    ensures bytes { (places : AddressMap) (layout : Layout) (address : ℕ)
        → byte_at (space_at_start places layout).bytes address
        ≡ zero_if (list_any (is_in address) (mapped_ranges places layout)) }
    ensures tags { (places : AddressMap) (layout : Layout) (granule : ℕ)
        → byte_at (space_at_start places layout).shadow granule
        ≡ zero_if (list_any (is_in granule) (map granules_of (mapped_ranges places layout))) }
{}

/// A write changes its own bytes, if they were mapped, and no other byte.
pub fn a_write_changes_its_bytes_alone()
    ensures below { (ranges : List Range) (address : ℕ) (bytes : List ℕ) (other : ℕ)
        → other < address → byte_at (write ranges address bytes) other ≡ byte_at ranges other }
    ensures above { (ranges : List Range) (address : ℕ) (bytes : List ℕ) (other : ℕ)
        → address + length bytes ≤ other → byte_at (write ranges address bytes) other ≡ byte_at ranges other }
    ensures inside { (ranges : List Range) (address : ℕ) (bytes : List ℕ) (i old byte : ℕ)
        → byte_at ranges (address + i) ≡ Some old → slice_get bytes i ≡ Some byte
        → byte_at (write ranges address bytes) (address + i) ≡ Some byte }
{}

/// A write maps no address and unmaps none.
pub fn nothing_is_unmapped()
    ensures { (ranges : List Range) (address : ℕ) (bytes : List ℕ) (other : ℕ)
        → is_some (byte_at (write ranges address bytes) other) ≡ is_some (byte_at ranges other) }
{}

/// What was written at a number is read there, whatever the top byte of the number.
pub fn what_is_written_is_read()
    ensures read { (space after : AddressSpace) (number : ℕ) (bytes : List ℕ)
        → written space number bytes ≡ Ok after → read after number (length bytes) ≡ Ok bytes }
    ensures any_tag { (space : AddressSpace) (number other count : ℕ)
        → address_of number ≡ address_of other → read space number count ≡ read space other count }
{}

/// The birth of an object changes no byte and no tag outside its rounded size.
pub fn fresh_objects_stay_inside()
    ensures bytes_below { (space : AddressSpace) (place size tag other : ℕ) → other < place
        → byte_at (with_fresh_object space place size tag).bytes other ≡ byte_at space.bytes other }
    ensures bytes_above { (space : AddressSpace) (place size tag other : ℕ) → place + rounded_size size ≤ other
        → byte_at (with_fresh_object space place size tag).bytes other ≡ byte_at space.bytes other }
    ensures tags_below { (space : AddressSpace) (place size tag granule : ℕ) → granule < granule_of place
        → byte_at (with_fresh_object space place size tag).shadow granule ≡ byte_at space.shadow granule }
    ensures tags_above { (space : AddressSpace) (place size tag granule : ℕ) → granule_of place + rounded_size size / 16 ≤ granule
        → byte_at (with_fresh_object space place size tag).shadow granule ≡ byte_at space.shadow granule }
{}
