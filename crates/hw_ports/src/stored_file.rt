ghost use Rattle.std.specs.Prelude.{◌≡◌, ◌∷◌, [], ◌++◌, ◌+◌, ◌≤◌, IfOk, OnErr, OnOk, vec_len, vec_capacity};

use hw_base::ByteList;
use std::alloc::{AllocError, Global};

/// A name and the bytes that are under it.
#[derive(Drop)]
pub struct StoredFile {
    pub name: ByteList,
    pub text: ByteList,
}

/// A copy of a name, and room for it in a list of names.
pub fn reserved_entry(
    names: &mut Vec<ByteList>,
    alloc: Global,
    name: &[u8],
) -> Result<ByteList, AllocError>
    ensures items { names.new.items ≡ names.old.items }
    ensures entry { IfOk result (λ entry. entry ≡ name.now) }
    ensures room { OnOk result (vec_len names.new + 1 ≤ vec_capacity names.new) }
{
    let entry = Vec::from_slice(alloc, name)?;
    names.reserve(1)?;
    Ok(ByteList::from_vec(entry))
}
