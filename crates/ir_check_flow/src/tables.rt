ghost use Rattle.std.specs.Prelude.{◌≡◌, ℕ, ◌<◌, ◌↔◌, length, IsTrue};
ghost use Rattle.std.specs.List.{All, Contains};
ghost use Rattle.ir_check_flow.specs.Phis.{IsIndex};

/// Fills a table with the place of each key in a list. The table has room for each key; what it held doesn't matter.
pub(crate) fn fill_index(table: &mut [usize], keys: &[usize])
    requires { All (λ key. key < length table.old) keys.now }
    ensures { IsIndex table.new keys.now }
{
    for (i, key) in keys.iter().enumerate() {
        table[*key] = i;
    }
}

/// Whether a key is in the list whose places the table has.
pub(crate) fn has_key(table: &[usize], keys: &[usize], key: usize) -> bool
    requires index { IsIndex table.now keys.now }
    requires inside { key < length table.now }
    ensures { IsTrue result ↔ Contains keys.now key }
{
    match keys.get(table[key]) {
        Some(other) => *other == key,
        None => false,
    }
}
