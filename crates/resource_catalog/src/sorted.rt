// Entries by rising key, in a vector.
ghost use Rattle.std.specs.Prelude.{◌≡◌, IsTrue, IfOk, IfErr};
ghost use Rattle.std.specs.FinMap.Entries.{is_sorted};
ghost use Rattle.resource_catalog.specs.Sorted.{StandsAt, GapAt};

/// Where the key stands, or where it would. It takes time logarithmic in the number of entries.
pub(crate) fn place_of<K: Ord, T>(entries: &Vec<(K, T)>, key: &K) -> Result<usize, usize>
    requires { IsTrue (is_sorted K.cmp entries.now.items) }
    ensures found { IfOk result (StandsAt K.cmp entries.now.items key.now) }
    ensures gap { IfErr result (GapAt K.cmp entries.now.items key.now) }
{
    entries.binary_search_by(|entry| entry.0.cmp(key))
}
