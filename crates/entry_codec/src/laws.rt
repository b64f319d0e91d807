// Laws of the spelling. They are proved and do nothing.
ghost use Rattle.std.specs.Prelude.{◌≡◌, ℕ, ◌≤◌, List, ◌++◌, length};
ghost use Rattle.host_types.specs.declared.entry.Entry.{Entry};
ghost use Rattle.entry_codec.specs.Spelled.{spelled, EntryFits, IsInRange, IsSpelledBy};
ghost use Rattle.entry_codec.specs.Reading.{Spells, spelling};

/// No spelling begins another, and each spells one entry at one index.
pub fn one_spelling()
    ensures { (a b x y : List ℕ) (i j : ℕ) (e f : Entry) → IsSpelledBy a i e → IsSpelledBy b j f → a ++ x ≡ b ++ y → (a ≡ b) × (i ≡ j) × (e ≡ f) }
{}

/// What was written is read again, whatever follows.
pub fn read_again()
    ensures { (index : ℕ) (entry : Entry) (rest : List ℕ) → IsInRange index entry → EntryFits entry → spelling (spelled index entry ++ rest) ≡ Spells index entry (length (spelled index entry)) }
{}

/// A spelling has 17 to 131,072 bytes.
pub fn bounded_size()
    ensures least { (index : ℕ) (entry : Entry) → EntryFits entry → 17 ≤ length (spelled index entry) }
    ensures most { (index : ℕ) (entry : Entry) → EntryFits entry → length (spelled index entry) ≤ 131072 }
{}
