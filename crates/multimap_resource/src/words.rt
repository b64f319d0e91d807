// The words of a key, one after the other.
ghost use Rattle.std.specs.Prelude.{◌≡◌, [], length, map, take, IfOk, OnOk, option_copied};
ghost use Rattle.std.specs.List.{filter, count_by};
ghost use Rattle.host_types.specs.Cells.{is_text};
ghost use Rattle.host_types.specs.declared.entry.Kind.TheVariants.{Multimap};
ghost use Rattle.host_types.specs.declared.entry.Cell.TheVariants.{Pair};
ghost use Rattle.cell_table.specs.Pairs.{least_word};
ghost use Rattle.multimap_resource.specs.Reading.{pairs_of, word_of, words_of};

use cell_table::{CellTable, least_pair};
use host_types::{Cell, Key, NoMemory, Word, Words};
use std::alloc::Global;

/// The greatest number of words in a reply.
const LIMIT: usize = 16;

// The word of a pair of the key.
fn word_of<'a>(key: &Key, cell: &'a Cell) -> Option<&'a Word>
    ensures { option_copied result ≡ word_of key.now cell.now }
{
    match cell {
        Cell::Pair(other, word) => {
            if key.cmp(other).is_eq() {
                Some(word)
            } else {
                None
            }
        }
        _ => None,
    }
}

// Counts the words of the key, from its least pair on.
fn count_from(table: &CellTable, from: &Cell, key: &Key) -> usize
    requires kind { table.now.kind ≡ Multimap }
    requires least { from.now ≡ Pair key.now least_word }
    ensures { result ≡ length (words_of key.now table.now.cells) }
{
    table.in_order();
    let _ = table.len();
    let mut count = 0;
    let mut next = table.first_from(from);
    while let Some(one) = next {
        let Some(_word) = word_of(key, one.cell) else {
            return count;
        };
        count += 1;
        next = table.first_above(one.cell);
    }
    count
}

// Copies the first words of the key, from its least pair on.
fn copy_from(table: &CellTable, from: &Cell, key: &Key, words: &mut Words) -> Result<(), NoMemory>
    requires kind { table.now.kind ≡ Multimap }
    requires least { from.now ≡ Pair key.now least_word }
    requires empty { words.old ≡ [] }
    ensures { OnOk result (words.new ≡ take 16 (words_of key.now table.now.cells)) }
{
    table.in_order();
    let mut next = table.first_from(from);
    while let Some(one) = next {
        let Some(word) = word_of(key, one.cell) else {
            return Ok(());
        };
        if words.as_slice().len() >= LIMIT {
            return Ok(());
        }
        words.push(word.copy()?)?;
        next = table.first_above(one.cell);
    }
    Ok(())
}

/// How many words the key has.
pub(crate) fn count(table: &CellTable, alloc: Global, key: &Key) -> Result<usize, NoMemory>
    requires { table.now.kind ≡ Multimap }
    ensures { IfOk result (λ n. n ≡ count_by (λ p. is_text key.now p.0) (pairs_of table.now)) }
{
    table.in_order();
    let from = least_pair(alloc, key)?;
    let count = count_from(table, &from, key);
    drop(from);
    Ok(count)
}

/// The 16 least words of the key, or all where there are fewer.
pub(crate) fn least_words(table: &CellTable, alloc: Global, key: &Key) -> Result<Words, NoMemory>
    requires { table.now.kind ≡ Multimap }
    ensures { IfOk result (λ words. words ≡ take 16 (map (λ p. p.1) (filter (λ p. is_text key.now p.0) (pairs_of table.now)))) }
{
    table.in_order();
    let mut words = Words::new(alloc);
    let from = least_pair(alloc, key)?;
    let done = copy_from(table, &from, key, &mut words);
    drop(from);
    done?;
    Ok(words)
}
