// Lists in a row: a length, then so many numbers, again and again.
ghost use Rattle.std.specs.Prelude.{◌≡◌, ◌≤◌, length};
ghost use Rattle.std.specs.Iterator.{YieldsFirstRef, item_count};
ghost use Rattle.judges.specs.Spelled.{FirstSays, lists_left, lists_of};

// The lists of a row, one after the other.
#[derive(Clone, Copy)]
pub struct RowLists<'a> {
    // What is left of the row.
    row: &'a [u64],
}

impl<'a> Iterator for RowLists<'a> {
    type Item = &'a [u64];

    ghost next_gives = { YieldsFirstRef lists_left };

    ghost remaining = { item_count lists_left };

    fn next(&mut self) -> Option<&'a [u64]> {
        let (list, others) = first_list(self.row)?;
        self.row = others;
        Some(list)
    }
}

// So `lists(row).any(..)` or `for list in lists(row)`.
pub fn lists(row: &[u64]) -> RowLists<'_>
    ensures all { lists_left result ≡ lists_of row.now }
    ensures few { length (lists_left result) ≤ length row.now }
{
    RowLists { row }
}

// The first list of a row, and the row behind it.
pub fn first_list(row: &[u64]) -> Option<(&[u64], &[u64])>
    ensures { FirstSays row.now result }
{
    let (count, numbers) = row.split_first()?;
    Some(numbers.split_at((*count as usize).min(numbers.len())))
}
