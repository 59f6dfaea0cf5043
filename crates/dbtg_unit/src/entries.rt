//! Entries by number in lists that may be too short: past the end there are none, and a write there changes nothing.
ghost use Rattle.std.specs.Prelude.{◌≡◌, slice_set};
ghost use Rattle.dbtg_schema.specs.Lookups.{at};

use dbtg_schema::Row;

/// The entry with this number.
pub fn entry_at<T: Copy>(entries: &[Option<T>], number: usize) -> Option<T>
    ensures { result ≡ at entries.now number }
{
    match entries.get(number) {
        Some(entry) => *entry,
        None => None,
    }
}

/// The list with another entry at this number.
pub(crate) fn set_entry<T: Copy>(row: &mut Row<T>, number: usize, entry: T)
    ensures { row.new ≡ slice_set row.old number entry }
{
    if number < row.len() {
        row.set(number, entry);
    }
}
