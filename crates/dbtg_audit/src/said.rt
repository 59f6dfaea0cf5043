//! Whether an answer agrees with what is said of it.
ghost use Rattle.std.specs.Prelude.{◌≡◌, ◌==◌};
ghost use Rattle.dbtg_cells.specs.Keys.{key_eq, values_eq};
ghost use Rattle.dbtg_unit.specs.Database.Statements.Codes.{status_code};
ghost use Rattle.dbtg_audit.specs.Auditing.{agrees, is_so};

use dbtg_cells::{DbKey, SharedItems, values_eq};
use dbtg_trace::Said;
use dbtg_unit::Entry;

fn same_status(said: u16, entry: &Entry) -> bool
    ensures { result ≡ (said == status_code entry.now.statement entry.now.answer.status) }
{
    said == entry.answer.status.code(&entry.statement)
}

fn same_key(said: Option<DbKey>, key: Option<DbKey>) -> bool
    ensures { result ≡ agrees key_eq said key }
{
    match (said, key) {
        (Some(said), Some(key)) => said == key,
        (Some(_), None) => false,
        (None, _) => true,
    }
}

fn same_items(said: &Option<SharedItems>, items: &Option<SharedItems>) -> bool
    ensures { result ≡ agrees values_eq said.now items.now }
{
    match (said, items) {
        (Some(said), Some(items)) => values_eq(said.get().as_slice(), items.get().as_slice()),
        (Some(_), None) => false,
        (None, _) => true,
    }
}

/// Whether the entry's answer agrees with what is said of it; what is left out agrees. With statuses only, key and items are not compared.
pub fn is_so(statuses: bool, said: &Said, entry: &Entry) -> bool
    ensures { result ≡ is_so statuses said.now entry.now }
{
    let answer = &entry.answer;
    same_status(said.status, entry)
        && (statuses || same_key(said.key, answer.key) && same_items(&said.items, &answer.items))
}
