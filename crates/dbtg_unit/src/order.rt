//! The order in which a statement takes its areas: ascending. Nothing here takes memory.
ghost use Rattle.std.specs.Prelude.{◌≡◌, ◌==◌, not};
ghost use Rattle.std.specs.List.{find, list_any};
ghost use Rattle.dbtg_unit.specs.Database.Statements.Checks.{areas_of};
ghost use Rattle.dbtg_unit.specs.Hands.Needs.{areas_in_order};

use crate::areas::{Question, ask_of_areas};
use crate::counts::area_count;
use crate::held::Held;
use crate::statement::Statement;
use crate::unit::Unit;
use dbtg_schema::{AreaNo, Schema};

/// Is this one of the areas of a statement?
pub fn has_area(schema: &Schema, unit: &Unit, statement: &Statement, area: AreaNo) -> bool
    ensures { result ≡ list_any (λ a. a == area) (areas_of schema.now unit.now statement.now) }
{
    ask_of_areas(schema, unit, &Question::Is(area), statement)
}

/// The first of a statement's areas, ascending, that is not held.
#[tactic(auto, using(dbtg_schema::proofs::Public::numbers_next, dbtg_schema::proofs::Public::numbers_end))]
pub fn next_area(schema: &Schema, unit: &Unit, statement: &Statement, held: &Held) -> Option<AreaNo>
    ensures { result ≡ find (λ a. not (list_any (λ b. b == a) held.now.areas)) (areas_in_order schema.now unit.now statement.now) }
{
    for a in 0..area_count(schema) {
        let area = AreaNo::new(a);
        if has_area(schema, unit, statement, area) & !held.has(area) {
            return Some(area);
        }
    }
    None
}
