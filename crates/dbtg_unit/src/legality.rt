ghost use Rattle.dbtg_unit.specs.Database.Laws.StaysLegal.{EffectKeepsLegal, OpeningIsLegal, ReplayKeepsLegal, UnitsNeverConflict};

/// The effect of every statement that fits keeps a legal database legal with all its units: every law of the database,
/// every unit a unit of the schema, and each unit's modes its entries in the usage lists, for the unit that makes the
/// statement and for all others.
pub fn effect_keeps_legal()
    ensures { EffectKeepsLegal }
{}

/// The opening database, with no record and no area open, is legal with its opening units.
pub fn opening_is_legal()
    ensures { OpeningIsLegal }
{}

/// A history of statements that fit leads from a legal state to a legal state: from the opening state every state that
/// statements can make is legal.
pub fn replay_keeps_legal()
    ensures { ReplayKeepsLegal }
{}

/// No two units of a legal database have an area open in modes that conflict, whichever of them opened it first.
pub fn units_never_conflict()
    ensures { UnitsNeverConflict }
{}
