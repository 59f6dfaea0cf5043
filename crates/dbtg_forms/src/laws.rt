//! What numbers of forms say, each law as the contract of a function that does nothing.
ghost use Rattle.dbtg_forms.specs.Forms.{KeptForms};
ghost use Rattle.dbtg_forms.specs.Laws.{NumbersStay, NumbersTellApart};

/// Two graphs have the same number just if they are isomorphic.
pub fn isomorphic_graphs_have_one_number()
    ensures { (kept : KeptForms) → NumbersTellApart kept }
{}

/// A graph keeps its number when others are entered.
pub fn numbers_stay()
    ensures { (old new : KeptForms) → NumbersStay old new }
{}
