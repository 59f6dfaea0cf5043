//! Laws of the definitions. The functions do nothing: their contracts are the laws.

ghost use Rattle.std.specs.Prelude.{◌≡◌, ◌∷◌, List, None};
ghost use Rattle.dbtg_schema.specs.Texts.Forms.{starts, start_with, Derives};
ghost use Rattle.dbtg_schema.specs.Texts.SchemaGrammar.{Form, Labelled, fits};
ghost use Rattle.dbtg_schema.specs.Laws.{AcceptedIsDerivedOnce, DerivedHasNoFaultOfGrammar};

/// Where no start of a form fits a word, nothing that the form derives begins with that word: what a reader refuses
/// there, the grammar does not allow.
pub fn an_unwanted_word_begins_nothing()
    ensures { (f : Form) (l : Labelled) (ws : List Labelled) → start_with fits l.word (starts f) ≡ None → Derives fits f (l ∷ ws) → ⊥ }
{}

/// An accepted text is derived by the grammar as a relation in exactly one way: its words can have no other roles, and these
/// roles can come about in no other way. So what a schema says is what any derivation of its text says.
pub fn an_accepted_text_is_derived_once()
    ensures { AcceptedIsDerivedOnce }
{}

/// A text that the grammar derives has no fault of the grammar: no forbidden byte, no unwanted word, no bad name and no bad
/// picture. It can be refused only for what its words say, or for how many they are.
pub fn a_derived_text_has_no_fault_of_the_grammar()
    ensures { DerivedHasNoFaultOfGrammar }
{}
