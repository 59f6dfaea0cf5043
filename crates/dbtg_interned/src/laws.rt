//! What holds of arrays that are kept once, each law as the contract of a function that does nothing.
ghost use Rattle.dbtg_interned.specs.Arrays.{KeptArrays};
ghost use Rattle.dbtg_interned.specs.Laws.{EqualAreOne, StayAsTheyAre};

/// Two arrays with the same elements have the same number: so arrays are compared by comparing two numbers.
pub fn equal_arrays_have_one_number()
    ensures { (arrays : KeptArrays) → EqualAreOne arrays }
{}

/// An array stays an array, and keeps its elements, when others are made.
pub fn older_arrays_stay()
    ensures { (old new : KeptArrays) → StayAsTheyAre old new }
{}
