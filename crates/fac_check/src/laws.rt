//! Laws of the definitions, each on the contract of a function that does nothing.
ghost use Rattle.fac_check.specs.Judged.{FirstRefusalIsVerdict};
ghost use Rattle.fac_check.specs.MarksBelow.{MarksBelowStay};
ghost use Rattle.fac_check.specs.Promises.{AcceptedAreSafe, SafeAreNotStuck};

/// What the checker of the whole language accepts is safe: by its definitions a whole program with an accepted verdict never finds too
/// few values or a value that an item can't take, on whatever values it starts of the number that it was judged for. Each of its words but
/// inline ones, `call`, `dip`, `if`, `execute`, `boa` and `cond` leaves what it declares, and so does each row word with whatever does as
/// its effect says handed in. A callable or a word that fits what a call declares, wherever it came from, takes and leaves what is declared.
/// Behind every run the world is valid again.
pub fn accepted_programs_are_safe()
    ensures { AcceptedAreSafe }
{}

/// A safe program never finds too few values or a value that an item can't take, with any budget.
pub fn safe_programs_are_not_stuck()
    ensures { SafeAreNotStuck }
{}

/// The first refusal among the verdicts on all words, in their order, is the verdict on the program, which is accepted where there is none.
pub fn first_refusal_is_verdict()
    ensures { FirstRefusalIsVerdict }
{}

/// What a walk finds from some marks, where no word is being checked, it finds from them with others below, which stay below it; and as many
/// items may be walked then. So a phrase that breaks no rule with some inputs breaks none with more.
pub fn marks_below_stay()
    ensures { MarksBelowStay }
{}
