//! Laws on the machine's definition and on what its values stand for, on the contracts of functions that do nothing.
ghost use Rattle.fac_carry.specs.CodeLaws.{CodeRunsAsItsPhrase};
ghost use Rattle.fac_carry.specs.PrintedForms.{PrintedFormsAreEqual};

/// The values of a machine and those that they stand for have equal printed forms, one by one. So where an image carries a program and a
/// run is done, both stacks print alike.
pub fn printed_forms_are_equal()
    ensures { PrintedFormsAreEqual }
{}

/// The machine runs code as the meaning runs the phrase for which it stands: with the same output, stack, error and ticks at every budget.
pub fn code_runs_as_its_phrase()
    ensures { CodeRunsAsItsPhrase }
{}
