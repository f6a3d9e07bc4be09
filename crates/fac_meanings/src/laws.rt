//! Laws of names and of items, each on the contract of a function that does nothing.
ghost use Rattle.fac_meanings.specs.Accepted.{ProgramsRunTheirForms};
ghost use Rattle.fac_meanings.specs.Meanings.{FormsAreMeant};
ghost use Rattle.fac_meanings.specs.SearchOrder.{FormsDefine, NamesAreFound, NamesKeepWords};
ghost use Rattle.fac_meanings.specs.Signs.{PhrasesAreWrittenAsItems};
ghost use Rattle.fac_meanings.specs.Standing.{ItemsStand};

/// Behind forms of a file of which none is refused, also in the phrase of the next word, a name finds what it finds among these forms, from the
/// place on backwards: what the current vocabulary or its companion has, or else what was brought last, or else the one word that the
/// vocabularies in use have.
pub fn names_are_found()
    ensures { NamesAreFound }
{}

/// Where a name is new in its vocabulary, the form that defines it gives it the first word that the form adds.
pub fn forms_define_names()
    ensures { FormsDefine }
{}

/// What a vocabulary has under a name it has for good.
pub fn names_keep_words()
    ensures { NamesKeepWords }
{}

/// The phrase of items is written as the items are, with their names resolved.
pub fn phrases_are_written_as_items()
    ensures { PhrasesAreWrittenAsItems }
{}

/// Behind forms of a file of which none is refused, the phrase of the next definition, of the next method, and of items at the top level, means its
/// items: a name is the innermost local of its name that is bound before it, or else the word that it finds among these forms; a hole is the next one
/// of the fry around; in an array each name is that of a word; and the cases of a `cond` are `if` in `if`. So does the next constant its literal, and a
/// maker and a `MAIN:` name what they find.
pub fn forms_mean_what_is_bound_or_found()
    ensures { FormsAreMeant }
{}

/// Where files resolve to a program, the word of each of their definitions, constants, makers of tuples and methods runs in it the phrase that the form's
/// items mean behind the forms before, and so does the top-level phrase for items at the top level.
pub fn programs_run_their_forms()
    ensures { ProgramsRunTheirForms }
{}

/// Where no `cond` reads its cases, items mean what their tokens mean one after another.
pub fn items_mean_as_they_stand()
    ensures { ItemsStand }
{}
