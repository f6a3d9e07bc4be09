//! Laws of readings and answers, each on the contract of a function that does nothing.
ghost use Rattle.fac_token.specs.Spots.{EachTokenHasSpot, OneListOfSpots};
ghost use Rattle.fac_token.specs.ReadingLaws.{ReadOrFaulty, NotBoth, OneReading, OneFirstFault, OneAnswer, EveryFileAnswers};

/// Every text has a reading, as lexemes that spell it, or a first fault.
pub fn every_text_is_read_or_faulty()
    ensures { ReadOrFaulty }
{}

/// No text has both a reading and a first fault.
pub fn no_text_is_both()
    ensures { NotBoth }
{}

/// No text has two readings.
pub fn one_reading()
    ensures { OneReading }
{}

/// No text has two first faults.
pub fn one_first_fault()
    ensures { OneFirstFault }
{}

/// The contract of `tokens` allows one answer besides `Memory`.
pub fn one_answer()
    ensures { OneAnswer }
{}

/// The contract of `tokens` allows an answer besides `Memory` for each file.
pub fn every_file_has_an_answer()
    ensures { EveryFileAnswers }
{}

/// A file has as many places as tokens.
pub fn each_token_has_spot()
    ensures { EachTokenHasSpot }
{}

/// A file has one list of places.
pub fn one_list_of_spots()
    ensures { OneListOfSpots }
{}
