//! Laws of what texts come to, each on the contract of a function that does nothing but call on laws below.
ghost use Rattle.fac_judge.specs.KnownTexts.{KnownBehindAreKnown, OneKnown};
ghost use Rattle.fac_judge.specs.TextSources.{EverySource, OneSource};

use fac_known::{files_are_known, known_goes_on, sessions_begin_known};
use fac_parse::{one_place, one_tree, some_place, tree_or_none};
use fac_token::{every_file_has_an_answer, one_answer};

/// No text comes to two things.
pub fn one_source()
    ensures { OneSource }
{
    one_answer();
    one_tree();
    one_place();
}

/// Each text comes to something: a fault of its tokens, a refusal of its grammar, or a tree.
pub fn every_text_is_a_source()
    ensures { EverySource }
{
    every_file_has_an_answer();
    tree_or_none();
    some_place();
}

/// Behind the prelude and the same texts one thing is known.
pub fn one_known()
    ensures { OneKnown }
{
    one_source();
}

/// What is known behind the prelude and texts belongs together, so its program is whole.
pub fn known_behind_texts_is_known()
    ensures { KnownBehindAreKnown }
{
    files_are_known();
    known_goes_on();
    sessions_begin_known();
}
