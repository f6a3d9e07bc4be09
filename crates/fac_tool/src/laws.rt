//! Laws of what files come to, each on the contract of a function that does nothing but call on laws below.
ghost use Rattle.fac_tool.specs.Sources.{OneSource, EverySource};
ghost use Rattle.fac_tool.specs.SavedRuns.{SavedCodeRunsAsItsSource, ExecAfterBuildIsRun};

use fac_bytes::{encoded_is_decoded, images_are_exact, one_image};
use fac_carry::printed_forms_are_equal;
use fac_check::safe_programs_are_not_stuck;
use fac_machine::runs_have_one_end;
use fac_parse::{one_place, one_tree, some_place, tree_or_none};
use fac_token::{every_file_has_an_answer, one_answer};

/// No texts come to two things. So what a command answers on files is a function of their bytes.
pub fn one_source()
    ensures { OneSource }
{
    one_answer();
    one_tree();
    one_place();
}

/// Each text comes to something: a fault of its tokens, a refusal of its grammar, or a tree; and so do several.
pub fn every_text_is_a_source()
    ensures { EverySource }
{
    every_file_has_an_answer();
    tree_or_none();
    some_place();
}

/// Code runs alone as its source does: whatever `exec` answers on bytes that `build` may have saved is what `run` answers on the sources. Both are
/// as the clause `answer` of `factor_top` has them.
pub fn saved_code_runs_as_its_source()
    ensures { SavedCodeRunsAsItsSource }
{
    runs_have_one_end();
    printed_forms_are_equal();
    safe_programs_are_not_stuck();
    one_image();
    images_are_exact();
    encoded_is_decoded();
}

/// What a call of `exec` answers behind a call of `build` that ended with status 0 is what `run` does with the sources of that call, with the same
/// budget and on the same input. Both calls are as the clause `answer` of `factor_top` has them.
pub fn exec_after_build_is_run()
    ensures { ExecAfterBuildIsRun }
{
    saved_code_runs_as_its_source();
}
