//! Laws of explanations, each on the contract of a function that does nothing but call on laws below.
ghost use Rattle.fac_explainer.specs.CheckAnswers.{OneRefusal};
ghost use Rattle.fac_explainer.specs.Explanations.{OneExplanation};
ghost use Rattle.fac_explainer.specs.VerdictLaws.{ExplainsAsChecked};

use fac_token::{one_answer, one_list_of_spots};
use fac_tool::one_source;

/// Texts have one refusal, or none.
pub fn one_refusal()
    ensures { OneRefusal }
{
    one_source();
}

/// A refusal has one explanation, so what is written is a function of the names and the bytes of the files.
pub fn one_explanation()
    ensures { OneExplanation }
{
    one_answer();
    one_list_of_spots();
    one_refusal();
}

/// What is explained of files is what `check` says of them: of files that hold the same the two calls have the same status and the same refusal, unless
/// one of them was cut short.
pub fn explanation_is_of_check()
    ensures { ExplainsAsChecked }
{
    one_refusal();
}
