//! Laws, each on the contract of a function that does nothing.
ghost use Rattle.fac_effect.specs.Spellings.{LiteralsAreIntegers};
ghost use Rattle.fac_effect.specs.EffectLaws.{WholeIsEffect, EffectIsWhole, EffectsEnd, ReadGoesOn, RefusedIsNone, InputsAreNamed, LocalsGoOn, WholeIsRowless, RowlessIsWhole, RowlessGoesOn};

/// A plain token is an integer exactly where the primitives on texts of numbers read its text as one, and has the same value.
pub fn literals_are_integers()
    ensures { LiteralsAreIntegers }
{}

/// Tokens that a reader took to the end of an effect are those of an effect, and what it says follows from the tokens.
pub fn whole_is_effect()
    ensures { WholeIsEffect }
{}

/// A reader takes the tokens of an effect to its end, and they say one thing.
pub fn effect_is_whole()
    ensures { EffectIsWhole }
{}

/// The tokens of an effect begin no other effect's: where two begin a list of tokens, they are the same.
pub fn effects_end()
    ensures { EffectsEnd }
{}

/// Where a reader takes tokens and they aren't whole, they go on to an effect. The limit of names is never in the way.
pub fn read_goes_on()
    ensures { ReadGoesOn }
{}

/// No effect begins with tokens of which a reader refused one.
pub fn refused_is_none()
    ensures { RefusedIsNone }
{}

/// The tokens of an effect show, one by one, whether its inputs may be locals.
pub fn inputs_are_named()
    ensures { InputsAreNamed }
{}

/// Where a reader takes tokens, they aren't whole, and the inputs among them may be locals, they go on to an effect whose inputs may.
pub fn locals_go_on()
    ensures { LocalsGoOn }
{}

/// Tokens behind a `(` that a reader took to the end of an effect, and none of which is a row variable, are those of an effect without row
/// variables.
pub fn whole_is_rowless()
    ensures { WholeIsRowless }
{}

/// A reader takes the tokens of an effect without row variables to its end, and none of them is one.
pub fn rowless_is_whole()
    ensures { RowlessIsWhole }
{}

/// Where a reader takes tokens behind a `(`, they aren't whole, and none of them is a row variable, they go on to an effect without row
/// variables.
pub fn rowless_goes_on()
    ensures { RowlessGoesOn }
{}
