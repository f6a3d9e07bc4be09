//! Linking: the image of an accepted program, and how long its bytes are.
ghost use Rattle.std.specs.Prelude.{◌≡◌, ◌≤◌, false, true, IfOk};
ghost use Rattle.fac_lang.specs.declared.program.Program.{Program as Source};
ghost use Rattle.fac_bytes.specs.Spellable.{IsSpellable};
ghost use Rattle.fac_carry.specs.Direct.{DirectIsInPlace};
ghost use Rattle.fac_check.specs.Judged.{StandsForWhole};
ghost use Rattle.fac_check.specs.TemplateEffects.{AreEffects};
ghost use Rattle.fac_emit.specs.CarriedPrograms.{AgreesEach, StandsForEach};
ghost use Rattle.fac_emit.specs.ProgramCode.{IsPlain};
ghost use Rattle.fac_expand.specs.DirectInPlace.{UsesAre};
ghost use Rattle.fac_tool.specs.Saved.{HasEffects};
ghost use Rattle.fac_tool.specs.inner.Uses.{IsOfKernel, SuitsUse};
ghost use Rattle.fac_tool.specs.inner.Stops.{Carried, StandsForSafe};
ghost use Rattle.fac_tool.specs.inner.ImageSteps.{AreEffectsIfAsked, CarriedWhole, IsLinked, IsShort};

use fac_base::limits::MOST_IMAGE_BYTES;
use fac_base::{Bytes, Height, List, Memory};
use fac_bytes::{encode, spelled_length};
use fac_check::{Checked, effects, safe_programs_are_not_stuck};
use fac_code::Image;
use fac_emit::{asks_effects, compile};
use fac_expand::{Extent, Use, expand};
use fac_lang::{Program, WordDef};
use fac_locals::Closed;
use fac_par::{Gate, Workers};
use std::alloc::Global;
use std::thread::Threads;

/// An image and its bytes.
#[derive(Drop)]
pub struct Linked {
    /// The image.
    pub image: Image,
    /// Its bytes.
    pub bytes: Bytes,
}

// The effects of a program's templates where it asks for any, and none where it doesn't.
fn asked_effects<R: Threads + Sync, G>(
    workers: &Workers<'_, R, G>,
    closed: &Closed,
) -> Result<List<Option<Height>>, Memory>
    requires { StandsForWhole closed.now }
    ensures { IfOk result (AreEffectsIfAsked closed.now) }
{
    if !asks_effects(closed) {
        return Ok(List::new(workers.alloc));
    }
    let heights = effects(workers, closed)?;
    Ok(heights)
}

// What is expanded: plain code, and what uses of words are to become.
#[derive(Drop)]
struct Plain {
    image: Image,
    uses: List<Use>,
}

// Whether a word has this name in the vocabulary `kernel`.
fn is_of_kernel(word: &WordDef, name: &str) -> bool
    ensures yes { IsOfKernel word.now name.now → result ≡ true }
    ensures no { result ≡ true → IsOfKernel word.now name.now }
{
    if word.name.vocab.as_str() == "kernel" {
        return word.name.name.as_str() == name;
    }
    false
}

// What a use of a word is to become. An inline word has its phrase in place of its calls, and one that calls itself has code of its own.
#[tactic(auto, using(crate::proofs::DirectUses::suits_call, crate::proofs::DirectUses::suits_loop, crate::proofs::DirectUses::suits_while, crate::proofs::DirectUses::suits_until, crate::proofs::DirectUses::suits_other))]
fn use_of(word: &WordDef) -> Use
    ensures { SuitsUse word.now result }
{
    if !word.inline {
        return Use::Called;
    }
    if is_of_kernel(word, "loop") {
        return Use::Loop;
    }
    if is_of_kernel(word, "while") {
        return Use::While;
    }
    if is_of_kernel(word, "until") {
        return Use::Until;
    }
    if word.recursive {
        return Use::Specialised;
    }
    Use::InPlace
}

// What uses of a program's words are to become, by the words' numbers.
fn uses_of(alloc: Global, program: &Program) -> Result<List<Use>, Memory>
    ensures { IfOk result (UsesAre program.now) }
{
    let mut uses = List::new(alloc);
    for word in program.words.as_slice() {
        uses.push(use_of(word))?;
    }
    Ok(uses)
}

// The plain code of an accepted program with these effects of its templates. The program is given back.
fn plain_code<R: Threads + Sync, G: Gate + Sync>(
    workers: &Workers<'_, R, G>,
    checked: Checked,
    heights: &[Option<Height>],
) -> Result<Plain, Memory>
    requires { (P : Source) × StandsForSafe checked.closed P }
    ensures agrees { IfOk result (λ plain. AgreesEach checked.closed heights.now plain.image) }
    ensures stands { IfOk result (λ plain. StandsForEach checked.closed plain.image) }
    ensures plain { IfOk result (λ plain. IsPlain checked.closed heights.now plain.image) }
    ensures spellable { IfOk result (λ plain. IsSpellable plain.image) }
    ensures uses { IfOk result (λ plain. UsesAre checked.closed.program plain.uses) }
{
    let image = compile(workers, &checked.closed, heights)?;
    let uses = uses_of(workers.alloc, &checked.closed.program)?;
    Ok(Plain { image, uses })
}

// The image of an accepted program with these effects of its templates, where all code is expanded with direct phrases in place. The program is given back before
// its code is expanded.
fn image_with<R: Threads + Sync, G: Gate + Sync>(
    workers: &Workers<'_, R, G>,
    checked: Checked,
    heights: &[Option<Height>],
    extent: Extent,
) -> Result<Image, Memory>
    requires stands { (P : Source) × StandsForSafe checked.closed P }
    requires effects { AreEffectsIfAsked checked.closed heights.now }
    ensures carried { IfOk result (λ image. (P : Source) → StandsForSafe checked.closed P → Carried P image) }
    ensures rows { IfOk result (λ image. AreEffects checked.closed heights.now → (P : Source) → StandsForSafe checked.closed P → HasEffects P image) }
    ensures direct { extent ≡ Extent.All → IfOk result (λ image. (P : Source) → StandsForSafe checked.closed P → DirectIsInPlace P image) }
    ensures spellable { IfOk result IsSpellable }
{
    safe_programs_are_not_stuck();
    let top = checked.closed.program.top;
    let plain = plain_code(workers, checked, heights)?;
    let Plain { image, uses } = plain;
    expand(workers.alloc, image, top, uses.as_slice(), extent)
}

// The image of an accepted program, with the effects of all of its templates, and with its direct phrases in place.
fn whole_image<R: Threads + Sync, G: Gate + Sync>(
    workers: &Workers<'_, R, G>,
    checked: Checked,
) -> Result<Image, Memory>
    requires { (P : Source) × StandsForSafe checked.closed P }
    ensures carried { IfOk result (λ image. (P : Source) → StandsForSafe checked.closed P → CarriedWhole P image) }
    ensures spellable { IfOk result IsSpellable }
{
    let heights = effects(workers, &checked.closed)?;
    image_with(workers, checked, heights.as_slice(), Extent::All)
}

// The image of an accepted program, with the effects of its templates where a run asks for any.
fn image_to_run<R: Threads + Sync, G: Gate + Sync>(
    workers: &Workers<'_, R, G>,
    checked: Checked,
) -> Result<Image, Memory>
    requires { (P : Source) × StandsForSafe checked.closed P }
    ensures carried { IfOk result (λ image. (P : Source) → StandsForSafe checked.closed P → Carried P image) }
    ensures spellable { IfOk result IsSpellable }
{
    let heights = asked_effects(workers, &checked.closed)?;
    image_with(workers, checked, heights.as_slice(), Extent::Reached)
}

/// The image of an accepted program, which carries it, has the effects of its callables in its rows and its direct phrases in place, and its bytes. Want of memory is the one error, also where
/// the image would have more bytes than one may have. What the program took is given back when its image is made.
pub fn link<R: Threads + Sync, G: Gate + Sync>(
    workers: &Workers<'_, R, G>,
    checked: Checked,
) -> Result<Linked, Memory>
    requires { (P : Source) × StandsForSafe checked.closed P }
    ensures { IfOk result (λ linked. IsLinked linked × ((P : Source) → StandsForSafe checked.closed P → CarriedWhole P linked.image)) }
{
    let image = whole_image(workers, checked)?;
    let bytes = encode(workers.alloc, &image)?;
    if bytes.len() as u64 > MOST_IMAGE_BYTES {
        return Err(Memory);
    }
    Ok(Linked { image, bytes })
}

/// An image of an accepted program that is only run, with no bytes: its templates have no effects where the run asks for none. Want of
/// memory is the one error, also where the image would have more bytes than one may have. What the program took is given back.
pub fn link_to_run<R: Threads + Sync, G: Gate + Sync>(
    workers: &Workers<'_, R, G>,
    checked: Checked,
) -> Result<Image, Memory>
    requires { (P : Source) × StandsForSafe checked.closed P }
    ensures { IfOk result (λ image. IsShort image × ((P : Source) → StandsForSafe checked.closed P → Carried P image)) }
{
    let image = image_to_run(workers, checked)?;
    let length = spelled_length(workers.alloc, &image)?;
    if length > MOST_IMAGE_BYTES {
        return Err(Memory);
    }
    Ok(image)
}
