//! Bodies of code: where they begin and end, and whether one has direct code.
ghost use Rattle.std.specs.Prelude.{◌≡◌, ◌<◌, ◌≤◌, ◌&&◌, ℕ, nat_le, nat_lt, true, Some, slice_get, IfOk, MatchOption};
ghost use Rattle.fac_code.specs.declared.image.Instr.{Instr as Instruction};
ghost use Rattle.fac_expand.specs.inner.Bodies.{AreBegins, AreMethodsFlagged, EndsAt, HasActionFlag, HasNoFlag, HaveGenericFlags, HaveMethodFlags, HaveWordFlags, IsActionFlagged, IsDirectBody, IsFlagged, OnlyBegin};
ghost use Rattle.fac_expand.specs.inner.Bodies.{is_direct_between as stays_between};

use crate::direct_places::is_call;
use crate::growing::Growing;
use crate::plan::Use;
use fac_base::{List, Memory};
use fac_code::{Action, GenericRow, Image, Instr, MethodRow, WordRow};
use std::alloc::Global;

// No flag for any of so many places.
fn no_flags(alloc: Global, count: u32) -> Result<Growing<bool>, Memory>
    ensures { IfOk result HasNoFlag }
{
    let mut flags = Growing::with_room(alloc, count as usize)?;
    for _ in 0..count {
        flags.push(false)?;
    }
    Ok(flags)
}

// A place has its flag from now on, where it is one of the code.
fn flag(flags: &mut Growing<bool>, place: u32)
    ensures { IsFlagged flags.old place flags.new }
{
    if (place as usize) < flags.len() {
        flags.set(place as usize, true);
    }
}

// The code of what a word does has its flag.
fn flag_action(flags: &mut Growing<bool>, action: Action)
    ensures { IsActionFlagged flags.old action flags.new }
{
    match action {
        Action::Code(place) => flag(flags, place),
        _ => {}
    }
}

// The code of each word has its flag.
fn flag_words(flags: &mut Growing<bool>, image: &Image)
    ensures { OnlyBegin image.now flags.old → OnlyBegin image.now flags.new }
{
    for index in 0..image.words.len() {
        match image.words.get(index as usize) {
            Some(word) => flag_action(flags, word.action),
            None => {}
        }
    }
}

// Each method has its flag.
fn flag_methods(flags: &mut Growing<bool>, methods: &List<MethodRow>)
    ensures { AreMethodsFlagged flags.old methods.now flags.new }
{
    for index in 0..methods.len() {
        match methods.get(index as usize) {
            Some(method) => flag(flags, method.entry),
            None => {}
        }
    }
}

// Each method of each generic has its flag.
fn flag_generics(flags: &mut Growing<bool>, image: &Image)
    ensures { OnlyBegin image.now flags.old → OnlyBegin image.now flags.new }
{
    for index in 0..image.generics.len() {
        match image.generics.get(index as usize) {
            Some(generic) => flag_methods(flags, &generic.methods),
            None => {}
        }
    }
}

// Whether a place has a flag.
fn is_flagged(flags: &Growing<bool>, place: u32) -> bool
    ensures yes { result ≡ true → slice_get flags.now place ≡ Some true }
    ensures no { slice_get flags.now place ≡ Some true → result ≡ true }
{
    match flags.get(place as usize) {
        Some(flag) => *flag,
        None => false,
    }
}

// Whether the code of what a word does has one.
fn has_action_flag(flags: &Growing<bool>, action: Action) -> bool
    ensures { result ≡ true → HasActionFlag flags.now action }
{
    match action {
        Action::Code(place) => is_flagged(flags, place),
        _ => true,
    }
}

// Whether that of each word has one.
fn have_word_flags(flags: &Growing<bool>, words: &List<WordRow>) -> bool
    ensures { result ≡ true → HaveWordFlags flags.now words.now }
{
    for index in 0..words.len() {
        match words.get(index as usize) {
            Some(word) => match has_action_flag(flags, word.action) {
                true => {}
                false => return false,
            },
            None => return false,
        }
    }
    true
}

// Whether each method has one.
fn have_method_flags(flags: &Growing<bool>, methods: &List<MethodRow>) -> bool
    ensures { result ≡ true → HaveMethodFlags flags.now methods.now }
{
    for index in 0..methods.len() {
        match methods.get(index as usize) {
            Some(method) => match is_flagged(flags, method.entry) {
                true => {}
                false => return false,
            },
            None => return false,
        }
    }
    true
}

// Whether each method of each generic has one.
fn have_generic_flags(flags: &Growing<bool>, generics: &List<GenericRow>) -> bool
    ensures { result ≡ true → HaveGenericFlags flags.now generics.now }
{
    for index in 0..generics.len() {
        match generics.get(index as usize) {
            Some(generic) => match have_method_flags(flags, &generic.methods) {
                true => {}
                false => return false,
            },
            None => return false,
        }
    }
    true
}

// Flags at places where bodies of an image begin, and nowhere else.
fn flags_of(alloc: Global, image: &Image) -> Result<Growing<bool>, Memory>
    ensures { IfOk result (OnlyBegin image.now) }
{
    let mut flags = no_flags(alloc, image.code.len())?;
    flag_words(&mut flags, image);
    flag_generics(&mut flags, image);
    flag(&mut flags, image.start);
    Ok(flags)
}

// Whether there is a flag wherever a body begins, where there is one nowhere else.
fn has_all_flags(flags: &Growing<bool>, image: &Image) -> bool
    requires { OnlyBegin image.now flags.now }
    ensures { result ≡ true → AreBegins image.now flags.now }
{
    if !have_word_flags(flags, &image.words) {
        return false;
    }
    if !have_generic_flags(flags, &image.generics) {
        return false;
    }
    is_flagged(flags, image.start)
}

/// Flags for the places where the bodies of an image begin, by place. None where one begins outside of the code, as in no image that is whole. Want of memory
/// is the one error.
pub fn begins_of(alloc: Global, image: &Image) -> Result<Option<Growing<bool>>, Memory>
    ensures { IfOk result (λ flags. MatchOption flags (Unit {0}) (AreBegins image.now)) }
{
    let flags = flags_of(alloc, image)?;
    if has_all_flags(&flags, image) {
        return Ok(Some(flags));
    }
    Ok(None)
}

// Where the body that begins at a place ends: where the next one begins, or the code ends.
fn end_of(flags: &Growing<bool>, place: u32, size: u32) -> u32
    ensures { EndsAt flags.now place size result }
{
    for at in place..size {
        if at > place && is_flagged(flags, at) {
            return at;
        }
    }
    size
}

// Whether a place is one from the first on and before the second.
fn is_between(first: u32, second: u32, place: u32) -> bool
    ensures { result ≡ (nat_le first place && nat_lt place second) }
{
    first <= place && place < second
}

// Whether an instruction makes no quotation, applies no callable, calls no inline word, and leads to places between these alone.
fn is_direct_between(uses: &[Use], first: u32, second: u32, instr: Instr) -> bool
    ensures { result ≡ stays_between uses.now first second instr }
{
    match instr {
        Instr::Quot(_) => false,
        Instr::Fry(_) => false,
        Instr::Call { .. } => false,
        Instr::Dip => false,
        Instr::If { .. } => false,
        Instr::Jump(place) => is_between(first, second, place),
        Instr::Branch(place) => is_between(first, second, place),
        Instr::Callp { place, .. } => is_between(first, second, place),
        Instr::Callw { word, .. } => is_call(uses, word),
        _ => true,
    }
}

// Whether all instructions between two places do so.
fn are_direct_between(code: &List<Instr>, uses: &[Use], first: u32, second: u32) -> bool
    ensures { result ≡ true → (pc : ℕ) → pc < second → first ≤ pc → (i : Instruction) → slice_get code.now pc ≡ Some i → stays_between uses.now first second i ≡ true }
{
    for at in first..second {
        match code.get(at as usize) {
            Some(instr) => match is_direct_between(uses, first, second, *instr) {
                true => {}
                false => return false,
            },
            None => return false,
        }
    }
    true
}

/// Whether the body that begins at a place has direct code.
pub fn has_direct_body(image: &Image, uses: &[Use], flags: &Growing<bool>, place: u32) -> bool
    requires { AreBegins image.now flags.now }
    ensures { result ≡ true → IsDirectBody uses.now image.now place }
{
    let end = end_of(flags, place, image.code.len());
    are_direct_between(&image.code, uses, place, end)
}
