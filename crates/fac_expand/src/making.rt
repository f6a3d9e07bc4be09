//! Making an image of pieces of code: those of the templates first, and then those of the words, in their order.
ghost use Rattle.std.specs.Prelude.{◌≡◌, ◌∷◌, ◌++◌, [], suc, length, true, Some, slice_get, IfOk, OnOk};
ghost use Rattle.fac_expand.specs.inner.Makings.{Makes, Goes, Begins};
ghost use Rattle.fac_expand.specs.inner.Pieces.{ArePlaced, HasNone, IsNoted, IsPlacedAction};

use crate::growing::Growing;
use crate::pieces::Expander;
use crate::placing::{add_piece, piece_of, template_piece};
use crate::plan::Use;
use fac_base::{Duplicate, List, Memory};
use fac_code::{Action, Image, Instr, TemplateRow, WordRow};
use std::alloc::Global;

/// The code so far, the rows of templates, and the new places of the words' code by their old ones.
#[derive(Drop)]
pub struct Making {
    /// The instructions.
    pub code: List<Instr>,
    /// The rows of the templates.
    pub templates: List<TemplateRow>,
    /// By an old place, the new one of the code that stands for what stood there.
    pub places: Growing<Option<u32>>,
}

// No new place for any of so many old ones.
fn no_places(alloc: Global, count: u32) -> Result<Growing<Option<u32>>, Memory>
    ensures { IfOk result HasNone }
{
    let mut places = Growing::with_room(alloc, count as usize)?;
    for _ in 0..count {
        places.push(None)?;
    }
    Ok(places)
}

// Whether an old place has no new one yet.
fn is_new(places: &Growing<Option<u32>>, place: u32) -> bool {
    match places.get(place as usize) {
        Some(Some(_)) => false,
        Some(None) => true,
        None => false,
    }
}

// An old place has this new one from now on, where there is such an old place.
fn note(places: &mut Growing<Option<u32>>, place: u32, at: u32)
    ensures { IsNoted places.old place at places.new }
{
    if (place as usize) < places.len() {
        places.set(place as usize, Some(at));
    }
}

impl Making {
    /// Nothing so far, of code of so many instructions. Want of memory is the one error.
    pub fn new(alloc: Global, plain: &Image) -> Result<Making, Memory>
        ensures made { IfOk result (Makes plain.now) }
        ensures none { IfOk result (λ making. making.templates ≡ []) }
    {
        let places = no_places(alloc, plain.code.len())?;
        Ok(Making {
            code: List::new(alloc),
            templates: List::new(alloc),
            places,
        })
    }

    // Adds the code of the next template, and its row.
    fn add_template(
        &mut self,
        expander: &mut Expander,
        alloc: Global,
        plain: &Image,
        uses: &[Use],
        template: &TemplateRow,
    ) -> Result<(), Memory>
        requires { slice_get plain.now.templates (length self.old.templates) ≡ Some template.now }
        ensures { OnOk result (Goes plain.now 1 self.old self.new) }
    {
        let at = self.code.len();
        let piece = template_piece(expander, alloc, plain, uses, template, at)?;
        let cells = template.cells.copy(alloc)?;
        add_piece(&mut self.code, piece.as_slice())?;
        self.templates.push(TemplateRow {
            entry: at,
            cells,
            holes: template.holes,
            height: template.height,
        })?;
        Ok(())
    }

    /// Adds the code of all templates, and their rows. Want of memory is the one error.
    pub fn add_templates(
        &mut self,
        expander: &mut Expander,
        alloc: Global,
        plain: &Image,
        uses: &[Use],
    ) -> Result<(), Memory>
        requires { self.old.templates ≡ [] }
        ensures { OnOk result (Goes plain.now (length plain.now.templates) self.old self.new) }
    {
        for template in plain.templates.as_slice() {
            self.add_template(expander, alloc, plain, uses, template)?;
        }
        Ok(())
    }

    // Adds the code for that at an old place, where it isn't there yet.
    fn add_place(
        &mut self,
        expander: &mut Expander,
        alloc: Global,
        plain: &Image,
        uses: &[Use],
        place: u32,
    ) -> Result<(), Memory>
        ensures { OnOk result (Goes plain.now 0 self.old self.new) }
    {
        if !is_new(&self.places, place) {
            return Ok(());
        }
        let at = self.code.len();
        let piece = piece_of(expander, alloc, plain, uses, Instr::Ret, 0, place, at)?;
        add_piece(&mut self.code, piece.as_slice())?;
        note(&mut self.places, place, at);
        Ok(())
    }

    // Adds the code of a word, where it has some.
    fn add_action(
        &mut self,
        expander: &mut Expander,
        alloc: Global,
        plain: &Image,
        uses: &[Use],
        action: Action,
    ) -> Result<(), Memory>
        ensures { OnOk result (Goes plain.now 0 self.old self.new) }
    {
        match action {
            Action::Code(place) => self.add_place(expander, alloc, plain, uses, place),
            _ => Ok(()),
        }
    }

    /// Adds the code of the words below a number. Want of memory is the one error.
    pub fn add_words(
        &mut self,
        expander: &mut Expander,
        alloc: Global,
        plain: &Image,
        uses: &[Use],
        top: u32,
    ) -> Result<(), Memory>
        ensures { OnOk result (Goes plain.now 0 self.old self.new) }
    {
        let _count = plain.words.len();
        let mut number = 0u32;
        for word in plain.words.as_slice() {
            if number >= top {
                return Ok(());
            }
            self.add_action(expander, alloc, plain, uses, word.action)?;
            number += 1;
        }
        Ok(())
    }

    /// Adds the code of the top-level phrase, whose place it answers. Want of memory is the one error.
    pub fn add_start(
        &mut self,
        expander: &mut Expander,
        alloc: Global,
        plain: &Image,
        uses: &[Use],
    ) -> Result<u32, Memory>
        ensures { IfOk result (Begins plain.now self.old self.new) }
    {
        let at = self.code.len();
        let piece = piece_of(
            expander,
            alloc,
            plain,
            uses,
            Instr::Halt,
            0,
            plain.start,
            at,
        )?;
        add_piece(&mut self.code, piece.as_slice())?;
        Ok(at)
    }
}

// Whether a word's code has a new place, where the word has code.
fn is_placed(places: &[Option<u32>], action: Action) -> bool
    ensures { result ≡ true → IsPlacedAction places.now action }
{
    match action {
        Action::Code(place) => match places.get(place as usize) {
            Some(Some(_)) => true,
            Some(None) => false,
            None => false,
        },
        _ => true,
    }
}

/// Whether the code of each word below a number has a new place.
pub fn are_placed(places: &[Option<u32>], top: u32, words: &[WordRow]) -> bool
    ensures { result ≡ true → ArePlaced places.now top words.now }
{
    let mut number = 0u64;
    for word in words {
        if number >= top as u64 {
            return true;
        }
        if !is_placed(places, word.action) {
            return false;
        }
        number += 1;
    }
    true
}
