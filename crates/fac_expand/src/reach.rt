//! The plain code that a run can come to. Nothing is promised of it: where not all is to be expanded, other code is left plain.
use crate::coming::is_tailed;
use crate::growing::Growing;
use fac_base::Memory;
use fac_code::{Action, Elem, Image, Instr};
use std::alloc::Global;

/// What a run can come to, as far as instructions name it.
#[derive(Drop)]
pub struct Reach {
    // By the place of an instruction, whether a phrase that begins there was come to.
    reached: Growing<bool>,
    // The places of these phrases, in the order in which they were come to.
    places: Growing<u32>,
    // Whether there is a quotation in any of them.
    has_quotations: bool,
}

// Whether a phrase ends in an instruction.
fn ends(instr: Instr) -> bool {
    match instr {
        Instr::Ret => true,
        Instr::Halt => true,
        _ => is_tailed(instr),
    }
}

impl Reach {
    // A phrase that begins at this place is come to.
    fn note(&mut self, place: u32) -> Result<(), Memory> {
        match self.reached.get(place as usize) {
            Some(false) => {}
            _ => return Ok(()),
        }
        if (place as usize) < self.reached.len() {
            self.reached.set(place as usize, true);
        }
        self.places.push(place)
    }

    // The code of a word, where it has some.
    fn note_word(&mut self, plain: &Image, word: u32) -> Result<(), Memory> {
        match plain.words.get(word as usize) {
            Some(row) => match row.action {
                Action::Code(place) => self.note(place),
                _ => Ok(()),
            },
            None => Ok(()),
        }
    }

    // The code of a template.
    fn note_template(&mut self, plain: &Image, template: u32) -> Result<(), Memory> {
        match plain.templates.get(template as usize) {
            Some(row) => self.note(row.entry),
            None => Ok(()),
        }
    }

    // The code of the methods of a generic word.
    fn note_generic(&mut self, plain: &Image, generic: u32) -> Result<(), Memory> {
        match plain.generics.get(generic as usize) {
            Some(row) => {
                for method in row.methods.as_slice() {
                    self.note(method.entry)?;
                }
                Ok(())
            }
            None => Ok(()),
        }
    }

    // What the elements of a literal array lead to.
    fn note_array(&mut self, plain: &Image, array: u32) -> Result<(), Memory> {
        match plain.arrays.get(array as usize) {
            Some(elements) => {
                for element in elements.as_slice() {
                    match element {
                        Elem::Word(word) => self.note_word(plain, *word)?,
                        Elem::Template(template) => self.note_template(plain, *template)?,
                        _ => {}
                    }
                }
                Ok(())
            }
            None => Ok(()),
        }
    }

    // What an instruction leads to.
    fn follow(&mut self, plain: &Image, instr: Instr) -> Result<(), Memory> {
        match instr {
            Instr::Callw { word, .. } => self.note_word(plain, word),
            Instr::Word(word) => self.note_word(plain, word),
            Instr::Quot(template) => {
                self.has_quotations = true;
                self.note_template(plain, template)
            }
            Instr::Fry(template) => self.note_template(plain, template),
            Instr::Array(array) => self.note_array(plain, array),
            Instr::Generic { generic, .. } => self.note_generic(plain, generic),
            _ => Ok(()),
        }
    }

    // What a phrase that begins at a place leads to.
    fn pass(&mut self, plain: &Image, place: u32) -> Result<(), Memory> {
        for at in place..plain.code.len() {
            match plain.code.get(at as usize) {
                Some(instr) => {
                    self.follow(plain, *instr)?;
                    if ends(*instr) {
                        return Ok(());
                    }
                }
                None => return Ok(()),
            }
        }
        Ok(())
    }
}

impl Reach {
    /// Whether a phrase that begins at this place was come to.
    pub fn has(&self, place: u32) -> bool {
        match self.reached.get(place as usize) {
            Some(reached) => *reached,
            None => false,
        }
    }

    /// Whether there is a quotation in what was come to.
    pub fn has_quotations(&self) -> bool {
        self.has_quotations
    }
}

/// What a run of a plain image can come to. Want of memory is the one error.
pub fn reach_of(alloc: Global, plain: &Image) -> Result<Reach, Memory> {
    let mut reach = Reach {
        reached: Growing::with_room(alloc, plain.code.len() as usize)?,
        places: Growing::new(alloc),
        has_quotations: false,
    };
    for _ in 0..plain.code.len() {
        reach.reached.push(false)?;
    }
    reach.note(plain.start)?;
    for index in 0..plain.code.len() {
        match reach.places.get(index as usize) {
            Some(place) => {
                let place = *place;
                reach.pass(plain, place)?;
            }
            None => return Ok(reach),
        }
    }
    Ok(reach)
}
