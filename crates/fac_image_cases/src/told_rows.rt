//! The rows of an image's tables, as the lines of a case tell them.
use crate::instructions::{action, class, elem, height, method};
use fac_base::{Height, List, Memory, Text};
use fac_code::{Action, Elem, MethodRow, WordRow};
use std::alloc::Global;

/// A kind, with the numbers of its name and of its slots' names.
#[derive(Drop)]
pub struct Kind {
    /// The number of its name.
    pub name: u32,
    /// The numbers of its slots' names, where it is that of a tuple class.
    pub slots: Option<Vec<u32>>,
}

/// A generic: its word and its methods.
#[derive(Drop)]
pub struct Generic {
    /// The number of its word.
    pub word: u32,
    /// Its methods.
    pub methods: Vec<MethodRow>,
}

/// The rows of all tables. The names of words, kinds and slots are numbered by themselves, and stand behind the texts in an image.
#[derive(Drop)]
pub struct Rows {
    /// The elements of each literal array.
    pub arrays: Vec<Vec<Elem>>,
    /// The kinds from 8 on.
    pub kinds: Vec<Kind>,
    /// The kinds of each class set.
    pub sets: Vec<Vec<u32>>,
    /// The generics.
    pub generics: Vec<Generic>,
    /// The numbers of each template: its place, its holes, its cells.
    pub templates: Vec<Vec<u32>>,
    /// How many values each template takes and leaves.
    pub heights: Vec<Option<Height>>,
    /// The words.
    pub words: Vec<WordRow>,
    /// The words of classes, each with its kind.
    pub pairs: Vec<(u32, u32)>,
    /// How many methods there are.
    pub methods: u32,
    /// The names of words, kinds and slots.
    pub names: List<Text>,
    /// The texts.
    pub texts: List<Text>,
}

// The numbers of a text, with a space between two.
fn numbers(alloc: Global, text: &str) -> Result<Option<Vec<u32>>, Memory> {
    let mut numbers = Vec::new(alloc);
    if text.is_empty() {
        return Ok(Some(numbers));
    }
    for word in text.split(' ') {
        let Ok(number) = word.parse::<u32>() else {
            return Ok(None);
        };
        numbers.push(number)?;
    }
    Ok(Some(numbers))
}

// The elements of a literal array, with a comma between two.
fn elems(alloc: Global, text: &str) -> Result<Option<Vec<Elem>>, Memory> {
    let mut elems = Vec::new(alloc);
    if text.is_empty() {
        return Ok(Some(elems));
    }
    for told in text.split(", ") {
        let Some(next) = elem(told) else {
            return Ok(None);
        };
        elems.push(next)?;
    }
    Ok(Some(elems))
}

// A text in which a `|` stands for each end of a line.
fn with_lines(alloc: Global, told: &str) -> Result<Text, Memory> {
    let mut text = Text::new(alloc);
    for (number, line) in told.split('|').enumerate() {
        if number > 0 {
            text.push_ascii(b'\n')?;
        }
        text.push_str(line)?;
    }
    Ok(text)
}

impl Rows {
    /// Empty tables.
    pub fn new(alloc: Global) -> Self {
        Rows {
            arrays: Vec::new(alloc),
            kinds: Vec::new(alloc),
            sets: Vec::new(alloc),
            generics: Vec::new(alloc),
            templates: Vec::new(alloc),
            heights: Vec::new(alloc),
            words: Vec::new(alloc),
            pairs: Vec::new(alloc),
            methods: 0,
            names: List::new(alloc),
            texts: List::new(alloc),
        }
    }

    /// Takes what a line with this name says. False where it is none of the tables.
    pub fn take(&mut self, alloc: Global, name: &str, text: &str) -> Result<bool, Memory> {
        match name {
            "array" => self.add_array(alloc, text),
            "template" => self.add_template(alloc, text),
            "template-height" => Ok(self.set_template(text)),
            "word-height" => Ok(self.set_word(text)),
            "word" => self.add_word(alloc, text),
            "class" => self.add_class(alloc, text),
            "singleton" => self.add_singleton(alloc, text),
            "tuple" => self.add_tuple(alloc, text),
            "kind" => self.add_kind(alloc, text),
            "set" => self.add_set(alloc, text),
            "generic" => self.add_generic(alloc, text),
            "method" => self.add_method(text),
            "method-number" => Ok(self.set_number(text)),
            "text" => self.add_text(alloc, text),
            _ => Ok(false),
        }
    }

    // Adds a literal array.
    fn add_array(&mut self, alloc: Global, text: &str) -> Result<bool, Memory> {
        match elems(alloc, text)? {
            Some(elems) => {
                self.arrays.push(elems)?;
                Ok(true)
            }
            None => Ok(false),
        }
    }

    // Adds a template.
    fn add_template(&mut self, alloc: Global, text: &str) -> Result<bool, Memory> {
        match numbers(alloc, text)? {
            Some(numbers) => {
                self.templates.push(numbers)?;
                self.heights.push(None)?;
                Ok(true)
            }
            None => Ok(false),
        }
    }

    // Sets the height of the last template. False where there is none.
    fn set_template(&mut self, text: &str) -> bool {
        let (Some(told), Some(last)) = (height(text), self.heights.last_mut()) else {
            return false;
        };
        *last = Some(told);
        true
    }

    // Sets the height of the last word. False where there is none.
    fn set_word(&mut self, text: &str) -> bool {
        let (Some(told), Some(row)) = (height(text), self.words.last_mut()) else {
            return false;
        };
        row.height = Some(told);
        true
    }

    // Adds a name and answers its number.
    fn add_name(&mut self, alloc: Global, name: &str) -> Result<u32, Memory> {
        let number = self.names.len();
        self.names.push(Text::from_str(alloc, name)?)?;
        Ok(number)
    }

    // Adds a word that does this. Its vocabulary has the word's name too.
    fn name_word(&mut self, alloc: Global, name: &str, action: Action) -> Result<bool, Memory> {
        let name = self.add_name(alloc, name)?;
        self.words.push(WordRow {
            vocab: name,
            name,
            action,
            height: None,
        })?;
        Ok(true)
    }

    // Adds a word that is told so.
    fn add_word(&mut self, alloc: Global, text: &str) -> Result<bool, Memory> {
        match action(text) {
            Some((action, name)) => self.name_word(alloc, name, action),
            None => Ok(false),
        }
    }

    // Adds the word of a class.
    fn add_class(&mut self, alloc: Global, text: &str) -> Result<bool, Memory> {
        match class(text) {
            Some((kind, name)) => {
                let Ok(word) = u32::try_from(self.words.len()) else {
                    return Ok(false);
                };
                self.pairs.push((word, kind))?;
                self.name_word(alloc, name, Action::Itself)
            }
            None => Ok(false),
        }
    }

    // Adds the kind of a singleton.
    fn add_singleton(&mut self, alloc: Global, name: &str) -> Result<bool, Memory> {
        let name = self.add_name(alloc, name)?;
        self.kinds.push(Kind { name, slots: None })?;
        Ok(true)
    }

    // The numbers of new names, with a space between two.
    fn add_names(&mut self, alloc: Global, text: &str) -> Result<Vec<u32>, Memory> {
        let mut numbers = Vec::new(alloc);
        for name in text.split_whitespace() {
            numbers.push(self.add_name(alloc, name)?)?;
        }
        Ok(numbers)
    }

    // Adds the kind of a tuple class, from its name and those of its slots.
    fn add_tuple(&mut self, alloc: Global, text: &str) -> Result<bool, Memory> {
        let (name, behind) = text.split_once(' ').unwrap_or((text, ""));
        let name = self.add_name(alloc, name)?;
        let slots = Some(self.add_names(alloc, behind)?);
        self.kinds.push(Kind { name, slots })?;
        Ok(true)
    }

    // Adds the kind of a tuple class, from the number of its name and those of its slots' names.
    fn add_kind(&mut self, alloc: Global, text: &str) -> Result<bool, Memory> {
        let (name, behind) = text.split_once(' ').unwrap_or((text, ""));
        let Ok(name) = name.parse::<u32>() else {
            return Ok(false);
        };
        let slots = numbers(alloc, behind)?;
        self.kinds.push(Kind { name, slots })?;
        Ok(true)
    }

    // Adds a class set.
    fn add_set(&mut self, alloc: Global, text: &str) -> Result<bool, Memory> {
        match numbers(alloc, text)? {
            Some(kinds) => {
                self.sets.push(kinds)?;
                Ok(true)
            }
            None => Ok(false),
        }
    }

    // Adds a generic without methods.
    fn add_generic(&mut self, alloc: Global, text: &str) -> Result<bool, Memory> {
        let Ok(word) = text.parse::<u32>() else {
            return Ok(false);
        };
        self.generics.push(Generic {
            word,
            methods: Vec::new(alloc),
        })?;
        Ok(true)
    }

    // Adds a method to the last generic. False where there is none.
    fn add_method(&mut self, text: &str) -> Result<bool, Memory> {
        let (Some(row), Some(generic)) = (method(text, self.methods), self.generics.last_mut())
        else {
            return Ok(false);
        };
        generic.methods.push(row)?;
        self.methods = self.methods.saturating_add(1);
        Ok(true)
    }

    // Sets the number of the last method. False where there is none.
    fn set_number(&mut self, text: &str) -> bool {
        let (Ok(number), Some(generic)) = (text.parse::<u32>(), self.generics.last_mut()) else {
            return false;
        };
        let Some(row) = generic.methods.last_mut() else {
            return false;
        };
        row.number = number;
        true
    }

    // Adds a text.
    fn add_text(&mut self, alloc: Global, text: &str) -> Result<bool, Memory> {
        self.texts.push(with_lines(alloc, text)?)?;
        Ok(true)
    }
}
