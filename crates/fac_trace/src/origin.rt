//! Where a value comes from, and how a walk came to an item.
use fac_base::Place;

/// Where a value on the stack comes from.
#[derive(Clone, Copy)]
pub enum Origin {
    /// The input of this number, from 1, of the word that is checked.
    Input(u32),
    /// The item at this place is the value: a literal, a quotation, a fry, an array or a word.
    Item(Place),
    /// The value of the local or hole at this place.
    Named(Place),
    /// The value of this number, from 1 for the deepest, of so many that the item at this place leaves.
    Left(u32, u32, Place),
    /// For the quotation input of the first number, from 1, of the row word at this place: the input of the second number that the callable is given.
    Given(u32, u32, Place),
}

/// One step of the way to an item.
#[derive(Clone, Copy)]
pub enum Entry {
    /// The quotation or fry at the first place is run by the item at the second one.
    Callable(Place, Place),
    /// The phrase of this inline word is walked for the item at this place.
    Text(u32, Place),
}
