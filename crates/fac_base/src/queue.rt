//! Values that are taken one behind the other, whose room is given back to memory meanwhile.
ghost use Rattle.std.specs.Prelude.{◌≡◌, ◌∷◌, [], length, MatchOption};

use std::marker::Model;

// The room for so many values isn't worth giving back.
const SMALL_ROOM: usize = 64;

/// Values in order, of which the first is taken next. They take at most an eighth more room than those that are left, or that of a few.
#[derive(Drop)]
pub struct Queue<T> {
    // The last first.
    rest: Vec<T>,
}

impl<T> Model for Queue<T> {
    ghost use Rattle.std.specs.Prelude.{List as Items, reverse};
    ghost use Rattle.std.specs.Coded.{coded_list};

    ghost Value = { Items T };

    ghost coded = { coded_list T.code };

    ghost view = { λ queue. reverse queue.rest.items };
}

// Gives free room back, and only where it is at least an eighth: so all calls for one list together take linear time.
fn give_back<T>(values: &mut Vec<T>)
    ensures { values.new.items ≡ values.old.items }
{
    let room = values.capacity();
    if room > SMALL_ROOM && values.len() <= room - room / 8 {
        values.shrink_to_fit();
    }
}

impl<T> Queue<T> {
    /// These values, the first of which is taken first.
    pub fn new(values: Vec<T>) -> Self
        ensures { result ≡ values.items }
    {
        let mut rest = values;
        rest.reverse();
        Queue { rest }
    }

    /// The number of values that are left.
    pub fn len(&self) -> usize
        ensures { result ≡ length self.now }
    {
        self.rest.len()
    }

    /// Takes the first value. None where none is left.
    pub fn take(&mut self) -> Option<T>
        ensures { MatchOption result ((self.old ≡ []) × (self.new ≡ [])) (λ first. self.old ≡ first ∷ self.new) }
    {
        let first = self.rest.pop();
        give_back(&mut self.rest);
        first
    }
}
