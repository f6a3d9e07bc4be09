//! The limits of the language and of the tool, each with its name. Definitions and code cite them here, and `docs/LANGUAGE.md` lists those
//! that a user can meet. All of them are this profile's own.

/// The most bytes that the files of a command have together. Those of the prelude don't count.
pub const MOST_SOURCE_BYTES: u64 = 4_194_304;

/// The most bytes of an image that is built or loaded.
pub const MOST_IMAGE_BYTES: u64 = 268_435_456;

/// The ticks that a program may use, where the command doesn't say how many.
pub const TICKS: u64 = 100_000_000;

/// The most ticks that a command may give a program.
pub const MOST_STEPS: u64 = 1_000_000_000_000;

/// The most digits of the number of ticks that a command gives.
pub const MOST_STEPS_DIGITS: usize = 13;

/// The most levels of brackets.
pub const MOST_LEVELS: u32 = 256;

/// The most names of an effect that is written.
pub const MOST_NAMES: u64 = 64;

/// The most names of a word's effect: that of a constructor, `C:`, has one for each slot of its class and one for the class.
pub const MOST_EFFECT_NAMES: u64 = 65;

/// The most locals that are in scope, hidden ones counted, and in a literal array those that are bound outside of it too.
pub const MOST_LOCALS: u32 = 64;

/// The most holes of a fry.
pub const MOST_HOLES: u32 = 64;

/// The most slots of a tuple class that it has of its own, and with those of its parents.
pub const MOST_SLOTS: u64 = 64;

/// The most classes that files define, the prelude apart: tuple classes, unions and singletons.
pub const MOST_CLASSES: u64 = 1_024;

/// The most applications inside one another that the checker enters.
pub const MOST_APPLICATIONS: u32 = 64;

/// The most items that the checker walks for one word.
pub const MOST_ITEMS: u32 = 200_000;

/// The most parts inside one another that the mark of a callable has. Of a deeper one nothing is known.
pub const MOST_MARK_DEPTH: u32 = 64;

/// The most values that a callable takes or leaves, where it has an effect.
pub const MOST_CALLABLE_VALUES: u64 = 1_000_000;

/// The most inputs with which a quotation is tried, where its effect is looked for.
pub const MOST_TRIED_INPUTS: u32 = 1_024;

/// The most elements of an array or a string.
pub const MOST_ELEMENTS: usize = 1_000_000;

/// The most pairs of values that a comparison comes to.
pub const MOST_PAIRS: usize = 1_000_000;

/// The most bytes of a printed form that is written.
pub const MOST_PRINTED_BYTES: usize = 1_000_000;

/// The most bytes of a printed form that is told at the end of a run. In place of a longer one stand three dots.
pub const MOST_SHOWN_BYTES: usize = 1_000;

/// The most levels of arrays and tuples in a printed form. The printed value is at level 1.
pub const MOST_PRINTED_LEVELS: usize = 16;

/// The most bytes that a line of the input has.
pub const MOST_LINE_BYTES: usize = 4_000_000;
