//! The exit statuses, each with its name. Code and definitions cite them here, and `README.md` lists them.

/// The command did what it was asked for.
pub const SUCCESS: u8 = 0;

/// The program failed with a run error.
pub const RUN_ERROR: u8 = 1;

/// The words of the command line are no command.
pub const NO_COMMAND: u8 = 2;

/// A file has no tokens, or no tree.
pub const SYNTAX_REFUSED: u8 = 3;

/// A name was refused.
pub const NAME_REFUSED: u8 = 4;

/// The checker refused the program.
pub const CHECK_REFUSED: u8 = 5;

/// The budget of ticks was used up.
pub const BUDGET_SPENT: u8 = 6;

/// The bytes are no image, or the machine could not do an instruction.
pub const BAD_IMAGE: u8 = 7;

/// A file was not read, or the image was not saved.
pub const FILE_FAULT: u8 = 8;

/// The input failed.
pub const INPUT_FAULT: u8 = 9;

/// The output or the notes failed.
pub const WRITE_FAULT: u8 = 10;

/// The files have more bytes than are read.
pub const TOO_LONG: u8 = 11;

/// Memory was wanted.
pub const NO_MEMORY: u8 = 12;
