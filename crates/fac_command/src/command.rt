//! The command line.
ghost use Rattle.std.specs.Prelude.{◌≡◌, ◌≤◌, ◌+◌, ◌∷◌, IfSome, length, map, string_bytes};
ghost use Rattle.std.specs.Option.{option_map};
ghost use Rattle.fac_command.specs.Command.{build_of, check_of, command_of, count_of, exec_by, exec_of, files_of, generate_by, generate_of, list_of, number_behind, number_within, on_files, on_image, plain_run_of, request_of, run_by, run_of, seed_of, steps_of, work_of};
ghost use Rattle.fac_command.specs.Command.{is_file_name as is_name, are_files as are_names, run as run_asked, run_stack as run_stack_asked, exec as exec_asked};
ghost use Rattle.fac_command.specs.SeenCommands.{command_seen, request_seen};

use fac_base::limits::{MOST_STEPS, MOST_STEPS_DIGITS, TICKS};

/// What is told where the words of a command line meet no form.
pub const USAGE: &str = "usage: factorc check, run, build, exec, list, listen or gen\n";

/// The greatest seed that `gen` takes.
pub const MOST_SEED: u64 = 2_147_483_647;

/// The most digits of a seed.
pub const MOST_SEED_DIGITS: usize = 10;

/// The most words that `gen` draws.
pub const MOST_WORDS: u64 = 10_000;

/// The most digits of their number.
pub const MOST_WORDS_DIGITS: usize = 5;

/// What the words of a command line ask for. The files and the image of a command, and the name of a text that is drawn, are words of the command line.
#[derive(Clone, Copy, Debug, PartialEq, Eq)]
pub enum Command<'a> {
    /// Compiles these files, and tells how many definitions they have.
    Check {
        files: &'a [String],
    },
    /// Compiles these files and runs them with a budget of so many ticks.
    Run {
        steps: u64,
        files: &'a [String],
    },
    /// The same, and where the run is done it then writes each value of the stack on a line, from the bottom to the top.
    RunStack {
        steps: u64,
        files: &'a [String],
    },
    /// Compiles these files and saves their image under this name.
    Build {
        files: &'a [String],
        image: &'a str,
    },
    /// Runs the image of this name with a budget of so many ticks.
    Exec {
        steps: u64,
        image: &'a str,
    },
    /// Writes the code of that image as text.
    List {
        image: &'a str,
    },
    /// Draws the text of so many words from a seed, compiles it and runs it with a budget of so many ticks, and where the run is done it
    /// then writes a line that sums it up. The one name is that of the text.
    Generate {
        steps: u64,
        name: &'a [String],
        seed: u32,
        words: u32,
    },
}

/// What a command line asks for: the listener, which takes no files, or a command.
#[derive(Clone, Copy, Debug, PartialEq, Eq)]
pub enum Request<'a> {
    /// A session on the lines of the input.
    Listen,
    /// The work of this command.
    Work(Command<'a>),
}

impl<'a> Command<'a> {
    /// The names of the command's files, or that of the text that it draws. Those on an image have none.
    pub fn files(self) -> &'a [String]
        ensures { map string_bytes result.now ≡ files_of (command_seen self.entry) }
    {
        match self {
            Command::Check { files } => files,
            Command::Run { files, .. } => files,
            Command::RunStack { files, .. } => files,
            Command::Build { files, .. } => files,
            Command::Exec { .. } => &[],
            Command::List { .. } => &[],
            Command::Generate { name, .. } => name,
        }
    }
}

fn is_file_name(word: &str) -> bool
    ensures { result ≡ is_name word.now }
{
    let bytes = word.as_bytes();
    !bytes.is_empty() && bytes[0] != b'-'
}

// Whether words are FILES.
fn are_files(words: &[String]) -> bool
    ensures { result ≡ are_names (map string_bytes words.now) }
{
    if words.is_empty() {
        return false;
    }
    for word in words {
        if !is_file_name(word.as_str()) {
            return false;
        }
    }
    true
}

// The number that decimal digits write.
#[tactic(auto, using(crate::proofs::CommandLemmas::digit_more))]
fn number(digits: &[u8]) -> Option<u64>
    requires { length digits.now ≤ 13 }
    ensures { result ≡ number_behind 0 digits.now }
{
    let mut number = 0u64;
    for digit in digits {
        if *digit < b'0' || *digit > b'9' {
            return None;
        }
        number = number * 10 + u64::from(*digit - b'0');
    }
    Some(number)
}

// The number that a word gives: one to so many digits, of a number of at most so much.
fn read_number(word: &str, most_digits: usize, most: u64) -> Option<u64>
    requires { most_digits ≤ 13 }
    ensures is { result ≡ number_within most_digits most word.now }
    ensures within { IfSome result (λ found. found ≤ most) }
{
    let digits = word.as_bytes();
    if digits.is_empty() || digits.len() > most_digits {
        return None;
    }
    match number(digits) {
        None => None,
        Some(found) => { if found <= most { Some(found) } else { None } }
    }
}

// The budget that a word gives.
fn read_steps(word: &str) -> Option<u64>
    ensures { result ≡ steps_of word.now }
{
    read_number(word, MOST_STEPS_DIGITS, MOST_STEPS)
}

// The seed that a word gives.
fn read_seed(word: &str) -> Option<u32>
    ensures { result ≡ seed_of word.now }
{
    match read_number(word, MOST_SEED_DIGITS, MOST_SEED) {
        None => None,
        Some(seed) => Some(seed as u32),
    }
}

// The number of words to be drawn that a word gives.
fn read_count(word: &str) -> Option<u32>
    ensures { result ≡ count_of word.now }
{
    match read_number(word, MOST_WORDS_DIGITS, MOST_WORDS) {
        None => None,
        Some(count) => { if count >= 1 { Some(count as u32) } else { None } }
    }
}

// The command of what stands behind `check`.
fn read_check<'a>(files: &'a [String]) -> Option<Command<'a>>
    ensures { option_map command_seen result ≡ check_of (map string_bytes files.now) }
{
    if are_files(files) {
        Some(Command::Check { files })
    } else {
        None
    }
}

// The command that runs files with a budget.
fn run_files<'a>(steps: u64, files: &'a [String]) -> Option<Command<'a>>
    ensures { option_map command_seen result ≡ on_files (run_asked steps) (map string_bytes files.now) }
{
    if are_files(files) {
        Some(Command::Run { steps, files })
    } else {
        None
    }
}

// The command that runs files with the budget of every run and then writes the stack.
fn run_stack<'a>(files: &'a [String]) -> Option<Command<'a>>
    ensures { option_map command_seen result ≡ on_files (run_stack_asked TICKS) (map string_bytes files.now) }
{
    if are_files(files) {
        Some(Command::RunStack {
            steps: TICKS,
            files,
        })
    } else {
        None
    }
}

// The command of what stands behind `run --steps`.
fn read_run_steps<'a>(number: &str, files: &'a [String]) -> Option<Command<'a>>
    ensures { option_map command_seen result ≡ run_by (steps_of number.now) (map string_bytes files.now) }
{
    match read_steps(number) {
        None => None,
        Some(steps) => run_files(steps, files),
    }
}

// The command of what stands behind `run`, where that isn't `--stack`.
fn read_plain_run<'a>(words: &'a [String]) -> Option<Command<'a>>
    ensures { option_map command_seen result ≡ plain_run_of (map string_bytes words.now) }
{
    match words {
        [option, number, files @ ..] if option.as_str() == "--steps" => {
            read_run_steps(number.as_str(), files)
        }
        _ => run_files(TICKS, words),
    }
}

// The command of what stands behind `run`.
fn read_run<'a>(words: &'a [String]) -> Option<Command<'a>>
    ensures { option_map command_seen result ≡ run_of (map string_bytes words.now) }
{
    match words {
        [option, files @ ..] if option.as_str() == "--stack" => run_stack(files),
        _ => read_plain_run(words),
    }
}

// The command of what stands behind `build`.
fn read_build<'a>(words: &'a [String]) -> Option<Command<'a>>
    ensures { option_map command_seen result ≡ build_of (map string_bytes words.now) }
{
    match words {
        [files @ .., option, name]
            if option.as_str() == "-o" && is_file_name(name.as_str()) && are_files(files) => {
            Some(Command::Build {
                files,
                image: name.as_str(),
            })
        }
        _ => None,
    }
}

// The command that runs the image of this name with a budget.
fn exec_image<'a>(steps: u64, image: &'a str) -> Option<Command<'a>>
    ensures { option_map command_seen result ≡ on_image (exec_asked steps) image.now }
{
    if is_file_name(image) {
        Some(Command::Exec { steps, image })
    } else {
        None
    }
}

// The command of what stands behind `exec --steps`.
fn read_exec_steps<'a>(number: &str, image: &'a str) -> Option<Command<'a>>
    ensures { option_map command_seen result ≡ exec_by (steps_of number.now) image.now }
{
    match read_steps(number) {
        None => None,
        Some(steps) => exec_image(steps, image),
    }
}

// The command of what stands behind `exec`.
fn read_exec<'a>(words: &'a [String]) -> Option<Command<'a>>
    ensures { option_map command_seen result ≡ exec_of (map string_bytes words.now) }
{
    match words {
        [name] => exec_image(TICKS, name.as_str()),
        [option, number, name] if option.as_str() == "--steps" => {
            read_exec_steps(number.as_str(), name.as_str())
        }
        _ => None,
    }
}

// The command of what stands behind `list`.
fn read_list<'a>(words: &'a [String]) -> Option<Command<'a>>
    ensures { option_map command_seen result ≡ list_of (map string_bytes words.now) }
{
    match words {
        [name] if is_file_name(name.as_str()) => Some(Command::List {
            image: name.as_str(),
        }),
        _ => None,
    }
}

// The command that draws so many words from a seed, whose text has this name.
fn generate<'a>(name: &'a [String], seed: Option<u32>, words: Option<u32>) -> Option<Command<'a>>
    ensures { option_map command_seen result ≡ generate_by (map string_bytes name.now) seed words }
{
    match seed {
        None => None,
        Some(seed) => match words {
            None => None,
            Some(words) => Some(Command::Generate {
                steps: TICKS,
                name,
                seed,
                words,
            }),
        },
    }
}

// The command of words of which the first is `gen`.
fn read_generate<'a>(words: &'a [String]) -> Option<Command<'a>>
    ensures { option_map command_seen result ≡ generate_of (map string_bytes words.now) }
{
    match words {
        [_, seed, count] => generate(
            &words[..1],
            read_seed(seed.as_str()),
            read_count(count.as_str()),
        ),
        _ => None,
    }
}

/// The command that the words ask for. None exactly where they ask for none.
pub fn read_words<'a>(words: &'a [String]) -> Option<Command<'a>>
    ensures { option_map command_seen result ≡ command_of (map string_bytes words.now) }
{
    match words {
        [word, files @ ..] if word.as_str() == "check" => read_check(files),
        [word, words @ ..] if word.as_str() == "run" => read_run(words),
        [word, words @ ..] if word.as_str() == "build" => read_build(words),
        [word, words @ ..] if word.as_str() == "exec" => read_exec(words),
        [word, words @ ..] if word.as_str() == "list" => read_list(words),
        [word, ..] if word.as_str() == "gen" => read_generate(words),
        _ => None,
    }
}

// What the words ask for where they don't ask for the listener.
fn read_command<'a>(words: &'a [String]) -> Option<Request<'a>>
    ensures { option_map request_seen result ≡ work_of (command_of (map string_bytes words.now)) }
{
    match read_words(words) {
        None => None,
        Some(command) => Some(Request::Work(command)),
    }
}

/// What the words ask for. None exactly where they meet no form.
pub fn read_request<'a>(words: &'a [String]) -> Option<Request<'a>>
    ensures { option_map request_seen result ≡ request_of (map string_bytes words.now) }
{
    match words {
        [word] if word.as_str() == "listen" => Some(Request::Listen),
        _ => read_command(words),
    }
}
