//! The whole call.
ghost use Rattle.std.specs.Prelude.{◌≡◌, ◌≤◌, ◌<◌, length, map, string_bytes, IfOk};
ghost use Rattle.std.specs.List.{concat, list_all};
ghost use Rattle.fac_command.specs.Command.{are_files as are_names, is_file_name as is_name};
ghost use Rattle.fac_tool.specs.Answer.{limit};
ghost use Rattle.fac_tool.specs.Answers.{TellsBy, usage};
ghost use Rattle.fac_tool.specs.SeenObjects.{files_seen, sink_seen};
ghost use Rattle.fac_explainer.specs.Explains.{Explains, ExplainsTexts, Reaches, Works, usage_note};
ghost use Rattle.fac_explainer.specs.inner.Steps.{Explained, Writes};

use crate::checking::check_given;
use crate::ended::{bare, told as ended_by};
use crate::explaining::told;
use crate::given::numbered;
use fac_base::{Bytes, List, Memory};
use fac_io::{Files, Sink};
use fac_notes::status::{NO_COMMAND, NO_MEMORY, WRITE_FAULT};
use fac_par::{Gate, Workers};
use fac_tool::{Ended, Report, load_all, tell};
use std::thread::Threads;

// A refusal, or none, and what is told of it.
#[derive(Drop)]
struct Explanation {
    refusal: Option<Report>,
    text: Bytes,
}

fn is_file_name(word: &str) -> bool
    ensures { result ≡ is_name word.now }
{
    let bytes = word.as_bytes();
    !bytes.is_empty() && bytes[0] != b'-'
}

// Whether words are names of files, one or more.
fn are_files(words: &[String]) -> bool
    ensures { result ≡ are_names (map string_bytes words.now) }
{
    if words.is_empty() {
        return false;
    }
    for word in words {
        if !is_file_name(word.as_str()) {
            return false;
        }
    }
    true
}

// The refusal of files with these names and texts, explained.
#[tactic(auto, using(crate::proofs::GivenLemmas::numbered_again, crate::proofs::ExplainedLemmas::explained_again))]
fn explained<R: Threads + Sync, G: Gate + Sync>(
    workers: &Workers<'_, R, G>,
    names: &[String],
    texts: List<Bytes>,
) -> Result<Explanation, Memory>
    requires { length (concat texts) ≤ limit }
    ensures { IfOk result (λ made. Explained (map string_bytes names.now) texts made.refusal made.text) }
{
    let _count = texts.len();
    let given = numbered(workers.alloc, texts)?;
    let refusal = check_given(workers, &given)?;
    let text = told(workers, names, &given, &refusal)?;
    Ok(Explanation { refusal, text })
}

// Writes an explanation in one write.
fn write<K: Sink>(explanation: Explanation, out: &mut K) -> Ended
    requires { 0 < length explanation.text }
    ensures { Writes explanation.text explanation.refusal (sink_seen K.taken K.pieces K.faults out.old out.new) result }
{
    let Explanation { refusal, text } = explanation;
    match out.write(text.as_slice()) {
        Ok(()) => ended_by(refusal),
        Err(_) => bare(WRITE_FAULT),
    }
}

// Explains what `check` says of texts.
#[tactic(auto, using(crate::proofs::ExplainedLemmas::some_bytes, crate::proofs::ExplainedLemmas::explains, crate::proofs::IdleLemmas::unwritten))]
fn explain_texts<R: Threads + Sync, G: Gate + Sync, K: Sink>(
    workers: &Workers<'_, R, G>,
    names: &[String],
    texts: List<Bytes>,
    out: &mut K,
) -> Ended
    requires { length (concat texts) ≤ limit }
    ensures { ExplainsTexts (map string_bytes names.now) texts (sink_seen K.taken K.pieces K.faults out.old out.new) result }
{
    match explained(workers, names, texts) {
        Err(_) => bare(NO_MEMORY),
        Ok(explanation) => write(explanation, out),
    }
}

// Loads files, and explains what `check` says of them.
#[tactic(auto, using(crate::proofs::IdleLemmas::unwritten))]
fn work<R: Threads + Sync, G: Gate + Sync, F: Files, K: Sink>(
    workers: &Workers<'_, R, G>,
    names: &[String],
    files: &mut F,
    out: &mut K,
) -> Ended
    ensures { Reaches (map string_bytes names.now)
        (files_seen F.held F.asked F.faults files.old files.new)
        (sink_seen K.taken K.pieces K.faults out.old out.new)
        result }
{
    match load_all(workers.alloc, names, files) {
        Err(ended) => ended,
        Ok(texts) => explain_texts(workers, names, texts, out),
    }
}

// The same, and then tells the note.
fn work_and_tell<R: Threads + Sync, G: Gate + Sync, F: Files, K: Sink, N: Sink>(
    workers: &Workers<'_, R, G>,
    names: &[String],
    files: &mut F,
    out: &mut K,
    notes: &mut N,
) -> Ended
    ensures { Works (map string_bytes names.now)
        (files_seen F.held F.asked F.faults files.old files.new)
        (sink_seen K.taken K.pieces K.faults out.old out.new)
        (sink_seen N.taken N.pieces N.faults notes.old notes.new)
        result }
{
    let reached = work(workers, names, files, out);
    tell(workers.alloc, names, reached, notes)
}

// Tells that the words of the command line aren't names of files. It takes no memory.
fn tell_usage<N: Sink>(notes: &mut N) -> Ended
    ensures { TellsBy usage_note usage (sink_seen N.taken N.pieces N.faults notes.old notes.new) result }
{
    match notes.write(b"usage: factorc_explain FILES\n".as_slice()) {
        Ok(()) => bare(NO_COMMAND),
        Err(_) => bare(WRITE_FAULT),
    }
}

/// Explains what `check` says of the files that the words of a command line name.
///
/// The status, the note, the refusal and the loads are those of `check` on these files. At a refusal its explanation is written in place of the line
/// of `check`: the place, the note, the line with marks below the token, and a sentence; and where there is none, that there is nothing to explain.
/// It is one write, before that of the note. What the refusal is says `IsCheckedAs`, by the definition of what `check` answers, and what is written
/// says `IsTold`, of the same texts. Want of memory may be answered at any point; a fault only where the object that was handed in counted one.
#[tactic(auto, using(crate::proofs::IdleLemmas::idle))]
pub fn explain_top<R: Threads + Sync, G: Gate + Sync, F: Files, K: Sink, N: Sink>(
    workers: &Workers<'_, R, G>,
    words: &[String],
    files: &mut F,
    out: &mut K,
    notes: &mut N,
) -> Ended
    ensures { Explains (map string_bytes words.now)
        (files_seen F.held F.asked F.faults files.old files.new)
        (sink_seen K.taken K.pieces K.faults out.old out.new)
        (sink_seen N.taken N.pieces N.faults notes.old notes.new)
        result }
{
    if are_files(words) {
        work_and_tell(workers, words, files, out, notes)
    } else {
        tell_usage(notes)
    }
}
