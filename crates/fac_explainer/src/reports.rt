//! What is told of each report: in which file it stands and where, and its picture and its sentence.
ghost use Rattle.std.specs.Prelude.{◌≡◌, ◌≤◌, ◌++◌, map, Some, IfOk, OnOk};
ghost use Rattle.fac_notes.specs.Visible.{visible};
ghost use Rattle.fac_explain.specs.Sentences.{name_sentence};
ghost use Rattle.fac_explainer.specs.Reports.{byte_sentence, file_of as file_of_report, IsPlace, picture, sentence, text_in};

use fac_base::{Bytes, List, Memory, Text};
use fac_explain::{
    byte_place, push_kind, push_marked_at, push_rule, push_syntax, push_told, refused_token, say,
    token_place,
};
use fac_source::NameFault;
use fac_token::Spot;
use fac_tool::{ByteFault, Report};
use std::alloc::Global;

// The text of a file that was given under a number.
#[tactic(auto, using(crate::proofs::GivenLemmas::text_here, crate::proofs::GivenLemmas::no_text_here))]
fn given_text(given: &List<(Text, Bytes)>, file: u32) -> &[u8]
    requires { 1 ≤ file }
    ensures { result.now ≡ text_in (map (λ pair. pair.1) given.now) file }
{
    match given.get(file as usize - 1) {
        Some(pair) => pair.1.as_slice(),
        None => &[],
    }
}

/// The text of the file with this number, where the command's files have these.
pub fn text_of(given: &List<(Text, Bytes)>, file: u32) -> &[u8]
    ensures { result.now ≡ text_in (map (λ pair. pair.1) given.now) file }
{
    if file == 0 {
        return fac_prelude::text().as_bytes();
    }
    given_text(given, file)
}

/// The number of the file in which a refusal stands.
pub fn file_of(report: &Report) -> u32
    ensures { result ≡ file_of_report report.now }
{
    match report {
        Report::Bytes { file, .. } => *file,
        Report::Syntax { file, .. } => *file,
        Report::Name(fault) => fault.place.file,
        Report::Check { refusal, .. } => refusal.broken.place.file,
        Report::Error { .. } => 0,
        Report::Spent { .. } => 0,
        Report::Image { .. } => 0,
        Report::Trap { .. } => 0,
        Report::File { .. } => 0,
        Report::TooLong { .. } => 0,
    }
}

/// Where a refusal stands in the text of its file.
pub fn place_of(alloc: Global, text: &[u8], report: &Report) -> Result<Option<Spot>, Memory>
    ensures { IfOk result (IsPlace text.now report.now) }
{
    match report {
        Report::Bytes { at, .. } => byte_place(text, *at),
        Report::Syntax { at, why, .. } => token_place(alloc, text, refused_token(*at, *why)),
        Report::Name(fault) => token_place(alloc, text, fault.place.token),
        Report::Check { refusal, .. } => token_place(alloc, text, refusal.broken.place.token),
        Report::Error { .. } => Ok(None),
        Report::Spent { .. } => Ok(None),
        Report::Image { .. } => Ok(None),
        Report::Trap { .. } => Ok(None),
        Report::File { .. } => Ok(None),
        Report::TooLong { .. } => Ok(None),
    }
}

/// Adds the picture of a refusal.
pub fn push_picture(
    alloc: Global,
    out: &mut Bytes,
    report: &Report,
    text: &[u8],
    place: &Option<Spot>,
) -> Result<(), Memory>
    ensures { OnOk result (out.new ≡ out.old ++ picture report.now text.now place.now) }
{
    match report {
        Report::Bytes { why, .. } => match why {
            ByteFault::NotUtf8 => Ok(()),
            ByteFault::OpenString => push_marked_at(alloc, out, text, place),
            ByteFault::BadEscape => push_marked_at(alloc, out, text, place),
            ByteFault::StuckQuote => push_marked_at(alloc, out, text, place),
        },
        Report::Syntax { .. } => push_marked_at(alloc, out, text, place),
        Report::Name(_) => push_marked_at(alloc, out, text, place),
        Report::Check { .. } => push_marked_at(alloc, out, text, place),
        Report::Error { .. } => push_marked_at(alloc, out, text, place),
        Report::Spent { .. } => push_marked_at(alloc, out, text, place),
        Report::Image { .. } => push_marked_at(alloc, out, text, place),
        Report::Trap { .. } => push_marked_at(alloc, out, text, place),
        Report::File { .. } => push_marked_at(alloc, out, text, place),
        Report::TooLong { .. } => push_marked_at(alloc, out, text, place),
    }
}

// What is wrong with bytes.
fn of_bytes(why: ByteFault) -> &'static str
    ensures { result.now ≡ byte_sentence why }
{
    match why {
        ByteFault::NotUtf8 => "The file isn't UTF-8 from this byte on.",
        ByteFault::OpenString => "The string that begins here isn't closed on its line.",
        ByteFault::BadEscape => {
            "This backslash begins no escape. The five are \\n \\t \\r \\\\ \\\"."
        }
        ByteFault::StuckQuote => "White space has to stand before a string and behind it.",
    }
}

// Adds why a name is refused, which is told as notes tell it.
fn push_name(alloc: Global, out: &mut Bytes, fault: &NameFault) -> Result<(), Memory>
    ensures { OnOk result (out.new ≡ out.old ++ name_sentence fault.now.kind (visible fault.now.name)) }
{
    let mut name = Bytes::new(alloc);
    push_told(&mut name, fault.name.as_bytes())?;
    push_kind(out, &fault.kind, name.as_slice())
}

/// Adds the sentence for a refusal at a token.
pub fn push_sentence(
    alloc: Global,
    out: &mut Bytes,
    report: &Report,
    token: &[u8],
) -> Result<(), Memory>
    ensures { OnOk result (out.new ≡ out.old ++ sentence report.now token.now) }
{
    match report {
        Report::Bytes { why, .. } => say(out, of_bytes(*why)),
        Report::Syntax { why, .. } => push_syntax(out, *why, token),
        Report::Name(fault) => push_name(alloc, out, fault),
        Report::Check { refusal, word } => {
            push_rule(out, refusal.broken.rule, token, word.as_bytes())
        }
        Report::Error { .. } => Ok(()),
        Report::Spent { .. } => Ok(()),
        Report::Image { .. } => Ok(()),
        Report::Trap { .. } => Ok(()),
        Report::File { .. } => Ok(()),
        Report::TooLong { .. } => Ok(()),
    }
}
