//! How a run ends other than well, and the line that says so.
ghost use Rattle.std.specs.Prelude.{◌≡◌, OnOk, OnErr, IfOk, Err, string_bytes};
ghost use Rattle.std.specs.Io.KnownBytes.{Appends};
ghost use Rattle.host_io.specs.Cause.{HasWriteCause};
ghost use Rattle.host_run.specs.Ending.{status_of, note_of, line_of, reason_of, reason_of_clip, why_of, field_name};
ghost use Rattle.host_run.specs.Run.{IsNoted, seen_of};
ghost use Rattle.frame_span.specs.Written.{AppendsFront};

use frame_file::ClipError;
use frame_span::write_whole;
use host_io::{Sink, SinkError, Status};
use project_model::Text;
use std::alloc::{AllocError, Global};

/// Why a run wrote nothing, or not all of its output.
#[derive(Debug, Drop)]
pub(crate) enum Ending {
    Words,
    NotJson,
    Rule(u8),
    /// The name of the clip that is missing.
    ClipMissing(Text),
    /// The name of the clip whose bytes are refused, and why.
    ClipRefused(Text, ClipError),
    /// The name of the clip at which the store failed.
    ClipFault(Text),
    ReadFault,
    WriteFault,
    Memory,
    /// The first and the last frame that were asked for, and how many there are.
    Span(u32, u32, u32),
    ProjectTooLong,
}

impl Ending {
    /// The status that tells it.
    fn status(&self) -> Status
        ensures { result ≡ status_of self.now }
    {
        match self {
            Ending::Words => Status::Words,
            Ending::NotJson | Ending::Rule(_) => Status::Project,
            Ending::ClipMissing(_) | Ending::ClipRefused(..) => Status::Clip,
            Ending::ClipFault(_) => Status::ClipFault,
            Ending::ReadFault => Status::ReadFault,
            Ending::WriteFault => Status::WriteFault,
            Ending::Memory => Status::Memory,
            Ending::Span(..) => Status::Span,
            Ending::ProjectTooLong => Status::ProjectTooLong,
        }
    }
}

/// The status of a run that ended so. Where it did not end well, the line that says why is written.
pub(crate) fn tell<N: Sink>(alloc: Global, end: Result<(), Ending>, notes: &mut N) -> Status
    ensures { IsNoted end result (seen_of N.written N.faults notes.old notes.new) }
{
    match end {
        Ok(()) => Status::Ok,
        Err(ending) => note(alloc, ending, notes),
    }
}

/// Writes the line that says why, and answers the status. A failure of `notes` changes nothing but the
/// line; want of memory there is what the run then ends with.
pub(crate) fn note<N: Sink>(alloc: Global, ending: Ending, notes: &mut N) -> Status
    ensures { IsNoted (Err ending) result (seen_of N.written N.faults notes.old notes.new) }
{
    match write_note(alloc, &ending, notes) {
        Err(SinkError::Memory) => Status::Memory,
        Ok(()) | Err(SinkError::Failed) => ending.status(),
    }
}

/// Writes the line. Only where it has a number or a name does it take memory.
fn write_note<N: Sink>(alloc: Global, ending: &Ending, notes: &mut N) -> Result<(), SinkError>
    ensures whole { OnOk result (Appends (N.written notes.old) (N.written notes.new) (note_of ending.now)) }
    ensures front { OnErr result (AppendsFront (N.written notes.old) (N.written notes.new) (note_of ending.now)) }
    ensures cause { HasWriteCause (N.faults notes.old) (N.faults notes.new) result }
{
    match ending {
        Ending::Words => write_line(notes, b"words refused"),
        Ending::NotJson => write_line(notes, b"project is not JSON"),
        Ending::Rule(number) => write_rule(alloc, *number, notes),
        Ending::ClipMissing(name) => write_clip(alloc, name, "missing", notes),
        Ending::ClipRefused(name, why) => write_refusal(alloc, name, *why, notes),
        Ending::ClipFault(name) => write_clip(alloc, name, "fault", notes),
        Ending::ReadFault => write_line(notes, b"read fault"),
        Ending::WriteFault => write_line(notes, b"write fault"),
        Ending::Memory => write_line(notes, b"out of memory"),
        Ending::Span(from, to, count) => write_span_note(alloc, *from, *to, *count, notes),
        Ending::ProjectTooLong => write_line(notes, b"project too long"),
    }
}

/// Writes the line of a broken rule.
fn write_rule<N: Sink>(alloc: Global, number: u8, notes: &mut N) -> Result<(), SinkError>
    ensures whole { OnOk result (Appends (N.written notes.old) (N.written notes.new) (note_of (Ending.Rule number))) }
    ensures front { OnErr result (AppendsFront (N.written notes.old) (N.written notes.new) (note_of (Ending.Rule number))) }
    ensures cause { HasWriteCause (N.faults notes.old) (N.faults notes.new) result }
{
    match rule_reason(alloc, number) {
        Ok(reason) => write_line(notes, reason.as_bytes()),
        Err(_) => Err(SinkError::Memory),
    }
}

fn rule_reason(alloc: Global, number: u8) -> Result<String, AllocError>
    ensures { IfOk result (λ reason. string_bytes reason ≡ reason_of (Ending.Rule number)) }
{
    format!(in alloc; "project rule {number}")
}

/// Writes the line of a clip that is refused.
fn write_refusal<N: Sink>(
    alloc: Global,
    name: &Text,
    why: ClipError,
    notes: &mut N,
) -> Result<(), SinkError>
    ensures whole { OnOk result (Appends (N.written notes.old) (N.written notes.new) (note_of (Ending.ClipRefused name.now why))) }
    ensures front { OnErr result (AppendsFront (N.written notes.old) (N.written notes.new) (note_of (Ending.ClipRefused name.now why))) }
    ensures cause { HasWriteCause (N.faults notes.old) (N.faults notes.new) result }
{
    match refusal(alloc, why) {
        Ok(text) => write_clip(alloc, name, text.as_str(), notes),
        Err(_) => Err(SinkError::Memory),
    }
}

/// What refuses a clip's file.
fn refusal(alloc: Global, why: ClipError) -> Result<String, AllocError>
    ensures { IfOk result (λ text. string_bytes text ≡ why_of why) }
{
    match why {
        ClipError::BadMagic => String::from_str(alloc, "not an AFR file"),
        ClipError::BadHeader { field } => header_text(alloc, field),
        ClipError::Short { have, want } => short_text(alloc, have, want),
        ClipError::BadPixel { frame, index } => pixel_text(alloc, frame, index),
        ClipError::Trailing { extra } => trailing_text(alloc, extra),
        ClipError::Memory => String::from_str(alloc, "out of memory"),
    }
}

fn header_text(alloc: Global, field: u8) -> Result<String, AllocError>
    ensures { IfOk result (λ text. string_bytes text ≡ why_of (ClipError.BadHeader field)) }
{
    let name = field_name(field);
    format!(in alloc; "header {name}")
}

/// A field of a clip's header by its number.
fn field_name(field: u8) -> &'static str
    ensures { result.now ≡ field_name field }
{
    match field {
        0 => "width",
        1 => "height",
        2 => "depth",
        3 => "value",
        4 => "scale",
        _ => "count",
    }
}

fn short_text(alloc: Global, have: u64, want: u64) -> Result<String, AllocError>
    ensures { IfOk result (λ text. string_bytes text ≡ why_of (ClipError.Short have want)) }
{
    format!(in alloc; "short {have} of {want}")
}

fn pixel_text(alloc: Global, frame: u32, index: u32) -> Result<String, AllocError>
    ensures { IfOk result (λ text. string_bytes text ≡ why_of (ClipError.BadPixel frame index)) }
{
    format!(in alloc; "pixel {index} of frame {frame}")
}

fn trailing_text(alloc: Global, extra: u64) -> Result<String, AllocError>
    ensures { IfOk result (λ text. string_bytes text ≡ why_of (ClipError.Trailing extra)) }
{
    format!(in alloc; "trailing {extra}")
}

/// Writes the line that says what is the matter with a clip.
fn write_clip<N: Sink>(
    alloc: Global,
    name: &Text,
    why: &str,
    notes: &mut N,
) -> Result<(), SinkError>
    ensures whole { OnOk result (Appends (N.written notes.old) (N.written notes.new) (line_of (reason_of_clip name.now why.now))) }
    ensures front { OnErr result (AppendsFront (N.written notes.old) (N.written notes.new) (line_of (reason_of_clip name.now why.now))) }
    ensures cause { HasWriteCause (N.faults notes.old) (N.faults notes.new) result }
{
    match clip_reason(alloc, name.as_str(), why) {
        Ok(reason) => write_line(notes, reason.as_bytes()),
        Err(_) => Err(SinkError::Memory),
    }
}

fn clip_reason(alloc: Global, name: &str, why: &str) -> Result<String, AllocError>
    ensures { IfOk result (λ reason. string_bytes reason ≡ reason_of_clip name.now why.now) }
{
    format!(in alloc; "clip {name}: {why}")
}

/// Writes the line of a span that is not in the root.
fn write_span_note<N: Sink>(
    alloc: Global,
    from: u32,
    to: u32,
    count: u32,
    notes: &mut N,
) -> Result<(), SinkError>
    ensures whole { OnOk result (Appends (N.written notes.old) (N.written notes.new) (note_of (Ending.Span from to count))) }
    ensures front { OnErr result (AppendsFront (N.written notes.old) (N.written notes.new) (note_of (Ending.Span from to count))) }
    ensures cause { HasWriteCause (N.faults notes.old) (N.faults notes.new) result }
{
    match span_reason(alloc, from, to, count) {
        Ok(reason) => write_line(notes, reason.as_bytes()),
        Err(_) => Err(SinkError::Memory),
    }
}

fn span_reason(alloc: Global, from: u32, to: u32, count: u32) -> Result<String, AllocError>
    ensures { IfOk result (λ reason. string_bytes reason ≡ reason_of (Ending.Span from to count)) }
{
    format!(in alloc; "span {from} to {to} of {count} frames")
}

/// Writes one line: the program's name, the reason and the line's end.
fn write_line<N: Sink>(notes: &mut N, reason: &[u8]) -> Result<(), SinkError>
    ensures whole { OnOk result (Appends (N.written notes.old) (N.written notes.new) (line_of reason.now)) }
    ensures front { OnErr result (AppendsFront (N.written notes.old) (N.written notes.new) (line_of reason.now)) }
    ensures cause { HasWriteCause (N.faults notes.old) (N.faults notes.new) result }
{
    write_whole(notes, b"afhost: ")?;
    write_whole(notes, reason)?;
    write_whole(notes, b"\n")
}
