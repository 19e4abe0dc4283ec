ghost use Rattle.std.specs.Prelude.{◌≡◌, ◌++◌, [], ◌∷◌, length, map, string_bytes, All, OnOk, OnErr, if◌then◌else◌};
ghost use Rattle.std.specs.Fmt.{decimal};
ghost use Rattle.cl_model.specs.Lines.{answer_text, ended_line, words};
ghost use Rattle.cl_model.specs.Texts.{EventNames, AnswerNames};
ghost use Rattle.cl_model.specs.Views.{answer_of};
ghost use Rattle.cl_streams.specs.Writing.{PutsBehind, StopsWithin, WritesBytes, WritesPart, paged, stream};
ghost use Rattle.cl_report.specs.Report.{answer_lines, event_line, history_lines, report_lines};

use cl_model::{Answer, Event};
use cl_registry::Report;
use cl_streams::{PrintFault, pass_page, write_out};
use std::alloc::Global;
use std::io::Write;

/// Writes the lines of a history, unless the answers alone are wanted, and one line for each answer.
/// Loaders are written by these names, of which each loader in the report has one.
pub fn print_report<W: Write>(
    alloc: Global,
    report: &Report,
    loaders: &[String],
    answers: bool,
    out: &mut W,
) -> Result<(), PrintFault>
    requires events { All (EventNames (length loaders.now)) report.now.history }
    requires answers { All (AnswerNames (length loaders.now)) report.now.answers }
    ensures lines { OnOk result (WritesBytes (stream W.contents out.old out.new)
        (report_lines (map string_bytes loaders.now) answers report.now.history
        report.now.answers)) }
    ensures part { OnErr result (WritesPart (stream W.contents out.old out.new)
        (report_lines (map string_bytes loaders.now) answers report.now.history
        report.now.answers)) }
{
    let mut waiting = String::new(alloc);
    let events = shown_events(report, answers);
    print_history(events, loaders, out, &mut waiting)?;
    print_answers(report.answers.as_slice(), loaders, out, &mut waiting)?;
    write_out(out, waiting.as_bytes())
}

/// The events whose lines are wanted: none where the answers alone are.
fn shown_events(report: &Report, answers: bool) -> &[Event]
    ensures { result.now ≡ (if answers then [] else report.now.history) }
{
    if answers {
        &[]
    } else {
        report.history.events()
    }
}

/// Puts the lines of events behind what waits.
fn print_history<W: Write>(
    events: &[Event],
    loaders: &[String],
    out: &mut W,
    waiting: &mut String,
) -> Result<(), PrintFault>
    requires { All (EventNames (length loaders.now)) events.now }
    ensures lines { OnOk result (PutsBehind
        (paged W.contents out.old out.new string_bytes waiting.old waiting.new)
        (history_lines (map string_bytes loaders.now) events.now)) }
    ensures part { OnErr result (StopsWithin
        (paged W.contents out.old out.new string_bytes waiting.old waiting.new)
        (history_lines (map string_bytes loaders.now) events.now)) }
{
    for event in events {
        put_event(event, loaders, out, waiting)?;
    }
    Ok(())
}

/// Puts the lines of answers, numbered from 1, behind what waits.
fn print_answers<W: Write>(
    answers: &[Answer],
    loaders: &[String],
    out: &mut W,
    waiting: &mut String,
) -> Result<(), PrintFault>
    requires { All (AnswerNames (length loaders.now)) answers.now }
    ensures lines { OnOk result (PutsBehind
        (paged W.contents out.old out.new string_bytes waiting.old waiting.new)
        (answer_lines (map string_bytes loaders.now) answers.now)) }
    ensures part { OnErr result (StopsWithin
        (paged W.contents out.old out.new string_bytes waiting.old waiting.new)
        (answer_lines (map string_bytes loaders.now) answers.now)) }
{
    for (index, answer) in answers.iter().enumerate() {
        put_answer(index + 1, answer, loaders, out, waiting)?;
    }
    Ok(())
}

/// Puts the line of an event, where it has one, behind what waits, and writes all of it once it is long.
fn put_event<W: Write>(
    event: &Event,
    loaders: &[String],
    out: &mut W,
    waiting: &mut String,
) -> Result<(), PrintFault>
    requires { EventNames (length loaders.now) event.now }
    ensures line { OnOk result (PutsBehind
        (paged W.contents out.old out.new string_bytes waiting.old waiting.new)
        (event_line (map string_bytes loaders.now) event.now)) }
    ensures part { OnErr result (StopsWithin
        (paged W.contents out.old out.new string_bytes waiting.old waiting.new)
        (event_line (map string_bytes loaders.now) event.now)) }
{
    event.put_line(loaders, waiting)?;
    pass_page(out, waiting)
}

/// Puts the number of a request and its answer behind what waits, and writes all of it once it is long.
fn put_answer<W: Write>(
    number: usize,
    answer: &Answer,
    loaders: &[String],
    out: &mut W,
    waiting: &mut String,
) -> Result<(), PrintFault>
    requires { AnswerNames (length loaders.now) answer.now }
    ensures line { OnOk result (PutsBehind
        (paged W.contents out.old out.new string_bytes waiting.old waiting.new)
        (ended_line (words (decimal number ∷ answer_text (map string_bytes loaders.now)
        (answer_of answer.now) ∷ [])))) }
    ensures part { OnErr result (StopsWithin
        (paged W.contents out.old out.new string_bytes waiting.old waiting.new)
        (ended_line (words (decimal number ∷ answer_text (map string_bytes loaders.now)
        (answer_of answer.now) ∷ [])))) }
{
    write!(waiting, "{number} ")?;
    answer.put_text(loaders, waiting)?;
    waiting.push_str("\n")?;
    pass_page(out, waiting)
}
