//! The command `explain`.

ghost use Rattle.std.specs.Prelude.{◌≡◌, length, map, option_map, string_bytes};
ghost use Rattle.z80dev_jobs.specs.Explaining.{ExplainEnds, Explains, PrintsWith, asked_of, form_for};
ghost use Rattle.host.specs.Ending.{effect_of, ended};

use host::{print, read_all};
use std::alloc::Global;
use z80dev::{End, Files, Front, Sink, shared_of, sources_of};
use z80dev_commands::Explain;
use z80dev_explain::{Asked, Explanation, Form, explain_sources};

/// How an explanation is printed: as JSON if that is asked for; otherwise in colours if that is asked for, or if standard output is a
/// terminal and nothing else is asked for.
fn print_form(job: &Explain<'_>, is_terminal: bool) -> Form
    ensures { result ≡ form_for job.now.json job.now.color is_terminal }
{
    if job.json {
        return Form::Json;
    }
    let colored = match job.color {
        Some("always") => true,
        Some("never") => false,
        _ => is_terminal,
    };
    if colored { Form::Colored } else { Form::Plain }
}

/// What is asked about sources.
fn asked_of(job: &Explain<'_>, is_terminal: bool) -> Asked
    ensures { result ≡ asked_of job.now is_terminal }
{
    Asked {
        grow: job.grow,
        jumps: job.jumps,
        form: print_form(job, is_terminal),
    }
}

/// Prints the text of an explanation. Its summary becomes the line of a refusal, since status 1 has a line on standard error with every
/// command.
fn print_explanation<W: Sink>(explained: Explanation, output: &mut W) -> End<'static>
    ensures { PrintsWith explained.text.items (option_map string_bytes explained.summary) (W.stream output.old) (W.stream output.new) result }
{
    let Explanation { text, summary } = explained;
    if print(output, &text).is_err() {
        return End::Stream;
    }
    match summary {
        Some(summary) => End::Refused(summary),
        None => End::Done,
    }
}

/// Explains sources that were read, with definitions and shared files, which were read too, before each of them.
fn explain_texts<W: Sink>(
    alloc: Global,
    job: &Explain<'_>,
    is_terminal: bool,
    fronts: &[Vec<u8>],
    texts: &[Vec<u8>],
    output: &mut W,
) -> Result<End<'static>, End<'static>>
    requires fronts { length job.now.shared.files.items ≡ length fronts.now }
    requires texts { length job.now.sources.items ≡ length texts.now }
    ensures { Explains job.now is_terminal (map (λ text. text.items) fronts.now) (map (λ text. text.items) texts.now) (W.stream output.old) (W.stream output.new) (ended result) }
{
    let shared_files = shared_of(alloc, &job.shared.files, fronts)?;
    let sources = sources_of(alloc, &job.sources, texts)?;
    let front = Front {
        defines: &job.shared.defines,
        files: &shared_files,
    };
    let asked = asked_of(job, is_terminal);
    let explained = explain_sources(alloc, front, &sources, asked)?;
    Ok(print_explanation(explained, output))
}

/// Prints every error of sources, or if there is none, the warnings.
pub(crate) fn explain_files<'a, F: Files, W: Sink>(
    alloc: Global,
    job: &Explain<'a>,
    is_terminal: bool,
    files: &mut F,
    output: &mut W,
) -> Result<End<'a>, End<'a>>
    ensures { ExplainEnds job.now is_terminal (effect_of (F.folder files.old) (F.folder files.new) (W.stream output.old) (W.stream output.new)) (ended result) }
{
    let fronts = read_all(alloc, &job.shared.files, files)?;
    let texts = read_all(alloc, &job.sources, files)?;
    explain_texts(alloc, job, is_terminal, &fronts, &texts, output)
}
