//! Answering a command line by the text of its configuration.
ghost use Rattle.std.specs.Prelude.{Some};
ghost use Rattle.tool.specs.Answer.{AnswersLine, AnswersLs, AnswersSourcePath, AnswersTextPath};
ghost use Rattle.tool.specs.Files.{DoesFile};
ghost use Rattle.tool_words.specs.Asked as asked;
ghost use Rattle.tool_words.specs.Line.{line_view};
ghost use Rattle.tool.specs.Requests.{most_read};
ghost use Rattle.tool.specs.Streams.{AnswersOn};
ghost use Rattle.tool_pure.specs.Archive.{max_prefix};
ghost use Rattle.tool_pure.specs.Object.{most_of_contents};

use crate::calls::call;
use crate::console::Console;
use crate::serve::serve;
use policy::store_dir;
use sqlite::{FileFrom, Start};
use std::alloc::Global;
use std::io::{Read, Write};
use std::rt::HostRuntime;
use tables::Disk;
use tool_pure::{ls, say, settings, source_path, text_path, who};
use tool_words::{CommandLine, ObjectArguments, Task};

/// Answers `ls`, by the text of the configuration.
fn ls_under<R: Read, W: Write, E: Write>(
    alloc: Global,
    config: &[u8],
    console: &mut Console<'_, '_, '_, R, W, E>,
) -> u8
    ensures { AnswersOn (Some max_prefix) (AnswersLs config.now)
        R.remaining W.contents E.contents console.old console.new result }
{
    if let Err(stop) = settings(alloc, config) {
        return say(stop, console.errors);
    }
    ls(alloc, console.input, console.output, console.errors)
}

/// Answers `text-path`, by the text of the configuration.
fn text_path_under<R: Read, W: Write, E: Write>(
    alloc: Global,
    config: &[u8],
    object: &ObjectArguments<'_>,
    console: &mut Console<'_, '_, '_, R, W, E>,
) -> u8
    ensures { AnswersOn (Some most_of_contents) (AnswersTextPath config.now (asked.object_view object.now))
        R.remaining W.contents E.contents console.old console.new result }
{
    match settings(alloc, config) {
        Ok(config) => {
            let (dir, references) = (store_dir(&config), object.references.as_slice());
            text_path(
                alloc,
                dir,
                object.name,
                references,
                console.input,
                console.output,
                console.errors,
            )
        }
        Err(stop) => say(stop, console.errors),
    }
}

/// Answers `source-path`, by the text of the configuration.
fn source_path_under<R: Read, W: Write, E: Write>(
    alloc: Global,
    config: &[u8],
    object: &ObjectArguments<'_>,
    console: &mut Console<'_, '_, '_, R, W, E>,
) -> u8
    ensures { AnswersOn (Some max_prefix) (AnswersSourcePath config.now (asked.object_view object.now))
        R.remaining W.contents E.contents console.old console.new result }
{
    match settings(alloc, config) {
        Ok(config) => {
            let (dir, references) = (store_dir(&config), object.references.as_slice());
            source_path(
                alloc,
                dir,
                object.name,
                references,
                console.input,
                console.output,
                console.errors,
            )
        }
        Err(stop) => say(stop, console.errors),
    }
}

/// Answers a command line by the text of its configuration, and returns the exit status: 0 done, 1
/// failed, 3 refused, 4 denied.
///
/// Results go to the console's `output`; refusals and failures go to its `errors`, but for `who`, which puts everything
/// on `output`. The configuration file that the command line names isn't read. The input is read only by a subcommand
/// that needs it, and no more than 16,777,224 bytes of it, but by `import` and `runtime`, which read all of it, and by
/// `serve`, which reads what its connection sends.
/// `start` is ghost, as in `run`: what a theorem assumes of the database file.
///
/// ```rust
/// use tool::{Console, Unknown};
///
/// let words = ["nixkeep", "--user", "ann", "report"];
/// let line = tool::command(alloc, &words)?;
/// let mut input = b"".as_slice();
/// let (mut output, mut errors) = (Vec::new(alloc), Vec::new(alloc));
/// let mut console = Console {
///     input: &mut input,
///     output: &mut output,
///     errors: &mut errors,
/// };
/// let status = tool::answer(&rt, Unknown, b"", &line, &mut console);
/// assert!(rt; status == 0 && output.starts_with(b"class       paths            bytes\n"));
/// ```
pub fn answer<F: Start, R: Read, W: Write, E: Write>(
    rt: &HostRuntime,
    start: F,
    config: &[u8],
    line: &CommandLine<'_>,
    console: &mut Console<'_, '_, '_, R, W, E>,
) -> u8
    ensures { AnswersOn (most_read (line_view line.now).asked)
        (AnswersLine (DoesFile F.Start ⟦<FileFrom<F> as Disk>⟧) config.now (line_view line.now))
        R.remaining W.contents E.contents console.old console.new result }
{
    let alloc = rt.alloc();
    match &line.task {
        Task::Who => who(alloc, config, line.user, line.group, console.output),
        Task::Ls => ls_under(alloc, config, console),
        Task::TextPath(object) => text_path_under(alloc, config, object, console),
        Task::SourcePath(object) => source_path_under(alloc, config, object, console),
        Task::Serve(serving) => serve(rt, start, config, line.db, *serving, console),
        _ => call(rt, start, config, line, console),
    }
}
