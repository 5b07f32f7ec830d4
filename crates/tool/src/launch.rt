//! Runs a command line over any reader and two writers.
ghost use Rattle.std.specs.Io.KnownBytes.{Keeps};
ghost use Rattle.std.specs.Prelude.{◌≡◌, ◌≢◌, IfOk, OnErr, Ok, Err, codes, map, string_bytes, true, false};
ghost use Rattle.std.specs.IoError.{error_kind};
ghost use Rattle.tool.specs.Answer.{AnswersOpened, Explains, ExplainsUsage, IfLine, IfNoLine, RunsLine};
ghost use Rattle.tool.specs.Files.{DoesFile};
ghost use Rattle.tool_words.specs.Line.{IsUsageFault, line_view};
ghost use Rattle.report.specs.Outputs.{Prints, console_of, printed_of, written_of};
ghost use Rattle.tool.specs.Requests.{ReadsWithin, most_read};
ghost use Rattle.tool.specs.Streams.{AnswersOn};
ghost use Rattle.tool_pure.specs.Configuration.{opened_by};
ghost use Rattle.tool_pure.specs.Stream.{Answers, Says};
ghost use Rattle.tool_words.specs.declared.error.CommandError.{CommandError};
ghost use Rattle.tool_words.specs.declared.error.CommandError.TheVariants.{Misuse};

use crate::answers::answer;
use crate::console::Console;
use clap::Error;
use report::print;
use sqlite::{FileFrom, Start};
use std::alloc::{AllocError, Global};
use std::convert::AsStr;
use std::io;
use std::io::{ErrorKind, Read, Write};
use std::rt::HostRuntime;
use tables::Disk;
use tool_pure::{Failure, Stop, config_text, give, open_config, say};
use tool_words::{CommandError, CommandLine, Task, UsageFault, command};

/// The exit status of words that aren't a command line.
const USAGE: u8 = 2;

const NOT_UTF8: &str = "error: a word of the command line isn't UTF-8\n";

/// Runs a command line, whose first word is the program's name, and returns the exit status: 0 done
/// (help too), 1 failed, 2 not a command line, 3 refused, 4 denied.
///
/// The configuration is read from its file, if one is named. Results go to `output`; refusals,
/// failures and what is wrong with the words go to `errors`, but for `who`, which puts everything
/// on `output` once its words are read. The input is read only by a subcommand that needs it, and no more than
/// 16,777,224 bytes of it, but by `import`, `runtime` and `serve`. `start` is ghost: what a theorem assumes of the
/// database file. No code reads it, and a program passes `Unknown`.
///
/// ```rust
/// use tool::Unknown;
///
/// let words = ["nixkeep", "--user", "root", "who"];
/// let mut input = b"".as_slice();
/// let (mut output, mut errors) = (Vec::new(alloc), Vec::new(alloc));
/// let status = tool::run(&rt, Unknown, &words, &mut input, &mut output, &mut errors);
/// assert_eq!(rt; status, 0);
/// assert_eq!(rt; output.as_slice(), b"class: trusted\nconnect: yes\n".as_slice());
/// ```
pub fn run<F: Start, S: AsStr, R: Read, W: Write, E: Write>(
    rt: &HostRuntime,
    start: F,
    words: &[S],
    input: &mut R,
    output: &mut W,
    errors: &mut E,
) -> u8
    ensures line { IfLine (map S.text words.now)
        (λ line. RunsLine (DoesFile F.Start ⟦<FileFrom<F> as Disk>⟧) line
        (console_of R.remaining W.contents E.contents input.old input.new output.old output.new errors.old errors.new
        result)) }
    ensures words { IfNoLine (map S.text words.now)
        ((fault : CommandError) × IsUsageFault (map S.text words.now) fault × Explains fault
        (written_of W.contents E.contents output.old output.new errors.old errors.new result)) }
    ensures reads { IfLine (map S.text words.now)
        (λ line. ReadsWithin (most_read line.asked) (R.remaining input.old) (R.remaining input.new)) }
    ensures unread { IfNoLine (map S.text words.now) (Keeps (R.remaining input.old) (R.remaining input.new)) }
{
    match command(rt.alloc(), words) {
        Ok(line) => {
            let mut console = Console {
                input,
                output,
                errors,
            };
            execute(rt, start, &line, &mut console)
        }
        Err(fault) => explain(rt.alloc(), &fault, output, errors),
    }
}

fn execute<F: Start, R: Read, W: Write, E: Write>(
    rt: &HostRuntime,
    start: F,
    line: &CommandLine<'_>,
    console: &mut Console<'_, '_, '_, R, W, E>,
) -> u8
    ensures { AnswersOn (most_read (line_view line.now).asked)
        (RunsLine (DoesFile F.Start ⟦<FileFrom<F> as Disk>⟧) (line_view line.now))
        R.remaining W.contents E.contents console.old console.new result }
{
    let file = open_config(rt, line.config);
    answer_by(rt, start, file, line, console)
}

/// Answers a command line by its configuration file, or by why the file wasn't opened.
fn answer_by<F: Start, C: Read + Drop, R: Read, W: Write, E: Write>(
    rt: &HostRuntime,
    start: F,
    file: Option<io::Result<C>>,
    line: &CommandLine<'_>,
    console: &mut Console<'_, '_, '_, R, W, E>,
) -> u8
    ensures { AnswersOn (most_read (line_view line.now).asked)
        (AnswersOpened (DoesFile F.Start ⟦<FileFrom<F> as Disk>⟧) (line_view line.now) (opened_by C.remaining file))
        R.remaining W.contents E.contents console.old console.new result }
{
    match config_text(rt.alloc(), file) {
        Ok(text) => answer(rt, start, text.as_slice(), line, console),
        Err(stop) => match line.task {
            Task::Who => say(stop, console.output),
            _ => say(stop, console.errors),
        },
    }
}

/// Prints why words aren't a command line, or the help that they ask for. Returns the exit status.
fn explain<W: Write, E: Write>(
    alloc: Global,
    fault: &CommandError,
    output: &mut W,
    errors: &mut E,
) -> u8
    ensures { Explains fault.now (written_of W.contents E.contents output.old output.new errors.old errors.new result) }
{
    match fault {
        CommandError::Usage(fault) => explain_usage(alloc, fault, output, errors),
        CommandError::Misuse(fault) => explain_misuse(alloc, *fault, output, errors),
        CommandError::Memory => say(Stop::Failed(Failure::Memory), errors),
    }
}

/// Prints the fault of words in which `clap` finds none. Returns the exit status.
fn explain_misuse<W: Write, E: Write>(
    alloc: Global,
    fault: UsageFault,
    output: &mut W,
    errors: &mut E,
) -> u8
    ensures { Explains (Misuse fault)
        (written_of W.contents E.contents output.old output.new errors.old errors.new result) }
{
    match fault.error(alloc) {
        Ok(error) => explain_usage(alloc, &error, output, errors),
        Err(_) => say(Stop::Failed(Failure::Memory), errors),
    }
}

/// Prints a fault in the form of `clap`, or the help that words ask for. Returns the exit status.
fn explain_usage<W: Write, E: Write>(
    alloc: Global,
    fault: &Error,
    output: &mut W,
    errors: &mut E,
) -> u8
    ensures { ExplainsUsage fault.now
        (written_of W.contents E.contents output.old output.new errors.old errors.new result) }
{
    let text = format!(in alloc; "{fault}");
    explain_by(fault.use_stderr(), text, output, errors)
}

/// Prints the text of a usage error or of help, or that memory ran out. Returns the exit status.
fn explain_by<W: Write, E: Write>(
    is_fault: bool,
    text: Result<String, AllocError>,
    output: &mut W,
    errors: &mut E,
) -> u8
    ensures fault { is_fault ≡ true → IfOk text (λ t. Keeps (W.contents output.old) (W.contents output.new)
        × Prints (string_bytes t) 2 (printed_of E.contents errors.old errors.new result)) }
    ensures help { is_fault ≡ false → IfOk text
        (λ t. Answers (Ok (string_bytes t))
        (written_of W.contents E.contents output.old output.new errors.old errors.new result)) }
    ensures memory { OnErr text
        (Answers (Err (Stop.Failed Failure.Memory))
        (written_of W.contents E.contents output.old output.new errors.old errors.new result)) }
{
    let Ok(text) = text else {
        return say(Stop::Failed(Failure::Memory), errors);
    };
    if is_fault {
        return print(text.as_str(), USAGE, errors);
    }
    give(Ok(text), output, errors)
}

/// Prints that the words of the program couldn't be read, and returns the exit status: 1 if memory
/// was refused, else 2, since a word isn't UTF-8.
///
/// ```rust
/// use std::io::{Error, ErrorKind};
///
/// let mut errors = Vec::new(alloc);
/// let fault = Error::from(ErrorKind::OutOfMemory);
/// assert_eq!(rt; tool::refuse_words(&fault, &mut errors), 1);
/// assert_eq!(rt; errors.as_slice(), b"failed: memory\n".as_slice());
/// ```
pub fn refuse_words<E: Write>(fault: &io::Error, errors: &mut E) -> u8
    ensures memory { error_kind fault.now ≡ ErrorKind.OutOfMemory
        → Says (Stop.Failed Failure.Memory) (printed_of E.contents errors.old errors.new result) }
    ensures other { error_kind fault.now ≢ ErrorKind.OutOfMemory
        → Prints (codes "error: a word of the command line isn't UTF-8\n") 2
        (printed_of E.contents errors.old errors.new result) }
{
    if fault.kind() == ErrorKind::OutOfMemory {
        return say(Stop::Failed(Failure::Memory), errors);
    }
    print(NOT_UTF8, USAGE, errors)
}
