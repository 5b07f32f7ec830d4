//! `source-path`: from an archive and references to a store path.
ghost use Rattle.std.specs.Prelude.{◌≡◌, ◌≤◌, ◌⊎◌, length, IfOk, IfErr, Ok, Err, map, string_bytes};
ghost use Rattle.nar.specs.Archive.{limit};
ghost use Rattle.paths.specs.StorePath.{base_of};
ghost use Rattle.report.specs.Outputs.{change_of, console_of};
ghost use Rattle.tool_pure.specs.Archive.{max_prefix};
ghost use Rattle.tool_pure.specs.Object.{object_fault, source_path_answer};
ghost use Rattle.tool_pure.specs.Stream.{AnswersInput, IsResultFor, result_text};

use crate::archive::{MOST_OF_ARCHIVE, read_archive};
use crate::object::{Object, read_object};
use crate::stops::Stop;
use crate::stream::give;
use paths::StoreDir;
use report::{Failure, path_line};
use std::alloc::Global;
use std::convert::AsStr;
use std::io::{Read, Write};

fn source_line(alloc: Global, dir: &StoreDir, object: &Object, nar: &[u8]) -> Result<String, Stop>
    ensures ok { IfOk result
        (λ line. source_path_answer dir.now object.now.name object.now.references.items nar.now
        ≡ Ok (string_bytes line)) }
    ensures fits { IfOk result (λ line. length nar.now ≤ limit) }
    ensures err { IfErr result
        (λ e. (e ≡ Stop.Failed Failure.Memory)
        ⊎ (source_path_answer dir.now object.now.name object.now.references.items nar.now ≡ Err e)) }
{
    read_archive(alloc, nar)?;
    let references = object.references.as_slice();
    let path = paths::source_path(alloc, dir, &object.name, references, nar)?;
    Ok(path_line(alloc, dir, &path)?)
}

fn source_path_result<S: AsStr, R: Read>(
    alloc: Global,
    dir: &StoreDir,
    name: &str,
    references: &[S],
    input: &mut R,
) -> Result<String, Stop>
    ensures { IsResultFor (object_fault dir.now name.now (map S.text references.now)) max_prefix
        (source_path_answer dir.now name.now (map (base_of dir.now) (map S.text references.now)))
        (change_of R.remaining input.old input.new) (result_text result) }
{
    let (object, nar) = read_object(alloc, dir, name, references, input, MOST_OF_ARCHIVE)?;
    source_line(alloc, dir, &object, nar.as_slice())
}

/// Prints the path of a source object, by its name, the path texts of its references and the archive
/// that is read, and returns the exit status.
///
/// The path and a line feed go to `output`, with status 0. Else one line goes to `errors`, by the
/// first that applies: `refused: 12 bad-store-name`, `refused: 14 bad-store-path`, `refused: 33
/// too-many-references` above 4,096 references and the archive's fault, `refused: 1 truncated` to
/// `refused: 8 too-large`, all with status 3; `failed: memory`, `failed: input` or, where `output`
/// fails, `failed: output`, all with status 1. No more than 16,777,224 bytes are read, which decide
/// what the input is, and nothing where the name or the references are refused.
///
/// ```rust
/// use paths::StoreDir;
///
/// let dir = StoreDir::parse(alloc, "/nix/store")?;
/// let (mut input, references) = (b"".as_slice(), [""; 0]);
/// let (mut output, mut errors) = (Vec::new(alloc), Vec::new(alloc));
/// let status = tool::source_path(alloc, &dir, "..-x", &references, &mut input, &mut output, &mut errors);
/// assert_eq!(rt; status, 3);
/// assert_eq!(rt; errors.as_slice(), b"refused: 12 bad-store-name\n".as_slice());
/// ```
pub fn source_path<S: AsStr, R: Read, W: Write, E: Write>(
    alloc: Global,
    dir: &StoreDir,
    name: &str,
    references: &[S],
    input: &mut R,
    output: &mut W,
    errors: &mut E,
) -> u8
    ensures { AnswersInput (object_fault dir.now name.now (map S.text references.now)) max_prefix
        (source_path_answer dir.now name.now (map (base_of dir.now) (map S.text references.now)))
        (console_of R.remaining W.contents E.contents input.old input.new output.old output.new errors.old errors.new
        result) }
{
    give(
        source_path_result(alloc, dir, name, references, input),
        output,
        errors,
    )
}
