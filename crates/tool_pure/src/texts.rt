//! `text-path`: from contents and references to a store path.
ghost use Rattle.std.specs.Prelude.{◌≡◌, ◌⊎◌, IfOk, IfErr, Ok, Err, map, string_bytes};
ghost use Rattle.paths.specs.StorePath.{base_of};
ghost use Rattle.report.specs.Outputs.{change_of, console_of};
ghost use Rattle.tool_pure.specs.Object.{most_of_contents, object_fault, text_path_answer};
ghost use Rattle.tool_pure.specs.Stream.{AnswersInput, IsResultFor, result_text};

use crate::object::{Object, read_object};
use crate::stops::Stop;
use crate::stream::give;
use paths::StoreDir;
use report::{Failure, Refusal, path_line};
use std::alloc::Global;
use std::convert::AsStr;
use std::io::{Read, Write};
use streams::MAX_ARCHIVE;

/// The longest contents whose archive isn't too large.
const MAX_CONTENTS: usize = MAX_ARCHIVE - 112;

/// How many bytes of contents are read at most: one more than a text may have.
pub const MOST_OF_CONTENTS: usize = MAX_CONTENTS + 1;

fn text_line(
    alloc: Global,
    dir: &StoreDir,
    object: &Object,
    contents: &[u8],
) -> Result<String, Stop>
    ensures ok { IfOk result
        (λ line. text_path_answer dir.now object.now.name object.now.references.items contents.now
        ≡ Ok (string_bytes line)) }
    ensures err { IfErr result
        (λ e. (e ≡ Stop.Failed Failure.Memory)
        ⊎ (text_path_answer dir.now object.now.name object.now.references.items contents.now ≡ Err e)) }
{
    if contents.len() > MAX_CONTENTS {
        return Err(Stop::Refused(Refusal::TooLarge));
    }
    let references = object.references.as_slice();
    let path = paths::text_path(alloc, dir, &object.name, references, contents)?;
    Ok(path_line(alloc, dir, &path)?)
}

fn text_path_result<S: AsStr, R: Read>(
    alloc: Global,
    dir: &StoreDir,
    name: &str,
    references: &[S],
    input: &mut R,
) -> Result<String, Stop>
    ensures { IsResultFor (object_fault dir.now name.now (map S.text references.now)) most_of_contents
        (text_path_answer dir.now name.now (map (base_of dir.now) (map S.text references.now)))
        (change_of R.remaining input.old input.new) (result_text result) }
{
    let (object, contents) = read_object(alloc, dir, name, references, input, MOST_OF_CONTENTS)?;
    text_line(alloc, dir, &object, contents.as_slice())
}

/// Prints the path of a text object, by its name, the path texts of its references and the contents
/// that are read, and returns the exit status.
///
/// The path and a line feed go to `output`, with status 0. Else one line goes to `errors`, by the
/// first that applies: `refused: 12 bad-store-name`, `refused: 14 bad-store-path`, `refused: 33
/// too-many-references` above 4,096 references and `refused: 8 too-large` above 16,777,104 bytes
/// of contents, all with status 3; `failed: memory`, `failed: input` or, where `output` fails,
/// `failed: output`, all with status 1. No more than one byte above the limit of contents is read, and
/// nothing where the name or the references are refused.
///
/// ```rust
/// use paths::StoreDir;
///
/// let dir = StoreDir::parse(alloc, "/nix/store")?;
/// let (mut input, references) = (b"mycontent\n".as_slice(), [""; 0]);
/// let (mut output, mut errors) = (Vec::new(alloc), Vec::new(alloc));
/// let status = tool::text_path(alloc, &dir, "myfile", &references, &mut input, &mut output, &mut errors);
/// assert!(rt; status == 0 && errors.is_empty());
/// assert_eq!(rt; output.as_slice(), b"/nix/store/a0d1zlpv81nsfbam8ay3i7snrc0sgsvr-myfile\n".as_slice());
/// ```
pub fn text_path<S: AsStr, R: Read, W: Write, E: Write>(
    alloc: Global,
    dir: &StoreDir,
    name: &str,
    references: &[S],
    input: &mut R,
    output: &mut W,
    errors: &mut E,
) -> u8
    ensures { AnswersInput (object_fault dir.now name.now (map S.text references.now)) most_of_contents
        (text_path_answer dir.now name.now (map (base_of dir.now) (map S.text references.now)))
        (console_of R.remaining W.contents E.contents input.old input.new output.old output.new errors.old errors.new
        result) }
{
    give(
        text_path_result(alloc, dir, name, references, input),
        output,
        errors,
    )
}
