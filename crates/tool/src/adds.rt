//! Requests that add an object.
ghost use Rattle.std.specs.Prelude.{◌≡◌, IfOk, IfErr, IsOkAnd, MatchResult, Ok, Err, List, ℕ};
ghost use Rattle.intake.specs.Arrival.{bytes_in};
ghost use Rattle.tool_words.specs.Asked.{object_view};
ghost use Rattle.model.specs.Request as asked;
ghost use Rattle.store_types.specs.View.{request_view};
ghost use Rattle.report.specs.Outputs.{change_of};
ghost use Rattle.tool_pure.specs.Archive.{max_prefix};
ghost use Rattle.tool_pure.specs.Object.{most_of_contents};
ghost use Rattle.tool.specs.Requests.{Adding, AsksObject, Gives, IsAsked, on_object, with_bytes};

use intake::Intake;
use paths::StoreDir;
use std::alloc::Global;
use std::io::Read;
use store_types::Request;
use tool_pure::{MOST_OF_CONTENTS, Object, Stop, parse_object, read_input, receive_archive};
use tool_words::ObjectArguments;

/// The name and the references of an object to add, parsed.
fn parse_arguments(
    alloc: Global,
    dir: &StoreDir,
    object: &ObjectArguments<'_>,
) -> Result<Object, Stop>
    ensures ok { IfOk result (λ o. (ask : Adding)
        → on_object dir.now (object_view object.now) ask ≡ Ok (ask o.name o.references.items)) }
    ensures err { IfErr result (λ e. (ask : Adding) (bytes : List ℕ)
        → IsAsked ⊥ (Gives (with_bytes bytes (on_object dir.now (object_view object.now) ask))) (Err e)) }
{
    parse_object(alloc, dir, object.name, object.references.as_slice())
}

/// The request that adds a text object with the contents read, or why they couldn't be read.
fn text_of(object: Object, came: Result<Vec<u8>, Stop>) -> Result<Request, Stop>
    ensures { MatchResult came
        (λ bytes. IsOkAnd result
        (λ q. request_view q ≡ asked.add_text object.name object.references.items bytes.items))
        (λ stop. result ≡ Err stop) }
{
    let contents = came?;
    Ok(Request::AddText {
        name: object.name,
        refs: object.references,
        contents,
    })
}

/// The request that adds a text object. Nothing is read if the name or a reference is refused.
pub(crate) fn add_text<R: Read>(
    alloc: Global,
    dir: &StoreDir,
    object: &ObjectArguments<'_>,
    input: &mut R,
) -> Result<Request, Stop>
    ensures { AsksObject most_of_contents dir.now (object_view object.now)
        (λ name refs bytes. asked.add_text name refs bytes) (change_of R.remaining input.old input.new) result }
{
    let arguments = parse_arguments(alloc, dir, object)?;
    text_of(arguments, read_input(alloc, input, MOST_OF_CONTENTS))
}

/// The request that adds a source object with the archive read, or why it couldn't be read.
fn source_of(object: Object, came: Result<Intake, Stop>) -> Result<Request, Stop>
    ensures { MatchResult came
        (λ nar. IsOkAnd result
        (λ q. request_view q ≡ asked.add_source object.name object.references.items (bytes_in nar)))
        (λ stop. result ≡ Err stop) }
{
    let nar = came?;
    Ok(Request::AddSource {
        name: object.name,
        refs: object.references,
        nar,
    })
}

/// The request that adds a source object. Nothing is read if the name or a reference is refused.
pub(crate) fn add_source<R: Read>(
    alloc: Global,
    dir: &StoreDir,
    object: &ObjectArguments<'_>,
    input: &mut R,
) -> Result<Request, Stop>
    ensures { AsksObject max_prefix dir.now (object_view object.now)
        (λ name refs bytes. asked.add_source name refs bytes) (change_of R.remaining input.old input.new) result }
{
    let arguments = parse_arguments(alloc, dir, object)?;
    source_of(arguments, receive_archive(alloc, input))
}
