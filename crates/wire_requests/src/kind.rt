//! The kinds of requests: the form of the body of each, and the table of their routes.
ghost use Rattle.std.specs.Prelude.{◌≡◌, map};
ghost use Rattle.wire_requests.specs.Rows.{text_of};
ghost use Rattle.wire_requests.specs.Table as spec;
ghost use Rattle.wire_requests.specs.Table.{routes};

use crate::requests::Requests;

/// The kind of a request to a store, without the values of the request.
#[derive(Clone, Copy, Debug, PartialEq, Eq)]
pub enum Kind {
    AddText,
    AddSource,
    Import,
    Info,
    Nar,
    Ls,
    RootsOf,
    List,
    ListRoots,
    Live,
    Dead,
    Report,
    SetPermanent,
    DropPermanent,
    SetUserRoot,
    DropUserRoot,
    SetProfile,
    Rollback,
    Switch,
    DeleteGeneration,
    AddTemp,
    EndSession,
    ReplaceRuntime,
    Collect,
    Delete,
}

/// What a request has in its body.
#[derive(Clone, Copy, Debug, PartialEq, Eq)]
pub(crate) enum Form {
    /// Nothing.
    Bare,
    /// Lines, or lines and a text.
    Whole,
    /// Lines and an archive.
    Parted,
}

/// The form of the body of a request of a kind.
pub(crate) fn form_of(kind: Kind) -> Form
    ensures { result ≡ spec.form_of kind }
{
    match kind {
        Kind::AddSource | Kind::Import => Form::Parted,
        Kind::AddText
        | Kind::SetPermanent
        | Kind::SetUserRoot
        | Kind::SetProfile
        | Kind::AddTemp
        | Kind::ReplaceRuntime
        | Kind::Collect
        | Kind::Delete => Form::Whole,
        Kind::Info | Kind::Nar | Kind::Ls | Kind::RootsOf => Form::Bare,
        Kind::List | Kind::ListRoots | Kind::Live | Kind::Dead | Kind::Report => Form::Bare,
        Kind::DropPermanent | Kind::DropUserRoot | Kind::EndSession => Form::Bare,
        Kind::Rollback | Kind::Switch | Kind::DeleteGeneration => Form::Bare,
    }
}

/// The one table of routes. A parameter is one or more bytes other than `/`.
const TABLE: [(&str, Requests); 22] = [
    ("/text", Requests::Post(Kind::AddText)),
    ("/source", Requests::Post(Kind::AddSource)),
    ("/import", Requests::Post(Kind::Import)),
    ("/info/{path}", Requests::Get(Kind::Info)),
    ("/nar/{path}", Requests::Get(Kind::Nar)),
    ("/ls/{path}", Requests::Get(Kind::Ls)),
    ("/roots-of/{path}", Requests::Get(Kind::RootsOf)),
    ("/paths", Requests::Get(Kind::List)),
    ("/roots", Requests::Get(Kind::ListRoots)),
    ("/live", Requests::Get(Kind::Live)),
    ("/dead", Requests::Get(Kind::Dead)),
    ("/report", Requests::Get(Kind::Report)),
    (
        "/root/permanent/{name}",
        Requests::PostOrDelete(Kind::SetPermanent, Kind::DropPermanent),
    ),
    (
        "/root/user/{user}/{name}",
        Requests::PostOrDelete(Kind::SetUserRoot, Kind::DropUserRoot),
    ),
    ("/profile/{user}/{name}", Requests::Post(Kind::SetProfile)),
    ("/rollback/{user}/{name}", Requests::Post(Kind::Rollback)),
    ("/switch/{user}/{name}/{n}", Requests::Post(Kind::Switch)),
    (
        "/generation/{user}/{name}/{n}",
        Requests::Delete(Kind::DeleteGeneration),
    ),
    (
        "/temp/{user}/{s}",
        Requests::PostOrDelete(Kind::AddTemp, Kind::EndSession),
    ),
    ("/runtime", Requests::Post(Kind::ReplaceRuntime)),
    ("/collect", Requests::Post(Kind::Collect)),
    ("/delete", Requests::Post(Kind::Delete)),
];

/// The routes of the table.
pub(crate) fn rows() -> &'static [(&'static str, Requests)]
    ensures { map text_of result.now ≡ routes }
{
    &TABLE
}
