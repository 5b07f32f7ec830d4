//! The subcommands by their names.
ghost use Rattle.std.specs.Prelude.{◌≡◌};
ghost use Rattle.tool_words.specs.Verbs.{verb_name, verb_named};

/// A subcommand, without its values.
#[derive(Clone, Copy, PartialEq, Eq, Debug)]
pub(crate) enum Verb {
    Who,
    TextPath,
    SourcePath,
    Ls,
    AddText,
    AddSource,
    Import,
    Runtime,
    Info,
    CatNar,
    Why,
    List,
    Roots,
    Live,
    Dead,
    Report,
    Root,
    Unroot,
    Profile,
    Temp,
    Gc,
    Delete,
    Serve,
}

/// Each subcommand, in the order of the help.
pub(crate) const VERBS: [Verb; 23] = [
    Verb::Who,
    Verb::Ls,
    Verb::Import,
    Verb::Runtime,
    Verb::List,
    Verb::Roots,
    Verb::Live,
    Verb::Dead,
    Verb::Report,
    Verb::TextPath,
    Verb::SourcePath,
    Verb::AddText,
    Verb::AddSource,
    Verb::Info,
    Verb::CatNar,
    Verb::Why,
    Verb::Root,
    Verb::Unroot,
    Verb::Profile,
    Verb::Temp,
    Verb::Gc,
    Verb::Delete,
    Verb::Serve,
];

impl Verb {
    /// The name of the subcommand.
    pub(crate) fn name<'a>(self) -> &'a str
        ensures { result.now ≡ verb_name self }
    {
        match self {
            Verb::Who => "who",
            Verb::TextPath => "text-path",
            Verb::SourcePath => "source-path",
            Verb::Ls => "ls",
            Verb::AddText => "add-text",
            Verb::AddSource => "add-source",
            Verb::Import => "import",
            Verb::Runtime => "runtime",
            Verb::Info => "info",
            Verb::CatNar => "cat-nar",
            Verb::Why => "why",
            Verb::List => "list",
            Verb::Roots => "roots",
            Verb::Live => "live",
            Verb::Dead => "dead",
            Verb::Report => "report",
            Verb::Root => "root",
            Verb::Unroot => "unroot",
            Verb::Profile => "profile",
            Verb::Temp => "temp",
            Verb::Gc => "gc",
            Verb::Delete => "delete",
            Verb::Serve => "serve",
        }
    }

    /// The purpose of a subcommand, as the help prints it.
    pub(crate) fn purpose<'a>(self) -> &'a str {
        match self {
            Verb::Who => "Print the class of the caller, and whether it may connect",
            Verb::TextPath => "Print the store path of the contents on standard input",
            Verb::SourcePath => "Print the store path of the archive on standard input",
            Verb::Ls => "Print the listing of the archive on standard input",
            Verb::AddText => "Add the contents on standard input, and print their store path",
            Verb::AddSource => "Add the archive on standard input, and print its store path",
            Verb::Import => "Import the object on standard input, with what is said of it",
            Verb::Runtime => "Replace the runtime roots by those on standard input",
            Verb::Info => "Print the record of an object",
            Verb::CatNar => "Print the archive of an object",
            Verb::Why => "Print the roots that keep a path alive",
            Verb::List => "Print all paths",
            Verb::Roots => "Print all roots",
            Verb::Live => "Print the live paths",
            Verb::Dead => "Print the dead paths",
            Verb::Report => "Print how many paths are live and dead, and their bytes",
            Verb::Root => "Set a root",
            Verb::Unroot => "Drop a root",
            Verb::Profile =>
                "Change a profile: set NAME PATH, rollback NAME, switch NAME N, delete NAME N",
            Verb::Temp => "Change a session's temporary roots: add SESSION PATH, end SESSION",
            Verb::Gc => "Collect the dead objects",
            Verb::Delete => "Delete objects and all that refer to them",
            Verb::Serve => "Serve the store over HTTP",
        }
    }
}

/// The subcommand of this name.
pub(crate) fn verb_of(name: &str) -> Option<Verb>
    ensures { result ≡ verb_named name.now }
{
    VERBS.iter().copied().find(|verb| verb.name() == name)
}
