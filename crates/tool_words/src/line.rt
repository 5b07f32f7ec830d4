//! What a command line asks for. Names, paths and labels are as they were written: none is tested yet.

use crate::actions::{ProfileAction, TempAction};

/// The options that come before the subcommand, and the subcommand.
#[derive(Debug, Drop)]
pub struct CommandLine<'a> {
    /// The file of the database. Without one it is in memory, for this run.
    pub db: Option<&'a str>,
    /// The file of the configuration. Without one the configuration is the empty text.
    pub config: Option<&'a str>,
    /// The name of the caller.
    pub user: Option<&'a str>,
    /// The primary group of the caller.
    pub group: Option<&'a str>,
    /// What is to be done.
    pub task: Task<'a>,
}

/// A subcommand with its values.
#[derive(Debug, Drop)]
pub enum Task<'a> {
    /// The class of the caller, and whether it may connect.
    Who,
    /// The store path of the text object with the contents on standard input.
    TextPath(ObjectArguments<'a>),
    /// The store path of the source object with the archive on standard input.
    SourcePath(ObjectArguments<'a>),
    /// The listing of the archive on standard input.
    Ls,
    /// The text object with the contents on standard input is added.
    AddText(ObjectArguments<'a>),
    /// The source object with the archive on standard input is added.
    AddSource(ObjectArguments<'a>),
    /// The object on standard input is imported, with what is said of it.
    Import,
    /// The runtime roots are those on standard input.
    Runtime,
    /// The record of the object at this path.
    Info(&'a str),
    /// The archive of the object at this path.
    CatNar(&'a str),
    /// The roots that keep this path alive.
    Why(&'a str),
    /// All paths.
    List,
    /// All roots.
    Roots,
    /// The live paths.
    Live,
    /// The dead paths.
    Dead,
    /// How many paths are live and dead, and their bytes.
    Report,
    /// A root is set.
    Root(RootArguments<'a>),
    /// A root is dropped.
    Unroot(UnrootArguments<'a>),
    /// A profile is changed.
    Profile(ProfileArguments<'a>),
    /// A session's temporary roots are changed.
    Temp(TempArguments<'a>),
    /// Dead objects are collected.
    Gc(GcArguments),
    /// Objects are deleted.
    Delete(DeleteArguments<'a>),
    /// The store is served over HTTP.
    Serve(ServeArguments),
}

/// What is said of a store object besides its contents or its archive.
#[derive(Debug, Drop)]
pub struct ObjectArguments<'a> {
    /// The name of the store object.
    pub name: &'a str,
    /// The path texts of its references.
    pub references: Vec<&'a str>,
}

/// The kind of a root that is set by its name.
#[derive(Clone, Copy, PartialEq, Eq, Debug)]
pub enum NamedRootKind {
    /// A permanent root.
    Permanent,
    /// A root of the caller.
    User,
}

/// A root that is set.
#[derive(Debug, Drop)]
pub struct RootArguments<'a> {
    /// The kind of the root.
    pub kind: NamedRootKind,
    /// The name of the root.
    pub name: &'a str,
    /// The path that it keeps alive.
    pub path: &'a str,
}

/// The owner of the root that is dropped.
#[derive(Debug, Drop)]
pub enum Unrooted<'a> {
    /// A permanent root, which has no owner.
    Permanent,
    /// A root of the named user, or of the caller if none is named.
    User(Option<&'a str>),
}

/// A root that is dropped.
#[derive(Debug, Drop)]
pub struct UnrootArguments<'a> {
    /// The owner.
    pub root: Unrooted<'a>,
    /// The name of the root.
    pub name: &'a str,
}

/// A profile that is changed.
#[derive(Debug, Drop)]
pub struct ProfileArguments<'a> {
    /// The owner: the caller, where nobody is named.
    pub owner: Option<&'a str>,
    /// The name of the profile.
    pub name: &'a str,
    /// What happens to it.
    pub action: ProfileAction<'a>,
}

/// A session whose temporary roots are changed.
#[derive(Debug, Drop)]
pub struct TempArguments<'a> {
    /// The owner: the caller, where nobody is named.
    pub owner: Option<&'a str>,
    /// The number of the session, 1 to 4,194,304; 0 means a text that is no such number.
    pub session: u64,
    /// What happens to its roots.
    pub action: TempAction<'a>,
}

/// A collection.
#[derive(Debug, Drop)]
pub struct GcArguments {
    /// Whether liveness is to be ignored.
    pub ignore_liveness: bool,
    /// The number of freed bytes at which the collection stops; none without a limit.
    pub max_freed: Option<u64>,
}

/// Objects to be deleted.
#[derive(Debug, Drop)]
pub struct DeleteArguments<'a> {
    /// Whether liveness is to be ignored.
    pub ignore_liveness: bool,
    /// The path texts, one at least.
    pub paths: Vec<&'a str>,
}

/// Where requests come from.
#[derive(Clone, Copy, PartialEq, Eq, Debug)]
pub enum ServeArguments {
    /// A single connection, on standard input and output.
    Streams,
    /// Connections to a port of this machine, one after another: the port, 1 to 65,535, and how many
    /// connections, 1 to 1,000,000.
    Port(u16, u32),
}
