//! The requests to a store, and the operation of each, on which the rules decide.
ghost use Rattle.std.specs.Prelude.{◌≡◌};
ghost use Rattle.policy.specs.Operation as operations;
ghost use Rattle.model.specs.Verdict as verdicts;
ghost use Rattle.store_types.specs.View.{request_view};

use intake::Intake;
use paths::{Ca, Name, StorePath};
use policy::Op;

/// An object to import, with its path: the fields of `Request::Import` as one value, which is passed on whole.
#[derive(Drop)]
pub struct Imported {
    /// The path.
    pub path: StorePath,
    /// The SHA-256 digest that the archive is to have.
    pub nar_hash: [u8; 32],
    /// The references.
    pub refs: Vec<StorePath>,
    /// The deriver, if it is given.
    pub deriver: Option<StorePath>,
    /// The content address, if it is given.
    pub ca: Option<Ca>,
    /// The archive, as it arrived.
    pub nar: Intake,
}

/// The request of a caller to a store.
#[derive(Drop)]
pub enum Request {
    /// Adds a text.
    AddText {
        /// The name of its path.
        name: Name,
        /// The references, in any order; at most 4,096.
        refs: Vec<StorePath>,
        /// The contents; at most 16,777,104 bytes.
        contents: Vec<u8>,
    },
    /// Reads the record of an object.
    Info(StorePath),
    /// Reads the archive of an object.
    Nar(StorePath),
    /// Lists the archive of an object.
    Ls(StorePath),
    /// Lists all paths.
    List,
    /// Lists the live paths.
    Live,
    /// Lists the dead paths.
    Dead,
    /// Lists all roots.
    ListRoots,
    /// Lists the roots that reach a path.
    RootsOf(StorePath),
    /// Counts the live, the dead and all paths, and the bytes of their archives.
    Report,
    /// Sets a permanent root.
    SetPermanent {
        /// The name, a plain name.
        name: String,
        /// The target.
        path: StorePath,
    },
    /// Drops a permanent root.
    DropPermanent {
        /// The name.
        name: String,
    },
    /// Sets a user root.
    SetUserRoot {
        /// The owner, a plain name.
        user: String,
        /// The name, a plain name.
        name: String,
        /// The target.
        path: StorePath,
    },
    /// Drops a user root.
    DropUserRoot {
        /// The owner.
        user: String,
        /// The name.
        name: String,
    },
    /// Makes the greatest generation below the current one current.
    Rollback {
        /// The owner of the profile.
        user: String,
        /// The name of the profile.
        profile: String,
    },
    /// Makes a generation current.
    Switch {
        /// The owner of the profile.
        user: String,
        /// The name of the profile.
        profile: String,
        /// The number of the generation.
        n: u32,
    },
    /// Deletes a generation that isn't current.
    DeleteGeneration {
        /// The owner of the profile.
        user: String,
        /// The name of the profile.
        profile: String,
        /// The number of the generation.
        n: u32,
    },
    /// Makes a path the current generation of a profile.
    SetProfile {
        /// The owner of the profile.
        user: String,
        /// The name of the profile.
        profile: String,
        /// The target.
        path: StorePath,
    },
    /// Adds a temporary root of a session.
    AddTemp {
        /// The owner of the session, a plain name.
        owner: String,
        /// The number of the session, 1 to 4,194,304.
        session: u64,
        /// The target.
        path: StorePath,
    },
    /// Drops all temporary roots of a session.
    EndSession {
        /// The owner of the session.
        owner: String,
        /// The number of the session.
        session: u64,
    },
    /// Replaces the runtime roots by these labels and targets. Pairs whose target isn't valid are left out.
    ReplaceRuntime(Vec<(String, StorePath)>),
    /// Adds an archive.
    AddSource {
        /// The name of its path.
        name: Name,
        /// The references, in any order; at most 4,096.
        refs: Vec<StorePath>,
        /// The archive, as it arrived.
        nar: Intake,
    },
    /// Adds an object at a path.
    Import {
        /// The path.
        path: StorePath,
        /// The SHA-256 digest that the archive is to have.
        nar_hash: [u8; 32],
        /// The references, in any order; at most 4,096.
        refs: Vec<StorePath>,
        /// The deriver, if it is given. It needn't be valid.
        deriver: Option<StorePath>,
        /// The content address, if it is given.
        ca: Option<Ca>,
        /// The archive, as it arrived.
        nar: Intake,
    },
    /// Deletes dead objects.
    Collect {
        /// Whether liveness is to be ignored, which no rule allows.
        ignore_liveness: bool,
        /// How many bytes of archives are to be freed; all that is dead without a limit.
        max_freed: Option<u64>,
    },
    /// Deletes objects and all that refer to them.
    Delete {
        /// The paths.
        paths: Vec<StorePath>,
        /// Whether liveness is to be ignored, which no rule allows.
        ignore_liveness: bool,
    },
}

/// The operation of a request, on which the rules decide.
pub fn operation(request: &Request) -> Op<'_>
    ensures { operations.operation_of result ≡ verdicts.operation_of (request_view request.now) }
{
    match request {
        Request::AddText { .. }
        | Request::Info(_)
        | Request::Nar(_)
        | Request::Ls(_)
        | Request::List
        | Request::Live
        | Request::Dead
        | Request::ListRoots
        | Request::RootsOf(_)
        | Request::Report => Op::Plain,
        Request::SetPermanent { .. } => Op::SetPermanent,
        Request::DropPermanent { .. } => Op::DropPermanent,
        Request::SetUserRoot { user, .. } => Op::SetUserRoot(user.as_str()),
        Request::DropUserRoot { user, .. } => Op::DropUserRoot(user.as_str()),
        Request::Rollback { user, .. } => Op::Rollback(user.as_str()),
        Request::Switch { user, .. } => Op::Switch(user.as_str()),
        Request::DeleteGeneration { user, .. } => Op::DeleteGeneration(user.as_str()),
        Request::SetProfile { user, .. } => Op::SetProfile(user.as_str()),
        Request::AddTemp { owner, .. } => Op::AddTemp(owner.as_str()),
        Request::EndSession { owner, .. } => Op::EndSession(owner.as_str()),
        Request::ReplaceRuntime(_) => Op::ReplaceRuntime,
        Request::AddSource { .. } => Op::Plain,
        Request::Import { ca, .. } => Op::Import {
            has_address: ca.is_some(),
        },
        Request::Collect {
            ignore_liveness,
            ..
        } => Op::Collect {
            ignore_liveness: *ignore_liveness,
        },
        Request::Delete {
            ignore_liveness,
            ..
        } => Op::Delete {
            ignore_liveness: *ignore_liveness,
        },
    }
}
