//! The classes, the rules, and what the rules ask of a request.
ghost use Rattle.std.specs.Prelude.{◌≡◌};
ghost use Rattle.policy.specs.Words.{class_word, rule_word};

/// The class of a caller: what they may do at most.
#[derive(Clone, Copy, PartialEq, Eq, Debug)]
pub enum Class {
    /// Matched by neither user list.
    Stranger,
    /// Matched by `allowed-users` alone.
    Allowed,
    /// Matched by `trusted-users`.
    Trusted,
}

impl Class {
    /// The word for the class: `stranger`, `allowed` or `trusted`.
    ///
    /// ```rust
    /// use policy::Class;
    ///
    /// assert_eq!(rt; Class::Trusted.as_str(), "trusted");
    /// ```
    pub fn as_str(self) -> &'static str
        ensures { result.now ≡ class_word self }
    {
        match self {
            Class::Stranger => "stranger",
            Class::Allowed => "allowed",
            Class::Trusted => "trusted",
        }
    }
}

/// A rule that a request has to keep, in the order in which the rules are tested.
#[derive(Clone, Copy, PartialEq, Eq, Debug)]
pub enum Rule {
    /// A stranger may not connect: whatever they ask is denied.
    Connect,
    /// Only a trusted caller may import an object without a content address.
    TrustedImport,
    /// Only a trusted caller may set or drop a permanent root.
    TrustedPermanentRoot,
    /// Only a trusted caller may replace the runtime roots.
    TrustedRuntimeRoots,
    /// A root, profile or session is its owner's; a trusted caller may drop a root or generation of others, or end
    /// their session.
    OwnRoot,
    /// Nobody may ignore liveness.
    NoIgnoreLiveness,
    /// A live path may not be deleted.
    Live,
}

impl Rule {
    /// The word that a denial names the rule by.
    ///
    /// ```rust
    /// use policy::Rule;
    ///
    /// assert_eq!(rt; Rule::NoIgnoreLiveness.as_str(), "no-ignore-liveness");
    /// ```
    pub fn as_str(self) -> &'static str
        ensures { result.now ≡ rule_word self }
    {
        match self {
            Rule::Connect => "connect",
            Rule::TrustedImport => "trusted-import",
            Rule::TrustedPermanentRoot => "trusted-permanent-root",
            Rule::TrustedRuntimeRoots => "trusted-runtime-roots",
            Rule::OwnRoot => "own-root",
            Rule::NoIgnoreLiveness => "no-ignore-liveness",
            Rule::Live => "live",
        }
    }
}

/// What the rules ask of a request: its kind, and with some kinds an owner or a flag. Borrowed from the request.
#[derive(Clone, Copy, Debug)]
pub enum Op<'a> {
    /// A request that every caller who may connect may make.
    Plain,
    /// An object is imported; whether it has a content address.
    Import { has_address: bool },
    /// A permanent root is set.
    SetPermanent,
    /// A permanent root is dropped.
    DropPermanent,
    /// The runtime roots are replaced.
    ReplaceRuntime,
    /// A user root of this owner is set.
    SetUserRoot(&'a str),
    /// A user root of this owner is dropped.
    DropUserRoot(&'a str),
    /// A profile of this owner is set.
    SetProfile(&'a str),
    /// A profile of this owner is rolled back.
    Rollback(&'a str),
    /// A profile of this owner is switched to a generation.
    Switch(&'a str),
    /// A generation of a profile of this owner is deleted.
    DeleteGeneration(&'a str),
    /// A session of this owner gets a temporary root.
    AddTemp(&'a str),
    /// A session of this owner ends.
    EndSession(&'a str),
    /// Dead paths are collected; whether liveness is to be ignored.
    Collect { ignore_liveness: bool },
    /// Paths are deleted by name; whether liveness is to be ignored.
    Delete { ignore_liveness: bool },
}
