//! Why what is asked can't be had.

use policy::KeyWord;

/// Why what is asked can't be had: each refusal of the product, in the order of their numbers. Users see the number and
/// the name.
#[derive(Clone, Copy, PartialEq, Eq, Debug)]
pub enum Refusal {
    /// An archive ends before its next string does.
    Truncated,
    /// A string of an archive isn't one of those that are allowed there.
    BadTag,
    /// A byte after a string of an archive isn't zero, where only zeros fill it up to a multiple of 8.
    BadPadding,
    /// A name in an archive is empty, `.` or `..`, or holds a `/` or a zero byte.
    BadName,
    /// A name in an archive isn't above the one before it in its directory, by bytes.
    NotSorted,
    /// More than 256 nodes of an archive are nested in one another.
    TooDeep,
    /// More bytes follow the end of an archive.
    Trailing,
    /// A string of an archive would end past byte 16,777,216.
    TooLarge,
    /// A byte isn't a digit of base 32.
    BadDigit,
    /// A text in base 32 has another number of digits than the bytes that it should spell.
    BadLength,
    /// The number that the digits spell needs more bytes.
    Overflow,
    /// The name isn't that of a store object.
    BadStoreName,
    /// The text isn't a store directory.
    BadStoreDir,
    /// A path text is neither a full path in the store directory nor a base name.
    BadStorePath,
    /// The text isn't a content address.
    BadCa,
    /// The content address isn't that of the path, the references and the archive.
    CaMismatch,
    /// The derivation text is malformed, or there's none.
    BadDerivation,
    /// Two outputs of a derivation text share a name.
    DoubleOutput,
    /// The configuration is malformed; the key word says where.
    BadConfig(KeyWord),
    /// No user is named, or the user or the group isn't a plain name.
    BadCaller,
    /// The file isn't a sound database.
    BadSchema,
    /// The database is sound, and that of another store directory.
    OtherStoreDir,
    /// A path isn't valid.
    NotValid,
    /// A reference isn't valid.
    MissingReference,
    /// The archive has another digest than the given one.
    NarHashMismatch,
    /// A content-addressed object refers to itself.
    SelfReference,
    /// No root has this name.
    NoRoot,
    /// No profile has this owner and name.
    NoProfile,
    /// The profile has no generation of this number.
    NoGeneration,
    /// The current generation isn't deleted.
    CurrentGeneration,
    /// No generation is below the current one.
    NoOlderGeneration,
    /// No number is left for a generation.
    GenerationLimit,
    /// More than 4,096 references.
    TooManyReferences,
    /// A user, root or profile name isn't a plain name.
    BadRootName,
    /// A label isn't a runtime label.
    BadLabel,
    /// What was sent begins with no request head.
    BadHead,
    /// The length of a message's body is malformed, is given twice or is coded otherwise, or the body ends before it.
    BadBodyLength,
    /// A message's body would have more than 20,971,520 bytes.
    BodyTooLarge,
    /// No route has this target.
    NoRoute,
    /// The route has no such method.
    BadMethod,
    /// The head of a message's body is malformed.
    BadBodyHead,
    /// The number of a session isn't 1 to 4,194,304.
    BadSession,
}
