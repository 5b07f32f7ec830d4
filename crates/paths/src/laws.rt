//! Laws of the definitions, each the contract of a function that does nothing: the functions of `specs/` are the
//! relations next to them.
ghost use Rattle.paths.specs.Laws.{OneSpelling, OnePathOrder, OnePath, TextPathsAreBaseNames, SourcePathsAreBaseNames};
ghost use Rattle.paths.specs.Laws.{OneAddressText, VerifyingIsExact, TextAddressesVerify, SourceAddressesVerify};

/// Bytes are spelled by one text in base 32.
pub fn bytes_have_one_spelling()
    ensures { OneSpelling }
{}

/// An object has one path, over the references as a set.
pub fn an_object_has_one_path()
    ensures order { OnePathOrder }
    ensures path { OnePath }
{}

/// A computed path is a base name.
pub fn computed_paths_are_base_names()
    ensures text { TextPathsAreBaseNames }
    ensures source { SourcePathsAreBaseNames }
{}

/// A text is a content address if and only if it is the text of that address.
pub fn an_address_has_one_text()
    ensures { OneAddressText }
{}

/// The test of a content address passes if and only if the address fits the object. It passes for the address that a
/// text or source object gets, at its computed path.
pub fn addresses_verify_exactly()
    ensures exact { VerifyingIsExact }
    ensures text { TextAddressesVerify }
    ensures source { SourceAddressesVerify }
{}
