//! The rows of one path among all rows of a table, which are in the order of their paths.

ghost use Rattle.std.specs.Prelude.{◌≡◌, List, ℕ, true, false, filter, map, is_some, IfSome};
ghost use Rattle.std.specs.List.{list_any};
ghost use Rattle.std.specs.Ordering.{eq_by_cmp};
ghost use Rattle.paths.specs.Root.{bytes_cmp};
ghost use Rattle.tables_load_objects.specs.Rising.{Rises};

use paths::StorePath;
use tables_rows::outputs::Output;
use tables_rows::pieces::PieceKey;
use tables_rows::references::Reference;

/// A row that belongs to a path.
pub(crate) trait OfPath {
    // The base name of the path.
    ghost base_of: { Self → List ℕ };

    fn base(&self) -> &str
        ensures { result.now ≡ base_of self.now };
}

impl OfPath for Reference {
    ghost use Rattle.std.specs.Prelude.{string_bytes};

    ghost base_of = { λ row. string_bytes row.base };

    fn base(&self) -> &str {
        self.base.as_str()
    }
}

impl OfPath for Output {
    ghost use Rattle.std.specs.Prelude.{string_bytes};

    ghost base_of = { λ row. string_bytes row.base };

    fn base(&self) -> &str {
        self.base.as_str()
    }
}

impl OfPath for PieceKey {
    ghost use Rattle.std.specs.Prelude.{string_bytes};

    ghost base_of = { λ row. string_bytes row.base };

    fn base(&self) -> &str {
        self.base.as_str()
    }
}

impl OfPath for StorePath {
    ghost base_of = { λ path. path };

    fn base(&self) -> &str {
        self.as_str()
    }
}

impl OfPath for &StorePath {
    ghost base_of = { λ path. path.now };

    fn base(&self) -> &str {
        self.as_str()
    }
}

/// The first row of a path among rows in order, if there is one.
pub(crate) fn first_of<'a, T: OfPath>(rows: &'a [T], base: &str) -> Option<&'a T>
    ensures found { IfSome result (λ row. base.now ≡ T.base_of row.now) }
    ensures any { Rises (map T.base_of rows.now)
        → is_some result ≡ list_any (λ row. eq_by_cmp bytes_cmp base.now (T.base_of row)) rows.now }
{
    let start = rows.partition_point(|row| row.base() < base);
    let (_, rest) = rows.split_at(start);
    let Some(first) = rest.first() else {
        return None;
    };
    if base == first.base() {
        Some(first)
    } else {
        None
    }
}

/// The rows of a path among rows in order, found by two searches.
pub(crate) fn group<'a, T: OfPath>(rows: &'a [T], base: &str) -> &'a [T]
    ensures { Rises (map T.base_of rows.now)
        → result.now ≡ filter (λ row. eq_by_cmp bytes_cmp base.now (T.base_of row)) rows.now }
{
    let start = rows.partition_point(|row| row.base() < base);
    let (_, rest) = rows.split_at(start);
    let count = rest.partition_point(|row| base == row.base());
    let (own, _) = rest.split_at(count);
    own
}
