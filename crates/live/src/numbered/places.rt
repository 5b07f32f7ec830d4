//! The places of paths among rows.
ghost use Rattle.std.specs.Prelude.{◌≡◌, ◌<◌, ◌++◌, List, [], IfNone, IfOk, IfSome, OnOk, filter, length};
ghost use Rattle.live.specs.Graph.{same};
ghost use Rattle.live.specs.Numbering.{Rise, Row as Object, numbered_links, path_at, paths_of, place_of as place};
ghost use Rattle.live.specs.Numbering.{places_of};
ghost use Rattle.live.specs.Arguments.{row_view, rows_view};
ghost use Rattle.live.specs.Heads.{AreHeaded, AreIndexed};
ghost use Rattle.live.specs.Added.{IsAdded};
ghost use Rattle.live.specs.Searched.{IsSearched};

use crate::numbered::Span;
use crate::numbered::guesses::Guesses;
use crate::numbered::heads::head_of;
use crate::numbered::rows::Row;
use paths::StorePath;
use std::alloc::AllocError;
use std::cmp::Ordering;
use std::marker::Model;

/// The place of a path, if it is a row's, where it can only be from one place on and before another.
fn place_between(rows: &[Row], path: &StorePath, from: usize, to: usize) -> Option<usize>
    requires { IsSearched rows.now path.now from to }
    ensures { result ≡ place (paths_of (rows_view rows.now)) path.now }
{
    let mut low = from;
    let mut high = to;
    'search: while low < high {
        let middle = low + (high - low) / 2;
        match rows[middle].path.cmp(path) {
            Ordering::Less => low = middle + 1,
            Ordering::Equal => return Some(middle),
            Ordering::Greater => high = middle,
        }
    }
    None
}

/// The place of a path among rows that strictly rise. `None` if no row has it.
///
/// ```rust
/// use live::Row;
/// use paths::StorePath;
///
/// let first = StorePath::from_base(alloc, "00000000000000000000000000000000-p")?;
/// let second = StorePath::from_base(alloc, "11111111111111111111111111111111-x")?;
/// let p = Row { path: &first, references: &[], outputs: &[], deriver: None };
/// let rows = [p];
/// assert!(rt; live::do_rise(&rows));
/// assert_eq!(rt; live::place_of(&rows, &first), Some(0));
/// assert_eq!(rt; live::place_of(&rows, &second), None);
/// ```
pub fn place_of(rows: &[Row], path: &StorePath) -> Option<usize>
    requires { Rise (paths_of (rows_view rows.now)) }
    ensures place { result ≡ place (paths_of (rows_view rows.now)) path.now }
    ensures found { IfSome result (λ i. (i < length rows.now) × (path_at (rows_view rows.now) i ≡ path.now)) }
    ensures none { IfNone result (filter (same path.now) (paths_of (rows_view rows.now)) ≡ []) }
{
    place_between(rows, path, 0, rows.len())
}

/// Where a path can only be, by the heads of the rows' paths: from one place on and before another. A head that is the
/// path's own ends the search.
fn range_by_head(rows: &[Row], heads: &[u64], path: &StorePath) -> (usize, usize)
    requires { AreHeaded (paths_of (rows_view rows.now)) heads.now }
    ensures { IsSearched rows.now path.now result.0 result.1 }
{
    let head = head_of(path);
    let mut low = 0;
    let mut high = heads.len();
    'search: while low < high {
        let middle = low + (high - low) / 2;
        let other = heads[middle];
        if other == head {
            break;
        }
        if other < head {
            low = middle + 1;
        } else {
            high = middle;
        }
    }
    (low, high)
}

/// Rows, with the heads and the texts of their paths. Contracts see it as the rows.
#[derive(Drop)]
pub(crate) struct Index<'a> {
    pub(crate) rows: &'a [Row<'a>],
    pub(crate) heads: Vec<u64>,
    pub(crate) texts: Vec<&'a str>,
}

impl<'a> Model for Index<'a> {
    ghost Value = { List Object };

    ghost view = { λ x. rows_view x.rows.now };

    ghost invariant = { λ x. AreIndexed (paths_of (rows_view x.rows.now)) x.heads.items x.texts.items };
}

impl<'a> Index<'a> {
    /// The place of a path, if it is a row's, looked for first at a place where it may be, and then by heads: paths are
    /// compared only where heads are the same.
    fn find(&self, path: &StorePath, guess: usize) -> Option<usize>
        ensures { result ≡ place (paths_of self.now) path.now }
    {
        if guess < self.texts.len() && self.texts[guess] == path.as_str() {
            return Some(guess);
        }
        let (low, high) = range_by_head(self.rows, &self.heads, path);
        place_between(self.rows, path, low, high)
    }

    /// The places of the paths that are rows' go to the end of the list.
    fn add_places(
        &self,
        targets: &mut Vec<usize>,
        guesses: &mut Guesses,
        paths: &[StorePath],
    ) -> Result<(), AllocError>
        ensures { OnOk result (targets.new.items ≡ targets.old.items ++ places_of (paths_of self.now) paths.now) }
    {
        for path in paths {
            if let Some(place) = self.find(path, guesses.next()) {
                targets.push(place)?;
            }
        }
        Ok(())
    }

    /// The places of an object's entries go to the end of the list.
    pub(crate) fn add_row(
        &self,
        targets: &mut Vec<usize>,
        guesses: &mut Guesses,
        row: Row,
    ) -> Result<Span, AllocError>
        ensures { IfOk result
            (IsAdded (numbered_links (paths_of self.now) (row_view row.entry).1) targets.old.items targets.new.items) }
    {
        let references = targets.len();
        self.add_places(targets, guesses, row.references)?;
        let outputs = targets.len();
        self.add_places(targets, guesses, row.outputs)?;
        let deriver = targets.len();
        if let Some(path) = row.deriver {
            if let Some(place) = self.find(path, guesses.next()) {
                targets.push(place)?;
            }
        }
        Ok(Span {
            references,
            outputs,
            deriver,
            end: targets.len(),
        })
    }
}
