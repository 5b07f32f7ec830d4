//! Listings of paths and of roots: a line each.
ghost use Rattle.std.specs.Prelude.{◌≡◌, ◌++◌, IfOk, OnOk, codes, map, string_bytes};
ghost use Rattle.paths.specs.StorePath.{full_path};
ghost use Rattle.report.specs.Replies as spec;
ghost use Rattle.tables_outline.specs.Maps.{labelled_bytes};
ghost use Rattle.report.specs.Stops.{root_text};

use paths::{StoreDir, StorePath};
use std::alloc::{AllocError, Global};

/// Appends the full path of a store path.
pub(crate) fn push_path(
    text: &mut String,
    dir: &StoreDir,
    path: &StorePath,
) -> Result<(), AllocError>
    ensures { OnOk result (string_bytes text.new ≡ string_bytes text.old ++ full_path dir.now path.now) }
{
    text.push_str(dir.as_str())?;
    text.push_str("/")?;
    text.push_str(path.as_str())
}

/// Appends the full path of a store path, and a line feed.
pub(crate) fn push_path_line(
    text: &mut String,
    dir: &StoreDir,
    path: &StorePath,
) -> Result<(), AllocError>
    ensures { OnOk result (string_bytes text.new ≡ string_bytes text.old ++ spec.path_line dir.now path.now) }
{
    push_path(text, dir, path)?;
    text.push_str("\n")
}

/// Appends a label and the full path of a target.
pub(crate) fn push_root(
    text: &mut String,
    dir: &StoreDir,
    label: &str,
    target: &StorePath,
) -> Result<(), AllocError>
    ensures { OnOk result (string_bytes text.new ≡ string_bytes text.old ++ root_text dir.now (label.now, target.now)) }
{
    text.push_str(label)?;
    text.push_str(" ")?;
    push_path(text, dir, target)
}

/// Appends a label, the full path of a target, and a line feed.
pub(crate) fn push_root_line(
    text: &mut String,
    dir: &StoreDir,
    label: &str,
    target: &StorePath,
) -> Result<(), AllocError>
    ensures { OnOk result (string_bytes text.new ≡ string_bytes text.old
        ++ spec.root_line dir.now (label.now, target.now)) }
{
    push_root(text, dir, label, target)?;
    text.push_str("\n")
}

/// The full path of a store path, on a line.
///
/// ```rust
/// use paths::{StoreDir, StorePath};
///
/// let dir = StoreDir::parse(alloc, "/nix/store")?;
/// let path = StorePath::from_base(alloc, "xv2iccirbrvklck36f1g7vldn5v58vck-myfile")?;
/// let line = report::path_line(alloc, &dir, &path)?;
/// assert_eq!(rt; line.as_str(), "/nix/store/xv2iccirbrvklck36f1g7vldn5v58vck-myfile\n");
/// ```
///
/// # Errors
///
/// Memory was refused.
pub fn path_line(alloc: Global, dir: &StoreDir, path: &StorePath) -> Result<String, AllocError>
    ensures { IfOk result (λ text. string_bytes text ≡ spec.path_line dir.now path.now) }
{
    let mut text = String::new(alloc);
    push_path_line(&mut text, dir, path)?;
    Ok(text)
}

/// The full paths of some paths, one on each line.
///
/// ```rust
/// use paths::{StoreDir, StorePath};
///
/// let dir = StoreDir::parse(alloc, "/nix/store")?;
/// let path = StorePath::from_base(alloc, "xv2iccirbrvklck36f1g7vldn5v58vck-myfile")?;
/// let text = report::paths_text(alloc, &dir, &[path])?;
/// assert_eq!(rt; text.as_str(), "/nix/store/xv2iccirbrvklck36f1g7vldn5v58vck-myfile\n");
/// ```
///
/// # Errors
///
/// Memory was refused.
pub fn paths_text(alloc: Global, dir: &StoreDir, paths: &[StorePath]) -> Result<String, AllocError>
    ensures { IfOk result (λ text. string_bytes text ≡ spec.paths_text dir.now paths.now) }
{
    let mut text = String::new(alloc);
    for path in paths {
        push_path_line(&mut text, dir, path)?;
    }
    Ok(text)
}

/// The label and the full target of each root, one root on each line.
///
/// ```rust
/// use paths::{StoreDir, StorePath};
///
/// let dir = StoreDir::parse(alloc, "/nix/store")?;
/// let target = StorePath::from_base(alloc, "00000000000000000000000000000000-p")?;
/// let root = (String::from_str(alloc, "{censored}")?, target);
/// let text = report::roots_text(alloc, &dir, &[root])?;
/// assert_eq!(rt; text.as_str(), "{censored} /nix/store/00000000000000000000000000000000-p\n");
/// ```
///
/// # Errors
///
/// Memory was refused.
pub fn roots_text(
    alloc: Global,
    dir: &StoreDir,
    roots: &[(String, StorePath)],
) -> Result<String, AllocError>
    ensures { IfOk result (λ text. string_bytes text ≡ spec.roots_text dir.now (map labelled_bytes roots.now)) }
{
    let mut text = String::new(alloc);
    for root in roots {
        push_root_line(&mut text, dir, root.0.as_str(), &root.1)?;
    }
    Ok(text)
}
