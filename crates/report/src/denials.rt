//! Denials of a store as lines.
ghost use Rattle.std.specs.Prelude.{◌≡◌, ◌++◌, IfOk, OnOk, codes, option_map, string_bytes};
ghost use Rattle.policy.specs.Words.{rule_word};
ghost use Rattle.tables_outline.specs.Maps.{labelled_bytes};
ghost use Rattle.report.specs.Stops.{denial_text, plain_denial, shown_text};

use crate::lists::push_root;
use paths::{StoreDir, StorePath};
use policy::Rule;
use std::alloc::{AllocError, Global};

/// Appends what a denial begins with, up to the word of the rule.
fn push_rule(text: &mut String, rule: Rule) -> Result<(), AllocError>
    ensures { OnOk result (string_bytes text.new ≡ string_bytes text.old ++ codes "denied: " ++ rule_word rule) }
{
    text.push_str("denied: ")?;
    text.push_str(rule.as_str())
}

/// Appends what follows the word of the rule: a root, if one is shown.
fn push_shown(
    text: &mut String,
    dir: &StoreDir,
    root: &Option<(String, StorePath)>,
) -> Result<(), AllocError>
    ensures { OnOk result (string_bytes text.new ≡ string_bytes text.old
        ++ shown_text dir.now (option_map labelled_bytes root.now)) }
{
    match root {
        Some((label, target)) => {
            text.push_str(" ")?;
            push_root(text, dir, label.as_str(), target)
        }
        None => Ok(()),
    }
}

/// The line of a denial, with the root that is shown, if one is.
pub(crate) fn denied_line(
    alloc: Global,
    dir: &StoreDir,
    rule: Rule,
    root: &Option<(String, StorePath)>,
) -> Result<String, AllocError>
    ensures { IfOk result (λ text. string_bytes text ≡ denial_text dir.now rule (option_map labelled_bytes root.now)) }
{
    let mut text = String::new(alloc);
    push_rule(&mut text, rule)?;
    push_shown(&mut text, dir, root)?;
    text.push_str("\n")?;
    Ok(text)
}

/// The line of a denial, with its line feed: the word of the rule, and the root that is shown, if one is.
///
/// ```rust
/// use paths::{StoreDir, StorePath};
/// use policy::Rule;
///
/// let dir = StoreDir::parse(alloc, "/nix/store")?;
/// let target = StorePath::from_base(alloc, "11111111111111111111111111111111-x")?;
/// let root = Some((String::from_str(alloc, "/proc/2/exe")?, target));
/// let line = report::denial_line(alloc, &dir, Rule::Live, root)?;
/// assert_eq!(rt; line.as_str(), "denied: live /proc/2/exe /nix/store/11111111111111111111111111111111-x\n");
/// ```
///
/// # Errors
///
/// Memory was refused.
pub fn denial_line(
    alloc: Global,
    dir: &StoreDir,
    rule: Rule,
    root: Option<(String, StorePath)>,
) -> Result<String, AllocError>
    ensures { IfOk result (λ text. string_bytes text ≡ denial_text dir.now rule (option_map labelled_bytes root)) }
{
    denied_line(alloc, dir, rule, &root)
}

/// Appends the line of a denial that shows no root, with its line feed.
///
/// ```rust
/// use policy::Rule;
///
/// let mut text = String::new(alloc);
/// report::push_denial(&mut text, Rule::Connect)?;
/// assert_eq!(rt; text.as_str(), "denied: connect\n");
/// ```
///
/// # Errors
///
/// Memory was refused. A prefix of the line may have been appended.
pub fn push_denial(text: &mut String, rule: Rule) -> Result<(), AllocError>
    ensures { OnOk result (string_bytes text.new ≡ string_bytes text.old ++ plain_denial rule) }
{
    push_rule(text, rule)?;
    text.push_str("\n")
}
