//! The usage report.
ghost use Rattle.std.specs.Prelude.{◌≡◌, ◌++◌, ◌-◌, IfOk, OnOk, codes, length, decimal, replicate, string_bytes};
ghost use Rattle.report.specs.Usage as spec;
ghost use Rattle.report.specs.Usage.{left_in, right_in, usage_line};
ghost use Rattle.store_types.specs.View.{usage_view};

use std::alloc::{AllocError, Global};
use store_types::Usage;

/// The widths of the columns: a word, a number of paths, a number of bytes.
const WORD: usize = 6;

const PATHS: usize = 10;

const BYTES: usize = 16;

fn push_spaces(text: &mut String, count: usize) -> Result<(), AllocError>
    ensures { OnOk result (string_bytes text.new ≡ string_bytes text.old ++ replicate count 32) }
{
    for _i in 0..count {
        text.push_str(" ")?;
    }
    Ok(())
}

fn push_left(text: &mut String, width: usize, word: &str) -> Result<(), AllocError>
    ensures { OnOk result (string_bytes text.new ≡ string_bytes text.old ++ left_in width word.now) }
{
    text.push_str(word)?;
    push_spaces(text, width.saturating_sub(word.len()))
}

fn push_right(text: &mut String, width: usize, numeral: &str) -> Result<(), AllocError>
    ensures { OnOk result (string_bytes text.new ≡ string_bytes text.old ++ right_in width numeral.now) }
{
    push_spaces(text, width.saturating_sub(numeral.len()))?;
    text.push_str(numeral)
}

fn push_columns(text: &mut String, word: &str, paths: &str, bytes: &str) -> Result<(), AllocError>
    ensures { OnOk result (string_bytes text.new ≡ string_bytes text.old ++ spec.columns word.now paths.now bytes.now) }
{
    push_left(text, WORD, word)?;
    text.push_str(" ")?;
    push_right(text, PATHS, paths)?;
    text.push_str(" ")?;
    push_right(text, BYTES, bytes)?;
    text.push_str("\n")
}

fn push_usage(alloc: Global, text: &mut String, word: &str, usage: Usage) -> Result<(), AllocError>
    ensures { OnOk result (string_bytes text.new ≡ string_bytes text.old ++ usage_line word.now (usage_view usage)) }
{
    let Usage { paths, bytes } = usage;
    let paths = format!(in alloc; "{paths}")?;
    let bytes = format!(in alloc; "{bytes}")?;
    push_columns(text, word, paths.as_str(), bytes.as_str())
}

/// The usage report on the live, the dead and all paths: of each how many they are, and how many bytes their archives
/// have.
///
/// ```rust
/// use store::Usage;
///
/// let live = Usage { paths: 1, bytes: 112 };
/// let dead = Usage { paths: 1, bytes: 208 };
/// let total = Usage { paths: 2, bytes: 320 };
/// let text = report::usage_text(alloc, live, dead, total)?;
/// let mut lines = text.as_str().split('\n');
/// assert_eq!(rt; lines.next(), Some("class       paths            bytes"));
/// assert_eq!(rt; lines.next(), Some("live            1              112"));
/// ```
///
/// # Errors
///
/// Memory was refused.
pub fn usage_text(
    alloc: Global,
    live: Usage,
    dead: Usage,
    total: Usage,
) -> Result<String, AllocError>
    ensures { IfOk result
        (λ text. string_bytes text ≡ spec.usage_text (usage_view live) (usage_view dead) (usage_view total)) }
{
    let mut text = String::new(alloc);
    push_columns(&mut text, "class", "paths", "bytes")?;
    push_usage(alloc, &mut text, "live", live)?;
    push_usage(alloc, &mut text, "dead", dead)?;
    push_usage(alloc, &mut text, "total", total)?;
    Ok(text)
}
