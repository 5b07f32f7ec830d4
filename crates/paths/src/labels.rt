//! Labels of runtime roots.
#![tactic(auto)]

ghost use Rattle.std.specs.Prelude.{◌≡◌};
ghost use Rattle.std.specs.List.{list_all};
ghost use Rattle.paths.specs.Root.{is_label_byte, is_runtime_label};

fn is_label_byte(b: u8) -> bool
    ensures { result ≡ is_label_byte b }
{
    33 <= b && b <= 126
}

fn all_label_bytes(bytes: &[u8]) -> bool
    ensures { result ≡ list_all is_label_byte bytes.now }
{
    bytes.iter().all(|b| is_label_byte(*b))
}

/// Whether a text is the label of a runtime root: 1 to 256 bytes, each from `!` (33) to `~` (126).
///
/// ```rust
/// assert!(rt; paths::labels::is_runtime_label("/run/booted-system"));
/// assert!(rt; !paths::labels::is_runtime_label("two words"));
/// ```
pub fn is_runtime_label(label: &str) -> bool
    ensures { result ≡ is_runtime_label label.now }
{
    let bytes = label.as_bytes();
    if bytes.is_empty() || bytes.len() > 256 {
        return false;
    }
    all_label_bytes(bytes)
}
