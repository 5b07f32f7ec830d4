//! Names of entries.

ghost use Rattle.std.specs.Prelude.{◌≡◌, ◌==◌, ◌&&◌, not};
ghost use Rattle.std.specs.List.{list_all};
ghost use Rattle.std.specs.Option.{option_copied};
ghost use Rattle.nar.specs.Tree.{is_name as name_test, rises};

use crate::words::{DOT, DOTS};

fn is_unbroken(name: &[u8]) -> bool
    ensures { result ≡ list_all (λ b. not (b == 47) && not (b == 0)) name.now }
{
    name.iter().all(|b| *b != b'/' && *b != 0)
}

/// Whether some bytes are a name: not empty, `.` or `..`, and without a `/` or a zero byte.
pub fn is_name(name: &[u8]) -> bool
    ensures { result ≡ name_test name.now }
{
    !name.is_empty() && name != DOT && name != DOTS && is_unbroken(name)
}

/// Whether the name is above the last one, by bytes.
pub fn is_above(last: Option<&[u8]>, name: &[u8]) -> bool
    ensures { result ≡ rises (option_copied last.entry) name.now }
{
    match last {
        None => true,
        Some(last) => last.cmp(name).is_lt(),
    }
}
