//! The TOML document of a configuration.
ghost use Rattle.std.specs.Prelude.{◌≡◌, ◌⊎◌, IfOk, IfErr, Some, None};
ghost use Rattle.toml.specs.View.{table_view};
ghost use Rattle.policy.specs.Toml.{document_of};

use crate::error::{ConfigError, KeyWord};
use std::alloc::Global;
use toml::Table;

/// The greatest number of bytes that a configuration may have.
pub const MAX_CONFIG_BYTES: usize = 1_048_576;

/// The table of a document: `Bad(KeyWord::Syntax)` if there are too many bytes, or they aren't a TOML document.
pub fn read_document(alloc: Global, bytes: &[u8]) -> Result<Table, ConfigError>
    ensures ok { IfOk result (λ t. document_of bytes.now ≡ Some (table_view t)) }
    ensures err { IfErr result
        (λ e. (e ≡ ConfigError.Memory) ⊎ ((e ≡ ConfigError.Bad KeyWord.Syntax) × (document_of bytes.now ≡ None))) }
{
    if bytes.len() > MAX_CONFIG_BYTES {
        return Err(ConfigError::Bad(KeyWord::Syntax));
    }
    match toml::table_from_slice(alloc, bytes) {
        Ok(table) => Ok(table),
        Err(fault) => {
            if fault.is_memory() {
                Err(ConfigError::Memory)
            } else {
                Err(ConfigError::Bad(KeyWord::Syntax))
            }
        }
    }
}
