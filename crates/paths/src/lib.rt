//! Store paths: names, base 32, content addresses, and decimal numbers.
#![tactic(auto)]

mod computed_path;
mod content_address;
mod digits;
mod facts;
pub mod labels;
pub mod laws;
pub mod numbers;
mod plain_name;
mod root;
mod store_dir;
mod store_name;
mod store_path;

pub use computed_path::{fold20, source_path, source_path_of, text_path, text_path_of};
pub use content_address::{Ca, CaError, Method, VerifyError};
pub use digits::{Base32Error, base32, unbase32};
pub use facts::Facts;
pub use plain_name::is_plain_name;
pub use root::{Root, RootKind};
pub use store_dir::{StoreDir, StoreDirError};
pub use store_name::{Name, NameError};
pub use store_path::{StorePath, StorePathError};
