//! The bodies of requests over HTTP.
#![tactic(auto)]

mod add;
mod collect;
mod entries;
mod error;
mod heads;
mod import;
mod lines;
mod parts;
mod prefix;
mod roots;
mod values;
mod whole;

pub use add::named_body;
pub use collect::{CollectHead, collect_head};
pub use error::BodyError;
pub use heads::{DeleteHead, NamedHead, delete_head, named_head, path_head};
pub use import::{ImportHead, import_body, import_head};
pub use lines::Lines;
pub use parts::{Body, body_of};
pub use prefix::{Prefix, lines_of};
pub use roots::runtime_head;
pub use whole::{collect_body, delete_body, is_blank, path_body, runtime_body};
