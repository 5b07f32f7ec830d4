//! The tables of a store, once they are open: read, and changed by one transaction a call.
#![tactic(auto)]

mod archive_pieces;
mod archives;
mod change;
mod close;
mod connected;
mod entries;
mod generations;
mod laws;
mod named_roots;
mod objects;
mod permanent;
mod profiles;
mod removal;
mod roots;
mod runtime;
mod sessions;
mod tables;
mod texts;
mod user_roots;

pub use close::Close;
pub use connected::over;
pub use entries::{Object, Snapshot};
pub use laws::open_tables_have_a_world;
pub use named_roots::RootName;
pub use tables::Tables;
