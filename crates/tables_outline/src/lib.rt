//! The outline of the tables, which is stored in memory: everything but the bytes of archives.
#![tactic(auto)]

mod all_roots;
mod borrowed_roots;
mod details;
mod labels;
mod link_flags;
mod link_lists;
mod link_names;
mod link_sources;
mod links;
mod loaded_entries;
mod object_map;
mod objects;
mod outline;
mod outputs;
mod profile_changes;
mod profiles;
mod root;
mod roots;
mod shared_texts;
mod source_links;
mod summary;
mod temporary;

pub use all_roots::root_list;
pub use details::Details;
pub use links::Links;
pub use outline::Outline;
pub use outputs::Outputs;
pub use profiles::Profile;
pub use summary::Summary;
