//! The paths that the roots keep alive.
#![tactic(auto)]

mod ancestors;
mod ancestors_back;
mod back_walk;
mod backward;
mod keep;
mod laws;
mod limited_collection;
mod limited_laws;
mod marks;
mod numbered;
mod queue;
mod referrer_counts;
mod remainder;
mod removed_groups;
mod reversed_graph;
mod room;
mod turned_links;
mod walk;
mod walk_step;

pub use ancestors::{referrers, roots_of};
pub use ancestors_back::{first_root_back, referrers_back, roots_back};
pub use back_walk::{Reaching, walk_back};
pub use keep::Keep;
pub use laws::{
    closures_are_decided, edges_are_decided, first_roots_are_least, live_and_dead_part_the_paths,
    liveness_is_decided, more_roots_keep_more, places_are_numbers, reach_is_closed,
    reach_is_decided, references_always_keep,
};
pub use limited_collection::limited;
pub use limited_laws::{
    a_limit_beyond_all_removes_all, a_limit_of_nothing_removes_nothing,
    limited_collections_have_one_answer, limits_remove_dead_paths,
    referrers_are_deleted_with_it_or_before, what_stays_refers_to_nothing_deleted,
};
pub use marks::{Marks, mark};
pub use numbered::{Graph, Root, Roots, Row, are_valid, do_rise, place_of};
pub use turned_links::{Sources, TurnedLinks};
