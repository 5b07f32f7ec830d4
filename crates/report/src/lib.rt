//! The texts of replies and refusals.
#![tactic(auto)]

mod answers;
mod denials;
mod failures;
mod laws;
mod line_pieces;
mod lists;
mod numbers;
mod outputs;
mod records;
mod replies;
mod usage;

pub use answers::answer_text;
pub use denials::{denial_line, push_denial};
pub use failures::{failure_line, failure_of};
pub use laws::{
    a_new_store_uses_nothing, listings_lose_nothing, numbers_are_one_to_forty_two, refusals_differ,
    stops_are_lines, worked_lines, worked_narinfo, worked_usage,
};
pub use lists::{path_line, paths_text, roots_text};
pub use model::{Failure, Refusal, refusal_line};
pub use numbers::refusal_text;
pub use outputs::{print, print_failure};
pub use records::narinfo;
pub use replies::{reply_pieces, reply_text};
pub use usage::usage_text;
