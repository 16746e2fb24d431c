//! Which members of libraries a link takes, and the names that stay missing.
#![tactic(auto)]

mod laws;
mod likeness;
mod meeting;
mod name_map;
mod said;
mod searching;
mod taken;
mod unmet;

pub use laws::{least_choice, one_choice};
pub use likeness::{Offered, Whose, likes};
pub use said::{Member, Said, Wanted};
pub use searching::{Found, Search};
pub use unmet::missing;
