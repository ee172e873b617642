// Small callers of the layers below, of the kind that upper layers have, proved from the contracts alone.
#![tactic(auto)]

mod posts;
mod puts;

pub use posts::{move_back, post_both, post_reversed};
pub use puts::{Spot, put_twice};

#[cfg(test)]
mod tests;
