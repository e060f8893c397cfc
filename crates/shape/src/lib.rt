// The shapes that meet, and the one polygonal feature that each of them answers for a direction.
#![tactic(auto)]

pub mod cuboid;
pub mod cylinder;
pub mod feature_id;
pub mod polygonal_feature3d;
pub mod polygonal_feature_map;
#[cfg(test)]
mod tests;
