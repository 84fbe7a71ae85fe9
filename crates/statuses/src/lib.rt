// The statuses of one cell: sets of them, and what one record does to a status.
#![tactic(auto)]

pub mod acts;
pub mod sets;
pub mod stops;
