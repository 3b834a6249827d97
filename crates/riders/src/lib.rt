// Who rides which train: the orders by their standings, and how they move.
#![tactic(auto)]

pub mod moving;
pub mod standing;
