// The order storage as definitions: specs/Order.antt. Its laws are in crate order_laws, the code in crates order_places and order_renewal.
#![tactic(auto)]

// How many places each superblock has.
pub const PLACES_EACH: usize = 256;
