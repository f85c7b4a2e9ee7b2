// The numbers of a scheme, where the zones of a box lie by them, and why a setting or a call is refused.
// The profile's type carries its ranges, so nothing above checks them again.

#![tactic(auto)]

pub mod fault;
pub mod profile;
pub mod setting;
pub mod zones;
