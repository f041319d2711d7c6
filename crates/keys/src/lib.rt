// Key kinds: what the store asks of one, and the two of the garage tablet. Also what every refusal tells.
// Stands on nothing but the standard library; every other crate stands on it.
#![tactic(auto)]

mod code;
mod key;
mod reason;
mod spelling;
mod vehicle;
mod vehicle_order;

pub use code::CodeKey;
pub use key::Key;
pub use reason::Reason;
pub use vehicle::VehicleKey;
