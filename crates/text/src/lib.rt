// Texts of codes, keys, decimal numbers and records: to values and back.
// Stands on the key kinds. A text that is not that of a value in its range is refused with 12.
#![tactic(auto)]

mod code;
mod coolant;
mod decimal;
mod digits;
mod examples;
mod field;
mod from_text;
mod record;
mod refusal;
mod vehicle_key;

pub use code::{TroubleCode, write_code, write_code_key};
pub use coolant::Coolant;
pub use examples::text_examples_hold;
pub use field::{split_at_byte, split_field};
pub use from_text::FromText;
pub use record::{FaultRecord, VehicleRecord};
pub use refusal::TextRefusal;
pub use vehicle_key::{vehicle_key_from_numbers, write_vehicle_key};
