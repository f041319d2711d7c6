// Records of the fault book and of the vehicle book.
// The types keep the ranges: a record outside them cannot be made. Their texts are their fields in decimal, parted by one space.
ghost use Rattle.std.specs.Prelude.{◌≡◌, Some};
ghost use Rattle.text.specs.Records.{FaultFits, VehicleRecordFits, fault_of, fault_text, vehicle_record_of, vehicle_record_text};

use crate::coolant::Coolant;
use crate::field::split_field;
use crate::from_text::FromText;
use std::fmt;

// What a control unit recorded with a trouble code.
#[derive(Clone, Copy)]
pub struct FaultRecord {
    pub status: u8,
    pub occurrences: u16,
    // in quarter revolutions a minute
    pub engine_speed: u16,
    pub coolant: Coolant,
}

// What the garage recorded of a vehicle.
#[derive(Clone, Copy)]
pub struct VehicleRecord {
    pub kilometres: u32,
    // number of the work order
    pub work_order: u32,
}

#[tactic(auto, unfolding(crate::specs::Records::fault_text))]
impl fmt::Display for FaultRecord {
    ghost output = { λ f. Some (fault_text f) };

    fn fmt<W: fmt::Write>(&self, f: &mut fmt::Formatter<W>) -> fmt::Result {
        write!(
            f,
            "{} {} {} {}",
            self.status, self.occurrences, self.engine_speed, self.coolant
        )
    }
}

impl fmt::Display for VehicleRecord {
    ghost output = { λ v. Some (vehicle_record_text v) };

    fn fmt<W: fmt::Write>(&self, f: &mut fmt::Formatter<W>) -> fmt::Result {
        write!(f, "{} {}", self.kilometres, self.work_order)
    }
}

// Four fields, of which each is the text of its value.
#[tactic(auto, using(crate::proofs::RecordTexts::own_fault), unfolding(crate::specs::Records::fault_of))]
impl FromText for FaultRecord {
    ghost text = { fault_text };

    ghost Fits = { FaultFits };

    ghost value = { fault_of };

    fn from_text(s: &[u8]) -> Option<FaultRecord> {
        let (status, rest) = split_field(s);
        let (occurrences, rest) = split_field(rest);
        let (engine_speed, coolant) = split_field(rest);
        Some(FaultRecord {
            status: u8::from_text(status)?,
            occurrences: u16::from_text(occurrences)?,
            engine_speed: u16::from_text(engine_speed)?,
            coolant: Coolant::from_text(coolant)?,
        })
    }
}

// Two fields.
#[tactic(auto, using(crate::proofs::RecordTexts::own_vehicle_record), unfolding(crate::specs::Records::vehicle_record_of))]
impl FromText for VehicleRecord {
    ghost text = { vehicle_record_text };

    ghost Fits = { VehicleRecordFits };

    ghost value = { vehicle_record_of };

    fn from_text(s: &[u8]) -> Option<VehicleRecord> {
        let (kilometres, work_order) = split_field(s);
        Some(VehicleRecord {
            kilometres: u32::from_text(kilometres)?,
            work_order: u32::from_text(work_order)?,
        })
    }
}
