// Keys and records as pieces: their texts, as the crate of texts defines them.
// A trait and its impl for another crate's type have to stand in one crate, so these stand here.
// They do not write by the `Display` of records: a line is refused just where it does not fit, and formatting that fails says nothing of that.
ghost use Rattle.text.specs.Codes.{code_key_text};
ghost use Rattle.text.specs.Coolants.{coolant_text};
ghost use Rattle.text.specs.Records.{fault_text};

use crate::line::OpenLine;
use crate::piece::Piece;
use crate::refusal::PageRefusal;
use keys::CodeKey;
use text::{Coolant, FaultRecord, write_code_key};

impl Piece for CodeKey {
    ghost text = { code_key_text };

    fn put(self, line: &mut OpenLine) -> Result<(), PageRefusal> {
        write_code_key(self).put(line)
    }
}

impl Piece for Coolant {
    ghost text = { coolant_text };

    #[tactic(auto, unfolding(text::specs::Coolants::coolant_text))]
    fn put(self, line: &mut OpenLine) -> Result<(), PageRefusal> {
        self.celsius().put(line)
    }
}

impl Piece for FaultRecord {
    ghost text = { fault_text };

    #[tactic(auto, unfolding(text::specs::Records::fault_text))]
    fn put(self, line: &mut OpenLine) -> Result<(), PageRefusal> {
        (
            self.status,
            (self.occurrences, (self.engine_speed, self.coolant)),
        )
            .put(line)
    }
}
