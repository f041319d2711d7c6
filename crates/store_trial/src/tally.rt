// How often each kind of answer came.
use keys::{CodeKey, Reason};
use ledger::{Answer, Granted};

// The least number of a refusal to a call.
const FIRST_REFUSAL: usize = 3;

#[derive(Clone, Copy, Default, Debug)]
pub struct Tally {
    reports: u32,
    jobs: u32,
    records: u32,
    nothing: u32,
    done: u32,
    commits: u32,
    // refusals 3 to 11
    refused: [u32; 9],
    // calls that the two stores answered differently
    differences: u32,
}

impl Tally {
    pub fn count(&mut self, answer: Answer<CodeKey, u32>) {
        match answer {
            Ok(Granted::Report { .. }) => add_one(&mut self.reports),
            Ok(Granted::Job { .. }) => add_one(&mut self.jobs),
            Ok(Granted::Record(Some(_)) | Granted::Next(Some(_))) => add_one(&mut self.records),
            Ok(Granted::Record(None) | Granted::Next(None)) => add_one(&mut self.nothing),
            Ok(Granted::Done | Granted::Aged { .. }) => add_one(&mut self.done),
            Ok(Granted::Stamp(_)) => add_one(&mut self.commits),
            Err(why) => self.count_refusal(why.number()),
        }
    }

    // By its number, since the counts are printed in the order of the numbers.
    fn count_refusal(&mut self, number: u8) {
        let Some(slot) = usize::from(number).checked_sub(FIRST_REFUSAL) else {
            return;
        };
        if let Some(count) = self.refused.get_mut(slot) {
            add_one(count);
        }
    }

    pub fn differ(&mut self) {
        add_one(&mut self.differences);
    }
}

fn add_one(count: &mut u32) {
    *count = count.saturating_add(1);
}
