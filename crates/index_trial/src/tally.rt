// What came of a list of calls: how many answers of each kind there were, and where they differ from the plain list's.
use crate::call::Answer;
use crate::plain::PlainList;
use crate::script::Script;
use crate::subject::Subject;
use keys::Reason;
use std::alloc::{AllocError, Global};

// What was answered to the call at this place of its list, beside the plain list's answer.
#[derive(Clone, Copy, Debug)]
pub struct Reply {
    place: usize,
    listed: Answer,
    answered: Answer,
}

impl Reply {
    // Whether the answer differs from the plain list's.
    fn differs(&self) -> bool {
        self.answered != self.listed
    }
}

// Drives the subject through the calls beside a new plain list of this capacity, and counts what it answered.
pub fn drive<S: Subject>(
    heap: Global,
    subject: &mut S,
    capacity: usize,
    script: &Script,
    tally: &mut Tally,
) -> Result<(), AllocError> {
    let mut list = PlainList::new(heap, capacity);
    for (place, call) in script.calls.iter().enumerate() {
        let listed = list.reply(*call)?;
        if let Some(answered) = subject.answer(*call) {
            tally.count(Reply {
                place,
                listed,
                answered,
            });
        }
    }
    Ok(())
}

// The least number of a refusal of an index.
const FIRST_REFUSAL: usize = 14;

#[derive(Clone, Copy, Default, Debug)]
pub struct Tally {
    asked: usize,
    numbers: usize,
    pairs: usize,
    nothing: usize,
    granted: usize,
    // refusals 14 to 17
    refused: [usize; 4],
    differences: usize,
    // the first reply that differs
    first: Option<Reply>,
}

impl Tally {
    // Counts the reply as it comes, so that no list of replies is kept.
    fn count(&mut self, reply: Reply) {
        add_one(&mut self.asked);
        match reply.answered {
            Answer::Number(Some(_)) => add_one(&mut self.numbers),
            Answer::Pair(Some(_)) => add_one(&mut self.pairs),
            Answer::Number(None) | Answer::Pair(None) => add_one(&mut self.nothing),
            Answer::Added(Ok(())) | Answer::Discarded(Ok(())) => add_one(&mut self.granted),
            Answer::Added(Err(why)) => self.count_refusal(why.number()),
            Answer::Discarded(Err(why)) => self.count_refusal(why.number()),
        }
        if reply.differs() {
            add_one(&mut self.differences);
            self.first = self.first.or(Some(reply));
        }
    }

    // By its number, since the counts are printed in the order of the numbers.
    fn count_refusal(&mut self, number: u8) {
        let Some(slot) = usize::from(number).checked_sub(FIRST_REFUSAL) else {
            return;
        };
        if let Some(count) = self.refused.get_mut(slot) {
            add_one(count);
        }
    }
}

fn add_one(count: &mut usize) {
    *count = count.saturating_add(1);
}
