// One store driven through a list of calls, with age calls of its own in between, and its answers listed.
use crate::script::{Script, put_apart};
use engine::Store;
use index::Index;
use keys::CodeKey;
use ledger::{Answer, BasicCall, Granted, ROW_ENTRIES};
use std::alloc::{AllocError, Global};
use store::ask;

// Keys that the last job puts, one more than its row has entries.
const ROW_PUTS: u16 = ROW_ENTRIES as u16 + 1;

// Every so many calls one is handed a shelf that is a record short.
const SHORT_SHELF: u32 = 29;

// How often the store is aged: before every so many calls, up to a limit so far above the first stamp.
#[derive(Clone, Copy)]
pub struct Ageing {
    pub every: u32,
    pub limit: u32,
}

// The answers to so many calls of the script, but for those to the age calls.
pub fn answers<I: Index<Key = CodeKey>>(
    heap: Global,
    store: &mut Store<I>,
    shelf: &mut [u32],
    mut script: Script,
    calls: u32,
    ageing: Ageing,
) -> Result<Vec<Answer<CodeKey, u32>>, AllocError> {
    let mut list = Vec::new(heap);
    for i in 0..calls {
        if i.checked_rem(ageing.every) == Some(0) {
            let limit = ageing.limit;
            let _ = ask(store, shelf, BasicCall::Age { limit });
        }
        let call = script.call();
        let handed = if i % SHORT_SHELF == 0 {
            shelf.len().saturating_sub(1)
        } else {
            shelf.len()
        };
        let answer = ask(store, &mut shelf[..handed], call);
        script.note(call, answer);
        list.push(answer)?;
    }
    Ok(list)
}

// The answers to a job's puts, each at another key, one more than its row has entries.
pub fn row_answers<I: Index<Key = CodeKey>>(
    heap: Global,
    store: &mut Store<I>,
    shelf: &mut [u32],
) -> Result<Vec<Answer<CodeKey, u32>>, AllocError> {
    let mut list = Vec::new(heap);
    let begun = ask(store, shelf, BasicCall::BeginJob);
    list.push(begun)?;
    let Ok(Granted::Job { ticket }) = begun else {
        return Ok(list);
    };
    for code in 0..ROW_PUTS {
        list.push(ask(store, shelf, put_apart(ticket, code)))?;
    }
    Ok(list)
}
