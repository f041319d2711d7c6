// Lists of calls: pseudo-random ones, which follow the tickets that are given out, and one that fills a job's row.
use keys::CodeKey;
use ledger::{Answer, BasicCall, Granted, MAX_JOBS, MAX_REPORTS, TicketId};

// The number of every store here.
pub const STORE: u16 = 7;

// The unit of every key.
const UNIT: u16 = 0x7E8;

// What a call names where no ticket is open; no store gives it out.
const NO_TICKET: TicketId = TicketId {
    store: STORE,
    number: 0,
};

#[derive(Clone, Copy)]
pub struct Script {
    state: u64,
    // tickets of the open reports and jobs, as far as the answers tell
    reports: [Option<TicketId>; MAX_REPORTS],
    jobs: [Option<TicketId>; MAX_JOBS],
    // how many keys the calls are about
    keys: u16,
}

impl Script {
    pub fn new(keys: u16) -> Script {
        Script {
            state: 88_172_645_463_325_252,
            reports: [None; MAX_REPORTS],
            jobs: [None; MAX_JOBS],
            keys,
        }
    }

    // A number from 0 to 999.
    fn draw(&mut self) -> u32 {
        let mut x = self.state;
        x ^= x.wrapping_mul(8_192);
        x ^= x / 128;
        x ^= x.wrapping_mul(131_072);
        self.state = x;
        (x / 65_536 % 1_000) as u32
    }

    fn report(&mut self) -> TicketId {
        let drawn = self.draw();
        pick(&self.reports, drawn).unwrap_or(NO_TICKET)
    }

    fn job(&mut self) -> TicketId {
        let drawn = self.draw();
        pick(&self.jobs, drawn).unwrap_or(NO_TICKET)
    }

    fn key(&mut self) -> CodeKey {
        let number = (self.draw() % 1_000) as u16;
        CodeKey {
            unit: UNIT,
            code: number.checked_rem(self.keys).unwrap_or(0),
        }
    }

    // The next call; never an age call.
    pub fn call(&mut self) -> BasicCall<CodeKey, u32> {
        let kind = self.draw() % 24;
        let report = self.report();
        let job = self.job();
        let key = self.key();
        match kind {
            0 | 1 => BasicCall::BeginReport,
            2..=4 => BasicCall::BeginJob,
            5..=10 => BasicCall::Put {
                job,
                key,
                item: self.draw(),
            },
            11 | 12 => BasicCall::Remove { job, key },
            13 | 14 => BasicCall::Look { job, key },
            15..=18 => BasicCall::Read { report, key },
            19 | 20 => BasicCall::Commit { job },
            21 => BasicCall::Abort { job },
            _ => BasicCall::End { report },
        }
    }

    // Takes notice of a ticket that was given out or ended.
    pub fn note(&mut self, call: BasicCall<CodeKey, u32>, answer: Answer<CodeKey, u32>) {
        match (call, answer) {
            (_, Ok(Granted::Report { ticket, .. })) => exchange(
                &mut self.reports,
                None,
                Some(ticket),
            ),
            (_, Ok(Granted::Job { ticket })) => exchange(&mut self.jobs, None, Some(ticket)),
            (BasicCall::Commit { job } | BasicCall::Abort { job }, Ok(_)) => exchange(
                &mut self.jobs,
                Some(job),
                None,
            ),
            (BasicCall::End { report }, Ok(_)) => exchange(&mut self.reports, Some(report), None),
            _ => {}
        }
    }
}

// A put at a key that no other call is about.
pub fn put_apart(job: TicketId, code: u16) -> BasicCall<CodeKey, u32> {
    BasicCall::Put {
        job,
        key: CodeKey {
            unit: UNIT + 1,
            code,
        },
        item: u32::from(code),
    }
}

// The ticket in the slot that a drawn number stands for.
fn pick(tickets: &[Option<TicketId>], drawn: u32) -> Option<TicketId> {
    let slot = (drawn as usize).checked_rem(tickets.len())?;
    *tickets.get(slot)?
}

// Puts the new one in the place of the first that is the old one.
fn exchange(tickets: &mut [Option<TicketId>], old: Option<TicketId>, new: Option<TicketId>) {
    if let Some(slot) = tickets.iter_mut().find(|t| **t == old) {
        *slot = new;
    }
}
