// What can be asked of a store.
// A store over any index serves the basic calls. Walk stands beside them, since it alone needs an ordered index:
// a store over an ordered index serves every `Call`, and one over any other index cannot be handed a walk.

// A ticket: the number of the store that gave it out, and its running number there.
#[derive(Clone, Copy, PartialEq, Eq, Debug)]
pub struct TicketId {
    pub store: u16,
    pub number: u32,
}

#[derive(Clone, Copy)]
pub enum Call<K, R> {
    // the least key, beyond the given one if there is one, at which the report sees a record
    Walk { report: TicketId, after: Option<K> },
    Basic(BasicCall<K, R>),
}

#[derive(Clone, Copy)]
pub enum BasicCall<K, R> {
    BeginReport,
    BeginJob,
    Read { report: TicketId, key: K },
    Look { job: TicketId, key: K },
    Put { job: TicketId, key: K, item: R },
    Remove { job: TicketId, key: K },
    Commit { job: TicketId },
    Abort { job: TicketId },
    End { report: TicketId },
    Age { limit: u32 },
}
