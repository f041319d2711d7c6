// The open reports, or the open jobs, in the order of their tickets.
// The memory is taken at opening and the list never grows past its limit, so no call wants memory.
ghost use Rattle.std.specs.Prelude.{◌≤◌, vec_len, vec_capacity};

#[derive(Drop)]
pub struct OpenList<T, const LIMIT: usize> {
    pub items: Vec<T>,
    ghost few: { vec_len items ≤ LIMIT },
    ghost room: { LIMIT ≤ vec_capacity items },
}
