// Finding, adding and taking out by ticket.
ghost use Rattle.std.specs.Prelude.{◌≡◌, ◌==◌, [], ◌∷◌, ◌++◌, length, IfOk, if◌then◌else◌, nat_le, nat_lt, position};
ghost use Rattle.table.specs.Lists.{replaced, with_ticket, without_ticket};

use crate::open_list::OpenList;
use crate::ticketed::Ticketed;
use std::alloc::{AllocError, Global};

impl<T: Ticketed, const LIMIT: usize> OpenList<T, LIMIT> {
    // An empty list, with memory for as many as may be open.
    pub fn new(heap: Global) -> Result<OpenList<T, LIMIT>, AllocError>
        ensures answer { IfOk result (λ list. list.items.items ≡ []) }
    {
        Ok(OpenList {
            items: Vec::with_capacity(heap, LIMIT)?,
        })
    }

    pub fn is_full(&self) -> bool
        ensures answer { result ≡ nat_le LIMIT (length self.now.items.items) }
    {
        self.items.len() >= LIMIT
    }

    // Adds the item at the end; a full list stays as it is.
    pub fn add(&mut self, item: T)
        ensures after { self.new.items.items ≡ (if nat_lt (length self.old.items.items) LIMIT then self.old.items.items ++ item ∷ [] else self.old.items.items) }
    {
        if !self.is_full() {
            self.items.push_reserved(item);
        }
    }

    // The first position of the ticket.
    fn position(&self, ticket: u32) -> Option<usize>
        ensures answer { result ≡ position (λ x. T.Ticketed.number x == ticket) self.now.items.items }
    {
        self.items.iter().position(|item| item.ticket() == ticket)
    }

    // The item with the ticket.
    pub fn find(&self, ticket: u32) -> Option<T>
        ensures answer { result ≡ with_ticket T.Ticketed.number ticket self.now.items.items }
    {
        // by position and index: an item that `copied` hands on is copied at once, also where it is refused and not used
        let i = self.position(ticket)?;
        Some(self.items[i])
    }

    // Takes out the item with the ticket.
    pub fn take(&mut self, ticket: u32) -> Option<T>
        ensures answer { result ≡ with_ticket T.Ticketed.number ticket self.old.items.items }
        ensures after { self.new.items.items ≡ without_ticket T.Ticketed.number ticket self.old.items.items }
    {
        let i = self.position(ticket)?;
        Some(self.items.remove(i))
    }

    // Writes the item in the place of the one that has its ticket.
    pub fn replace(&mut self, item: T)
        ensures after { self.new.items.items ≡ replaced T.Ticketed.number item self.old.items.items }
    {
        // By position and index: the check does not follow a write through what a `find` of `iter_mut` lends.
        if let Some(i) = self.position(item.ticket()) {
            self.items[i] = item;
        }
    }
}
