// A page: bytes of the caller's with a mark, below which whole lines stand.
// Relies on no bound: the mark may lie past the bytes. `memory` says that a page is over the caller's bytes.
ghost use Rattle.page.specs.Pages.{standing};
ghost use Rattle.std.specs.Prelude.{◌≡◌};

// How far a page is filled.
#[derive(Clone, Copy)]
pub struct Mark {
    pub at: usize,
}

// Bytes, and how far they are filled. A type of its own and not the library's cursor, which does not promise that it stays over the same bytes.
#[derive(Drop)]
pub struct Page<'a> {
    pub bytes: &'a mut [u8],
    pub mark: Mark,
}

impl<'a> Page<'a> {
    // An empty page over the bytes.
    pub fn new(bytes: &'a mut [u8]) -> Page<'a>
        ensures bytes { result.bytes.now ≡ bytes.old }
        ensures mark { result.mark.at ≡ 0 }
        ensures memory { result.bytes.ghost_name ≡ bytes.entry.ghost_name }
    {
        Page {
            bytes,
            mark: Mark { at: 0 },
        }
    }

    // What stands on the page.
    pub fn lines(&self) -> &[u8]
        ensures answer { result.now ≡ standing self.now }
    {
        self.bytes.get(..self.mark.at).unwrap_or(self.bytes)
    }
}
