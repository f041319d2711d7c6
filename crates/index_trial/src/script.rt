// The lists of calls that the indexes are driven through: made by hand for discards of every kind and for a full index,
// and a fixed pseudo-random one.
use crate::call::Call;
use bucket_index::CAPACITY;
use keys::CodeKey;
use std::alloc::{AllocError, Global};

// How many keys a full index has.
const FULL: u16 = CAPACITY as u16;

// The kinds of lists. An enum and no closures, since the name of a kind is printed beside what came of it.
#[derive(Clone, Copy, Debug)]
pub enum Kind {
    Discards,
    Full,
    Rising,
    // so many calls
    Random(u32),
}

// Codes that are added in this order, with numbers from 0 on, and the number that is then discarded.
#[derive(Clone, Copy)]
struct Shape(&'static [u16], usize);

const SHAPES: [Shape; 12] = [
    // of a tree: a leaf
    Shape(&[50, 30, 70], 1),
    // a left child alone, a right child alone
    Shape(&[50, 30, 20], 1),
    Shape(&[50, 70, 80], 1),
    // two children, the right one being the successor, without and with a child of its own
    Shape(&[50, 30, 20, 40], 1),
    Shape(&[50, 30, 20, 40, 45], 1),
    // two children, the successor deep below the right one and with a child: below the root, and at the root
    Shape(&[10, 50, 30, 90, 70, 60, 65, 95], 1),
    Shape(&[50, 30, 90, 70, 60, 65, 95], 0),
    // the root with one child, and the last key
    Shape(&[50, 70], 0),
    Shape(&[50], 0),
    // of the chain of one bucket: the last, a middle and the first cell
    Shape(&[1, 65, 129, 193], 0),
    Shape(&[1, 65, 129, 193], 1),
    Shape(&[1, 65, 129, 193], 3),
];

#[derive(Drop)]
pub struct Script {
    pub calls: Vec<Call>,
}

// A key of unit 0.
fn key(code: u16) -> CodeKey {
    CodeKey { unit: 0, code }
}

// The keys of a full index: all different, in no order, and many to a bucket.
fn spread_key(i: u16) -> CodeKey {
    CodeKey {
        unit: i % 7,
        code: (i % FULL) * 75 % 521,
    }
}

impl Script {
    // The calls of this kind.
    pub fn of(heap: Global, kind: Kind) -> Result<Script, AllocError> {
        let mut script = Script {
            calls: Vec::new(heap),
        };
        match kind {
            Kind::Discards => script.discards()?,
            Kind::Full => script.full()?,
            Kind::Rising => script.rising()?,
            Kind::Random(calls) => script.random(calls)?,
        }
        Ok(script)
    }

    fn ask(&mut self, calls: &[Call]) -> Result<(), AllocError> {
        self.calls.extend_from_slice(calls)
    }

    // Adds the keys of these codes, with numbers from 0 on.
    fn add_all(&mut self, codes: &[u16]) -> Result<(), AllocError> {
        for (number, code) in codes.iter().enumerate() {
            self.ask(&[Call::Add(key(*code), number)])?;
        }
        Ok(())
    }

    // Asks for everything: capacity, count, the first key, and for each code its number and the next key.
    fn survey(&mut self, codes: &[u16]) -> Result<(), AllocError> {
        self.ask(&[Call::Capacity, Call::Count, Call::First])?;
        for code in codes {
            let before = key(code.saturating_sub(1));
            let key = key(*code);
            self.ask(&[Call::Find(key), Call::Next(key), Call::Next(before)])?;
        }
        Ok(())
    }

    // Adds the codes, discards one of their numbers, adds it again and discards every number, with a survey after each change.
    fn come_and_go(&mut self, codes: &[u16], gone: usize) -> Result<(), AllocError> {
        self.add_all(codes)?;
        self.survey(codes)?;
        self.ask(&[Call::Discard(gone)])?;
        self.survey(codes)?;
        self.ask(&[Call::Discard(gone)])?;
        self.add_all(codes)?;
        self.survey(codes)?;
        for number in 0..codes.len() {
            self.ask(&[Call::Discard(number)])?;
            self.survey(codes)?;
        }
        Ok(())
    }

    // Discards of a leaf, of nodes with one and with two children, of the root and of the last key.
    fn discards(&mut self) -> Result<(), AllocError> {
        for Shape(codes, gone) in SHAPES {
            self.come_and_go(codes, gone)?;
        }
        Ok(())
    }

    // A full index, every refusal in its order, and every key found and discarded again.
    fn full(&mut self) -> Result<(), AllocError> {
        for i in 0..FULL {
            self.ask(&[Call::Add(spread_key(i), usize::from(i))])?;
        }
        self.refusals()?;
        for i in 0..FULL {
            self.ask(&[Call::Find(spread_key(i)), Call::Next(spread_key(i))])?;
        }
        for i in 0..FULL {
            self.ask(&[Call::Discard(usize::from(i * 5 % FULL)), Call::First])?;
        }
        Ok(())
    }

    // Refusals at a full index: 14 also where 16 holds, 15 also where 16 holds, 16 at a free number, 17 at it and past the capacity.
    fn refusals(&mut self) -> Result<(), AllocError> {
        let strange = key(600);
        self.ask(&[
            Call::Add(strange, 512),
            Call::Add(spread_key(3), 512),
            Call::Add(strange, 511),
            Call::Add(spread_key(3), 511),
            Call::Discard(100),
            Call::Add(spread_key(3), 100),
            Call::Discard(100),
            Call::Discard(512),
            Call::Discard(usize::MAX),
            Call::Count,
            Call::Add(spread_key(100), 100),
            Call::Add(strange, usize::MAX),
        ])
    }

    // Keys that rise, which make the deepest tree, and discards from both ends.
    fn rising(&mut self) -> Result<(), AllocError> {
        for i in 0..FULL {
            self.ask(&[Call::Add(key(i), usize::from(i))])?;
        }
        for i in 0..FULL {
            let number = if i % 2 == 0 { i / 2 } else { FULL - 1 - i / 2 };
            let key = key(number);
            let number = usize::from(number);
            self.ask(&[
                Call::Discard(number),
                Call::Find(key),
                Call::Next(key),
                Call::Count,
            ])?;
        }
        Ok(())
    }

    // So many calls of a fixed pseudo-random sequence, over few keys and numbers.
    fn random(&mut self, calls: u32) -> Result<(), AllocError> {
        let mut seed = 2024u32;
        for _ in 0..calls {
            seed = seed.wrapping_mul(1664525).wrapping_add(1013904223);
            self.ask(&[drawn(seed)])?;
        }
        Ok(())
    }
}

// The call that a drawn number stands for.
fn drawn(seed: u32) -> Call {
    let key = CodeKey {
        unit: ((seed >> 9) % 4) as u16,
        code: ((seed >> 12) % 16) as u16 * 16,
    };
    let number = if seed % 29 == 0 {
        usize::MAX
    } else {
        (seed >> 17) as usize % 48
    };
    match (seed >> 24) % 8 {
        0 | 1 | 2 => Call::Add(key, number),
        3 | 4 => Call::Discard(number),
        5 => Call::Find(key),
        6 => Call::Next(key),
        _ => if seed % 2 == 0 {
            Call::First
        } else {
            Call::Count
        },
    }
}
