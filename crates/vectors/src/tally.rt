// How many cases of each entry there were, and how many of them differ.
use crate::bits;
use crate::entry::{ENTRIES, Entry, NAMES};
use std::io;

// The numbers of the record that are no entry's, and that stand for a count all the same: that of all cases, of those whose answer is the original's, and of those whose
// answer is the refusal table's, the sum of all words, the number of cases that the head announces, and the cases that differ: of each entry from the first place on, and all.
const ALL: usize = 32;

const ORIGINAL: usize = 33;

const TABLE: usize = 34;

const WORDS: usize = 35;

const ANNOUNCED: usize = 36;

const DIFFER: usize = 40;

const ALL_DIFFER: usize = 72;

// One more, as far as 32 bits hold it.
fn more(n: usize) -> usize {
    if n < 4294967295 { n + 1 } else { n }
}

// Cases, and those of them that differ.
#[derive(Clone, Copy)]
struct Count {
    cases: usize,
    differ: usize,
}

impl Count {
    // One case more.
    fn add(&mut self, holds: bool) {
        self.cases = more(self.cases);
        if !holds {
            self.differ = more(self.differ);
        }
    }
}

// The cases of each entry and of all, how many the record's head announces, those whose answer is the original's and those whose answer is the refusal table's, and the sum of all words.
#[derive(Clone, Copy)]
pub(crate) struct Tally {
    entries: [Count; ENTRIES],
    all: Count,
    pub(crate) announced: usize,
    original: usize,
    table: usize,
    words: usize,
}

impl Tally {
    pub(crate) const NONE: Tally = Tally {
        entries: [Count {
            cases: 0,
            differ: 0,
        }; ENTRIES],
        all: Count {
            cases: 0,
            differ: 0,
        },
        announced: 0,
        original: 0,
        table: 0,
        words: 0,
    };

    // A case of no entry: it is counted where its number stands for a count.
    fn count_unknown(&mut self, number: usize) {
        match number {
            ALL => self.all.cases = more(self.all.cases),
            ORIGINAL => self.original = more(self.original),
            TABLE => self.table = more(self.table),
            WORDS => self.words = more(self.words),
            ANNOUNCED => self.announced = more(self.announced),
            ALL_DIFFER => self.all.differ = more(self.all.differ),
            _ => self.count_differing(number),
        }
    }

    fn count_differing(&mut self, number: usize) {
        let k = number.wrapping_sub(DIFFER);
        if k < ENTRIES {
            self.entries[k].differ = more(self.entries[k].differ);
        }
    }

    // A case of an entry, whose answer is the original's (0) or the refusal table's. Each counts with all.
    pub(crate) fn count(&mut self, number: usize, own: &[u8], holds: bool) {
        match Entry::try_from(number) {
            Ok(entry) => self.entries[entry as usize].add(holds),
            Err(_) => self.count_unknown(number),
        }
        self.all.add(holds);
        if bits::word(own) == 0 {
            self.original = more(self.original);
        } else {
            self.table = more(self.table);
        }
        self.words = bits::sum(own, self.words);
    }

    pub(crate) fn show(&self, rt: &impl Print) -> io::Result<()> {
        for (name, count) in NAMES.iter().zip(&self.entries) {
            println!(rt; "{name} {} cases, {} differ", count.cases, count.differ)?;
        }
        println!(rt;
            "{} answers of the original, {} of the refusal table; all words add up to {}",
            self.original, self.table, self.words
        )?;
        println!(rt;
            "{} of {} cases, {} differ",
            self.all.cases, self.announced, self.all.differ
        )
    }
}
