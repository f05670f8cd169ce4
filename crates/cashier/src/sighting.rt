// Records of a file that were seen before another.

// How many of the preceding records each one is compared with.
const WINDOW: usize = 64;

/// A record that was seen. Equal marks mean equal fields, except for a chance of 1 in 2^64.
#[derive(Clone, Copy)]
pub struct Sighting {
    /// The line on which it begins; 0 if there is none.
    pub line: u64,
    /// The mark of what it names.
    pub name: u64,
    /// The mark of the fields that tell it apart from other records.
    pub mark: u64,
}

/// The mark of no bytes.
pub const EMPTY_MARK: u64 = 0xcbf2_9ce4_8422_2325;

/// The mark of bytes that follow others with this mark.
pub fn marked(before: u64, bytes: &[u8]) -> u64 {
    let mut mark = before;
    for byte in bytes {
        mark = (mark ^ *byte as u64).wrapping_mul(0x0000_0100_0000_01b3);
    }
    // Separates the field from the next.
    (mark ^ 0xff).wrapping_mul(0x0000_0100_0000_01b3)
}

/// The 64 records that were seen last.
#[derive(Drop)]
pub struct Seen {
    window: [Sighting; WINDOW],
    // Where the next one is put.
    next: usize,
}

impl Seen {
    /// None yet.
    pub fn new() -> Seen {
        Seen {
            window: [Sighting {
                line: 0,
                name: 0,
                mark: 0,
            }; WINDOW],
            next: 0,
        }
    }

    /// The first of them that has the same mark.
    pub fn same(&self, seen: &Sighting) -> Option<Sighting> {
        self.window
            .iter()
            .find(|before| before.line > 0 && before.mark == seen.mark)
            .copied()
    }

    /// Puts a record into the window, in place of the oldest.
    pub fn take(&mut self, seen: Sighting) {
        if let Some(place) = self.window.get_mut(self.next) {
            *place = seen;
        }
        self.next = if self.next < WINDOW - 1 {
            self.next + 1
        } else {
            0
        };
    }
}
