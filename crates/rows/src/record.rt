// A record: 1 byte question, 2 bytes R, 4 bytes of fuel, 2 bytes E, E entries of 4 bytes and the R bytes of the row, all big-endian.
ghost use Rattle.std.specs.Prelude.{◌≡◌, ◌≤◌};
ghost use Rattle.stored.specs.Bytes.{byte, pair};
ghost use Rattle.stored.specs.Trace.{four};

use input::Unreadable;
use std::io;
use std::io::Read;

// So many entries have room in the store.
pub const MOST_ENTRIES: u16 = 1000;

// Why no further record is answered.
#[derive(Drop)]
pub enum Stop {
    // the input ends where a record would begin
    End,
    // it ends in a record
    Cut,
    // it can't be read
    Unreadable,
    // a line can't be written
    Unwritten,
}

impl From<Unreadable> for Stop {
    fn from(_: Unreadable) -> Stop {
        Stop::Unreadable
    }
}

impl From<io::Error> for Stop {
    fn from(_: io::Error) -> Stop {
        Stop::Unwritten
    }
}

// What stands before a record's entries.
#[derive(Drop)]
pub struct Head {
    pub question: u8,
    pub bytes: u16,
    pub fuel: u32,
    pub entries: u16,
}

impl Head {
    pub fn of(b: &[u8; 9]) -> Head
        ensures said { (result.question ≡ byte b.now 0) × (result.bytes ≡ pair b.now 1) × (result.fuel ≡ four b.now 3) × (result.entries ≡ pair b.now 7) }
    {
        let [question, r0, r1, f0, f1, f2, f3, e0, e1] = *b;
        Head {
            question,
            bytes: u16::from_be_bytes([r0, r1]),
            fuel: u32::from_be_bytes([f0, f1, f2, f3]),
            entries: u16::from_be_bytes([e0, e1]),
        }
    }

    // The bytes that are lent for a row or a text.
    pub fn lent(&self) -> usize
        ensures { result ≤ 65536 }
    {
        self.fuel.min(65536) as usize
    }
}

// Reads a part of a record.
pub fn take<R: Read>(from: &mut R, part: &mut [u8]) -> Result<(), Stop> {
    if input::fill(from, part)? < part.len() {
        return Err(Stop::Cut);
    }
    Ok(())
}

// Reads what stands before the entries.
pub fn take_head<R: Read>(from: &mut R) -> Result<Head, Stop> {
    let mut head = [0u8; 9];
    match input::fill(from, &mut head)? {
        0 => Err(Stop::End),
        9 => Ok(Head::of(&head)),
        _ => Err(Stop::Cut),
    }
}

// Reads n bytes that nobody looks at, a room full at a time.
pub fn pass_over<R: Read>(from: &mut R, room: &mut [u8; 70000], n: usize) -> Result<(), Stop> {
    for _ in 0..n / room.len() {
        take(from, room)?;
    }
    let rest = n % room.len();
    take(from, &mut room[..rest])
}
