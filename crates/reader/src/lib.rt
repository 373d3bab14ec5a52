// Reads the text form of 02's request 1 into a stored routine, with m given: its length, or a refusal that writes nothing.
//
// A text is first read by descent, its nodes into a slice of this crate's own, since a refusal must leave the lent room as it was. Only a text of a tree
// that a routine can hold passes; to any other the refusal is found by passes over its bytes, which need no room that grows with it.

#![tactic(auto)]

ghost use Rattle.std.specs.Prelude.{◌≡◌, ◌++◌, ◌∷◌, ◌+◌, ◌*◌, ◌/◌, ◌≤◌, ◌<◌, length};
ghost use Rattle.stored.specs.Bytes.{two_bytes};
ghost use Rattle.stored.specs.Stages.{First};
ghost use Rattle.text_form.specs.Reading.{Reads, of_text};
ghost use Rattle.text_form.specs.Small.{Unreadable};
ghost use Rattle.reader.specs.Says.{unread_of, taken_of};
ghost use Rattle.reader.specs.Enough.{Enough};

use descent::{Place, Room};
use routine::Refuses;
use text_limits::Numbers;

// How much a text may hold: refusal 9's limit of places, and brackets inside one another. Twice the depth of a tree is at most its places and its nodes
// and 1 (`depth_by_places` in l1): one with 256 places and 4,096 nodes is at most 2,176 deep, and its innermost expression has no bracket.
const MOST: Room = Room {
    levels: 2175,
    places: 256,
};

// Why a text is not read: a case for each of request 1's numbers, with what the number also returns.
#[derive(Clone, Copy)]
pub enum Unread {
    Locations,
    NotOfForm(u64),
    LargeInteger(u64),
    LargeLocation(u64),
    Nodes,
    Places,
    Room(u64),
}

impl Refuses for Unread {
    ghost refusal = { unread_of };

    fn number(self) -> u64 {
        match self {
            Unread::Locations => 4,
            Unread::NotOfForm(_) => 50,
            Unread::LargeInteger(_) => 51,
            Unread::LargeLocation(_) => 52,
            Unread::Nodes => 5,
            Unread::Places => 9,
            Unread::Room(_) => 53,
        }
    }

    fn also(self) -> Option<u64> {
        match self {
            Unread::NotOfForm(i)
            | Unread::LargeInteger(i)
            | Unread::LargeLocation(i)
            | Unread::Room(i) => Some(i),
            Unread::Locations | Unread::Nodes | Unread::Places => None,
        }
    }
}

// The refusal of a text that was not read: 50 to 52, 5 and 9, in that order. A text to which none of the others is given has too many places.
fn judge(t: &[u8]) -> Unread
    requires { Unreadable t.now }
    ensures { First (of_text t.now) (unread_of result) }
{
    if let Err(i) = form::form(t) {
        return Unread::NotOfForm(i as u64);
    }
    if let Some(i) = text_limits::first_large(t, Numbers::Integers) {
        return Unread::LargeInteger(i as u64);
    }
    if let Some(i) = text_limits::first_large(t, Numbers::Locations) {
        return Unread::LargeLocation(i as u64);
    }
    if 4096 < text_limits::nodes_of(t) {
        return Unread::Nodes;
    }
    Unread::Places
}

// The first six bytes of a routine with m locations and n nodes.
fn head(m: usize, n: usize) -> [u8; 6]
    requires { (m ≤ 64) × (n ≤ 4096) }
    ensures { result ≡ two_bytes (4 + 8 * n) ++ 1 ∷ m ∷ two_bytes n }
{
    let [a, b] = ((4 + 8 * n) as u16).to_be_bytes();
    let [c, d] = (n as u16).to_be_bytes();
    [a, b, 1, m as u8, c, d]
}

// The nodes, behind the head. Byte by byte, which is C's `memcpy` in the archive: `copy_from_slice` would need C's `memmove` too.
fn put_nodes(nodes: &[u8], room: &mut [u8])
    requires { length room.old ≡ length nodes.now }
    ensures { room.new ≡ nodes.now }
{
    for i in 0..nodes.len() {
        room[i] = nodes[i];
    }
}

// Reads with the lent slice for the nodes, which is enough for any text as long as t of a tree that a routine can hold.
fn read_with(t: &[u8], m: usize, nodes: &mut [u8], room: &mut [u8]) -> Result<usize, Unread>
    requires { (m ≤ 64) × (length nodes.old ≤ 32768) × Enough t.now (length nodes.old / 8) }
    ensures { Reads m t.now room.old (taken_of result) room.new }
{
    let start = Place { at: 0, node: 0 };
    let Some(end) = descent::expression(t, start, MOST, nodes) else {
        return Err(judge(t));
    };
    if end.at != t.len() {
        return Err(judge(t));
    }
    let n = end.node;
    let needed = 6 + 8 * n;
    if room.len() < needed {
        return Err(Unread::Room(needed as u64));
    }
    room[..6].copy_from_slice(&head(m, n));
    put_nodes(&nodes[..8 * n], &mut room[6..needed]);
    Ok(needed)
}

// The same, with a slice of so many bytes.
fn read_in<const N: usize>(t: &[u8], m: usize, room: &mut [u8]) -> Result<usize, Unread>
    requires { (m ≤ 64) × (N ≤ 32768) × Enough t.now (N / 8) }
    ensures { Reads m t.now room.old (taken_of result) room.new }
{
    let mut nodes = [0u8; N];
    read_with(t, m, &mut nodes, room)
}

// Request 1: the routine of a text, with m given. A text has at least three bytes for each of its nodes but one: to clear a slice for 4,096 would cost a short one more
// than its reading. A const argument can't be computed, hence three calls.
pub fn read(t: &[u8], m: usize, room: &mut [u8]) -> Result<usize, Unread>
    ensures { Reads m t.now room.old (taken_of result) room.new }
{
    if 64 < m {
        return Err(Unread::Locations);
    }
    match t.len() {
        0..=384 => read_in::<1024>(t, m, room),
        385..=1536 => read_in::<4096>(t, m, room),
        _ => read_in::<32768>(t, m, room),
    }
}
