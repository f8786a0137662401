// The queue: what put and turn do to the slot that they serve, and to nothing else.
#![tactic(auto)]

mod slot;

ghost use Rattle.std.specs.Prelude.{◌≡◌, ◌&&◌, ◌*◌, eqb, ltb, leb, length};
ghost use Rattle.protocol.specs.Slot.{slot_size, queue_size};
ghost use Rattle.call_slots.specs.Slots.{servable, put_into, taken_from};

use crate::slot::{put_behind, take_first};
use session::SLOT_SIZE;

// How long the queue is: a slot for each session number.
pub const QUEUE_SIZE: usize = 128 * (SLOT_SIZE as usize);

// Whether the queue has its length, the number is a session number, and no more bytes wait than a slot holds.
fn is_servable(queue: usize, n: u8, waiting: u16) -> bool
    ensures value { result ≡ servable queue n waiting }
    ensures queue_size_value { QUEUE_SIZE ≡ queue_size }
{
    queue == QUEUE_SIZE && n < 128 && waiting <= SLOT_SIZE
}

// The place in the queue where the slot of a number begins.
pub fn slot_start(n: u8) -> usize
    ensures { result ≡ n * slot_size }
{
    (n as usize) * (SLOT_SIZE as usize)
}

// Puts bytes behind those that wait, and zeroes the rest of the slot; if they do not fit, the queue stays as it is.
pub fn put_into(queue: &mut [u8], n: u8, waiting: u16, src: &[u8])
    ensures { queue.new ≡ put_into queue.old n waiting src.now }
{
    if is_servable(queue.len(), n, waiting) {
        if src.len() <= (SLOT_SIZE - waiting) as usize {
            let start = slot_start(n);
            let end = start + (SLOT_SIZE as usize);
            put_behind(&mut queue[start..end], waiting as usize, src);
        }
    }
}

// Takes the first bytes that wait, moves the others to the front, and zeroes the rest of the slot.
pub fn take_from(queue: &mut [u8], n: u8, waiting: u16, count: u16)
    ensures { queue.new ≡ taken_from queue.old n waiting count }
{
    if is_servable(queue.len(), n, waiting) {
        if count <= waiting {
            let start = slot_start(n);
            let end = start + (SLOT_SIZE as usize);
            take_first(&mut queue[start..end], waiting as usize, count as usize);
        }
    }
}
