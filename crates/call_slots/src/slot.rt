// One slot: bytes put behind those that wait, and the first that wait taken.
ghost use Rattle.std.specs.Prelude.{◌≡◌, ◌+◌, ◌≤◌, length};
ghost use Rattle.protocol.specs.Slot.{slot_size};
ghost use Rattle.protocol.specs.Queue.{put_slot, turn_slot};

// Puts bytes behind those that wait, and zeroes the rest.
pub(crate) fn put_behind(slot: &mut [u8], waiting: usize, src: &[u8])
    requires whole { length slot.old ≡ slot_size }
    requires fits { waiting + length src.now ≤ slot_size }
    ensures { slot.new ≡ put_slot waiting src.now slot.old }
{
    let end = waiting + src.len();
    slot[waiting..end].copy_from_slice(src);
    slot[end..].fill(0);
}

// Takes the first n bytes that wait, moves the others to the front, and zeroes the rest.
pub(crate) fn take_first(slot: &mut [u8], waiting: usize, n: usize)
    requires whole { length slot.old ≡ slot_size }
    requires within { waiting ≤ slot_size }
    requires enough { n ≤ waiting }
    ensures { slot.new ≡ turn_slot waiting n slot.old }
{
    let left = waiting - n;
    slot.copy_within(n..waiting, 0);
    slot[left..].fill(0);
}
