// The items of a list as a vector of the caller's own.
ghost use Rattle.std.specs.Prelude.{◌≡◌};

use super::BlockList;
use arrayvec::ArrayVec;

// A vector of 128 items has room for each list.
fn to_vector(list: &BlockList<u8>) -> ArrayVec<u8, 128>
    ensures { result.items ≡ list.now.items }
{
    let mut items = ArrayVec::new();
    items.try_extend_from_slice(list.as_slice()).unwrap();
    items
}

#[test]
fn items_come_back(rt: HostRuntime) {
    let items: ArrayVec<u8, 128> = ArrayVec::from([7u8; 128]);
    let back = to_vector(&BlockList::of(&items));
    assert_eq!(rt; back.len(), 128);
    assert_eq!(rt; back.as_slice(), items.as_slice());
}
