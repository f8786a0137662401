// The words of lists that a caller makes itself.
use super::{ListText, ReadText};
use arrayvec::ArrayVec;
use journal_read::{BlockList, Entry};
use std::fmt::Write;
use text_line::Line;

#[test]
fn entries_of_a_caller(rt: HostRuntime) {
    let mut entries = ArrayVec::new();
    entries.push(Entry {
        number: 255,
        kind: 7,
    });
    entries.push(Entry { number: 0, kind: 3 });
    let mut line = Line::new();
    let told = write!(line, "{}", ReadText(Ok(BlockList::of(&entries))));
    assert!(rt; told.is_ok());
    let words = b"read ok 2\nentry 1 id 255 kind 7\nentry 2 id 0 kind 3";
    assert_eq!(rt; line.as_bytes(), words.as_slice());
}

#[test]
fn serials_of_a_caller(rt: HostRuntime) {
    let mut serials = ArrayVec::new();
    serials.push(200u8);
    serials.push(9);
    let mut line = Line::new();
    let told = write!(line, "{}", ListText(Ok(BlockList::of(&serials))));
    assert!(rt; told.is_ok());
    assert_eq!(rt; line.as_bytes(), b"list ok 200 9".as_slice());
}
