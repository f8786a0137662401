// The words of what the calls of the journal answer.
#![tactic(auto)]

ghost use Rattle.std.specs.Prelude.{Some};
ghost use Rattle.journal_text.specs.Texts.{entry_line, store_text, repair_text, read_text, list_text};

#[cfg(test)]
mod tests;

use journal_read::{Entries, Entry, Listing};
use journal_store::Written;
use refusal::Refusal;
use std::fmt;

/// What a store answers, in words.
#[derive(Clone, Copy)]
pub struct StoreText(pub Result<Written, Refusal>);

/// What a repair answers, in words.
#[derive(Clone, Copy)]
pub struct RepairText(pub Result<Option<Written>, Refusal>);

/// What a read answers, in a line for the number of entries and one for each entry.
#[derive(Clone, Copy)]
pub struct ReadText(pub Result<Entries, Refusal>);

/// What a listing answers, in words.
#[derive(Clone, Copy)]
pub struct ListText(pub Result<Listing, Refusal>);

// The line of an entry, by its serial.
#[derive(Clone, Copy)]
struct EntryLine {
    serial: usize,
    entry: Entry,
}

impl fmt::Display for EntryLine {
    ghost output = { λ line. Some (entry_line line.serial line.entry) };

    fn fmt<W: fmt::Write>(&self, f: &mut fmt::Formatter<W>) -> fmt::Result {
        let serial = self.serial;
        let number = self.entry.number;
        let kind = self.entry.kind;
        write!(f, "\nentry {serial} id {number} kind {kind}")
    }
}

impl fmt::Display for StoreText {
    ghost output = { λ answer. Some (store_text answer.0) };

    fn fmt<W: fmt::Write>(&self, f: &mut fmt::Formatter<W>) -> fmt::Result {
        match self.0 {
            Ok(Written::Whole(serial)) => write!(f, "store ok serial {serial}"),
            Ok(Written::Cut(stores)) => write!(f, "store cut {stores}"),
            Err(refusal) => {
                let number = refusal.number();
                write!(f, "store refused {number}")
            }
        }
    }
}

impl fmt::Display for RepairText {
    ghost output = { λ answer. Some (repair_text answer.0) };

    fn fmt<W: fmt::Write>(&self, f: &mut fmt::Formatter<W>) -> fmt::Result {
        match self.0 {
            Ok(Some(Written::Whole(block))) => write!(f, "repair ok block {block}"),
            Ok(Some(Written::Cut(stores))) => write!(f, "repair cut {stores}"),
            Ok(None) => f.write_str("repair ok none"),
            Err(refusal) => {
                let number = refusal.number();
                write!(f, "repair refused {number}")
            }
        }
    }
}

impl fmt::Display for ReadText {
    ghost output = { λ answer. Some (read_text answer.0) };

    fn fmt<W: fmt::Write>(&self, f: &mut fmt::Formatter<W>) -> fmt::Result {
        match &self.0 {
            Ok(entries) => {
                write!(f, "read ok {}", entries.len())?;
                for (place, entry) in entries.as_slice().iter().enumerate() {
                    let line = EntryLine {
                        serial: place + 1,
                        entry: *entry,
                    };
                    write!(f, "{line}")?;
                }
                Ok(())
            }
            Err(refusal) => {
                let number = refusal.number();
                write!(f, "read refused {number}")
            }
        }
    }
}

impl fmt::Display for ListText {
    ghost output = { λ answer. Some (list_text answer.0) };

    fn fmt<W: fmt::Write>(&self, f: &mut fmt::Formatter<W>) -> fmt::Result {
        match &self.0 {
            Ok(serials) => {
                f.write_str("list ok")?;
                for serial in serials.as_slice() {
                    write!(f, " {serial}")?;
                }
                Ok(())
            }
            Err(refusal) => {
                let number = refusal.number();
                write!(f, "list refused {number}")
            }
        }
    }
}
