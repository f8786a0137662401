// The four header bytes of a message, each type with its own checks: Data before the other types, since most
// messages are Data.
ghost use Rattle.std.specs.Prelude.{◌≡◌, ◌+◌, ◌*◌, ◌/◌, false, Some, true, ◌&&◌, eqb, ltb, MatchResult};
ghost use Rattle.laws.specs.Pick.{pick};
ghost use Rattle.laws.specs.Result.{ok, fault, violation as result_violation};
ghost use Rattle.refusal.specs.Number.{violation_number, fault_as};
ghost use Rattle.wire.specs.declared.Kind.TheVariants.{IncrementRation, Abort, Data};
ghost use Rattle.wire.specs.FirstByte.{kind_of};
ghost use Rattle.wire.specs.Message.{body_length, flags_allowed, parse_header};
ghost use Rattle.wire_read.specs.Answer.{header_as, header_bytes};
ghost use Rattle.wire_read.specs.Order.{in_order};

use crate::Parsed;
use refusal::{Fault, Violation};
use wire::{Message, Role};
use wire_fields::{flags_allowed, is_client, is_server};

// A violation, with the offset of the byte at fault.
fn broken(violation: Violation, offset: u16) -> Fault
    ensures { fault_as result ≡ fault (violation_number violation) offset }
{
    Fault { violation, offset }
}

// A message, if its sender may send it.
fn if_sent(allowed: bool, parsed: Parsed) -> Result<Parsed, Fault>
    ensures { header_as result ≡ pick allowed (ok parsed.message) (result_violation (fault 23 0)) }
{
    if allowed {
        Ok(parsed)
    } else {
        Err(broken(Violation::WrongSender, 0))
    }
}

// A message, if its sender may set its flags.
fn if_flagged(from: Role, parsed: Parsed) -> Result<Parsed, Fault>
    ensures { header_as result ≡ pick (flags_allowed from parsed.message) (ok parsed.message) (result_violation (fault 24 0)) }
{
    if flags_allowed(from, parsed.message) {
        Ok(parsed)
    } else {
        Err(broken(Violation::WrongFlags, 0))
    }
}

// The four header bytes of a message.
#[derive(Clone, Copy)]
pub(crate) struct Header {
    pub first: u8,
    pub second: u8,
    pub third: u8,
    pub fourth: u8,
}

impl Header {
    // The number in bytes 2 and 3.
    fn number(self) -> u16
        ensures { result ≡ self.third * 256 + self.fourth }
    {
        u16::from_be_bytes([self.third, self.fourth])
    }

    // The session number in byte 1, whose high bit is reserved.
    fn session(self) -> Result<u8, Fault>
        ensures { MatchResult result (λ number. (number ≡ self.second) × (ltb self.second 128 ≡ true)) (λ f. (fault_as f ≡ fault 21 1) × (ltb self.second 128 ≡ false)) }
    {
        if self.second < 128 {
            Ok(self.second)
        } else {
            Err(broken(Violation::ReservedBit, 1))
        }
    }

    // A message of the connection as a whole: its byte 1 is 0.
    fn whole(self, allowed: bool, message: Message, body: u16) -> Result<Parsed, Fault>
        requires { body ≡ body_length message }
        ensures { header_as result ≡ in_order (eqb self.second 0) 1 allowed true message }
    {
        if self.second != 0 {
            return Err(broken(Violation::ReservedBit, 1));
        }
        if_sent(allowed, Parsed { message, body })
    }

    // A message that has a session and nothing else: its bytes 2 and 3 are 0.
    fn bare(self, allowed: bool, message: Message) -> Result<Parsed, Fault>
        requires { 0 ≡ body_length message }
        ensures { header_as result ≡ in_order (ltb self.second 128 && eqb self.third 0 && eqb self.fourth 0) (pick (ltb self.second 128) (pick (eqb self.third 0) 3 2) 1) allowed true message }
    {
        self.session()?;
        if self.third != 0 {
            return Err(broken(Violation::ReservedBit, 2));
        }
        if self.fourth != 0 {
            return Err(broken(Violation::ReservedBit, 3));
        }
        if_sent(allowed, Parsed { message, body: 0 })
    }

    // Data, whose flags are asked behind its reserved bit.
    fn data(self, from: Role) -> Result<Parsed, Fault>
        requires { kind_of self.first ≡ Some Data }
        ensures { header_as result ≡ parse_header from (header_bytes self) }
    {
        let session = self.session()?;
        let body = self.number();
        let message = Message::Data {
            open: self.first / 16 % 2 == 1,
            close: self.first / 8 % 2 == 1,
            eof: self.first / 4 % 2 == 1,
            ack_required: self.first / 2 % 2 == 1,
            session,
            length: body,
        };
        let data = Parsed { message, body };
        if_flagged(from, data)
    }

    // An IncrementRation: nothing follows it.
    fn increment_ration(self, from: Role) -> Result<Parsed, Fault>
        requires { kind_of self.first ≡ Some IncrementRation }
        ensures { header_as result ≡ parse_header from (header_bytes self) }
    {
        let message = Message::IncrementRation {
            session: self.session()?,
            shift: self.first / 2 % 8,
            increment: self.number(),
        };
        Ok(Parsed { message, body: 0 })
    }

    // An Abort: partial is asked behind its reserved bit.
    fn abort(self, from: Role) -> Result<Parsed, Fault>
        requires { kind_of self.first ≡ Some Abort }
        ensures { header_as result ≡ parse_header from (header_bytes self) }
    {
        let session = self.session()?;
        let body = self.number();
        let message = Message::Abort {
            partial: self.first / 2 % 2 == 1,
            session,
            length: body,
        };
        let abort = Parsed { message, body };
        if_flagged(from, abort)
    }

    // A message whose first byte has no item, if it names a type.
    fn of_one_byte(self, from: Role) -> Result<Parsed, Fault>
        requires { (self.first / 16 ≡ 1 → ⊥) × (self.first / 4 ≡ 8 → ⊥) × (self.first / 32 ≡ 4 → ⊥) }
        ensures { header_as result ≡ parse_header from (header_bytes self) }
    {
        let session = self.second;
        let n = self.number();
        let server = is_server(from);
        let client = is_client(from);
        match self.first {
            0x00 => self.whole(true, Message::NoOperation { length: n }, n),
            0x02 => self.whole(server, Message::Shutdown { length: n }, n),
            0x04 => self.whole(true, Message::Ping { cookie: n }, 0),
            0x06 => self.whole(true, Message::PingAck { cookie: n }, 0),
            0x08 => self.whole(true, Message::Error { length: n }, n),
            0x30 => self.bare(server, Message::Close { session }),
            0x40 => self.bare(client, Message::Acknowledgment { session }),
            _ => Err(broken(Violation::UnknownType, 0)),
        }
    }

    // What the header of a message from a sender says.
    pub fn parse(self, from: Role) -> Result<Parsed, Fault>
        ensures { header_as result ≡ parse_header from (header_bytes self) }
    {
        if self.first % 2 == 1 {
            Err(broken(Violation::UnknownType, 0))
        } else if self.first / 32 == 4 {
            self.data(from)
        } else if self.first / 16 == 1 {
            self.increment_ration(from)
        } else if self.first / 4 == 8 {
            self.abort(from)
        } else {
            self.of_one_byte(from)
        }
    }
}
