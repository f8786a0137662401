// Why a call is refused, and how a peer breaks the protocol, by name and by number, with the place of the byte at fault.
#![tactic(auto)]

ghost use Rattle.std.specs.Prelude.{◌≡◌};
ghost use Rattle.refusal.specs.Number.{refusal_number, violation_number, fault_as};
ghost use Rattle.refusal.specs.Failure.{failure_of};

// Why a call is refused. Such a call changes nothing.
#[derive(Clone, Copy, Debug, PartialEq, Eq)]
pub enum Refusal {
    // The connection headers are not yet exchanged.
    NotExchanged,
    // The connection is over.
    Over,
    // The session number is above 127.
    NoSuchSession,
    // The call, or the partial flag, belongs to the other role.
    WrongRole,
    // The session's side is not as the call needs, or the connection is started already.
    WrongState,
    // The session's slot of the queue has too little space left.
    SlotFull,
    // The ration that the grant adds to is endless, or the sum is above the largest.
    GrantTooLarge,
    // The room is too small, or the queue or the journal's region has the wrong length.
    WrongRoom,
    // No session is ready.
    NothingReady,
    // The message or header is not complete.
    Incomplete,
    // A value is outside its range.
    BadValue,
    // A ping is outstanding.
    PingOutstanding,
    // The state is not well formed, the message is one that the reader would not give back, or the place is past the end.
    IllFormed,
    // No block of the journal's region is bad, so none is free for an entry.
    RegionFull,
}

// How the bytes received break the protocol. Such a receive ends the connection.
#[derive(Clone, Copy, Debug, PartialEq, Eq)]
pub enum Violation {
    // The first byte names no message type.
    UnknownType,
    // A reserved bit is set.
    ReservedBit,
    // The eight bytes are not a connection header.
    BadHeader,
    // This sender may not send the message.
    WrongSender,
    // A flag is set that this sender may not set, or not without another.
    WrongFlags,
    // The session's state does not allow the message.
    WrongState,
    // The data is longer than the inbound ration.
    AboveRation,
    // The increment takes the outbound ration past the largest.
    PastLargest,
    // The PingAck answers no outstanding ping.
    UnaskedPingAck,
}

// A violation, and where the byte at fault is: its offset from the first byte of the header. Refusals have no such byte.
#[derive(Clone, Copy, Debug, PartialEq, Eq)]
pub struct Fault {
    pub violation: Violation,
    pub offset: u16,
}

// Why a reader gives nothing: the bytes are not all there yet, or they break the protocol.
#[derive(Clone, Copy, Debug, PartialEq, Eq)]
pub enum ReadError {
    Incomplete,
    Violated(Fault),
}

// Why there is no answer: the call or the reading is refused, or the bytes read break the protocol.
#[derive(Clone, Copy, Debug, PartialEq, Eq)]
pub enum Failure {
    Refused(Refusal),
    Violated(Fault),
}

impl From<Fault> for ReadError {
    ghost use Rattle.refusal.specs.declared.ReadError.{ReadError};

    ghost from_gives = { λ f e. e ≡ ReadError.Violated f };

    fn from(fault: Fault) -> ReadError {
        ReadError::Violated(fault)
    }
}

impl From<Refusal> for Failure {
    ghost use Rattle.refusal.specs.declared.Failure.{Failure};

    ghost from_gives = { λ r e. e ≡ Failure.Refused r };

    fn from(refusal: Refusal) -> Failure {
        Failure::Refused(refusal)
    }
}

impl From<Fault> for Failure {
    ghost use Rattle.refusal.specs.declared.Failure.{Failure};

    ghost from_gives = { λ f e. e ≡ Failure.Violated f };

    fn from(fault: Fault) -> Failure {
        Failure::Violated(fault)
    }
}

impl From<ReadError> for Failure {
    ghost from_gives = { λ r e. e ≡ failure_of r };

    fn from(error: ReadError) -> Failure {
        match error {
            ReadError::Incomplete => Failure::Refused(Refusal::Incomplete),
            ReadError::Violated(fault) => Failure::Violated(fault),
        }
    }
}

impl Refusal {
    pub fn number(self) -> u8
        ensures { result ≡ refusal_number self }
    {
        match self {
            Refusal::NotExchanged => 1,
            Refusal::Over => 2,
            Refusal::NoSuchSession => 3,
            Refusal::WrongRole => 4,
            Refusal::WrongState => 5,
            Refusal::SlotFull => 6,
            Refusal::GrantTooLarge => 7,
            Refusal::WrongRoom => 8,
            Refusal::NothingReady => 9,
            Refusal::Incomplete => 10,
            Refusal::BadValue => 12,
            Refusal::PingOutstanding => 13,
            Refusal::IllFormed => 14,
            Refusal::RegionFull => 16,
        }
    }
}

impl Violation {
    pub fn number(self) -> u8
        ensures { result ≡ violation_number self }
    {
        match self {
            Violation::UnknownType => 20,
            Violation::ReservedBit => 21,
            Violation::BadHeader => 22,
            Violation::WrongSender => 23,
            Violation::WrongFlags => 24,
            Violation::WrongState => 25,
            Violation::AboveRation => 26,
            Violation::PastLargest => 27,
            Violation::UnaskedPingAck => 28,
        }
    }
}

impl Fault {
    // The place of the byte at fault in the message or connection header, whose first byte is at 0.
    pub fn place(self) -> u32
        ensures { result ≡ (fault_as self).place }
    {
        self.offset as u32
    }
}
