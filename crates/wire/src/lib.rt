// The messages of the multiplexing protocol and the ends that send them.
#![tactic(auto)]

// An end of the connection.
#[derive(Clone, Copy, Debug, PartialEq, Eq)]
pub enum Role {
    Client,
    Server,
}

// A type of message.
#[derive(Clone, Copy, Debug, PartialEq, Eq)]
pub enum Kind {
    NoOperation,
    Shutdown,
    Ping,
    PingAck,
    Error,
    IncrementRation,
    Abort,
    Close,
    Acknowledgment,
    Data,
}

// A message with every item except its data or detail, which are the caller's bytes.
#[derive(Clone, Copy, Debug, PartialEq, Eq)]
pub enum Message {
    NoOperation {
        length: u16,
    },
    Shutdown {
        length: u16,
    },
    Ping {
        cookie: u16,
    },
    PingAck {
        cookie: u16,
    },
    Error {
        length: u16,
    },
    IncrementRation {
        shift: u8,
        session: u8,
        increment: u16,
    },
    Abort {
        partial: bool,
        session: u8,
        length: u16,
    },
    Close {
        session: u8,
    },
    Acknowledgment {
        session: u8,
    },
    Data {
        open: bool,
        close: bool,
        eof: bool,
        ack_required: bool,
        session: u8,
        length: u16,
    },
}
