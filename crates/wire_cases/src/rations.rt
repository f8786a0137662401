// Numbers through the ration.
use crate::show::put;
use ration::Ration;
use std::io;
use text_line::Line;
use text_state::with_ration;

fn start(rt: &impl Print, number: u16) -> io::Result<()> {
    let line = Line::new().item(b"header number ", number as u64);
    put(
        rt,
        with_ration(line.text(b" starts "), Ration::from_header(number)),
    )
}

// A ration, the name of what is done to it, and the number that it is done with.
fn asked(ration: Ration, name: &[u8], n: u32) -> Line {
    with_ration(Line::new().text(b"ration "), ration).item(name, n as u64)
}

fn spend(rt: &impl Print, ration: Ration, n: u32) -> io::Result<()> {
    let line = asked(ration, b" spend ", n);
    match ration.spend(n) {
        Some(left) => put(rt, with_ration(line.text(b": left "), left)),
        None => put(rt, line.text(b": not enough")),
    }
}

// Grows a ration by a shifted increment.
fn grow(rt: &impl Print, ration: Ration, shift: u8, increment: u16) -> io::Result<()> {
    let n = wire_fields::effective_increment(shift, increment);
    let line = asked(ration, b" grow ", n);
    match ration.grow(n) {
        Some(more) => put(rt, with_ration(line.text(b": now "), more)),
        None => put(rt, line.text(b": past the largest")),
    }
}

fn starts(rt: &impl Print) -> io::Result<()> {
    for number in [0, 1, 4, 36, 40, 65535] {
        start(rt, number)?;
    }
    Ok(())
}

// Numbers that differ when they are compared as text.
fn spends(rt: &impl Print) -> io::Result<()> {
    let cases = [
        (9216, 10240),
        (10240, 9216),
        (9216, 9216),
        (9, 10),
        (256, 257),
        (0, 0),
        (0, 1),
        (65536, 65535),
        (65536, 1),
    ];
    for (left, n) in cases {
        spend(rt, Ration::Finite(left), n)?;
    }
    spend(rt, Ration::Endless, 65535)
}

fn grows(rt: &impl Print) -> io::Result<()> {
    let cases = [
        (2147483000, 0, 647),
        (2147483000, 0, 648),
        (0, 7, 65535),
        (1073741823, 7, 65535),
        (1073758208, 7, 65535),
        (10, 1, 3),
    ];
    for (left, shift, increment) in cases {
        grow(rt, Ration::Finite(left), shift, increment)?;
    }
    grow(rt, Ration::Endless, 0, 1)
}

pub(crate) fn all(rt: &impl Print) -> io::Result<()> {
    starts(rt)?;
    spends(rt)?;
    grows(rt)
}
