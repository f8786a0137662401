// One end of a connection: its standard input is what arrives, its standard output is what it sends.
//
// A client makes one request: it opens session 5, sends "abc" and eof, and ends when it knows the outcome. A server answers each
// request with "ok" and closes the session. Both tell on standard error what they receive. docs/API.md explains the loop.
#![tactic(auto)]

mod end;
mod input;
mod tell;

use end::End;
use engine::{Answer, Refusal, Role};
use input::Input;
use refusal::Failure;
use std::io;
use std::rt::Env;

// A refusal of receive: with 10 a header or message is not complete yet, and more of the input is read. Where that has ended, or at any
// other refusal, which this program does not meet, the line is lost.
fn refused(rt: &HostRuntime, end: &mut End, refusal: Refusal, input: &mut Input) -> io::Result<()> {
    if refusal != Refusal::Incomplete || !input.read(&mut rt.stdin())? {
        end.lose();
    }
    Ok(())
}

// Takes one header or message, sends the reply, and does what the program wants to do then.
fn step(rt: &HostRuntime, end: &mut End, input: &mut Input) -> io::Result<()> {
    let called = end.receive(input.as_slice());
    if let Err(Failure::Refused(refusal)) = called.answer {
        return refused(rt, end, refusal, input);
    }
    end.take(rt, &called)?;
    tell::received(rt, &called, input.as_slice())?;
    match called.answer {
        Ok(Answer::Header(_)) => end.at_header(rt)?,
        Ok(Answer::Message { message, .. }) => end.at_message(rt, message)?,
        _ => {}
    }
    input.drop_first(called.used);
    Ok(())
}

fn run(rt: &HostRuntime, role: Role) -> io::Result<()> {
    let mut input = Input::new();
    let mut end = End::new(role);
    end.start(rt)?;
    // Kept: an input may have no end, so the loop counts its turns up to a number that no run uses up.
    for _ in 0..u64::MAX {
        if !end.goes_on() {
            break;
        }
        step(rt, &mut end, &mut input)?;
    }
    tell::session(rt, 5, end.request())
}

fn main(rt: HostRuntime) -> io::Result<()> {
    let mut word = [0u8; 7];
    let Ok(n) = rt.arg(1, &mut word) else {
        return tell::usage(&rt);
    };
    match &word[..n] {
        b"client" => run(&rt, Role::Client),
        b"server" => run(&rt, Role::Server),
        _ => tell::usage(&rt),
    }
}
