// Runs the ping clock on case 7 and at the ends of each range, and writes a line for each answer.
#![tactic(auto)]

use clock_limit::{Setting, limit_of};
use clock_sample::{BadValue, Clock, with_sample};
use std::{fmt, io};

// A size with three decimals, cut off; or 'large' for NaN, for -0.001 and below, and from 2 ^ 64 thousandths up.
#[derive(Clone, Copy)]
struct Size(f64);

impl fmt::Display for Size {
    fn fmt<W: fmt::Write>(&self, f: &mut fmt::Formatter<W>) -> fmt::Result {
        let thousandths = self.0 * 1000.0;
        if thousandths > -1.0 {
            if thousandths < 18446744073709551616.0 {
                let count = std::num::truncating_f64_to_u64(thousandths);
                return write!(f, "{}.{:03}", count / 1000, count % 1000);
            }
        }
        write!(f, "large")
    }
}

// The 64 bits that hold a number; 0 for NaN, which has no bits of its own.
fn bits(x: f64) -> u64 {
    if x == x { f64::to_bits(x) } else { 0 }
}

// A number: its value, and its bits.
#[derive(Clone, Copy)]
struct Number(f64);

impl fmt::Display for Number {
    fn fmt<W: fmt::Write>(&self, f: &mut fmt::Formatter<W>) -> fmt::Result {
        let x = self.0;
        if x != x {
            write!(f, "NaN")
        } else if x < 0.0 {
            write!(f, "-{} ({:016x})", Size(-x), bits(x))
        } else {
            write!(f, "{} ({:016x})", Size(x), bits(x))
        }
    }
}

// A clock: whether a sample has come, the smoothed time and the deviation.
#[derive(Clone, Copy)]
struct State(Clock);

impl fmt::Display for State {
    fn fmt<W: fmt::Write>(&self, f: &mut fmt::Formatter<W>) -> fmt::Result {
        let Clock {
            sampled,
            smoothed,
            deviation,
        } = self.0;
        let name = if sampled { "sampled" } else { "unsampled" };
        write!(f, "{name} {} {}", Number(smoothed), Number(deviation))
    }
}

// Passes a clock to the sampler, writes the answer and the clock afterwards, and returns that clock.
fn sample(rt: &impl Print, clock: Clock, r: u32) -> io::Result<Clock> {
    let update = with_sample(clock, r);
    let outcome = match update {
        Ok(_) => "taken",
        Err(BadValue) => "refused 12",
    };
    let after = update.unwrap_or(clock);
    println!(rt; "{}, sample {r}: {outcome}, {}", State(clock), State(after))?;
    Ok(after)
}

// Writes a limit, or that it is refused, at the end of a line.
fn write_limit(rt: &impl Print, limit: Result<f64, BadValue>) -> io::Result<()> {
    match limit {
        Ok(x) => println!(rt; ": {}", Number(x)),
        Err(BadValue) => println!(rt; ": refused 12"),
    }
}

// Writes the limit of a clock under a fixed setting.
fn fixed(rt: &impl Print, clock: Clock, x: f64) -> io::Result<()> {
    print!(rt; "{}, fixed {}", State(clock), Number(x))?;
    write_limit(rt, limit_of(clock, Setting::Fixed { limit: x }))
}

// Writes the limit of a clock under a measured setting.
fn measured(rt: &impl Print, clock: Clock, floor: f64, ceiling: f64) -> io::Result<()> {
    print!(rt;
        "{}, from {} to {}",
        State(clock),
        Number(floor),
        Number(ceiling)
    )?;
    write_limit(rt, limit_of(clock, Setting::Measured { floor, ceiling }))
}

fn sampled(smoothed: f64, deviation: f64) -> Clock {
    Clock {
        sampled: true,
        smoothed,
        deviation,
    }
}

fn unsampled(smoothed: f64, deviation: f64) -> Clock {
    Clock {
        sampled: false,
        smoothed,
        deviation,
    }
}

fn later(rt: &impl Print, smoothed: f64, deviation: f64, r: u32) -> io::Result<()> {
    sample(rt, sampled(smoothed, deviation), r)?;
    Ok(())
}

fn case_7(rt: &impl Print) -> io::Result<()> {
    rt.println("case 7")?;
    let mut clock = Clock::new();
    for r in [100, 100, 180] {
        clock = sample(rt, clock, r)?;
        measured(rt, clock, 1.0, 60000.0)?;
    }
    Ok(())
}

fn first_samples(rt: &impl Print) -> io::Result<()> {
    rt.println("first samples")?;
    for r in [0, 1, 60000, 60001, u32::MAX] {
        sample(rt, Clock::new(), r)?;
    }
    sample(rt, unsampled(60000.0, 60000.0), 7)?;
    Ok(())
}

fn later_samples(rt: &impl Print) -> io::Result<()> {
    rt.println("later samples")?;
    later(rt, 60000.0, 60000.0, 0)?;
    later(rt, 60000.0, 60000.0, 60000)?;
    later(rt, 0.0, 0.0, 60000)?;
    later(rt, 100.0, 50.0, 60001)?;
    later(rt, 0.1, 0.3, 7)?;
    later(rt, 333.3333333333333, 41.7, 350)?;
    later(rt, -0.0, -0.0, 0)?;
    later(rt, 5e-324, 5e-324, 0)
}

fn run_of_samples(rt: &impl Print) -> io::Result<()> {
    rt.println("a run of samples")?;
    let mut clock = Clock::new();
    for r in [17, 23, 1999, 60001, 3] {
        clock = sample(rt, clock, r)?;
    }
    measured(rt, clock, 1.0, 60000.0)
}

fn bad_states(rt: &impl Print, nan: f64, infinity: f64) -> io::Result<()> {
    rt.println("bad states")?;
    later(rt, nan, 0.0, 100)?;
    later(rt, 0.0, nan, 100)?;
    later(rt, infinity, 0.0, 100)?;
    later(rt, 0.0, -infinity, 100)?;
    later(rt, -1.0, 0.0, 100)?;
    later(rt, 0.0, -5e-324, 100)?;
    later(rt, 60000.00000000001, 0.0, 100)
}

fn bad_states_judged_too(rt: &impl Print, nan: f64, infinity: f64) -> io::Result<()> {
    rt.println("bad states, no sample or a fixed limit")?;
    sample(rt, unsampled(nan, 0.0), 100)?;
    fixed(rt, unsampled(-1.0, 0.0), 500.0)?;
    fixed(rt, sampled(0.0, nan), 500.0)?;
    measured(rt, unsampled(0.0, infinity), 1.0, 60000.0)
}

fn measured_limits(rt: &impl Print) -> io::Result<()> {
    rt.println("measured limits")?;
    let new = Clock::new();
    measured(rt, new, 1.0, 60000.0)?;
    measured(rt, new, 2000.0, 3000.0)?;
    measured(rt, new, 1.0, 999.5)?;
    measured(rt, sampled(0.0, 0.0), 1.0, 60000.0)?;
    measured(rt, sampled(-0.0, -0.0), 1.0, 60000.0)?;
    measured(rt, sampled(100.0, 0.25), 1.0, 60000.0)?;
    measured(rt, sampled(0.1, 0.3), 1.0, 60000.0)?;
    measured(rt, sampled(60000.0, 60000.0), 1.0, 60000.0)?;
    measured(rt, sampled(100.0, 50.0), 400.0, 400.0)
}

fn fixed_limits(rt: &impl Print, nan: f64, infinity: f64) -> io::Result<()> {
    rt.println("fixed limits")?;
    let new = Clock::new();
    fixed(rt, new, 1.0)?;
    fixed(rt, sampled(100.0, 50.0), 60000.0)?;
    fixed(rt, sampled(-0.0, -0.0), 1234.5)?;
    fixed(rt, new, 0.9999999999999999)?;
    fixed(rt, new, 60000.00000000001)?;
    fixed(rt, new, -0.0)?;
    fixed(rt, new, nan)?;
    fixed(rt, new, infinity)
}

fn bad_floors_and_ceilings(rt: &impl Print, nan: f64, infinity: f64) -> io::Result<()> {
    rt.println("bad floors and ceilings")?;
    let new = Clock::new();
    measured(rt, new, 0.5, 60000.0)?;
    measured(rt, new, 1.0, 60001.0)?;
    measured(rt, new, 300.0, 200.0)?;
    measured(rt, new, nan, 60000.0)?;
    measured(rt, new, 1.0, nan)?;
    measured(rt, new, -infinity, infinity)
}

fn main(rt: HostRuntime) -> io::Result<()> {
    let zero = 0.0;
    let nan = zero / zero;
    let infinity = 1.0 / zero;
    case_7(&rt)?;
    first_samples(&rt)?;
    later_samples(&rt)?;
    run_of_samples(&rt)?;
    bad_states(&rt, nan, infinity)?;
    bad_states_judged_too(&rt, nan, infinity)?;
    measured_limits(&rt)?;
    fixed_limits(&rt, nan, infinity)?;
    bad_floors_and_ceilings(&rt, nan, infinity)
}
