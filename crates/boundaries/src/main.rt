// The boundaries of a run, after M12: each refusal where it begins, one line for
// each call. The gate compares what is printed with the file stdout.
#![tactic(auto)]

use call::Call;
use machine::{Devices, Machine};
use printing::BestEffort;
use std::io;

mod call;
mod outcome;
mod printing;

// 2^48, the highest clock.
const LAST: u64 = 0x1_0000_0000_0000;

// The most steps of one call.
const MOST: u64 = 1048576;

// The record of every case but for what the case sets: each field is defined, and most differ.
fn record() -> Machine {
    Machine {
        regs: [1, 2, 3, 4, 5, 6, 0x2F00, 8],
        pc: 0x3000,
        psr: 0x0302,
        saved_ssp: 0x3000,
        saved_usp: 0xFDFF,
        devices: Devices::fresh().with_keyboard(0, 0x0055),
        clock: 1000,
    }
}

fn title(rt: &impl Print) -> io::Result<()> {
    println!(rt; "The boundaries of a run")?;
    println!(rt; "=======================\n")?;
    println!(rt; "Each line is one call: what was handed in, and the answer. 'All as handed in'")?;
    println!(rt; "compares the whole record, every word of memory and every byte of the output")?;
    println!(rt; "with what they were before the call.")
}

fn memory_sizes(rt: &impl Print) -> io::Result<()> {
    println!(rt; "\n11: memory is not 65,536 words")?;
    let call = Call::keyless(record(), 1);
    call.with(|c| c.size = 65535)
        .print(rt, "memory of 65,535 words")?;
    call.with(|c| c.size = 65536)
        .print(rt, "memory of 65,536 words")?;
    call.with(|c| c.size = 65537)
        .print(rt, "memory of 65,537 words")
}

fn undefined_bits(rt: &impl Print) -> io::Result<()> {
    println!(rt; "\n12: an undefined bit, a count out of its bounds, or a clock above 2^48")?;
    let mut m = record();
    m.psr = 0x8707;
    m.devices.kbsr = 0xC000;
    m.devices.kbdr = 0x00FF;
    m.devices.mcr = 0x8000;
    let call = Call::keyless(m, 0);
    call.print(rt, "PSR x8707, KBSR xC000, KBDR x00FF, MCR x8000")?;
    call.with(|c| c.machine.psr = 0x870F)
        .print(rt, "PSR x870F")?;
    call.with(|c| c.machine.devices.kbsr = 0xE000)
        .print(rt, "KBSR xE000")?;
    call.with(|c| c.machine.devices.kbdr = 0x01FF)
        .print(rt, "KBDR x01FF")?;
    call.with(|c| c.machine.devices.mcr = 0x8001)
        .print(rt, "MCR x8001")
}

fn undefined_counts(rt: &impl Print) -> io::Result<()> {
    let mut m = record();
    m.devices.timer_status = 0xC000;
    m.devices.timer_interval = 7;
    m.devices.timer_count = 7;
    let busy = Call::keyless(record(), 0);
    busy.with(|c| c.machine.devices.busy = 8)
        .print(rt, "busy 8")?;
    busy.with(|c| c.machine.devices.busy = 9)
        .print(rt, "busy 9")?;
    let timer = Call::keyless(m, 0);
    timer.print(rt, "timer status xC000, interval 7, count 7")?;
    timer
        .with(|c| c.machine.devices.timer_status = 0xE000)
        .print(rt, "timer status xE000")?;
    timer
        .with(|c| c.machine.devices.timer_count = 8)
        .print(rt, "timer interval 7, count 8")?;
    timer
        .with(|c| c.machine.devices.timer_count = 0)
        .print(rt, "timer interval 7, count 0")
}

// A call of so many steps at this clock.
fn at_clock(clock: u64, steps: u64) -> Call<'static> {
    Call::keyless(record(), steps).with(|c| c.machine.clock = clock)
}

// The same at clock 0, halted.
fn halted(steps: u64) -> Call<'static> {
    at_clock(0, steps).with(|c| c.machine.devices.mcr = 0)
}

fn clocks(rt: &impl Print) -> io::Result<()> {
    at_clock(LAST, 0).print(rt, "clock 2^48, n 0")?;
    at_clock(LAST + 1, 0).print(rt, "clock 2^48 + 1, n 0")
}

fn step_counts(rt: &impl Print) -> io::Result<()> {
    println!(rt; "\n13: n above 1,048,576 or clock plus n above 2^48")?;
    at_clock(0, MOST).print(rt, "clock 0, n 1,048,576")?;
    at_clock(0, MOST + 1).print(rt, "clock 0, n 1,048,577")?;
    halted(MOST).print(rt, "clock 0, n 1,048,576, halted")?;
    halted(MOST + 1).print(rt, "clock 0, n 1,048,577, halted")?;
    let first = LAST - MOST;
    at_clock(first, MOST).print(rt, "clock 2^48 - 1,048,576, n 1,048,576")?;
    at_clock(first + 1, MOST).print(rt, "clock 2^48 - 1,048,575, n 1,048,576")?;
    at_clock(LAST - 1, 1).print(rt, "clock 2^48 - 1, n 1")?;
    at_clock(LAST, 1).print(rt, "clock 2^48, n 1")
}

fn list_lengths(rt: &impl Print) -> io::Result<()> {
    println!(rt; "\n14: the key lists differ in length")?;
    let call = Call::keyless(record(), 1);
    call.keyed(&[1000, 1000], b"ab")
        .print(rt, "2 times, 2 bytes")?;
    call.keyed(&[1000, 1000], b"a")
        .print(rt, "2 times, 1 byte")?;
    call.keyed(&[1000], b"ab").print(rt, "1 time, 2 bytes")?;
    call.keyed(&[], b"a").print(rt, "no time, 1 byte")
}

// A call of two steps with three keys, at these times.
fn keyed(times: &[u64; 3]) -> Call<'_> {
    Call::keyless(record(), 2).keyed(times, b"abc")
}

fn key_times(rt: &impl Print) -> io::Result<()> {
    println!(rt; "\n15: a time below the clock, here 1000; entries are counted from 0")?;
    keyed(&[1000, 1001, 1001]).print(rt, "times 1000, 1001, 1001")?;
    keyed(&[999, 1001, 1001]).print(rt, "times 999, 1001, 1001")?;
    keyed(&[999, 998, 1001]).print(rt, "times 999, 998, 1001")?;
    keyed(&[1000, 1001, 999]).print(rt, "times 1000, 1001, 999: 19 would apply too")
}

fn key_orders(rt: &impl Print) -> io::Result<()> {
    println!(rt; "\n19: a time below the one before it, but not below the clock")?;
    keyed(&[1001, 1001, 1001]).print(rt, "times 1001, 1001, 1001")?;
    keyed(&[1001, 1001, 1000]).print(rt, "times 1001, 1001, 1000")?;
    keyed(&[1002, 1001, 1000]).print(rt, "times 1002, 1001, 1000")?;
    keyed(&[1002, 1001, 999]).print(rt, "times 1002, 1001, 999: 15 at a later entry")
}

// Calls that every refusal from one on applies to: the first in the order of M12.2 is answered.
fn first_answered(rt: &impl Print) -> io::Result<()> {
    println!(rt; "\nThe first that applies is answered")?;
    let from_15 = Call::keyless(record(), MOST).keyed(&[999, 1], b"ab");
    let from_14 = from_15.with(|c| c.bytes = b"a");
    let from_13 = from_14.with(|c| c.steps = MOST + 1);
    let from_12 = from_13.with(|c| c.machine.psr = 0x000A);
    let from_11 = from_12.with(|c| c.size = 65537);
    from_11.print(rt, "11, 12, 13, 14 and 15 apply")?;
    from_12.print(rt, "12, 13, 14 and 15 apply")?;
    from_13.print(rt, "13, 14 and 15 apply")?;
    from_14.print(rt, "14 and 15 apply")?;
    from_15.print(rt, "15 applies")
}

fn print_all(rt: &impl Print) -> io::Result<()> {
    title(rt)?;
    memory_sizes(rt)?;
    undefined_bits(rt)?;
    undefined_counts(rt)?;
    clocks(rt)?;
    step_counts(rt)?;
    list_lengths(rt)?;
    key_times(rt)?;
    key_orders(rt)?;
    first_answered(rt)
}

fn main(rt: HostRuntime) {
    // By best effort no print answers an error.
    let _ = print_all(&BestEffort(rt));
}
