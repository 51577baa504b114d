// Works a parcel for a number of cycles over made-up inputs, and prints a checksum of all that came out.
//
//     cycles PARCEL COUNT
#![tactic(auto)]

ghost use Rattle.cycles.specs.Sums.{after, drawn, input_of, lifted, next, number_at, sample_after, sum_of, with, with_lines, with_outputs};
ghost use Rattle.terminals.specs.Meaning.{asked};
ghost use Rattle.machine.specs.Lines.{brought};
ghost use Rattle.machine.specs.State.{state_of};
ghost use Rattle.std.specs.Prelude.{◌≡◌};

use anyhow::anyhow;
use machine::sample::Sample;
use machine::state::Machine;
use std::{env, fs};
use terminals::outputs::Signals;

// Made-up numbers, the same on every machine.
#[derive(Drop)]
struct Generator(u32);

impl Generator {
    // The next number: the upper half of a linear congruence.
    fn draw(&mut self) -> u16
        ensures state { self.new.0 ≡ next self.old.0 }
        ensures value { result ≡ drawn (next self.old.0) }
    {
        self.0 = self.0.wrapping_mul(1664525).wrapping_add(1013904223);
        (self.0 / 65536) as u16
    }

    // An input from -16000 to 16000.
    fn input(&mut self) -> i16
        ensures state { self.new.0 ≡ next self.old.0 }
        ensures value { result ≡ input_of (drawn (next self.old.0)) }
    {
        (i32::from(self.draw() % 32001) - 16000) as i16
    }

    // Eight inputs, and nine bits.
    fn sample(&mut self) -> Sample
        ensures state { self.new.0 ≡ after 9 self.old.0 }
        ensures value { brought result ≡ sample_after self.old.0 }
    {
        let mut inputs = [0; 8];
        for place in inputs.iter_mut() {
            *place = self.input();
        }
        Sample::new(&inputs, self.draw() % 512)
    }
}

// A checksum with one number more.
fn with(sum: u64, number: u32) -> u64
    ensures { result ≡ with sum number }
{
    sum.wrapping_mul(31).wrapping_add(u64::from(number))
}

// A number from -32768 on as one from 0 on.
fn lifted(value: i16) -> u32
    ensures { result ≡ lifted value }
{
    (i32::from(value) + 32768) as u32
}

fn with_outputs(sum: u64, outputs: Signals) -> u64
    ensures { result ≡ with_outputs sum (asked outputs) }
{
    let first = with(sum, lifted(i16::from(outputs.first)));
    let second = with(first, lifted(i16::from(outputs.second)));
    with(second, u32::from(outputs.digital))
}

// What a line holds: a bit, or a reading.
fn number_at(machine: &Machine, line: u8) -> u32
    ensures { result ≡ number_at line ((state_of machine.now).lines line).value }
{
    let value = machine.value(line);
    if line < 0x40 {
        u32::from(value > 0)
    } else {
        lifted(value)
    }
}

// What all lines hold, by address.
fn with_lines(sum: u64, machine: &Machine) -> u64
    ensures { result ≡ with_lines sum (state_of machine.now) 256 }
{
    let mut sum = sum;
    for line in 0..=255u8 {
        sum = with(sum, number_at(machine, line));
    }
    sum
}

fn run(machine: &mut Machine, count: u32) -> u64
    ensures { result ≡ sum_of count (state_of machine.old) }
{
    let mut generator = Generator(0);
    let mut sum = 0;
    for _ in 0..count {
        machine.cycle(&generator.sample());
        sum = with_outputs(sum, machine.outputs());
    }
    with_lines(sum, machine)
}

fn work(rt: &HostRuntime) -> anyhow::Result<()> {
    let mut args = env::args(rt)?;
    let Some(file) = args.nth(1) else {
        return Err(anyhow!("no parcel is named"));
    };
    let Some(number) = args.next() else {
        return Err(anyhow!("no number of cycles is given"));
    };
    let count = number.as_str().parse::<u32>()?;
    let parcel = fs::read(rt, file.as_str())?;
    let mut machine = Machine::new();
    if machine.load(parcel.as_slice()).is_err() {
        return Err(anyhow!("the parcel is refused"));
    }
    machine.recall();
    let sum = run(&mut machine, count);
    println!(rt; "{count} cycles, sum {sum}")?;
    Ok(())
}

fn main(rt: HostRuntime) -> anyhow::Result<()> {
    work(&rt)
}
