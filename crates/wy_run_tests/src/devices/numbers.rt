use super::{are_told, failing_at};
use std::alloc::Global;
use std::test::Fail;
use wy_device::device::{Device, DeviceError};
use wy_device::operation::{Answer, Op};
use wy_memory::{MemClock, MemRandom, NumberList};
use wy_text::list::Items;
use wy_text::text::{Memory, Text, from_bytes};

fn number(answer: &Result<Answer, DeviceError>) -> Option<i64> {
    match answer {
        Ok(Answer::Number(number)) => Some(*number),
        _ => None,
    }
}

/// Whether the clock gives these times, where `None` is a call that fails.
fn gives(alloc: Global, clock: &mut MemClock, times: &[Option<i64>]) -> Result<bool, Memory> {
    let grant = from_bytes(alloc, b"clock")?;
    for wanted in times {
        if number(&clock.perform(&grant, &Op::ClockNow)) != *wanted {
            return Ok(false);
        }
    }
    Ok(true)
}

#[test]
fn a_clock_stays_at_the_greatest_int(rt: HostRuntime) -> Result<(), Fail> {
    let fails = failing_at(rt.alloc(), 2)?;
    let mut clock = MemClock::new(rt.alloc(), i64::MAX - 1, fails)?;
    let times = [Some(i64::MAX - 1), None, Some(i64::MAX), Some(i64::MAX)];
    assert!(rt; gives(rt.alloc(), &mut clock, &times)?);
    assert!(rt; are_told(clock.deeds(), 4, 1));
    Ok(())
}

/// Whether the random source gives these numbers, where `None` is a call that fails.
fn draws(alloc: Global, random: &mut MemRandom, numbers: &[Option<i64>]) -> Result<bool, Memory> {
    let grant = from_bytes(alloc, b"random")?;
    for wanted in numbers {
        if number(&random.perform(&grant, &Op::RandomWord)) != *wanted {
            return Ok(false);
        }
    }
    Ok(true)
}

fn listed(alloc: Global, numbers: &[i64]) -> Result<NumberList, Memory> {
    let mut list = Items::new(alloc);
    for number in numbers {
        list.push(*number)?;
    }
    Ok(list)
}

/// A random source with these numbers, which fails at the call with this number.
fn random(alloc: Global, numbers: &[i64], call: u64) -> Result<MemRandom, Memory> {
    let numbers = listed(alloc, numbers)?;
    MemRandom::new(alloc, numbers, failing_at(alloc, call)?)
}

#[test]
fn a_random_source_goes_round_and_round(rt: HostRuntime) -> Result<(), Fail> {
    let mut random = random(rt.alloc(), &[3, -1, i64::MIN], 3)?;
    let numbers = [Some(3), Some(-1), None, Some(i64::MIN), Some(3), Some(-1)];
    assert!(rt; draws(rt.alloc(), &mut random, &numbers)?);
    Ok(())
}

#[test]
fn a_random_source_without_numbers_gives_zeros(rt: HostRuntime) -> Result<(), Fail> {
    let mut random = random(rt.alloc(), &[], 3)?;
    assert!(rt; draws(rt.alloc(), &mut random, &[Some(0), Some(0), None])?);
    Ok(())
}
