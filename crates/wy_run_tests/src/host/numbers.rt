use std::test::Fail;
use wy_device::device::Device;
use wy_device::operation::{Answer, Op};
use wy_host::clock::RealClock;
use wy_host::random::RealRandom;
use wy_text::text::from_bytes;

#[test]
fn a_clock_gives_seconds_since_1970(rt: HostRuntime) -> Result<(), Fail> {
    let grant = from_bytes(rt.alloc(), b"clock")?;
    let mut clock = RealClock::new(rt.clone()?);
    // 2020 began 1,577,836,800 seconds after 1970, and 2200 begins 7,258,118,400 after it.
    match clock.perform(&grant, &Op::ClockNow)? {
        Answer::Number(now) => assert!(rt; now > 1_577_836_800 && now < 7_258_118_400),
        _ => assert!(rt; false),
    }
    Ok(())
}

#[test]
fn a_random_source_gives_numbers_that_differ(rt: HostRuntime) -> Result<(), Fail> {
    let grant = from_bytes(rt.alloc(), b"random")?;
    let mut random = RealRandom::new(rt.clone()?);
    let first = random.perform(&grant, &Op::RandomWord)?;
    let second = random.perform(&grant, &Op::RandomWord)?;
    match (first, second) {
        (Answer::Number(first), Answer::Number(second)) => assert!(rt; first != second),
        _ => assert!(rt; false),
    }
    Ok(())
}
