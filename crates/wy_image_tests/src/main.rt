//! Decodes and encodes each image that an argument names, the beginnings of its bytes, and its bytes with one changed.
//! It verifies the image too, and prints what it may do. If the first argument is `verdicts`, it only verifies.
//! crates/wy_image_tests/README.md says what the images are.
#![tactic(auto)]

ghost use Rattle.std.specs.Prelude.{◌<◌, length};

use std::alloc::Global;
use std::io::{self, Read};
use std::process::ExitCode;
use std::{env, fs};
use wy_authority::report;
use wy_image::{DecodeRefusal, decode, encode};
use wy_verify::{Verified, VerifyRefusal, VerifyRule, verify};

/// The most bytes of an image of which all beginnings and changes are tried: each of them reads the whole again.
const MOST_TRIED: usize = 1200;

/// Returns whether the bytes spell an image, and are what encoding it gives.
fn comes_back(alloc: Global, bytes: &[u8]) -> bool {
    let Ok(image) = decode(alloc, bytes) else {
        return false;
    };
    match encode(alloc, &image) {
        Ok(text) => text.as_bytes() == bytes,
        Err(_) => false,
    }
}

/// Returns the place at which the bytes go wrong; none if they spell an image, or memory ran out.
fn bad_place(alloc: Global, bytes: &[u8]) -> Option<u64> {
    match decode(alloc, bytes) {
        Err(DecodeRefusal::BadImage(at)) => Some(at),
        _ => None,
    }
}

/// Returns whether each beginning of the bytes, without the whole, goes wrong at its end.
fn beginnings_end(alloc: Global, bytes: &[u8]) -> bool {
    for length in 0..bytes.len() {
        if bad_place(alloc, &bytes[..length]) != Some(length as u64) {
            return false;
        }
    }
    true
}

/// Returns whether the bytes with the one at a place complemented are another image, or go wrong there or later.
fn stands_changed(alloc: Global, bytes: &mut [u8], place: usize) -> bool
    requires { place < length bytes.now }
{
    bytes[place] = !bytes[place];
    let stands = match bad_place(alloc, bytes) {
        Some(at) => place as u64 <= at,
        None => comes_back(alloc, bytes),
    };
    bytes[place] = !bytes[place];
    stands
}

/// Returns whether at each place the byte complemented gives another image, or bytes that go wrong there or later.
fn all_stand_changed(alloc: Global, bytes: &mut [u8]) -> bool {
    for place in 0..bytes.len() {
        if !stands_changed(alloc, bytes, place) {
            return false;
        }
    }
    true
}

/// Says what becomes of the bytes of an image.
fn tried(alloc: Global, bytes: &mut [u8]) -> &'static str {
    if !comes_back(alloc, bytes) {
        "does not come back"
    } else if bytes.len() > MOST_TRIED {
        "comes back"
    } else if !beginnings_end(alloc, bytes) {
        "a beginning does not go wrong at its end"
    } else if !all_stand_changed(alloc, bytes) {
        "a changed byte goes wrong before its place"
    } else {
        "comes back; beginnings and changes as they must be"
    }
}

/// Returns the name of a rule.
fn rule_name(rule: VerifyRule) -> &'static str {
    match rule {
        VerifyRule::Range => "V-Range",
        VerifyRule::Argument => "V-Argument",
        VerifyRule::Flow => "V-Flow",
        VerifyRule::State => "V-State",
        VerifyRule::Depth => "V-Depth",
        VerifyRule::Types => "V-Type",
        VerifyRule::Effect => "V-Effect",
    }
}

/// Prints that an image is verified, and the report of what it may do.
fn print_report(rt: &HostRuntime, name: &str, verified: &Verified<'_>) -> io::Result<()> {
    let alloc: Global = rt.alloc();
    let Ok(authority) = verified.bounds(alloc) else {
        return println!(rt; "{name}: no memory");
    };
    let Ok(text) = report(alloc, &authority) else {
        return println!(rt; "{name}: no memory");
    };
    match str::from_utf8(text.as_bytes()) {
        Ok(text) => print!(rt; "{name}: verified\n{text}"),
        Err(_) => println!(rt; "{name}: verified, and a name is not UTF-8"),
    }
}

/// Prints at which byte an image goes wrong, which rule fails first and where, or that it is verified.
fn print_verdict(rt: &HostRuntime, name: &str, bytes: &[u8]) -> io::Result<()> {
    let alloc: Global = rt.alloc();
    let file = match decode(alloc, bytes) {
        Ok(file) => file,
        Err(DecodeRefusal::BadImage(at)) => return println!(rt; "{name}: bad image at {at}"),
        Err(DecodeRefusal::Memory) => return println!(rt; "{name}: no memory"),
    };
    match verify(alloc, &file) {
        Ok(verified) => print_report(rt, name, &verified),
        Err(VerifyRefusal::Memory) => println!(rt; "{name}: no memory"),
        Err(
            VerifyRefusal::Fails {
                rule,
                instance,
                body,
                at,
            },
        ) => {
            let rule = rule_name(rule);
            println!(rt; "{name}: unverified {rule} {instance} {body} {at}")
        }
    }
}

/// Prints what becomes of the image of a file, and its verdict. If only verdicts are wanted, prints the verdict alone.
fn try_image(rt: &HostRuntime, name: &str, verdicts: bool) -> io::Result<()> {
    let alloc: Global = rt.alloc();
    let mut bytes = Vec::new(alloc);
    fs::open(rt, name)?.read_to_end(&mut bytes)?;
    if !verdicts {
        let answer = tried(alloc, &mut bytes);
        println!(rt; "{name}: {} bytes, {answer}", bytes.len())?;
    }
    print_verdict(rt, name, &bytes)
}

fn run(rt: &HostRuntime) -> io::Result<()> {
    let mut verdicts = false;
    for word in env::args(rt)?.skip(1) {
        if word.as_str() == "verdicts" {
            verdicts = true;
        } else {
            try_image(rt, word.as_str(), verdicts)?;
        }
    }
    Ok(())
}

fn main(rt: HostRuntime) -> ExitCode {
    match run(&rt) {
        Ok(()) => ExitCode::SUCCESS,
        Err(_) => ExitCode::FAILURE,
    }
}
