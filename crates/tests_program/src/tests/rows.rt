//! Worked rows over memory, as `tests/rows` has them: a station's set-up, octets that are none, and both faults of provisioning.

use crate::tests::{RESPONSE, SETUP, must};
use std::alloc::Global;
use trace_run::{PlayFault, Watched, run_play};
use trace_words::TraceFault;

const EMPTY_OCTETS: &[u8] = b"mme 001 01 8001 01 internet 1000000000 1000000000\n\
    sub 001010000000001 0a000001 0a000064 00000001\n\
    sub 001010000000002 0a000002 0a000064 00000002\n\
    vec 001010000000001 000102030405060708090a0b0c0d0e0f 101112131415161718191a1b1c1d1e1f \
    2021222324252627 303132333435363738393a3b3c3d3e3f404142434445464748494a4b4c4d4e4f\n\
    vec 001010000000002 000102030405060708090a0b0c0d0e0f 101112131415161718191a1b1c1d1e1f \
    2021222324252627 303132333435363738393a3b3c3d3e3f404142434445464748494a4b4c4d4e4f\n\
    up 0\n\
    in 0 0011001f000003003b00080000f11000000010004000070000004000f1100089400140\n\
    in 0 -\n\
    show 001010000000001\n\
    show 001010000000002\n";

const EMPTY_OCTETS_ANSWERS: &[u8] =
    b"out e0 0 201100170000020069000b000000f11000008001000100574001ff\n\
    out e0 0 000f40080000010002400130\n\
    state 001010000000001 DEREGISTERED IDLE INACTIVE\n\
    state 001010000000002 DEREGISTERED IDLE INACTIVE\n";

const REPEATED_IMSI: &[u8] = b"mme 001 01 8001 01 internet 1000000000 1000000000\n\
    sub 001010000000001 0a000001 0a000064 00000001\n\
    sub 001010000000002 0a000002 0a000064 00000002\n\
    sub 001010000000001 0a000003 0a000064 00000003\n";

const REPEATED_ADDRESS: &[u8] = b"mme 001 01 8001 01 internet 1000000000 1000000000\n\
    sub 001010000000001 0a000001 0a000064 00000001\n\
    sub 001010000000002 0a000002 0a000064 00000002\n\
    sub 001010000000003 0a000001 0a000064 00000003\n";

/// How a run over the lines of a row ends.
fn ended(alloc: Global, trace: &[u8], held: &mut Vec<u8>) -> Result<(), PlayFault> {
    run_play(alloc, &mut Watched::new(trace), &mut Watched::new(held))
}

/// Whether a row ends as it is to, with these answers.
fn plays(alloc: Global, trace: &[u8], answers: &[u8], end: Result<(), PlayFault>) -> bool {
    let mut held = Vec::new(alloc);
    ended(alloc, trace, &mut held) == end && held.as_slice() == answers
}

#[test]
fn rows_are_played(rt: HostRuntime) {
    let alloc = rt.alloc();
    must(&rt, plays(alloc, SETUP, RESPONSE, Ok(())));
    must(
        &rt,
        plays(alloc, EMPTY_OCTETS, EMPTY_OCTETS_ANSWERS, Ok(())),
    );
}

#[test]
fn nothing_is_provisioned_twice(rt: HostRuntime) {
    for row in [REPEATED_IMSI, REPEATED_ADDRESS] {
        let end = Err(PlayFault::Trace(4, TraceFault::Provision));
        must(&rt, plays(rt.alloc(), row, b"", end));
    }
}
