mod rows;
mod run;

use identity_slots::Provision;
use mme_core::{Config, Mme};
use mme_types::{AggregateBitRate, Apn, Network};
use per_bits::Octets;
use std::alloc::Global;
use std::io;
use std::io::{BufWriter, Read, Write};
use std::process::Abort;
use trace_run::{PlayFault, Player, Progress, Watched, play_lines, run_play};
use trace_words::TraceFault;

const SETUP: &[u8] =
    b"mme 001 01 8001 01 internet 1000000000 1000000000\nup 0\nin 0 0011001f000003003b00080000f11000000010004000070000004000f1100089400140\n";

const RESPONSE: &[u8] = b"out e0 0 201100170000020069000b000000f11000008001000100574001ff\n";

/// A message that is refused with an indication, and a line with a fault.
const FAULTY: &[u8] = b"mme 001 01 8001 01 internet 1000000000 1000000000\nup 0\nin 0 -\nfly 0\n";

const INDICATION: &[u8] = b"out e0 0 000f40080000010002400130\n";

/// More calls than a run makes here.
const ENOUGH: usize = 1000;

/// Ends the test as failed where it isn't so.
fn must(rt: &impl Abort, holds: bool) {
    assert!(rt; holds);
}

fn is_printed(alloc: Global, fault: PlayFault, text: &str) -> bool {
    match format!(in alloc; "{}", fault) {
        Ok(printed) => printed.as_str() == text,
        Err(_) => false,
    }
}

#[test]
fn faults_have_their_texts(rt: HostRuntime) {
    let alloc = rt.alloc();
    let trace = PlayFault::Trace(8, TraceFault::TooLong);
    must(&rt, is_printed(alloc, trace, "line 8: fault 5"));
    must(&rt, is_printed(alloc, PlayFault::Read, "read failed"));
    must(&rt, is_printed(alloc, PlayFault::Write, "write failed"));
    must(&rt, is_printed(alloc, PlayFault::NoMemory, "out of memory"));
}

/// Gives one octet per read, and fails at a read that is counted down to.
#[derive(Drop)]
struct Slow<'a> {
    rest: &'a [u8],
    good_reads: usize,
}

impl<'a> Read for Slow<'a> {
    fn read(&mut self, buf: &mut [u8]) -> io::Result<usize> {
        if self.good_reads == 0 {
            return Err(io::Error::from(io::ErrorKind::Other));
        }
        self.good_reads -= 1;
        let room = buf.len().min(1);
        self.rest.read(&mut buf[..room])
    }
}

/// Takes one octet per write, and fails at a write or a flush that is counted down to.
#[derive(Drop)]
struct Narrow<'a> {
    held: &'a mut Vec<u8>,
    good_writes: usize,
    good_flushes: usize,
}

impl<'a> Write for Narrow<'a> {
    fn write(&mut self, buf: &[u8]) -> io::Result<usize> {
        if self.good_writes == 0 {
            return Err(io::Error::from(io::ErrorKind::Other));
        }
        self.good_writes -= 1;
        let room = buf.len().min(1);
        self.held.write(&buf[..room])
    }

    fn flush(&mut self) -> io::Result<()> {
        if self.good_flushes == 0 {
            return Err(io::Error::from(io::ErrorKind::Other));
        }
        self.good_flushes -= 1;
        Ok(())
    }
}

/// Whether a run ends well, over a reader and a writer of single octets.
fn plays_octets(alloc: Global, held: &mut Vec<u8>) -> bool {
    let mut reader = Watched::new(Slow {
        rest: SETUP,
        good_reads: ENOUGH,
    });
    let mut writer = Watched::new(Narrow {
        held,
        good_writes: ENOUGH,
        good_flushes: ENOUGH,
    });
    run_play(alloc, &mut reader, &mut writer) == Ok(())
        && reader.ended()
        && !reader.failed()
        && !writer.failed()
}

#[test]
fn one_octet_at_a_time(rt: HostRuntime) {
    let mut held = Vec::new(rt.alloc());
    must(
        &rt,
        plays_octets(rt.alloc(), &mut held) && held.as_slice() == RESPONSE,
    );
}

/// Whether a run whose read fails after N reads ends by that.
fn ends_at_read(alloc: Global, good_reads: usize, held: &mut Vec<u8>) -> bool {
    let mut reader = Watched::new(Slow {
        rest: SETUP,
        good_reads,
    });
    let mut writer = Watched::new(held);
    run_play(alloc, &mut reader, &mut writer) == Err(PlayFault::Read)
        && reader.failed()
        && !reader.ended()
}

/// Whether it has written the answer by then if the whole trace was read, and else nothing.
fn answers_before_read(alloc: Global, good_reads: usize) -> bool {
    let mut held = Vec::new(alloc);
    let answer = if good_reads == SETUP.len() {
        RESPONSE
    } else {
        b"".as_slice()
    };
    ends_at_read(alloc, good_reads, &mut held) && held.as_slice() == answer
}

#[test]
fn each_read_fails(rt: HostRuntime) {
    for k in 0..=SETUP.len() {
        must(&rt, answers_before_read(rt.alloc(), k));
    }
}

/// Whether a run whose write or flush fails after N of them ends by that.
fn ends_at_write(
    alloc: Global,
    good_writes: usize,
    good_flushes: usize,
    held: &mut Vec<u8>,
) -> bool {
    let mut reader = Watched::new(SETUP);
    let mut writer = Watched::new(Narrow {
        held,
        good_writes,
        good_flushes,
    });
    run_play(alloc, &mut reader, &mut writer) == Err(PlayFault::Write) && writer.failed()
}

/// Whether it has written this by then.
fn writes_before(alloc: Global, good_writes: usize, good_flushes: usize, answer: &[u8]) -> bool {
    let mut held = Vec::new(alloc);
    ends_at_write(alloc, good_writes, good_flushes, &mut held) && held.as_slice() == answer
}

#[test]
fn each_write_fails(rt: HostRuntime) {
    for k in 0..RESPONSE.len() {
        let answer = &RESPONSE[..k.min(RESPONSE.len())];
        must(&rt, writes_before(rt.alloc(), k, ENOUGH, answer));
    }
}

#[test]
fn each_flush_fails(rt: HostRuntime) {
    for k in 0..2usize {
        must(&rt, writes_before(rt.alloc(), ENOUGH, k, RESPONSE));
    }
}

/// Whether a run ends at its faulty line, and has written all before it by then.
fn keeps_nothing_back(alloc: Global, buffered: BufWriter<&mut Vec<u8>>) -> bool {
    let mut reader = Watched::new(FAULTY);
    let mut writer = Watched::new(buffered);
    run_play(alloc, &mut reader, &mut writer) == Err(PlayFault::Trace(4, TraceFault::UnknownWord))
        && writer.inner().get_ref().as_slice() == INDICATION
}

fn buffers_nothing(alloc: Global, held: &mut Vec<u8>) -> bool {
    match BufWriter::new(alloc, held) {
        Ok(buffered) => keeps_nothing_back(alloc, buffered),
        Err(_) => false,
    }
}

#[test]
fn nothing_is_kept_back(rt: HostRuntime) {
    let mut held = Vec::new(rt.alloc());
    must(&rt, buffers_nothing(rt.alloc(), &mut held));
}

/// The network of the worked rows, and this clock.
fn config(clock: u64) -> Option<Config> {
    let rate = AggregateBitRate::try_new(1_000_000_000)?;
    let network = Network {
        plmn: Octets::new([0x00, 0xf1, 0x10]),
        group: Octets::new([0x80, 0x01]),
        code: Octets::new([0x01]),
        apn: Apn::try_new(b"internet")?,
        down: rate,
        up: rate,
    };
    Some(Config { network, clock })
}

/// Whether these events are played to the end.
fn plays_events(alloc: Global, player: &mut Player, held: &mut Vec<u8>) -> bool {
    let mut reader = Watched::new(b"up 7\ntick 2\nup 7\nlost 7\ntick 1\n".as_slice());
    let mut writer = Watched::new(held);
    play_lines(alloc, player, &mut reader, &mut writer) == Ok(())
}

/// Whether the clock's last tick is taken and the next is refused, and what comes between them is answered.
fn ends_clock(alloc: Global, player: &mut Player) -> bool {
    let mut held = Vec::new(alloc);
    plays_events(alloc, player, &mut held)
        && held.as_slice() == b"refused 3\nrefused 2\nrefused 3\n".as_slice()
}

/// Without subscribers.
fn plays_to_end_of_clock(alloc: Global, config: Config) -> bool {
    match Mme::new(alloc, config, Provision::new(alloc)) {
        Ok(mme) => {
            let mut player = Player {
                progress: Progress::Running(mme),
                room: Vec::new(alloc),
            };
            ends_clock(alloc, &mut player)
        }
        Err(_) => false,
    }
}

#[test]
fn the_clock_ends(rt: HostRuntime) {
    match config((1 << 62) - 1) {
        Some(config) => must(&rt, plays_to_end_of_clock(rt.alloc(), config)),
        None => must(&rt, false),
    }
}
