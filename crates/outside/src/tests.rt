use super::*;
use crypto_text::{Bytes, Ids};
use std::alloc::{AllocError, Global};
use std::fs;
use std::io::{self, ErrorKind, Read, Write};
use std::rt::Clock as SystemTime;
use std::test::Fail;
use std::time::Duration;

fn source_of(alloc: Global, text: &[u8], fail_at: &[u64]) -> Result<MemSource, AllocError> {
    Ok(MemSource::new(Bytes::of(alloc, text)?, 2, Ids::of(alloc, fail_at)?))
}

fn sink_of(alloc: Global, room: usize, fail_at: &[u64]) -> Result<MemSink, AllocError> {
    MemSink::new(alloc, room, 3, Ids::of(alloc, fail_at)?)
}

#[test]
fn a_source_gives_pieces_and_fails_where_it_is_listed(rt: HostRuntime) -> Result<(), Fail> {
    let mut source = source_of(rt.alloc(), b"hello", &[1])?;
    let mut buf = [0u8; 4];
    assert_eq!(rt; source.read(&mut buf), Ok(2));
    assert_eq!(rt; buf, *b"he\0\0");
    assert_eq!(rt; source.read(&mut buf), Err(Failed));
    assert_eq!(rt; source.read_faults(), 1);
    assert_eq!(rt; source.read(&mut buf), Ok(2));
    assert_eq!(rt; source.read(&mut buf), Ok(1));
    assert_eq!(rt; buf, *b"ol\0\0");
    assert_eq!(rt; source.read(&mut buf), Ok(0));
    Ok(())
}

#[test]
fn a_source_is_read_to_its_end_or_a_limit(rt: HostRuntime) -> Result<(), Fail> {
    let alloc = rt.alloc();
    for (most, text) in [(9, "hello"), (5, "hello"), (3, "hel"), (0, "")] {
        let mut source = source_of(alloc, b"hello", &[])?;
        match read_up_to(alloc, &mut source, most) {
            Ok(bytes) => assert_eq!(rt; bytes.as_slice(), text.as_bytes(), "{most}"),
            Err(_) => panic!(rt; "{most} bytes are read"),
        }
    }
    Ok(())
}

#[test]
fn a_fault_in_the_middle_ends_the_reading(rt: HostRuntime) -> Result<(), Fail> {
    let alloc = rt.alloc();
    let mut source = source_of(alloc, b"hello", &[1])?;
    match read_up_to(alloc, &mut source, 9) {
        Ok(_) => panic!(rt; "a fault is reported"),
        Err(fault) => assert_eq!(rt; fault, InputFault::Failed),
    }
    Ok(())
}

#[test]
fn a_sink_takes_pieces_while_it_has_room(rt: HostRuntime) -> Result<(), Fail> {
    let mut sink = sink_of(rt.alloc(), 5, &[0])?;
    assert_eq!(rt; sink.write(b"hello"), Err(Failed));
    assert_eq!(rt; sink.write(b"hello"), Ok(3));
    assert_eq!(rt; sink.write(b"lower"), Ok(2));
    assert_eq!(rt; sink.write(b"w"), Err(Failed));
    assert_eq!(rt; sink.write(b""), Ok(0));
    assert_eq!(rt; sink.bytes(), b"hello".as_slice());
    assert_eq!(rt; sink.write_faults(), 2);
    Ok(())
}

#[test]
fn a_whole_piece_is_written_or_a_prefix(rt: HostRuntime) -> Result<(), Fail> {
    let mut whole = sink_of(rt.alloc(), 9, &[])?;
    assert_eq!(rt; write_whole(&mut whole, b"hello"), Ok(()));
    assert_eq!(rt; whole.bytes(), b"hello".as_slice());
    let mut cut = sink_of(rt.alloc(), 9, &[1])?;
    assert_eq!(rt; write_whole(&mut cut, b"hello"), Err(Failed));
    assert_eq!(rt; cut.bytes(), b"hel".as_slice());
    Ok(())
}

#[test]
fn the_last_reading_of_a_clock_repeats(rt: HostRuntime) -> Result<(), Fail> {
    let mut clock = MemClock::new(Ids::of(rt.alloc(), &[5, 7])?);
    for reading in [5, 7, 7] {
        assert_eq!(rt; clock.now(), reading);
    }
    let mut stopped = MemClock::new(Ids::of(rt.alloc(), &[])?);
    assert_eq!(rt; stopped.now(), 0);
    Ok(())
}

#[test]
fn a_moment_is_between_the_years_2001_and_9892(rt: HostRuntime) {
    for (now, moment) in [
        (0, 1_000_000_000),
        (1_700_000_000, 1_700_000_000),
        (u64::MAX, 250_000_000_000),
    ] {
        assert_eq!(rt; moment_of(now), moment);
    }
}

#[test]
fn a_request_has_the_words_of_its_positions(rt: HostRuntime) -> Result<(), Fail> {
    let listed = Ids::of(rt.alloc(), &[11, 12])?;
    if !ListWords::fits(&listed) {
        panic!(rt; "small numbers are words");
    }
    let mut words = ListWords::new(listed, 9);
    let first = request_words(&words, 0);
    assert!(rt; first.starts_with(&[11, 12, 9]));
    words.pass(1);
    assert!(rt; words.ahead(0).starts_with(&[12, 9]));
    words.pass(REQUEST_WORDS - 1);
    assert!(rt; words.ahead(0).starts_with(&[9]));
    Ok(())
}

// RFC 8439, appendix A.1: the first and the second block of key 0 and nonce 0.
#[test]
fn chacha_words_are_those_of_rfc_8439(rt: HostRuntime) {
    let shown = ChaChaWords::new([0; 32], 0).ahead(0);
    for (position, word) in [
        (0, 0xade0_b876),
        (1, 0x903d_f1a0),
        (15, 0x8665_eeb2),
        (16, 0xbee7_079f),
        (17, 0x7a38_5155),
    ] {
        assert_eq!(rt; shown[position], word, "{position}");
    }
}

// The same, its fifth vector: the nonce's last byte but eleven zeros is 2.
#[test]
fn a_stream_is_the_nonce_of_rfc_8439(rt: HostRuntime) {
    let words = ChaChaWords::new([0; 32], 0x0200_0000_0000_0000);
    let first = [0x374d_c6c2, 0x3736_d58c, 0xb904_e24a, 0xcd3f_93ef];
    assert!(rt; words.ahead(0).starts_with(&first));
}

#[test]
fn a_seed_is_the_first_32_bytes(rt: HostRuntime) -> Result<(), Fail> {
    let text = b"0123456789abcdefghijklmnopqrstuvwxyz";
    for (length, fail_at, seed) in [
        (36, 99, Ok(*b"0123456789abcdefghijklmnopqrstuv")),
        (32, 99, Ok(*b"0123456789abcdefghijklmnopqrstuv")),
        (31, 99, Err(SeedFault::TooShort)),
        (36, 15, Err(SeedFault::Unread)),
    ] {
        let mut source = source_of(rt.alloc(), &text[..length], &[fail_at])?;
        assert_eq!(rt; seed_from(&mut source), seed, "{length} {fail_at}");
    }
    Ok(())
}

/// Gives and takes at most so many bytes a call. The calls that are listed fail.
#[derive(Drop)]
struct Slow {
    left: &'static [u8],
    taken: Vec<u8>,
    most: usize,
    faults: &'static [Option<ErrorKind>],
}

impl Slow {
    fn new(alloc: Global, most: usize, faults: &'static [Option<ErrorKind>]) -> Slow {
        Slow {
            left: b"hello",
            taken: Vec::new(alloc),
            most,
            faults,
        }
    }

    fn next_fault(&mut self) -> io::Result<()> {
        if let [fault, rest @ ..] = self.faults {
            self.faults = rest;
            if let Some(kind) = fault {
                return Err(io::Error::from(*kind));
            }
        }
        Ok(())
    }
}

impl Read for Slow {
    fn read(&mut self, buf: &mut [u8]) -> io::Result<usize> {
        self.next_fault()?;
        let count = buf.len().min(self.most).min(self.left.len());
        buf[..count].copy_from_slice(&self.left[..count]);
        self.left = &self.left[count..];
        Ok(count)
    }
}

impl Write for Slow {
    fn write(&mut self, piece: &[u8]) -> io::Result<usize> {
        self.next_fault()?;
        let count = piece.len().min(self.most);
        self.taken.extend_from_slice(&piece[..count])?;
        Ok(count)
    }

    fn flush(&mut self) -> io::Result<()> {
        Ok(())
    }
}

const INTERRUPTED: Option<ErrorKind> = Some(ErrorKind::Interrupted);

const BROKEN: Option<ErrorKind> = Some(ErrorKind::BrokenPipe);

#[test]
fn a_standard_source_gives_each_byte_of_its_reader(rt: HostRuntime) -> Result<(), Fail> {
    let alloc = rt.alloc();
    let mut whole = StdSource::new(Slow::new(
        alloc,
        2,
        &[INTERRUPTED, None, INTERRUPTED, INTERRUPTED],
    ));
    match read_up_to(alloc, &mut whole, 9) {
        Ok(bytes) => assert_eq!(rt; bytes.as_slice(), b"hello".as_slice()),
        Err(_) => panic!(rt; "an interrupted read is no fault"),
    }
    assert_eq!(rt; whole.read_faults(), 0);
    let mut failing = StdSource::new(Slow::new(alloc, 2, &[None, BROKEN]));
    let mut buf = [0u8; 4];
    for (result, text) in [
        (Ok(2), b"he"),
        (Err(Failed), b"he"),
        (Ok(2), b"ll"),
        (Ok(1), b"ol"),
    ] {
        assert_eq!(rt; failing.read(&mut buf), result);
        assert_eq!(rt; &buf[..2], text.as_slice());
    }
    assert_eq!(rt; failing.read_faults(), 1);
    Ok(())
}

#[test]
fn a_standard_sink_reports_what_its_writer_took(rt: HostRuntime) -> Result<(), Fail> {
    let alloc = rt.alloc();
    let mut device = Slow::new(alloc, 2, &[INTERRUPTED, None, INTERRUPTED, INTERRUPTED]);
    let mut whole = StdSink::new(&mut device);
    assert_eq!(rt; whole.write(b"hello"), Ok(2));
    assert_eq!(rt; write_whole(&mut whole, b"llo"), Ok(()));
    assert_eq!(rt; whole.write_faults(), 0);
    assert_eq!(rt; device.taken.as_slice(), b"hello".as_slice());
    let mut broken = Slow::new(alloc, 2, &[None, BROKEN]);
    let mut failing = StdSink::new(&mut broken);
    assert_eq!(rt; write_whole(&mut failing, b"hello"), Err(Failed));
    assert_eq!(rt; failing.write_faults(), 1);
    assert_eq!(rt; broken.taken.as_slice(), b"he".as_slice());
    let mut full = StdSink::new(Slow::new(alloc, 0, &[]));
    assert_eq!(rt; full.write(b"hello"), Err(Failed));
    assert_eq!(rt; full.write(b""), Ok(0));
    assert_eq!(rt; full.write_faults(), 1);
    Ok(())
}

#[test]
fn a_file_gives_its_bytes_and_a_folder_or_a_missing_file_fails(
    rt: HostRuntime,
) -> Result<(), Fail> {
    let mut buf = [0u8; 5];
    fs::write(&rt, "input.txt", "seven b")?;
    let mut file = FileSource::open(&rt, "input.txt")?;
    assert_eq!(rt; file.read(&mut buf), Ok(5));
    assert_eq!(rt; buf, *b"seven");
    assert_eq!(rt; file.read(&mut buf), Ok(2));
    assert_eq!(rt; file.read(&mut buf), Ok(0));
    assert_eq!(rt; file.read_faults(), 0);
    fs::remove_file(&rt, "input.txt")?;
    for path in ["input.txt", ".", ""] {
        let mut failing = FileSource::open(&rt, path)?;
        assert_eq!(rt; failing.read(&mut buf), Err(Failed), "{path}");
        assert_eq!(rt; failing.read_faults(), 1, "{path}");
    }
    Ok(())
}

#[test]
fn numbers_of_standard_streams_are_held(rt: HostRuntime) {
    if HeldStreams::hold(&rt).is_err() {
        panic!(rt; "the root folder can be opened");
    }
}

#[derive(Drop)]
struct Stopped;

impl SystemTime for Stopped {
    fn monotonic(&self) -> io::Result<Duration> {
        Err(io::Error::from(ErrorKind::Other))
    }

    fn since_1970(&self) -> io::Result<Duration> {
        Err(io::Error::from(ErrorKind::Other))
    }
}

#[test]
fn a_clock_that_is_stopped_reads_0(rt: HostRuntime) {
    assert_eq!(rt; SystemClock::new(Stopped).now(), 0);
    let now = SystemClock::new(&rt).now();
    assert_eq!(rt; moment_of(now), now);
}
