//! Devices that fail, and the seed.

use super::*;

fn input_fails(rt: &impl Abort, alloc: Global, words: &TextList, input: &str) -> Result<(), Fail> {
    let page = anonymous(alloc)?;
    let unread = Given {
        read_fails: &[50],
        ..site(SETTINGS, input)
    };
    let due = Due {
        status: Status::ReadFault,
        output: page.as_bytes(),
        entries: &[boot(), load(1, None)],
    };
    ends_with(rt, alloc, words, &unread, &due, "input")
}

fn output_fails(rt: &impl Abort, alloc: Global, words: &TextList, input: &str) -> Result<(), Fail> {
    let unwritten = Given {
        write_fails: &[0],
        ..site(SETTINGS, input)
    };
    let due = Due {
        status: Status::WriteFault,
        output: b"",
        entries: &[boot(), load(1, None)],
    };
    ends_with(rt, alloc, words, &unwritten, &due, "output")
}

fn store_fails(rt: &impl Abort, alloc: Global, words: &TextList) -> Result<(), Fail> {
    let unopened = Given {
        store_fails: &[1],
        ..site(SETTINGS, REQUEST)
    };
    let due = Due {
        status: Status::KeeperFault,
        output: b"",
        entries: &[],
    };
    ends_with(rt, alloc, words, &unopened, &due, "store")
}

#[test]
fn each_device_that_fails_is_reported(rt: HostRuntime) -> Result<(), Fail> {
    let alloc = rt.alloc();
    let words = words_of(alloc, &["site.json", "mem", "pipe"])?;
    let input = twice(alloc, REQUEST)?;
    input_fails(&rt, alloc, &words, input.as_str())?;
    output_fails(&rt, alloc, &words, input.as_str())?;
    store_fails(&rt, alloc, &words)
}

/// Runs over a source of seeds of this many bytes, and gives status and output.
fn run_seeded(
    alloc: Global,
    words: &TextList,
    count: usize,
) -> Result<(Status, Bytes), AllocError> {
    let seeds = repeated(alloc, "", "7", count)?;
    let mut seed = source(alloc, seeds.as_slice(), 5, &[])?;
    let mut settings = source(alloc, SETTINGS.as_bytes(), 65_536, &[])?;
    let mut input = source(alloc, REQUEST.as_bytes(), 1, &[])?;
    let mut output = sink(alloc, &[])?;
    let status = seeded_over(
        alloc,
        words,
        &mut seed,
        &mut settings,
        &mut input,
        &mut output,
    )?;
    Ok((status, Bytes::of(alloc, output.bytes())?))
}

fn seeded_over<R: Source, S: Source, I: Source, O: Sink>(
    alloc: Global,
    words: &TextList,
    seed: &mut R,
    settings: &mut S,
    input: &mut I,
    output: &mut O,
) -> Result<Status, AllocError> {
    let mut clock = clock(alloc, &[1_700_000_000])?;
    let keeper = MemKeeper::new(alloc, Ids::from_vec(Vec::new(alloc)));
    let (status, _keeper) = manage_seeded(
        alloc, words, seed, settings, input, output, keeper, &mut clock,
    );
    Ok(status)
}

#[test]
fn without_a_seed_no_command_runs(rt: HostRuntime) -> Result<(), Fail> {
    let alloc = rt.alloc();
    let words = words_of(alloc, &["site.json", "mem", "pipe"])?;
    let page = anonymous(alloc)?;
    let (status, output) = run_seeded(alloc, &words, 32)?;
    assert_eq!(rt; status, Status::Done);
    assert_eq!(rt; output.items(), page.as_bytes());
    let (status, output) = run_seeded(alloc, &words, 31)?;
    assert_eq!(rt; status, Status::ReadFault);
    assert_eq!(rt; output.items(), b"".as_slice());
    let few = words_of(alloc, &["site.json", "sqlite", "pipe"])?;
    let (status, output) = run_seeded(alloc, &few, 31)?;
    assert_eq!(rt; status, Status::Usage);
    assert_eq!(rt; output.items(), b"usage\n".as_slice());
    Ok(())
}
