ghost use Rattle.site_server.specs.ManageSite.{HasKnownBoots};

mod answers;
mod browser_day;
mod connection;
mod devices;
mod login_forms;
mod logins;
mod other_worker;
mod runs;
mod session_forms;
mod session_route;
mod session_writes;
mod sessions;
mod signing;
mod store;
mod stored;

use crate::site::{manage, manage_seeded};
use crate::status::Status;
use crypto_text::{Bytes, Ids, Text, TextList};
use keepers::{Keeper, MemKeeper};
use ledger_rows::{Entry, Op, Tag};
use outside::{Clock, ListWords, MemClock, MemSink, MemSource, Sink, Source, Words};
use std::alloc::{AllocError, Global};
use std::process::Abort;
use std::test::Fail;

const SETTINGS: &str = r#"{"keys":["k0"],"allowed_hosts":["example.com"],"hashers":["md5"]}"#;

const REQUEST: &str = "GET /whoami/ HTTP/1.1\r\nHost: example.com\r\n\r\n";

/// A site with alice and one session, which is over at 1700000001.
const ALICES_SITE: &str =
    r#"{"keys":["k0"],"allowed_hosts":["example.com"],"hashers":["md5"],"opening":{"users":[{"id":1,"name":"alice","email":"alice@example.com","password":"md5$abcdefghijklmnopqrstuv$c3fcd3d76192e4007dfb496cca67e13b","active":true,"superuser":false,"groups":[1],"perms":[1]}],"groups":[{"id":1,"name":"editors","perms":[2]}],"perms":[{"id":1,"app":"blog","codename":"add_post"},{"id":2,"app":"blog","codename":"change_post"},{"id":3,"app":"blog","codename":"delete_post"}],"sessions":[{"key":"s1s1s1s1s1s1s1s1s1s1s1s1s1s1s1s1","user":1,"backend":0,"under":0,"at":1699999000,"expire":1700000001}]}}"#;

const ALICES_KEY: &str = "s1s1s1s1s1s1s1s1s1s1s1s1s1s1s1s1";

const ALICES_REQUEST: &str =
    "GET /whoami/ HTTP/1.1\r\nHost: example.com\r\nCookie: sessionid=s1s1s1s1s1s1s1s1s1s1s1s1s1s1s1s1\r\n\r\n";

/// The fields of a response that deletes the session cookie.
const FORGOTTEN: &str =
    "Vary: Cookie\r\nSet-Cookie: sessionid=\"\"; expires=Thu, 01 Jan 1970 00:00:00 GMT; Max-Age=0; Path=/; SameSite=Lax\r\n";

/// What a run is given, beside its words.
#[derive(Clone, Copy)]
struct Given<'a> {
    settings: &'a str,
    input: &'a [u8],
    /// What the clock reads.
    now: u64,
    /// The most bytes that a read gives.
    piece: usize,
    /// The numbers of the calls that fail, by device.
    read_fails: &'a [u64],
    write_fails: &'a [u64],
    store_fails: &'a [u64],
}

fn site<'a>(settings: &'a str, input: &'a str) -> Given<'a> {
    Given {
        settings,
        input: input.as_bytes(),
        now: 1_700_000_000,
        piece: 1,
        read_fails: &[],
        write_fails: &[],
        store_fails: &[],
    }
}

// Without a clause, so that no proof spells out what a text of the tests says.
fn text_of(alloc: Global, text: &str) -> Result<Text, AllocError> {
    Text::of(alloc, text)
}

fn line_of(alloc: Global, text: &str) -> Result<String, AllocError> {
    format!(in alloc; "{text}\n")
}

fn words_of(alloc: Global, words: &[&str]) -> Result<TextList, AllocError> {
    let mut texts = Vec::new(alloc);
    for word in words {
        texts.push(text_of(alloc, word)?)?;
    }
    Ok(TextList::from_vec(texts))
}

// What calls `manage` here, or serves a connection, is generic over the devices and has no clause: a proof over those in
// memory would unfold each clause of the call, and take minutes.
fn manage_over<S: Source, I: Source, O: Sink, K: Keeper, C: Clock, W: Words>(
    alloc: Global,
    words: &TextList,
    settings: &mut S,
    input: &mut I,
    output: &mut O,
    keeper: K,
    clock: &mut C,
    draw: &mut W,
) -> (Status, K)
    requires { HasKnownBoots (K.seen keeper) }
{
    manage(alloc, words, settings, input, output, keeper, clock, draw)
}

// The devices are made over several calls, since a proof takes long where many of them are let go at a `?`.
fn source(
    alloc: Global,
    bytes: &[u8],
    piece: usize,
    fails: &[u64],
) -> Result<MemSource, AllocError> {
    let bytes = Bytes::of(alloc, bytes)?;
    let fails = Ids::of(alloc, fails)?;
    Ok(MemSource::new(bytes, piece.max(1), fails))
}

fn sink(alloc: Global, fails: &[u64]) -> Result<MemSink, AllocError> {
    let fails = Ids::of(alloc, fails)?;
    MemSink::new(alloc, 524_288, 500, fails)
}

fn clock(alloc: Global, readings: &[u64]) -> Result<MemClock, AllocError> {
    let readings = Ids::of(alloc, readings)?;
    Ok(MemClock::new(readings))
}

fn draw(alloc: Global) -> ListWords {
    ListWords::new(Ids::from_vec(Vec::new(alloc)), 0)
}

/// Runs `manage` over memory devices, and gives status, output and audit list.
fn run(
    alloc: Global,
    words: &TextList,
    site: &Given<'_>,
) -> Result<(Status, Bytes, Vec<Entry>), AllocError> {
    let mut output = sink(alloc, site.write_fails)?;
    let (status, entries) = run_to(alloc, words, site, &mut output)?;
    let written = Bytes::of(alloc, output.bytes())?;
    Ok((status, written, entries))
}

fn run_to<O: Sink>(
    alloc: Global,
    words: &TextList,
    site: &Given<'_>,
    output: &mut O,
) -> Result<(Status, Vec<Entry>), AllocError> {
    let fails = Ids::of(alloc, site.store_fails)?;
    let keeper = MemKeeper::new(alloc, fails);
    let (status, keeper) = run_over(alloc, words, site, output, keeper)?;
    let entries = entries_of(alloc, &keeper)?;
    Ok((status, entries))
}

fn run_over<O: Sink, K: Keeper>(
    alloc: Global,
    words: &TextList,
    site: &Given<'_>,
    output: &mut O,
    keeper: K,
) -> Result<(Status, K), AllocError>
    requires { HasKnownBoots (K.seen keeper) }
{
    let mut draw = draw(alloc);
    run_drawing(alloc, words, site, output, keeper, &mut draw)
}

fn run_drawing<O: Sink, K: Keeper, W: Words>(
    alloc: Global,
    words: &TextList,
    site: &Given<'_>,
    output: &mut O,
    keeper: K,
    draw: &mut W,
) -> Result<(Status, K), AllocError>
    requires { HasKnownBoots (K.seen keeper) }
{
    let mut settings = source(alloc, site.settings.as_bytes(), 65_536, &[])?;
    let mut input = source(alloc, site.input, site.piece, site.read_fails)?;
    let mut clock = clock(alloc, &[site.now])?;
    Ok(manage_over(
        alloc,
        words,
        &mut settings,
        &mut input,
        output,
        keeper,
        &mut clock,
        draw,
    ))
}

/// What a run is to end with.
#[derive(Clone, Copy)]
struct Due<'a> {
    status: Status,
    output: &'a [u8],
    entries: &'a [Entry],
}

fn ends_with(
    rt: &impl Abort,
    alloc: Global,
    words: &TextList,
    given: &Given<'_>,
    due: &Due<'_>,
    case: &str,
) -> Result<(), Fail> {
    let (status, output, entries) = run(alloc, words, given)?;
    assert_eq!(rt; status, due.status, "{case}");
    assert_eq!(rt; output.items(), due.output, "{case}");
    assert!(rt; entries.as_slice() == due.entries, "{case}");
    Ok(())
}

fn entries_of(alloc: Global, keeper: &MemKeeper) -> Result<Vec<Entry>, AllocError> {
    let mut entries = Vec::new(alloc);
    for entry in keeper.entries() {
        entries.push(entry.copy(alloc)?)?;
    }
    Ok(entries)
}

/// The text of a response, by its status, the lines that it has beside those of each, and its end.
fn page(
    alloc: Global,
    status: &str,
    length: usize,
    lines: &str,
    connection: &str,
    body: &str,
) -> Result<String, AllocError> {
    format!(in alloc;
        "HTTP/1.1 {status}\r\nContent-Type: text/plain; charset=utf-8\r\nContent-Length: {length}\r\n{lines}X-Content-Type-Options: nosniff\r\nReferrer-Policy: same-origin\r\nCross-Origin-Opener-Policy: same-origin\r\nX-Frame-Options: DENY\r\nConnection: {connection}\r\n\r\n{body}"
    )
}

fn anonymous(alloc: Global) -> Result<String, AllocError> {
    page(
        alloc,
        "200 OK",
        10,
        "Vary: Cookie\r\n",
        "keep-alive",
        "anonymous\n",
    )
}

fn boot() -> Entry {
    let tag = Tag {
        boot: 1,
        worker: 0,
        request: 0,
        step: 0,
    };
    Entry { tag, op: Op::Boot }
}

/// The entry of a request that worker 1 answered at 1700000000.
fn load(request: u64, cookie: Option<Text>) -> Entry {
    load_of(1, request, cookie, 1_700_000_000)
}

fn load_of(worker: u64, request: u64, cookie: Option<Text>, now: u64) -> Entry {
    let tag = Tag {
        boot: 1,
        worker,
        request,
        step: 0,
    };
    Entry {
        tag,
        op: Op::Load { cookie, now },
    }
}

fn twice(alloc: Global, text: &str) -> Result<String, AllocError> {
    let mut whole = String::from_str(alloc, text)?;
    whole.push_str(text)?;
    Ok(whole)
}

fn repeated(alloc: Global, front: &str, piece: &str, count: usize) -> Result<Vec<u8>, AllocError> {
    let mut bytes = front.as_bytes().to_vec(alloc)?;
    for _ in 0..count {
        bytes.extend_from_slice(piece.as_bytes())?;
    }
    Ok(bytes)
}
