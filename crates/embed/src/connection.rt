//! One connection is answered over a ledger in memory.

ghost use Rattle.site_server.specs.ManageSite.{HasKnownBoots};

use anyhow::{Result, bail};
use crypto_text::{Bytes, Ids, Text};
use keepers::{Keeper, MemKeeper};
use outside::{Clock, MemClock, MemSink, MemSource, Sink, Source, Words};
use session_engines::Ledger;
use site_file::{SettingsAll, read_settings};
use site_server::laws::start_is_unused;
use site_server::serve_solo;
use std::alloc::Global;
use std::str;

/// What is written on a connection whose client sends these bytes.
pub(crate) fn answered<W: Words>(
    alloc: Global,
    settings: &str,
    sent: &str,
    now: u64,
    words: &mut W,
) -> Result<Text> {
    let mut output = MemSink::new(alloc, 65_536, 4096, none(alloc))?;
    serve_bytes(alloc, settings, sent, now, &mut output, words)?;
    Ok(Text::of(alloc, str::from_utf8(output.bytes())?)?)
}

fn serve_bytes<O: Sink, W: Words>(
    alloc: Global,
    settings: &str,
    sent: &str,
    now: u64,
    output: &mut O,
    words: &mut W,
) -> Result<()> {
    let sent = Bytes::of(alloc, sent.as_bytes())?;
    let mut clock = MemClock::new(Ids::of(alloc, &[now])?);
    let mut input = MemSource::new(sent, 4096, none(alloc));
    let keeper = MemKeeper::new(alloc, none(alloc));
    serve_one(
        alloc, settings, keeper, &mut input, output, &mut clock, words,
    )
}

/// Serves one connection of a site, as the first worker of this start of its store.
fn serve_one<K: Keeper, I: Source, O: Sink, C: Clock, W: Words>(
    alloc: Global,
    settings: &str,
    keeper: K,
    input: &mut I,
    output: &mut O,
    clock: &mut C,
    words: &mut W,
) -> Result<()>
    requires { HasKnownBoots (K.seen keeper) }
{
    start_is_unused();
    let SettingsAll { settings, opening } = read_settings(alloc, settings.as_bytes())?;
    let cfg = settings.cfg.copy(alloc)?;
    let Ok(mut ledger) = Ledger::open_with(alloc, keeper, cfg, &opening) else {
        bail!("the store can't be opened");
    };
    serve_solo(
        alloc,
        &mut ledger,
        &settings,
        1,
        1,
        input,
        output,
        clock,
        words,
    );
    Ok(())
}

fn none(alloc: Global) -> Ids {
    Ids::from_vec(Vec::new(alloc))
}
