//! The top call: one run of a command.

ghost use Rattle.std.specs.Prelude.{◌≡◌, ◌≤◌, ◌⊎◌, ◌↔◌, ℕ, None, IfOk, IfSome, IsErrOf, MatchOption, string_bytes, take};
ghost use Rattle.outside.specs.Faults.{Rose};
ghost use Rattle.pass_hashers.specs.PasswordText.{IsUsable};
ghost use Rattle.ledger_rows.specs.Opening.{IsOpening};
ghost use Rattle.site_server.specs.Command.{asked_by_command, asked_of, usage_line};
ghost use Rattle.site_server.specs.ManageSite.{HasKnownBoots, IsNotOpened, IsOpened, Runs, RunsCommand, RunsSeeded, run_world, settings_line};
ghost use Rattle.site_server.specs.OneWorker.{devices};
ghost use Rattle.site_server.specs.Sending.{IsSent};
ghost use Rattle.site_file.specs.SiteFile.{IsSiteOf, Says, Wrong};

use crate::command::{Command, command_of};
use crate::connection::serve_solo;
use crate::output::send;
use crate::signing::{sign, unsign};
use crate::status::{Status, status_of};
use crypto_text::TextList;
use keepers::Keeper;
use outside::{ChaChaWords, Clock, InputFault, Sink, Source, Words, read_up_to, seed_from};
use session_engines::{Ledger, OpenFault};
use site_file::{MOST_BYTES, SettingsAll, SettingsFault, read_settings};
use std::alloc::{AllocError, Global};

const USAGE: &[u8] = b"usage\n";

/// Why there is no site to run.
#[derive(Clone, Copy, Debug, PartialEq, Eq)]
enum SiteFault {
    Unread,
    Wrong { field: u32 },
    Memory,
}

/// Runs the command of the words `SETTINGS STORE COMMAND ..` and gives the keeper back. The settings are read from
/// `settings`; `pipe` serves one connection from `input` to `output`, as worker 1; `sign` and `unsign` write one line to
/// `output` and leave the keeper alone.
pub fn manage<S: Source, I: Source, O: Sink, K: Keeper, C: Clock, W: Words>(
    alloc: Global,
    words: &TextList,
    settings: &mut S,
    input: &mut I,
    output: &mut O,
    keeper: K,
    clock: &mut C,
    draw: &mut W,
) -> (Status, K)
    requires { HasKnownBoots (K.seen keeper) }
    ensures runs { Runs (asked_of words.now) (S.seen settings.old) (S.seen settings.new)
        (run_world (devices (I.seen input.old) (O.seen output.old) (C.seen clock.old) (W.seen draw.old)) (K.seen keeper))
        (run_world (devices (I.seen input.new) (O.seen output.new) (C.seen clock.new) (W.seen draw.new)) (K.seen result.1)) result.0 }
    ensures unread { asked_of words.now ≡ None → S.seen settings.new ≡ S.seen settings.old }
    ensures boots { HasKnownBoots (K.seen result.1) }
{
    let Some(command) = command_of(words.items()) else {
        let status = send(output, USAGE, Status::Usage);
        return (status, keeper);
    };
    match load_site(alloc, settings) {
        Ok(site) => run(alloc, command, site, input, output, keeper, clock, draw),
        Err(SiteFault::Unread) => (Status::ReadFault, keeper),
        Err(SiteFault::Memory) => (Status::Memory, keeper),
        Err(SiteFault::Wrong { field }) => (refuse_settings(alloc, output, field), keeper),
    }
}

/// Runs the command of the words with random words of a seed: its 32 bytes are read from `seed`, and its first stream is
/// drawn. Without a seed no word is drawn: words that are no command are refused as ever, and a command ends as one whose
/// settings can't be read.
pub fn manage_seeded<R: Source, S: Source, I: Source, O: Sink, K: Keeper, C: Clock>(
    alloc: Global,
    words: &TextList,
    seed: &mut R,
    settings: &mut S,
    input: &mut I,
    output: &mut O,
    keeper: K,
    clock: &mut C,
) -> (Status, K)
    requires { HasKnownBoots (K.seen keeper) }
    ensures runs { RunsSeeded (asked_of words.now) (R.seen seed.old) (R.seen seed.new) (S.seen settings.old) (S.seen settings.new)
        (λ drawn. run_world (devices (I.seen input.old) (O.seen output.old) (C.seen clock.old) drawn) (K.seen keeper))
        (λ drawn. run_world (devices (I.seen input.new) (O.seen output.new) (C.seen clock.new) drawn) (K.seen result.1)) result.0 }
    ensures boots { HasKnownBoots (K.seen result.1) }
{
    match seed_from(seed) {
        Ok(bytes) => {
            let mut draw = ChaChaWords::new(bytes, 0);
            manage(
                alloc, words, settings, input, output, keeper, clock, &mut draw,
            )
        }
        Err(_) => (unseeded(words, output), keeper),
    }
}

fn unseeded<O: Sink>(words: &TextList, output: &mut O) -> Status
    ensures { MatchOption (asked_of words.now) (IsSent usage_line Status.Usage (O.seen output.old) (O.seen output.new) result)
        (λ asked. (result ≡ Status.ReadFault) × (O.seen output.new ≡ O.seen output.old)) }
{
    match command_of(words.items()) {
        Some(_) => Status::ReadFault,
        None => send(output, USAGE, Status::Usage),
    }
}

fn run<I: Source, O: Sink, K: Keeper, C: Clock, W: Words>(
    alloc: Global,
    command: Command<'_>,
    site: SettingsAll,
    input: &mut I,
    output: &mut O,
    keeper: K,
    clock: &mut C,
    draw: &mut W,
) -> (Status, K)
    requires opening { IsOpening site.opening }
    requires usable { IsUsable site.settings.cfg.preferred }
    requires boots { HasKnownBoots (K.seen keeper) }
    ensures runs { RunsCommand (asked_by_command command.entry) site
        (run_world (devices (I.seen input.old) (O.seen output.old) (C.seen clock.old) (W.seen draw.old)) (K.seen keeper))
        (run_world (devices (I.seen input.new) (O.seen output.new) (C.seen clock.new) (W.seen draw.new)) (K.seen result.1)) result.0 }
    ensures boots { HasKnownBoots (K.seen result.1) }
{
    match command {
        Command::ServePipe => pipe(alloc, site, input, output, keeper, clock, draw),
        Command::SignValue { salt, value } => {
            let status = sign(alloc, &site.opening.keys, salt, value, clock, output);
            (status, keeper)
        }
        Command::UnsignText {
            salt,
            max_age,
            text,
        } => {
            let keys = &site.opening.keys;
            let status = unsign(alloc, keys, salt, max_age, text, clock, output);
            (status, keeper)
        }
    }
}

fn load_site<S: Source>(alloc: Global, settings: &mut S) -> Result<SettingsAll, SiteFault>
    ensures ok { IfOk result (λ site. IfSome (S.seen settings.old).left (λ left. IsSiteOf (take 4194305 left) (Says site))) }
    ensures opening { IfOk result (λ site. IsOpening site.opening) }
    ensures usable { IfOk result (λ site. IsUsable site.settings.cfg.preferred) }
    ensures wrong { (field : ℕ) → IsErrOf result (SiteFault.Wrong field) → IfSome (S.seen settings.old).left (λ left. IsSiteOf (take 4194305 left) (Wrong field)) }
    ensures unread { IsErrOf result SiteFault.Unread → Rose (S.seen settings.old).faults (S.seen settings.new).faults }
{
    // One byte more than a settings file may have, to see that it has too many.
    let bytes = match read_up_to(alloc, settings, MOST_BYTES + 1) {
        Ok(bytes) => bytes,
        Err(InputFault::Failed) => return Err(SiteFault::Unread),
        Err(InputFault::Memory) => return Err(SiteFault::Memory),
    };
    match read_settings(alloc, bytes.as_slice()) {
        Ok(site) => Ok(site),
        Err(SettingsFault::Wrong { field }) => Err(SiteFault::Wrong { field }),
        Err(SettingsFault::Memory) => Err(SiteFault::Memory),
    }
}

fn refuse_settings<O: Sink>(alloc: Global, output: &mut O, field: u32) -> Status
    ensures { IsSent (settings_line field) Status.BadSettings (O.seen output.old) (O.seen output.new) result
        ⊎ ((result ≡ Status.Memory) × (O.seen output.new ≡ O.seen output.old)) }
{
    match settings_line(alloc, field) {
        Ok(line) => send(output, line.as_str().as_bytes(), Status::BadSettings),
        Err(AllocError) => Status::Memory,
    }
}

fn settings_line(alloc: Global, field: u32) -> Result<String, AllocError>
    ensures { IfOk result (λ text. string_bytes text ≡ settings_line field) }
{
    format!(in alloc; "settings={field}\n")
}

fn pipe<I: Source, O: Sink, K: Keeper, C: Clock, W: Words>(
    alloc: Global,
    site: SettingsAll,
    input: &mut I,
    output: &mut O,
    keeper: K,
    clock: &mut C,
    draw: &mut W,
) -> (Status, K)
    requires opening { IsOpening site.opening }
    requires usable { IsUsable site.settings.cfg.preferred }
    requires boots { HasKnownBoots (K.seen keeper) }
    ensures runs { let before = run_world (devices (I.seen input.old) (O.seen output.old) (C.seen clock.old) (W.seen draw.old)) (K.seen keeper) in
        let after = run_world (devices (I.seen input.new) (O.seen output.new) (C.seen clock.new) (W.seen draw.new)) (K.seen result.1) in
        IsNotOpened site.opening before after result.0 ⊎ IsOpened site before after result.0 }
    ensures boots { HasKnownBoots (K.seen result.1) }
{
    let SettingsAll { settings, opening } = site;
    let Ok(cfg) = settings.cfg.copy(alloc) else {
        return (Status::Memory, keeper);
    };
    match Ledger::open_with(alloc, keeper, cfg, &opening) {
        Ok(ledger) => {
            let mut ledger = ledger;
            let report = serve_solo(
                alloc,
                &mut ledger,
                &settings,
                1,
                1,
                input,
                output,
                clock,
                draw,
            );
            (status_of(report.end), ledger.close())
        }
        Err(OpenFault::Keeper { keeper }) => (Status::KeeperFault, keeper),
        Err(OpenFault::Full { keeper }) => (Status::Full, keeper),
        Err(OpenFault::Memory { keeper }) => (Status::Memory, keeper),
    }
}
