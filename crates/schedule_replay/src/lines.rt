//! The lines of a report.
ghost use Rattle.std.specs.Prelude.{◌≡◌, ◌++◌, OnOk, length, codes, decimal, if◌then◌else◌};
ghost use Rattle.schedule_replay.specs.Report.{commit_line, is_refusal, reply_text, site_text, state_text, step_line, value_text};
ghost use Rattle.helios_model.specs.Ids.{id_text, version_text};

use commit_rules::Summary;
use helios_model::{CommitEvent, Key, Message, Reply, SiteId, State, TxnId, Val, Version};
use itoa::Buffer;
use std::alloc::{AllocError, Global};

pub(crate) fn is_refusal(reply: &Reply) -> bool
    ensures { result ≡ is_refusal reply.now }
{
    match reply {
        Reply::Prepared(_) => false,
        Reply::Committed(_) => false,
        Reply::Overwritten { .. } => true,
        Reply::Conflict(_) => true,
        Reply::Value { .. } => false,
        Reply::State(_) => false,
        Reply::Sent(_) => false,
        Reply::Taken => false,
        Reply::ClockSpent => false,
        Reply::PoolFull => false,
    }
}

/// Adds a number in decimal.
fn push_number(text: &mut Vec<u8>, number: u64) -> Result<(), AllocError>
    ensures { OnOk result (text.new.items ≡ text.old.items ++ decimal number) }
{
    let mut digits = Buffer::new();
    text.extend_from_slice(digits.format(number).as_bytes())
}

/// Adds these words, and a number behind them.
fn push_words(text: &mut Vec<u8>, words: &[u8], number: u64) -> Result<(), AllocError>
    ensures { OnOk result (text.new.items ≡ text.old.items ++ (words.now ++ decimal number)) }
{
    text.extend_from_slice(words)?;
    push_number(text, number)
}

fn push_id(text: &mut Vec<u8>, id: &TxnId) -> Result<(), AllocError>
    ensures { OnOk result (text.new.items ≡ text.old.items ++ id_text id.now) }
{
    push_number(text, u64::from(id.site.number()))?;
    text.extend_from_slice(b"@")?;
    push_number(text, id.time.half_micros())
}

/// Adds these words, and an id behind them.
fn push_named(text: &mut Vec<u8>, words: &[u8], id: &TxnId) -> Result<(), AllocError>
    ensures { OnOk result (text.new.items ≡ text.old.items ++ (words.now ++ id_text id.now)) }
{
    text.extend_from_slice(words)?;
    push_id(text, id)
}

fn push_version(text: &mut Vec<u8>, version: &Version) -> Result<(), AllocError>
    ensures { OnOk result (text.new.items ≡ text.old.items ++ version_text version.now) }
{
    match version {
        Version::Initial => text.extend_from_slice(b"initial"),
        Version::Of(id) => push_id(text, id),
    }
}

fn push_three(
    text: &mut Vec<u8>,
    first: &[u8],
    second: &[u8],
    third: &[u8],
) -> Result<(), AllocError>
    ensures { OnOk result (text.new.items ≡ text.old.items ++ (first.now ++ second.now ++ third.now)) }
{
    text.extend_from_slice(first)?;
    text.extend_from_slice(second)?;
    text.extend_from_slice(third)?;
    Ok(())
}

fn push_overwritten(
    alloc: Global,
    text: &mut Vec<u8>,
    key: &Key,
    version: &Version,
) -> Result<(), AllocError>
    ensures { OnOk result (text.new.items ≡ text.old.items ++ (codes "overwritten " ++ key.now ++ (codes " " ++ version_text version.now))) }
{
    let rest = format!(in alloc; " {version}")?;
    push_three(text, b"overwritten ", key.items(), rest.as_bytes())
}

/// Adds the bytes of a value in hexadecimal.
fn push_bytes(alloc: Global, text: &mut Vec<u8>, value: &[u8]) -> Result<(), AllocError>
    ensures { OnOk result (text.new.items ≡ text.old.items ++ value_text value.now) }
{
    if value.is_empty() {
        text.extend_from_slice(b"-")
    } else {
        text.extend_from_slice(hex::encode(alloc, value)?.as_bytes())
    }
}

fn push_value(
    alloc: Global,
    text: &mut Vec<u8>,
    version: &Version,
    value: &Val,
) -> Result<(), AllocError>
    ensures { OnOk result (text.new.items ≡ text.old.items ++ (codes "value " ++ version_text version.now ++ codes " " ++ value_text value.now)) }
{
    text.extend_from_slice(b"value ")?;
    push_version(text, version)?;
    text.extend_from_slice(b" ")?;
    push_bytes(alloc, text, value.items())
}

fn push_state(text: &mut Vec<u8>, state: &State) -> Result<(), AllocError>
    ensures { OnOk result (text.new.items ≡ text.old.items ++ state_text state.now) }
{
    match state {
        State::Pending => text.extend_from_slice(b"state pending"),
        State::Committed => text.extend_from_slice(b"state committed"),
        State::Aborted(cause) => push_named(text, b"state aborted ", cause),
        State::Unknown => text.extend_from_slice(b"state unknown"),
    }
}

fn push_sent(text: &mut Vec<u8>, released: usize, m: &Message) -> Result<(), AllocError>
    ensures { OnOk result (text.new.items ≡ text.old.items ++ (codes "sent " ++ decimal released ++ codes " " ++ decimal (length m.now.records))) }
{
    let length = m.records.items().len();
    push_words(text, b"sent ", released as u64)?;
    push_words(text, b" ", length as u64)
}

/// Adds a reply, before which so many messages were released.
fn push_reply(
    alloc: Global,
    text: &mut Vec<u8>,
    released: usize,
    reply: &Reply,
) -> Result<(), AllocError>
    ensures { OnOk result (text.new.items ≡ text.old.items ++ reply_text released reply.now) }
{
    match reply {
        Reply::Prepared(id) => push_named(text, b"prepared ", id),
        Reply::Committed(id) => push_named(text, b"committed ", id),
        Reply::Overwritten { key, current } => push_overwritten(alloc, text, key, current),
        Reply::Conflict(id) => push_named(text, b"conflict ", id),
        Reply::Value { version, value } => push_value(alloc, text, version, value),
        Reply::State(state) => push_state(text, state),
        Reply::Sent(m) => push_sent(text, released, m),
        Reply::Taken => text.extend_from_slice(b"taken"),
        Reply::ClockSpent => text.extend_from_slice(b"clock-spent"),
        Reply::PoolFull => text.extend_from_slice(b"pool-full"),
    }
}

fn push_head(text: &mut Vec<u8>, number: u64, site: SiteId) -> Result<(), AllocError>
    ensures { OnOk result (text.new.items ≡ text.old.items ++ (decimal number ++ codes " " ++ decimal site ++ codes " ")) }
{
    push_number(text, number)?;
    text.extend_from_slice(b" ")?;
    push_number(text, u64::from(site.number()))?;
    text.extend_from_slice(b" ")
}

/// Adds the line of a reply to a step, before which so many messages were released.
pub(crate) fn push_reply_line(
    alloc: Global,
    text: &mut Vec<u8>,
    number: u64,
    site: SiteId,
    released: usize,
    reply: &Reply,
) -> Result<(), AllocError>
    ensures { OnOk result (text.new.items ≡ text.old.items ++ step_line number site (reply_text released reply.now)) }
{
    push_head(text, number, site)?;
    push_reply(alloc, text, released, reply)?;
    text.extend_from_slice(b"\n")?;
    Ok(())
}

/// Adds the line of a restart.
pub(crate) fn push_restart_line(
    text: &mut Vec<u8>,
    number: u64,
    site: SiteId,
) -> Result<(), AllocError>
    ensures { OnOk result (text.new.items ≡ text.old.items ++ step_line number site (codes "restarted")) }
{
    push_head(text, number, site)?;
    text.extend_from_slice(b"restarted")?;
    text.extend_from_slice(b"\n")?;
    Ok(())
}

/// Adds the line of a stopped batch.
pub(crate) fn push_stopped_line(
    text: &mut Vec<u8>,
    number: u64,
    site: SiteId,
    is_kept: bool,
) -> Result<(), AllocError>
    ensures { OnOk result (text.new.items ≡ text.old.items ++ step_line number site (if is_kept then codes "kept" else codes "lost")) }
{
    push_head(text, number, site)?;
    if is_kept {
        text.extend_from_slice(b"kept\n")?;
    } else {
        text.extend_from_slice(b"lost\n")?;
    }
    Ok(())
}

pub(crate) fn push_commit_line(text: &mut Vec<u8>, commit: &CommitEvent) -> Result<(), AllocError>
    ensures { OnOk result (text.new.items ≡ text.old.items ++ commit_line commit.now) }
{
    push_named(text, b"commit ", &commit.prepare.id())?;
    text.extend_from_slice(b"\n")
}

/// Adds what a site has come to.
pub(crate) fn push_site_line(
    text: &mut Vec<u8>,
    site: u8,
    summary: Summary,
) -> Result<(), AllocError>
    ensures { OnOk result (text.new.items ≡ text.old.items ++ site_text site summary.time summary.log summary.pending) }
{
    let Summary { time, log, pending } = summary;
    push_words(text, b"site ", u64::from(site))?;
    push_words(text, b" time ", time.half_micros())?;
    push_words(text, b" log ", log)?;
    push_words(text, b" pending ", pending)?;
    text.extend_from_slice(b"\n")
}
