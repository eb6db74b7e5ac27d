// A report as one text.
use helios_model::CommitEvent;
use schedule_replay::Report;
use std::alloc::{AllocError, Global};
use std::test::Fail;

fn push_bytes(text: &mut String, bytes: &[u8]) -> Result<(), AllocError> {
    for byte in bytes {
        text.push(char::from(*byte))?;
    }
    Ok(())
}

/// The line of a commit: its id and time, what it read, and what it wrote.
fn push_commit(alloc: Global, text: &mut String, event: &CommitEvent) -> Result<(), AllocError> {
    let id = event.prepare.id();
    let time = event.time.half_micros();
    text.push_str(format!(in alloc; "{id} at {time}:")?.as_str())?;
    for read in event.prepare.reads().items() {
        let version = read.version;
        text.push_str(" reads ")?;
        push_bytes(text, read.key.items())?;
        text.push_str(format!(in alloc; " of {version},")?.as_str())?;
    }
    for write in event.prepare.writes().items() {
        let over = write.over;
        text.push(' ')?;
        push_bytes(text, write.key.items())?;
        text.push_str(" becomes ")?;
        push_bytes(text, write.value.items())?;
        text.push_str(format!(in alloc; " over {over}")?.as_str())?;
    }
    text.push('\n')
}

/// The lines of a report, a line for each of its commits, and the number of its refusals.
pub(crate) fn report_text(alloc: Global, report: &Report) -> Result<String, Fail> {
    let mut text = String::new(alloc);
    push_bytes(&mut text, report.text.items())?;
    for event in report.commits.items() {
        push_commit(alloc, &mut text, event)?;
    }
    let refusals = report.refusals;
    text.push_str(format!(in alloc; "refusals {refusals}\n")?.as_str())?;
    Ok(text)
}
