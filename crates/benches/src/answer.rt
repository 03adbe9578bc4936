//! The text of an answer.

use anyhow::bail;
use edge_io::{ReadSource, WriteSink};
use publication::{read_certificate, write_answer};
use std::io::{BufWriter, Write};
use std::time::Instant;

/// Reads a certificate on standard input and writes the text of its answer again; the microseconds of the writing alone go
/// to standard error.
pub(crate) fn write_again(rt: &HostRuntime) -> anyhow::Result<()> {
    let Ok(certificate) = read_certificate(rt.alloc(), &mut ReadSource::new(rt.stdin())) else {
        bail!("the input is no certificate");
    };
    let mut writer = BufWriter::new(rt.alloc(), rt.stdout())?;
    let start = Instant::now(rt)?;
    let written = write_answer(
        &certificate.rules,
        &certificate.answer,
        &mut WriteSink::new(&mut writer),
    );
    if written.is_err() {
        bail!("writing failed");
    }
    writer.flush()?;
    let taken = start.elapsed(rt)?;
    eprintln!(rt; "{}", taken.as_micros())?;
    Ok(())
}
