// The lines of a text that is no certificate.
ghost use Rattle.std.specs.Prelude.{◌≡◌, ◌⊎◌};
ghost use Rattle.edge_io.specs.Counts.{Rose};
ghost use Rattle.edge_io.specs.Told.{told};
ghost use Rattle.matcher_cli.specs.Lines.{fault_line};
ghost use Rattle.matcher_cli.specs.Verdicts.{FrontWritten, IsRefusalTold, Written};

use crate::lines::fault_line;
use crate::status::Status;
use edge_io::{Sink, write_all};
use publication::ReadRefusal;
use text_lines::TextFault;

// Says what is wrong with the text.
fn refuse_text<K: Sink>(fault: TextFault, sink: &mut K) -> Status
    ensures status { (result ≡ Status.Refused) ⊎ (result ≡ Status.WriteFault) }
    ensures written { result ≡ Status.Refused → Written (told (K.taken sink.old)) (K.taken sink.new) (fault_line fault) }
    ensures front { result ≡ Status.WriteFault → FrontWritten (told (K.taken sink.old)) (K.taken sink.new) (fault_line fault) }
    ensures cause { result ≡ Status.WriteFault → Rose (K.faults sink.old) (K.faults sink.new) }
{
    match write_all(sink, fault_line(fault).as_slice()) {
        Ok(()) => Status::Refused,
        Err(_) => Status::WriteFault,
    }
}

/// Says why a text was read as no certificate.
pub(crate) fn tell_refusal<K: Sink>(refusal: ReadRefusal, sink: &mut K) -> Status
    ensures told { IsRefusalTold result refusal (told (K.taken sink.old)) (K.taken sink.new) }
    ensures cause { result ≡ Status.WriteFault → Rose (K.faults sink.old) (K.faults sink.new) }
    ensures quiet { (result ≡ Status.ReadFault) ⊎ (result ≡ Status.Memory) → K.taken sink.new ≡ K.taken sink.old }
{
    match refusal {
        ReadRefusal::Memory => Status::Memory,
        ReadRefusal::ReadFault => Status::ReadFault,
        ReadRefusal::Truncated => refuse_text(TextFault::Truncated, sink),
        ReadRefusal::Trailing => refuse_text(TextFault::Trailing, sink),
        ReadRefusal::BadLine { number, code } => {
            refuse_text(TextFault::BadLine { number, code }, sink)
        }
    }
}
