// The rules of the files of a folder.
ghost use Rattle.std.specs.Prelude.{◌≡◌, ◌≢◌, ◌⊎◌, IsSome};
ghost use Rattle.edge_io.specs.Counts.{Rose};
ghost use Rattle.edge_io.specs.Files.{told_files};
ghost use Rattle.edge_io.specs.Told.{told};
ghost use Rattle.matcher_cli.specs.FolderRules.{IsFaultTold, IsServedExactly, RulesServed, rules_in};
ghost use Rattle.matcher_cli.specs.Refusals.{refusal_text};
ghost use Rattle.matcher_cli.specs.Verdicts.{FrontWritten, Written};

use crate::refusals::write_refusal;
use crate::status::Status;
use edge_io::{Folder, Sink};
use editions::{LoadFault, load};
use publication::write_rules;
use std::alloc::Global;

// Writes the line of what is wrong with a folder.
fn refuse_folder<K: Sink>(fault: &LoadFault, sink: &mut K) -> Status
    ensures status { (result ≡ Status.Refused) ⊎ (result ≡ Status.WriteFault) }
    ensures written { result ≡ Status.Refused → Written (told (K.taken sink.old)) (K.taken sink.new) (refusal_text fault.now) }
    ensures front { result ≡ Status.WriteFault → FrontWritten (told (K.taken sink.old)) (K.taken sink.new) (refusal_text fault.now) }
    ensures cause { result ≡ Status.WriteFault → Rose (K.faults sink.old) (K.faults sink.new) }
{
    match write_refusal(fault, sink) {
        Ok(()) => Status::Refused,
        Err(_) => Status::WriteFault,
    }
}

// Says what is wrong with a folder.
pub(crate) fn tell_fault<K: Sink>(fault: &LoadFault, sink: &mut K) -> Status
    ensures told { IsFaultTold result fault.now (told (K.taken sink.old)) (K.taken sink.new) }
    ensures cause { result ≡ Status.WriteFault → Rose (K.faults sink.old) (K.faults sink.new) }
    ensures quiet { (result ≡ Status.ReadFault) ⊎ (result ≡ Status.Memory) → K.taken sink.new ≡ K.taken sink.old }
{
    match *fault {
        LoadFault::Memory => Status::Memory,
        LoadFault::Folder => Status::ReadFault,
        LoadFault::Bad { .. } => refuse_folder(fault, sink),
        LoadFault::Limit(_) => refuse_folder(fault, sink),
    }
}

/// Writes the rules of the files of a folder, or the line of what is wrong with them.
pub(crate) fn serve_rules<F: Folder, K: Sink>(alloc: Global, folder: &mut F, sink: &mut K) -> Status
    ensures served { IsSome (F.files folder.new) → RulesServed result (told_files (F.files folder.old)) (told (K.taken sink.old)) (K.taken sink.new) }
    ensures exact { IsSome (F.files folder.new) → IsServedExactly (rules_in (told_files (F.files folder.old))) result }
    ensures usage { result ≢ Status.Usage }
    ensures unkept { result ≢ Status.KeeperFault }
    ensures undamaged { result ≢ Status.Damaged }
    ensures read_fault { result ≡ Status.ReadFault → Rose (F.faults folder.old) (F.faults folder.new) }
    ensures write_fault { result ≡ Status.WriteFault → Rose (K.faults sink.old) (K.faults sink.new) }
    ensures quiet { (result ≡ Status.ReadFault) ⊎ (result ≡ Status.Memory) → K.taken sink.new ≡ K.taken sink.old }
{
    match load(alloc, folder) {
        Ok(edited) => match write_rules(&edited.rules, sink) {
            Ok(()) => Status::Done,
            Err(_) => Status::WriteFault,
        },
        Err(fault) => tell_fault(&fault, sink),
    }
}
