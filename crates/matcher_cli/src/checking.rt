// The check of a certificate.
ghost use Rattle.std.specs.Prelude.{◌≡◌, ◌≢◌, ◌⊎◌, [], IsSome};
ghost use Rattle.edge_io.specs.Counts.{Rose};
ghost use Rattle.edge_io.specs.Told.{told};
ghost use Rattle.publication.specs.Certificates.{IsCertificate};
ghost use Rattle.matcher_cli.specs.Verdicts.{IsExact, Judges, Checks};

use crate::lines::{broken_line, valid_line};
use crate::status::Status;
use crate::text_refusals::tell_refusal;
use edge_io::{Sink, Source, write_all};
use match_rules::{Answer, Rules, Scratch};
use publication::{check, read_certificate};
use std::alloc::Global;

// Says that an answer is valid, or its first break.
fn judge<K: Sink>(alloc: Global, rules: &Rules, answer: &Answer, sink: &mut K) -> Status
    requires { IsCertificate rules.now answer.now }
    ensures judges { Judges result rules.now answer.now (told (K.taken sink.old)) (K.taken sink.new) }
    ensures cause { result ≡ Status.WriteFault → Rose (K.faults sink.old) (K.faults sink.new) }
    ensures quiet { (result ≡ Status.ReadFault) ⊎ (result ≡ Status.Memory) → K.taken sink.new ≡ K.taken sink.old }
{
    let Ok(mut scratch) = Scratch::new(alloc, rules) else {
        return Status::Memory;
    };
    match check(rules, answer, &mut scratch) {
        None => match write_all(sink, valid_line(answer).as_slice()) {
            Ok(()) => Status::Done,
            Err(_) => Status::WriteFault,
        },
        Some(broken) => match write_all(sink, broken_line(&broken).as_slice()) {
            Ok(()) => Status::Broken,
            Err(_) => Status::WriteFault,
        },
    }
}

/// Reads a certificate and judges it.
pub(crate) fn check_text<S: Source, K: Sink>(alloc: Global, source: &mut S, sink: &mut K) -> Status
    ensures checks { IsSome (S.left source.new) → Checks result (told (S.left source.old)) (told (K.taken sink.old)) (K.taken sink.new) }
    ensures exact { IsSome (S.left source.new) → IsExact (told (S.left source.old)) result }
    ensures end { IsSome (S.left source.new) → (result ≡ Status.Done) ⊎ (result ≡ Status.Broken) → told (S.left source.new) ≡ [] }
    ensures usage { result ≢ Status.Usage }
    ensures unkept { result ≢ Status.KeeperFault }
    ensures undamaged { result ≢ Status.Damaged }
    ensures read_fault { result ≡ Status.ReadFault → Rose (S.faults source.old) (S.faults source.new) }
    ensures write_fault { result ≡ Status.WriteFault → Rose (K.faults sink.old) (K.faults sink.new) }
    ensures quiet { (result ≡ Status.ReadFault) ⊎ (result ≡ Status.Memory) → K.taken sink.new ≡ K.taken sink.old }
{
    match read_certificate(alloc, source) {
        Ok(certificate) => judge(alloc, &certificate.rules, &certificate.answer, sink),
        Err(refusal) => tell_refusal(refusal, sink),
    }
}
