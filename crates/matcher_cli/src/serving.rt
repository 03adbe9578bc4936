// The session of a stream over the desk that a keeper's rows open.
ghost use Rattle.std.specs.Prelude.{◌≡◌, ◌≢◌, ◌≤◌, ◌⊎◌, ℕ, IfOk, IsSome, None, drop, map};
ghost use Rattle.std.specs.String.{string_bytes};
ghost use Rattle.edge_io.specs.Counts.{Rose};
ghost use Rattle.edge_io.specs.Told.{told};
ghost use Rattle.command_words.specs.Chairs.{AreChairs};
ghost use Rattle.desk_keeper.specs.Keepers.{Tells, told_rows};
ghost use Rattle.desk_history.specs.Histories.{held};
ghost use Rattle.desk_history.specs.Opened.{IsDamaged, IsLegal, Opens};
ghost use Rattle.desk_history.specs.Rows.{rows};
ghost use Rattle.http_stream.specs.declared.ending.StreamEnd.{StreamEnd};
ghost use Rattle.matcher_cli.specs.Serving.{IsSession, Outside, Sessions, chairs_in, damage_line, status_at};
ghost use Rattle.matcher_cli.specs.Verdicts.{FrontWritten, Written};

use crate::lines::damage_line;
use crate::status::Status;
use desk_keeper::{Keeper, Name};
use desk_reopening::OpenFault;
use edge_io::{Sink, Source, write_all};
use http_desk::session;
use http_stream::StreamEnd;
use job_desk::Desk;
use std::alloc::{AllocError, Global};

// The names of the chairs, or memory is wanting.
fn chairs_of(alloc: Global, words: &[String]) -> Result<Vec<Name>, AllocError>
    requires { AreChairs (map string_bytes words.now) }
    ensures { IfOk result (λ chairs. chairs.items ≡ map string_bytes words.now) }
{
    let mut chairs = Vec::new(alloc);
    for word in words {
        match Name::read(alloc, word.as_str()) {
            Ok(chair) => chairs.push(chair)?,
            Err(_) => return Err(AllocError),
        }
    }
    Ok(chairs)
}

// The status of a stream that has ended.
fn status_at(end: StreamEnd) -> Status
    ensures { result ≡ status_at end }
{
    match end {
        StreamEnd::Done => Status::Done,
        StreamEnd::Refused => Status::Refused,
        StreamEnd::ReadFault => Status::ReadFault,
        StreamEnd::WriteFault => Status::WriteFault,
        StreamEnd::Memory => Status::Memory,
        StreamEnd::Spent => Status::Memory,
    }
}

// Says which row is damaged.
fn tell_damage<K: Sink>(place: u64, sink: &mut K) -> Status
    ensures status { (result ≡ Status.Damaged) ⊎ (result ≡ Status.WriteFault) }
    ensures written { result ≡ Status.Damaged → Written (told (K.taken sink.old)) (K.taken sink.new) (damage_line place) }
    ensures front { result ≡ Status.WriteFault → FrontWritten (told (K.taken sink.old)) (K.taken sink.new) (damage_line place) }
    ensures cause { result ≡ Status.WriteFault → Rose (K.faults sink.old) (K.faults sink.new) }
{
    match write_all(sink, damage_line(place).as_slice()) {
        Ok(()) => Status::Damaged,
        Err(_) => Status::WriteFault,
    }
}

/// Opens the desk of the chairs that the words behind the first are from the keeper's rows, and serves the source's requests into
/// the sink.
pub(crate) fn serve_session<S: Source, K: Sink, P: Keeper>(
    alloc: Global,
    words: &[String],
    source: &mut S,
    sink: &mut K,
    keeper: &mut P,
) -> Status
    requires { AreChairs (chairs_in words.now) }
    ensures sessions { Sessions result (chairs_in words.now) (record { rows = P.rows keeper.old; faults = P.faults keeper.old; given = S.given source.old; left = S.left source.old; taken = K.taken sink.old }) (record { rows = P.rows keeper.new; faults = P.faults keeper.new; given = S.given source.new; left = S.left source.new; taken = K.taken sink.new }) }
    ensures damaged { (place : ℕ) → IsSome (P.rows keeper.new) → IsDamaged (told_rows (P.rows keeper.old)) place → (result ≡ Status.Damaged) ⊎ ((result ≡ Status.WriteFault) ⊎ ((result ≡ Status.KeeperFault) ⊎ (result ≡ Status.Memory))) }
    ensures usage { result ≢ Status.Usage }
    ensures keeper_fault { result ≡ Status.KeeperFault → Rose (P.faults keeper.old) (P.faults keeper.new) }
    ensures read_fault { result ≡ Status.ReadFault → Rose (S.faults source.old) (S.faults source.new) }
    ensures write_fault { result ≡ Status.WriteFault → Rose (K.faults sink.old) (K.faults sink.new) }
{
    let Ok(chairs) = chairs_of(alloc, &words[1..]) else {
        return Status::Memory;
    };
    match Desk::reopen(alloc, keeper, chairs) {
        Ok(mut desk) => status_at(session(alloc, source, sink, &mut desk, keeper)),
        Err(OpenFault::Damaged { row }) => tell_damage(row, sink),
        Err(OpenFault::Keeper) => Status::KeeperFault,
        Err(OpenFault::Memory) => Status::Memory,
    }
}
