// The top call: words, what they read, and what they write.
ghost use Rattle.std.specs.Prelude.{◌≡◌, ◌≢◌, ◌⊎◌, ℕ, [], IsSome};
ghost use Rattle.edge_io.specs.Counts.{Rose};
ghost use Rattle.edge_io.specs.Files.{told_files};
ghost use Rattle.edge_io.specs.Told.{told};
ghost use Rattle.desk_keeper.specs.Keepers.{told_rows};
ghost use Rattle.desk_history.specs.Opened.{IsDamaged};
ghost use Rattle.command_words.specs.Usage.{usage_text};
ghost use Rattle.matcher_cli.specs.FolderRules.{IsServedExactly, RulesServed, rules_in};
ghost use Rattle.matcher_cli.specs.Making.{Makes, made_rules};
ghost use Rattle.matcher_cli.specs.Reporting.{IsReportedExactly, Reports};
ghost use Rattle.matcher_cli.specs.Serving.{Outside, Sessions, chairs_in};
ghost use Rattle.matcher_cli.specs.Solving.{IsSolvedExactly, Solves};
ghost use Rattle.matcher_cli.specs.Words.{Asks, AsksNothing};
ghost use Rattle.matcher_cli.specs.Verdicts.{IsExact, Checks, FrontWritten, Written};

use crate::checking::check_text;
use crate::folder_rules::serve_rules;
use crate::making::serve_making;
use crate::reporting::serve_report;
use crate::serving::serve_session;
use crate::solving::serve_solution;
use crate::status::Status;
use command_words::{Command, WordsFault, read_words, usage};
use desk_keeper::Keeper;
use edge_io::{Folder, Sink, Source, write_all};
use match_rules::Mode;
use reports::Report;
use std::alloc::Global;

// Says that the words aren't taken.
fn refuse_words<K: Sink>(sink: &mut K) -> Status
    ensures status { (result ≡ Status.Usage) ⊎ (result ≡ Status.WriteFault) }
    ensures written { result ≡ Status.Usage → Written (told (K.taken sink.old)) (K.taken sink.new) usage_text }
    ensures front { result ≡ Status.WriteFault → FrontWritten (told (K.taken sink.old)) (K.taken sink.new) usage_text }
    ensures cause { result ≡ Status.WriteFault → Rose (K.faults sink.old) (K.faults sink.new) }
{
    match write_all(sink, usage()) {
        Ok(()) => Status::Usage,
        Err(_) => Status::WriteFault,
    }
}

/// Does what the words ask. With the one word `check` it reads a certificate from the source, all that there is, and
/// writes the line of the check into the sink; its memory is that of the certificate, of its longest line, 65,536
/// bytes, and a counter for each paper, reviewer, group and pair. With the words `report WHAT` it reads and checks a certificate
/// too, and writes a table of its lottery; it takes a number for each paper, reviewer or institution more. With the one word `rules` it reads the files of the
/// folder and writes their rules; its memory is that of the files one at a time, and of what they make. With the words
/// `solve whole` it writes these rules and a best lottery of them with its evidence, or the cut that shows that none fits; with
/// the words `solve fair` the same under the greatest threshold of the scores at which some lottery fits. With the words
/// `make SEED SIZE` it makes the files of a conference in memory, solves and checks their rules as `solve whole`, and writes one
/// line of what they have and of the total; its memory is that of these files and of the solution. With the words `session CHAIR...`
/// it opens the desk of these chairs from the rows of the keeper and serves the requests of the source into the sink, worker steps
/// among them; its memory is that of the history, of the rules of the present edition and of one request.
pub fn matcher<S: Source, K: Sink, F: Folder, P: Keeper>(
    alloc: Global,
    words: &[String],
    source: &mut S,
    sink: &mut K,
    folder: &mut F,
    keeper: &mut P,
) -> Status
    // Other words are refused, and they alone.
    ensures usage { result ≡ Status.Usage → AsksNothing words.now }
    ensures refused_words { AsksNothing words.now → (result ≡ Status.Usage) ⊎ ((result ≡ Status.WriteFault) ⊎ (result ≡ Status.Memory)) }
    ensures usage_line { result ≡ Status.Usage → Written (told (K.taken sink.old)) (K.taken sink.new) usage_text }
    ensures usage_front { AsksNothing words.now → result ≡ Status.WriteFault → FrontWritten (told (K.taken sink.old)) (K.taken sink.new) usage_text }

    // The check, where the source tells its bytes: 0 comes exactly where they are the text of rules and of a valid
    // answer, 1 where it breaks a clause, with the line of the first, 6 where they are no such text, with the line of their
    // first fault. Where writing failed, a front of the line was written.
    ensures checks { IsSome (S.left source.new) → Asks words.now Command.Check → Checks result (told (S.left source.old)) (told (K.taken sink.old)) (K.taken sink.new) }
    ensures exact { IsSome (S.left source.new) → Asks words.now Command.Check → IsExact (told (S.left source.old)) result }
    ensures end { IsSome (S.left source.new) → Asks words.now Command.Check → (result ≡ Status.Done) ⊎ (result ≡ Status.Broken) → told (S.left source.new) ≡ [] }
    ensures source_fault { Asks words.now Command.Check → result ≡ Status.ReadFault → Rose (S.faults source.old) (S.faults source.new) }

    // The report, where the source tells its bytes: 0 comes exactly where they are the text of rules and of a certified lottery, with
    // the text of its report; 1 where the answer breaks a clause, with the line of the first, and where it is a valid cut, which shows
    // that no lottery fits, with the line of its need and its room; 6 where they are no such text, with the line of their first
    // fault. Where writing failed, a front of the text was written.
    ensures reports { IsSome (S.left source.new) → (what : Report) → Asks words.now (Command.Report what) → Reports result what (told (S.left source.old)) (told (K.taken sink.old)) (K.taken sink.new) }
    ensures exact_reports { IsSome (S.left source.new) → (what : Report) → Asks words.now (Command.Report what) → IsReportedExactly (told (S.left source.old)) result }
    ensures report_end { IsSome (S.left source.new) → (what : Report) → Asks words.now (Command.Report what) → (result ≡ Status.Done) ⊎ ((result ≡ Status.Broken) ⊎ (result ≡ Status.Infeasible)) → told (S.left source.new) ≡ [] }
    ensures reported_fault { (what : Report) → Asks words.now (Command.Report what) → result ≡ Status.ReadFault → Rose (S.faults source.old) (S.faults source.new) }

    // The rules, where the folder tells its files: 0 comes exactly where they make rules, with their text, 6 where they
    // don't, with the line of the first that is wrong. Where writing failed, a front of the text was written.
    ensures rules { IsSome (F.files folder.new) → Asks words.now Command.Rules → RulesServed result (told_files (F.files folder.old)) (told (K.taken sink.old)) (K.taken sink.new) }
    ensures exact_rules { IsSome (F.files folder.new) → Asks words.now Command.Rules → IsServedExactly (rules_in (told_files (F.files folder.old))) result }
    ensures folder_fault { Asks words.now Command.Rules → result ≡ Status.ReadFault → Rose (F.faults folder.old) (F.faults folder.new) }

    // The solution, where the folder tells its files: 0 comes exactly where some lottery fits their rules, with the text of
    // the rules and of a certified lottery; in the mode whole no lottery under these rules beats it, in the mode fair none under
    // their greatest feasible threshold does; 1 exactly where none fits, with the text of a cut that shows it; 6 where they
    // make no rules, as for the rules. Where writing failed, a front was written.
    ensures solves { IsSome (F.files folder.new) → (mode : Mode) → Asks words.now (Command.Solve mode) → Solves result (told_files (F.files folder.old)) mode (told (K.taken sink.old)) (K.taken sink.new) }
    ensures exact_solves { IsSome (F.files folder.new) → (mode : Mode) → Asks words.now (Command.Solve mode) → IsSolvedExactly (rules_in (told_files (F.files folder.old))) result }
    ensures solved_fault { (mode : Mode) → Asks words.now (Command.Solve mode) → result ≡ Status.ReadFault → Rose (F.faults folder.old) (F.faults folder.new) }

    // A made conference: 0 comes exactly where some lottery fits the rules of its files, with the line of its seed and its size, of what
    // these rules have, and of the total of a certified lottery, which no lottery under them beats; 1 exactly where none fits, with
    // the need and the room of a cut that shows it; 6 where the files make no rules, as for the rules. Reading can't fail, since
    // the files are in memory. Where writing failed, a front was written.
    ensures makes { (seed size : ℕ) → Asks words.now (Command.Make seed size) → Makes result seed size (made_rules seed size) (told (K.taken sink.old)) (K.taken sink.new) }
    ensures exact_makes { (seed size : ℕ) → Asks words.now (Command.Make seed size) → IsSolvedExactly (made_rules seed size) result }
    ensures made_unread { (seed size : ℕ) → Asks words.now (Command.Make seed size) → result ≢ Status.ReadFault }

    // A session, for every stream of requests, edits, worker steps and repeats: the desk of the words' chairs is opened from the keeper's
    // rows, and serves what the source gives; the keeper then has the rows of what was done, and each publication belongs to one
    // edition and is of a lottery that is best under its rules: its assignments meet them, each pair has exactly its share, never
    // above its cap, no lottery has a greater score, and in the mode fair the threshold is the greatest at which some lottery fits.
    // 8 comes exactly where a row is damaged, with the line of the first, and 5 where the keeper failed at the opening; then nothing was read.
    ensures sessions { Asks words.now Command.Session → Sessions result (chairs_in words.now) (record { rows = P.rows keeper.old; faults = P.faults keeper.old; given = S.given source.old; left = S.left source.old; taken = K.taken sink.old }) (record { rows = P.rows keeper.new; faults = P.faults keeper.new; given = S.given source.new; left = S.left source.new; taken = K.taken sink.new }) }
    ensures damage { Asks words.now Command.Session → (place : ℕ) → IsSome (P.rows keeper.new) → IsDamaged (told_rows (P.rows keeper.old)) place → (result ≡ Status.Damaged) ⊎ ((result ≡ Status.WriteFault) ⊎ ((result ≡ Status.KeeperFault) ⊎ (result ≡ Status.Memory))) }
    ensures session_fault { Asks words.now Command.Session → result ≡ Status.ReadFault → Rose (S.faults source.old) (S.faults source.new) }

    // Other words ask nothing of the keeper.
    ensures keeper_fault { result ≡ Status.KeeperFault → Rose (P.faults keeper.old) (P.faults keeper.new) }
    ensures undamaged { ¬ (Asks words.now Command.Session) → result ≢ Status.Damaged }
    ensures keeper_kept { ¬ (Asks words.now Command.Session) → keeper.new ≡ keeper.old }

    ensures write_fault { result ≡ Status.WriteFault → Rose (K.faults sink.old) (K.faults sink.new) }

    // `check`, `report` and `session` alone read from the source, and `rules` and `solve` alone from the folder; `make` reads neither.
    ensures source_kept { ¬ (Asks words.now Command.Check) → ((what : Report) → ¬ (Asks words.now (Command.Report what))) → ¬ (Asks words.now Command.Session) → source.new ≡ source.old }
    ensures folder_kept { ¬ (Asks words.now Command.Rules) → ((mode : Mode) → ¬ (Asks words.now (Command.Solve mode))) → folder.new ≡ folder.old }

    // Nothing is written where reading failed or memory was wanting, but by a session.
    ensures quiet { ¬ (Asks words.now Command.Session) → (result ≡ Status.ReadFault) ⊎ (result ≡ Status.Memory) → K.taken sink.new ≡ K.taken sink.old }
{
    match read_words(alloc, words) {
        Ok(Command::Check) => check_text(alloc, source, sink),
        Ok(Command::Rules) => serve_rules(alloc, folder, sink),
        Ok(Command::Solve(mode)) => serve_solution(alloc, mode, folder, sink),
        Ok(Command::Make { seed, size }) => serve_making(alloc, seed, size, sink),
        Ok(Command::Report(what)) => serve_report(alloc, what, source, sink),
        Ok(Command::Session) => serve_session(alloc, words, source, sink, keeper),
        Err(WordsFault::Usage) => refuse_words(sink),
        Err(WordsFault::Memory) => Status::Memory,
    }
}
