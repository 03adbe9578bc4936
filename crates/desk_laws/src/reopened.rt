// Laws of what comes back of a legal history. The function has an empty body: its clauses are the laws.

ghost use Rattle.std.specs.Prelude.{◌≡◌, List, Some, ℕ};
ghost use Rattle.desk_history.specs.declared.jobs.Publication.{Publication};
ghost use Rattle.desk_history.specs.Histories.{History, edition, edits, job_of, kept, nth_of, publications};
ghost use Rattle.desk_history.specs.Opened.{IsLegal, Opens};
ghost use Rattle.desk_history.specs.Rows.{evidence_of, rows};
ghost use Rattle.desk_laws.specs.Reopened.{AreNames, reopened};

/// The rows of a legal history open a history with the same accepted commands, replies, editions and published lotteries.
/// Jobs that no publish had named come back waiting or stale: what benches took and handed in stands in no row.
pub fn reopened_laws()
    ensures opens { (chairs : List (List ℕ)) (H : History) → AreNames chairs → IsLegal chairs H → Opens (rows H) (reopened H) }
    ensures commands { (H : History) (caller : List ℕ) (number : ℕ) → kept (reopened H) caller number ≡ kept H caller number }
    ensures editions { (H : History) (n : ℕ) → edition (reopened H) n ≡ edition H n }
    ensures edits { (H : History) → edits (reopened H) ≡ edits H }
    ensures publications { (H : History) → publications (reopened H) ≡ publications H }
    ensures lotteries { (chairs : List (List ℕ)) (H : History) (number : ℕ) (publication : Publication) → AreNames chairs → IsLegal chairs H → nth_of (publications H) number ≡ Some publication → evidence_of (reopened H) (job_of (reopened H) publication.job) ≡ evidence_of H (job_of H publication.job) }
{}
