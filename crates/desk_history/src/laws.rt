// Laws of all histories. The function has an empty body: its clauses are the laws.

ghost use Rattle.std.specs.Prelude.{◌≡◌, ◌≤◌, ◌∷◌, Ok, Some, ℕ};
ghost use Rattle.desk_history.specs.declared.entries.Entry.{Entry};
ghost use Rattle.match_rules.specs.declared.answer.Answer.{Answer};
ghost use Rattle.desk_history.specs.declared.jobs.Job.{Job};
ghost use Rattle.desk_history.specs.declared.replies.Answered.TheVariants.{Taken};
ghost use Rattle.desk_history.specs.declared.replies.Snapshot.{Snapshot};
ghost use Rattle.desk_history.specs.Histories.{History, edition, edits, job_of, present};
ghost use Rattle.desk_history.specs.Laws.{IsAtWork, IsLaterOf, OpenArePresent};
ghost use Rattle.desk_history.specs.Steps.{IsRight, IsRightFor, take_step};

/// A job that was not decided is of the present edition; the present edition is the last one; and later entries leave
/// each edition as it is, and each job with its edition and its mode.
pub fn history_laws()
    ensures jobs { (H : History) → OpenArePresent H }
    ensures present { (H : History) → edition H (edits H) ≡ present H }
    ensures editions { (entry : Entry) (H : History) (n : ℕ) → n ≤ edits H → edition (entry ∷ H) n ≡ edition H n }
    ensures job_stays { (entry : Entry) (H : History) (number : ℕ) (job : Job) → job_of H number ≡ Some job → (later : Job) × ((job_of (entry ∷ H) number ≡ Some later) × IsLaterOf job later) }

    // What a bench gets with its job stays right whatever is asked between, and an answer that is right for it may be handed in.
    ensures taken { (H : History) (bench : ℕ) (given : Snapshot) → (take_step H bench).reply ≡ Ok (Taken given) → IsAtWork H given }
    ensures work_stays { (entry : Entry) (H : History) (given : Snapshot) → IsAtWork H given → IsAtWork (entry ∷ H) given }
    ensures handed_in { (H : History) (given : Snapshot) (answer : Answer) → IsAtWork H given → IsRight given.rules given.mode answer → IsRightFor H given.job (record { rules = given.rules; answer = answer }) }
{}
