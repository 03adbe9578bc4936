// Worked examples, computed over the definitions. The functions have empty bodies: their clauses are the examples.

ghost use Rattle.std.specs.Prelude.{◌≡◌, ◌++◌, ◌∷◌, [], None, Some, Ok, Err, codes, pos, ℕ, List};
ghost use Rattle.match_rules.specs.declared.answer.Mode.TheVariants.{Whole};
ghost use Rattle.desk_keeper.specs.declared.words.Command.TheVariants.{Draw, Publish, Submit};
ghost use Rattle.desk_keeper.specs.declared.words.EditWords.{EditWords};
ghost use Rattle.desk_keeper.specs.declared.words.Command.TheVariants.{Edit};
ghost use Rattle.desk_history.specs.declared.entries.Done.TheVariants as done;
ghost use Rattle.desk_history.specs.declared.entries.Entry.TheVariants.{Accepted, Took, Ended, Released};
ghost use Rattle.desk_history.specs.declared.jobs.Grade.TheVariants as grade;
ghost use Rattle.desk_history.specs.declared.jobs.Outcome.TheVariants as outcome;
ghost use Rattle.desk_history.specs.declared.refusals.Refusal.TheVariants as refusal;
ghost use Rattle.desk_history.specs.declared.replies.Answered.TheVariants as answered;
ghost use Rattle.desk_history.specs.declared.requests.Look.TheVariants as look;
ghost use Rattle.desk_history.specs.declared.requests.Request.TheVariants.{Release, Take};
ghost use Rattle.desk_history.specs.declared.requests.Work.TheVariants as work;
ghost use Rattle.desk_history.specs.Histories.{commands, edits, held, outcome};
ghost use Rattle.desk_history.specs.Examples.{asks, behind, fifth_edit, finish, four_edits, fourth_certificate, fourth_rules, job_taken, looks, lottery_published, reply, two_jobs};

/// Outcomes, editions and benches of a history of an edit, two jobs and what two benches made of them.
pub fn worked_histories()
    ensures waits { (edit : EditWords) → outcome (two_jobs edit) 2 ≡ Some outcome.Waiting }
    ensures taken { (edit : EditWords) → outcome (Took 3 2 ∷ Took 0 1 ∷ two_jobs edit) 2 ≡ Some outcome.Taken }
    ensures held { (edit : EditWords) → held (Took 3 2 ∷ Took 0 1 ∷ two_jobs edit) 0 ≡ Some 1 }
    ensures ended { (edit : EditWords) → outcome (Ended 3 work.OutOfMemory ∷ Took 3 2 ∷ Took 0 1 ∷ two_jobs edit) 2 ≡ Some outcome.OutOfMemory }
    ensures others { (edit : EditWords) → outcome (Ended 3 work.OutOfMemory ∷ Took 3 2 ∷ Took 0 1 ∷ two_jobs edit) 1 ≡ Some outcome.Taken }
    ensures released { (edit : EditWords) → outcome (Released 0 ∷ Took 3 2 ∷ Took 0 1 ∷ two_jobs edit) 1 ≡ Some outcome.Waiting }
    ensures empty { (edit : EditWords) → held (Released 0 ∷ Took 3 2 ∷ Took 0 1 ∷ two_jobs edit) 0 ≡ None }
    // An edit makes both stale, and a finish leaves them so.
    ensures stale { (edit : EditWords) → outcome (Ended 3 work.OutOfMemory ∷ Accepted (codes "ann") 9 (Edit 1 edit) (done.Edited 2) None ∷ Took 3 2 ∷ two_jobs edit) 2 ≡ Some (outcome.Stale 2) }
    ensures none { (edit : EditWords) → outcome (two_jobs edit) 3 ≡ None }
    ensures zero { (edit : EditWords) → outcome (two_jobs edit) 0 ≡ None }
    // A publish that was read back certifies a waiting job.
    ensures replayed { (edit : EditWords) → outcome (Accepted (codes "ann") 9 (Publish 2) (done.Published 1) (Some fourth_certificate) ∷ two_jobs edit) 2 ≡ Some (outcome.Certified grade.Unasked (pos 12900000000)) }
{}

/// Four edits, a job, its take, and a further edit.
pub fn worked_session()
    ensures first { reply [] (asks 6 (Submit 4 Whole)) ≡ Err (refusal.OtherBase 0) }
    ensures edits { edits (behind [] four_edits) ≡ 4 }
    ensures submitted { reply (behind [] four_edits) (asks 5 (Submit 4 Whole)) ≡ Ok (answered.Submitted 1) }
    ensures fifth { reply (behind [] job_taken) (asks 6 fifth_edit) ≡ Ok (answered.Edited 5) }
    ensures full { reply (behind [] job_taken) (Take 0) ≡ Err (refusal.BenchFull 1) }
    ensures idle { reply (behind [] job_taken) (Take 1) ≡ Err refusal.NoJob }
    ensures stale { reply (behind [] (job_taken ++ asks 6 fifth_edit ∷ [])) finish ≡ Ok (answered.Finished 1 (outcome.Stale 5)) }
    ensures late { reply (behind [] (job_taken ++ asks 6 fifth_edit ∷ finish ∷ [])) (asks 7 (Publish 1)) ≡ Err (refusal.Stale 5) }
{}

/// A certified job, its publication, and the ticket that is drawn of it.
pub fn worked_draw()
    ensures rules { reply (behind [] four_edits) (looks look.Rules) ≡ Ok (answered.Rules fourth_rules) }
    ensures certified { reply (behind [] job_taken) finish ≡ Ok (answered.Finished 1 (outcome.Certified grade.Unasked (pos 12900000000))) }
    ensures published { reply (behind [] (job_taken ++ finish ∷ [])) (asks 6 (Publish 1)) ≡ Ok (answered.Published 1) }
    ensures repeated { reply (behind [] lottery_published) (asks 6 (Publish 1)) ≡ Ok (answered.Published 1) }
    ensures commands { commands (behind [] (lottery_published ++ asks 6 (Publish 1) ∷ [])) ≡ 6 }
    ensures reused { reply (behind [] lottery_published) (asks 6 (Publish 2)) ≡ Err (refusal.IdReused 5) }
    ensures drawn { reply (behind [] lottery_published) (asks 7 (Draw 1 (codes "abc"))) ≡ Ok (answered.Drawn 1 74) }
    ensures again { reply (behind [] (lottery_published ++ asks 7 (Draw 1 (codes "abc")) ∷ [])) (asks 8 (Draw 1 (codes "abc"))) ≡ Err (refusal.AlreadyDrawn 74) }
    ensures ticket { reply (behind [] lottery_published) (looks (look.Ticket 1 10000)) ≡ Err refusal.BadTicket }
    ensures unknown { reply (behind [] lottery_published) (looks (look.Ticket 2 10000)) ≡ Err refusal.UnknownPublication }
{}
