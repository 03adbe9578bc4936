// Worked examples, computed over the definitions. The functions have empty bodies: their clauses are the examples.

ghost use Rattle.std.specs.Prelude.{◌≡◌, ◌∷◌, [], codes, negsuc, pos};
ghost use Rattle.bid_import.specs.declared.fault.Code.TheVariants as code;
ghost use Rattle.bid_import.specs.declared.fault.Key.TheVariants as key;
ghost use Rattle.venue_rules.specs.declared.fault.LimitFault.TheVariants as limit;
ghost use Rattle.match_rules.specs.Rules.{RulesValue};
ghost use Rattle.match_rules.specs.declared.answer.Mode.TheVariants.{Fair, Whole};
ghost use Rattle.http_messages.specs.Replies.{refusal as bare_refusal};
ghost use Rattle.desk_history.specs.declared.jobs.Grade.TheVariants as grade;
ghost use Rattle.desk_history.specs.declared.jobs.Outcome.TheVariants as outcome;
ghost use Rattle.desk_history.specs.declared.refusals.Refusal.TheVariants as refusal;
ghost use Rattle.desk_history.specs.declared.replies.Answered.TheVariants as answered;
ghost use Rattle.desk_replies.specs.Accepted.{reply_of_answer, text_reply};
ghost use Rattle.desk_replies.specs.Refusals.{reply_of_refusal};
ghost use Rattle.desk_replies.specs.Examples.{json};

/// Replies to requests that are accepted.
pub fn worked_answers()
    ensures edited { reply_of_answer (answered.Edited 4) ≡ json 200 (codes "{\"edition\":4}") }
    ensures drawn { reply_of_answer (answered.Drawn 1 74) ≡ json 200 (codes "{\"publication\":1,\"ticket\":74}") }
    ensures taken { (rules : RulesValue) → reply_of_answer (answered.Taken (record { job = 1; edition = 4; mode = Whole; rules = rules })) ≡ json 200 (codes "{\"edition\":4,\"job\":1}") }
    ensures pairs { reply_of_answer (answered.Pairs (record { paper = codes "p1"; reviewer = codes "r2" } ∷ record { paper = codes "p2"; reviewer = codes "r1" } ∷ [])) ≡ text_reply (codes "paper,reviewer\np1,r2\np2,r1\n") }
{}

/// Looks at jobs.
pub fn worked_jobs()
    ensures waiting { reply_of_answer (answered.Job 1 4 Fair outcome.Waiting) ≡ json 200 (codes "{\"edition\":4,\"job\":1,\"mode\":\"fair\",\"outcome\":\"waiting\"}") }
    ensures whole { reply_of_answer (answered.Job 1 4 Whole (outcome.Certified grade.Unasked (pos 12900000000))) ≡ json 200 (codes "{\"edition\":4,\"job\":1,\"mode\":\"whole\",\"outcome\":\"certified\",\"threshold\":\"none\",\"total\":\"12900000000\"}") }
    ensures fair { reply_of_answer (answered.Job 1 4 Fair (outcome.Certified (grade.At (negsuc 499999)) (negsuc 4999999999))) ≡ json 200 (codes "{\"edition\":4,\"job\":1,\"mode\":\"fair\",\"outcome\":\"certified\",\"threshold\":-500000,\"total\":\"-5000000000\"}") }
    ensures free { reply_of_answer (answered.Job 1 4 Fair (outcome.Certified grade.Free (pos 0))) ≡ json 200 (codes "{\"edition\":4,\"job\":1,\"mode\":\"fair\",\"outcome\":\"certified\",\"threshold\":\"free\",\"total\":\"0\"}") }
    ensures infeasible { reply_of_answer (answered.Job 2 4 Whole (outcome.Infeasible 20000 10000)) ≡ json 200 (codes "{\"edition\":4,\"job\":2,\"mode\":\"whole\",\"need\":20000,\"outcome\":\"infeasible\",\"room\":10000}") }
    ensures stale { reply_of_answer (answered.Job 1 4 Whole (outcome.Stale 5)) ≡ json 200 (codes "{\"edition\":4,\"job\":1,\"later\":5,\"mode\":\"whole\",\"outcome\":\"stale\"}") }
{}

/// What finishes show: neither threshold nor total.
pub fn worked_finishes()
    ensures certified { reply_of_answer (answered.Finished 1 (outcome.Certified grade.Unasked (pos 12900000000))) ≡ json 200 (codes "{\"job\":1,\"outcome\":\"certified\"}") }
    ensures infeasible { reply_of_answer (answered.Finished 2 (outcome.Infeasible 20000 10000)) ≡ json 200 (codes "{\"job\":2,\"need\":20000,\"outcome\":\"infeasible\",\"room\":10000}") }
    ensures stale { reply_of_answer (answered.Finished 1 (outcome.Stale 5)) ≡ json 200 (codes "{\"job\":1,\"later\":5,\"outcome\":\"stale\"}") }
    ensures memory { reply_of_answer (answered.Finished 1 outcome.OutOfMemory) ≡ json 200 (codes "{\"job\":1,\"outcome\":\"out-of-memory\"}") }
{}

/// Replies to requests that are refused.
pub fn worked_refusals()
    ensures stale { reply_of_refusal (refusal.Stale 5) ≡ json 409 (codes "{\"now\":5,\"refused\":\"stale\"}") }
    ensures reused { reply_of_refusal (refusal.IdReused 5) ≡ json 409 (codes "{\"entry\":5,\"refused\":\"id-reused\"}") }
    ensures drawn { reply_of_refusal (refusal.AlreadyDrawn 74) ≡ json 409 (codes "{\"refused\":\"already-drawn\",\"ticket\":74}") }
    ensures unknown { reply_of_refusal refusal.UnknownPublication ≡ json 404 (codes "{\"refused\":\"unknown-publication\"}") }
    ensures full { reply_of_refusal (refusal.HistoryFull 100000 7) ≡ json 422 (codes "{\"bytes\":7,\"commands\":100000,\"refused\":\"history-full\"}") }
    ensures keeper { reply_of_refusal refusal.KeeperFault ≡ json 503 (codes "{\"refused\":\"keeper-fault\"}") }
    ensures memory { reply_of_refusal refusal.Memory ≡ bare_refusal 507 (codes "memory") }
{}

/// Replies to edits whose tables are at fault. The escapes are those of JSON.
pub fn worked_faults()
    ensures row { reply_of_refusal (refusal.Import 3 code.BadId) ≡ json 422 (codes "{\"code\":\"bad-id\",\"refused\":\"import\",\"row\":3}") }
    ensures setting { reply_of_refusal (refusal.Import 0 (code.BadSetting key.Cap)) ≡ json 422 (codes "{\"code\":\"bad-setting\",\"key\":\"cap\",\"refused\":\"import\",\"row\":0}") }
    ensures demand { reply_of_refusal (refusal.Limit (limit.TooMuchDemand 4501)) ≡ json 422 (codes "{\"refused\":\"too-much-demand\",\"sum\":4501}") }
    ensures locked { reply_of_refusal (refusal.Limit (limit.LockForbidden (codes "p\\1") (codes "r1"))) ≡ json 422 (codes "{\"paper\":\"p\\\\1\",\"refused\":\"lock-forbidden\",\"reviewer\":\"r1\"}") }
    ensures pairs { reply_of_refusal (refusal.Limit (limit.TooManyPairs 250001)) ≡ json 422 (codes "{\"count\":250001,\"refused\":\"too-many-pairs\"}") }
{}
