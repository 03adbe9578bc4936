// Laws of legal histories. The function has an empty body: its clauses are the laws.

ghost use Rattle.std.specs.Prelude.{◌≡◌, List, None, Some, ℕ};
ghost use Rattle.match_rules.specs.declared.answer.Answer.{Answer};
ghost use Rattle.match_rules.specs.declared.answer.Mode.{Mode};
ghost use Rattle.match_rules.specs.declared.answer.Winning.{Winning};
ghost use Rattle.match_rules.specs.Answers.{Certified};
ghost use Rattle.match_rules.specs.Assignments.{Best};
ghost use Rattle.match_rules.specs.Rules.{AreRules, RulesValue};
ghost use Rattle.match_rules.specs.Thresholds.{sieve_of};
ghost use Rattle.publication.specs.Certificates.{IsCertificate, IsSpelled};
ghost use Rattle.publication.specs.declared.certificate.Certificate.{Certificate};
ghost use Rattle.desk_history.specs.Histories.{History, edits, job_of};
ghost use Rattle.desk_history.specs.Opened.{IsLegal};
ghost use Rattle.desk_history.specs.Refusals.{publish_refusal};
ghost use Rattle.desk_history.specs.Rows.{evidence_of};
ghost use Rattle.desk_history.specs.Steps.{IsRight};
ghost use Rattle.desk_reopening.specs.Editions.{EditionsMakeRules};
ghost use Rattle.desk_laws.specs.Best.{EachBest};
ghost use Rattle.desk_laws.specs.Evidence.{AnsweredAreShown, EachPublished};

/// In a legal history each job with an answer has evidence: the rules of its edition, and an answer that is right for them
/// in its mode; each publication is of a job whose evidence is a certified lottery; and what a job that may be published
/// has as its evidence is right. The text of such an answer behind that of its rules is read back, and a certified lottery is best.
/// Where each edition makes rules, each publication is of a best lottery under the rules of its job's edition.
pub fn evidence_laws()
    ensures evidence { (chairs : List (List ℕ)) (H : History) → IsLegal chairs H → AnsweredAreShown H }
    ensures published { (chairs : List (List ℕ)) (H : History) → IsLegal chairs H → EachPublished H }
    ensures publishable { (chairs : List (List ℕ)) (H : History) (number : ℕ) (certificate : Certificate) → IsLegal chairs H → publish_refusal (edits H) None (job_of H number) ≡ None → evidence_of H (job_of H number) ≡ Some certificate → (mode : Mode) × IsRight certificate.rules mode certificate.answer }
    ensures readable { (rules : RulesValue) (mode : Mode) (answer : Answer) → AreRules rules → IsRight rules mode answer → IsSpelled answer → IsCertificate rules answer }
    ensures best { (rules : RulesValue) (mode : Mode) (winning : Winning) → AreRules rules → Certified rules mode winning → Best rules (sieve_of winning.level) winning.lottery }
    ensures each_best { (chairs : List (List ℕ)) (H : History) → IsLegal chairs H → EditionsMakeRules H → EachBest H }
{}
