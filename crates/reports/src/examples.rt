// Worked examples, computed over the definitions. The function has an empty body: its clauses are the examples.
ghost use Rattle.std.specs.Prelude.{◌≡◌, ◌∷◌, [], codes};
ghost use Rattle.match_rules.specs.Examples.{one_house, small, small_negative, two_pieces};
ghost use Rattle.reports.specs.Examples.{small_winning, three_homes};
ghost use Rattle.reports.specs.Institutions.{institutions_text};
ghost use Rattle.reports.specs.Reports.{assignment_of, report_text};
ghost use Rattle.reports.specs.Tables.{papers_text, shares_text};
ghost use Rattle.reports.specs.declared.kinds.Report.TheVariants.{Shares, Loads, Papers, Institutions, Ticket};

/// The reports of a lottery of two papers and two reviewers, in which two assignments have 7,000 and 3,000 tickets, and tables
/// of other rules.
#[tactic(auto, unfolding(crate::specs::Reports::report_text))]
pub fn worked_reports()
    ensures shares { report_text (small 7000) small_winning Shares ≡ codes "paper,reviewer,score,tickets\np1,r1,1000000,7000\np1,r2,0,3000\np2,r1,800000,3000\np2,r2,500000,7000\n" }
    ensures loads { report_text (small 7000) small_winning Loads ≡ codes "reviewer,least,greatest,tickets\nr1,0,1,10000\nr2,0,1,10000\n" }
    ensures papers { report_text (small 7000) small_winning Papers ≡ codes "paper,demand,score\np1,1,7000000000\np2,1,5900000000\n" }
    ensures none { report_text (small 7000) small_winning Institutions ≡ codes "institution,tickets\n" }
    ensures first { report_text (small 7000) small_winning (Ticket 6999) ≡ codes "paper,reviewer\np1,r1\np2,r2\n" }
    ensures second { report_text (small 7000) small_winning (Ticket 7000) ≡ codes "paper,reviewer\np1,r2\np2,r1\n" }
    // A pair without a share has no line.
    ensures unshared { shares_text (small 10000) (10000 ∷ 0 ∷ 0 ∷ 10000 ∷ []) ≡ codes "paper,reviewer,score,tickets\np1,r1,1000000,10000\np2,r2,500000,10000\n" }
    // Scores may be negative.
    ensures negative { papers_text small_negative (0 ∷ 10000 ∷ 10000 ∷ 0 ∷ []) ≡ codes "paper,demand,score\np1,1,-5000000000\np2,1,-5000000000\n" }
    // Institutions stand in the order of their bytes, and one whose reviewers have no share stands there too.
    ensures homes { institutions_text three_homes (10000 ∷ 10000 ∷ []) ≡ codes "institution,tickets\nu,0\nv,10000\n" }
    ensures house { institutions_text one_house (10000 ∷ 10000 ∷ []) ≡ codes "institution,tickets\nu,20000\n" }
{}
