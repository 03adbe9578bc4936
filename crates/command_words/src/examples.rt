// Worked examples, computed over the definitions. The function has an empty body: its clauses are the examples.

ghost use Rattle.std.specs.Prelude.{◌≡◌, ◌∷◌, [], None, Some, codes};
ghost use Rattle.command_words.specs.Commands.{command_of};
ghost use Rattle.command_words.specs.declared.words.Command.TheVariants.{Make, Report, Session};
ghost use Rattle.reports.specs.declared.kinds.Report.TheVariants.{Institutions, Loads, Papers, Shares, Ticket};

/// Words that ask for a made conference, and words that are near to them.
pub fn worked_makings()
    ensures least { command_of (codes "make" ∷ codes "7" ∷ codes "1" ∷ []) ≡ Some (Make 7 1) }
    ensures most { command_of (codes "make" ∷ codes "4294967295" ∷ codes "25" ∷ []) ≡ Some (Make 4294967295 25) }
    ensures large_seed { command_of (codes "make" ∷ codes "4294967296" ∷ codes "1" ∷ []) ≡ None }
    ensures large { command_of (codes "make" ∷ codes "7" ∷ codes "26" ∷ []) ≡ None }
    ensures no_size { command_of (codes "make" ∷ codes "7" ∷ codes "0" ∷ []) ≡ None }
    // Each number has one spelling.
    ensures zero_in_front { command_of (codes "make" ∷ codes "07" ∷ codes "1" ∷ []) ≡ None }
    ensures a_sign { command_of (codes "make" ∷ codes "7" ∷ codes "+1" ∷ []) ≡ None }
    ensures too_few { command_of (codes "make" ∷ codes "7" ∷ []) ≡ None }
    ensures too_many { command_of (codes "make" ∷ codes "7" ∷ codes "1" ∷ codes "1" ∷ []) ≡ None }
{}

/// Words that ask for a report, and words that are near to them.
pub fn worked_reports()
    ensures shares { command_of (codes "report" ∷ codes "shares" ∷ []) ≡ Some (Report Shares) }
    ensures loads { command_of (codes "report" ∷ codes "loads" ∷ []) ≡ Some (Report Loads) }
    ensures papers { command_of (codes "report" ∷ codes "papers" ∷ []) ≡ Some (Report Papers) }
    ensures institutions { command_of (codes "report" ∷ codes "institutions" ∷ []) ≡ Some (Report Institutions) }
    ensures first { command_of (codes "report" ∷ codes "ticket" ∷ codes "0" ∷ []) ≡ Some (Report (Ticket 0)) }
    ensures last { command_of (codes "report" ∷ codes "ticket" ∷ codes "9999" ∷ []) ≡ Some (Report (Ticket 9999)) }
    ensures past_the_last { command_of (codes "report" ∷ codes "ticket" ∷ codes "10000" ∷ []) ≡ None }
    ensures zero_in_front { command_of (codes "report" ∷ codes "ticket" ∷ codes "07" ∷ []) ≡ None }
    ensures a_sign { command_of (codes "report" ∷ codes "ticket" ∷ codes "+7" ∷ []) ≡ None }
    ensures no_number { command_of (codes "report" ∷ codes "ticket" ∷ []) ≡ None }
    ensures a_number_more { command_of (codes "report" ∷ codes "shares" ∷ codes "7" ∷ []) ≡ None }
    ensures no_report { command_of (codes "report" ∷ []) ≡ None }
    ensures unknown { command_of (codes "report" ∷ codes "share" ∷ []) ≡ None }
{}

/// Words that ask for a session, and words that are near to them.
#[tactic(auto, unfolding(desk_keeper::specs::Names::is_chair_name))]
pub fn worked_sessions()
    ensures one { command_of (codes "session" ∷ codes "ann" ∷ []) ≡ Some Session }
    ensures two { command_of (codes "session" ∷ codes "ann" ∷ codes "bob" ∷ []) ≡ Some Session }
    // Words of other commands may name chairs.
    ensures named_as_commands { command_of (codes "session" ∷ codes "session" ∷ codes "help" ∷ codes "1" ∷ []) ≡ Some Session }
    ensures sixteen { command_of (codes "session" ∷ codes "a" ∷ codes "b" ∷ codes "c" ∷ codes "d" ∷ codes "e" ∷ codes "f" ∷ codes "g" ∷ codes "h" ∷ codes "i" ∷ codes "j" ∷ codes "k" ∷ codes "l" ∷ codes "m" ∷ codes "n" ∷ codes "o" ∷ codes "p" ∷ []) ≡ Some Session }
    ensures seventeen { command_of (codes "session" ∷ codes "a" ∷ codes "b" ∷ codes "c" ∷ codes "d" ∷ codes "e" ∷ codes "f" ∷ codes "g" ∷ codes "h" ∷ codes "i" ∷ codes "j" ∷ codes "k" ∷ codes "l" ∷ codes "m" ∷ codes "n" ∷ codes "o" ∷ codes "p" ∷ codes "q" ∷ []) ≡ None }
    ensures none { command_of (codes "session" ∷ []) ≡ None }
    ensures twice { command_of (codes "session" ∷ codes "ann" ∷ codes "bob" ∷ codes "ann" ∷ []) ≡ None }
    ensures a_comma { command_of (codes "session" ∷ codes "ann,bob" ∷ []) ≡ None }
    ensures a_space { command_of (codes "session" ∷ codes "ann bob" ∷ []) ≡ None }
    ensures a_hyphen { command_of (codes "session" ∷ codes "-ann" ∷ []) ≡ None }
    ensures empty { command_of (codes "session" ∷ codes "" ∷ []) ≡ None }
{}
