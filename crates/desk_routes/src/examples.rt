// Worked examples of requests, computed over the definition. The functions have empty bodies: their clauses are the examples.

ghost use Rattle.std.specs.Prelude.{◌≡◌, ◌∷◌, [], codes};
ghost use Rattle.match_rules.specs.declared.answer.Mode.TheVariants.{Whole, Fair};
ghost use Rattle.desk_keeper.specs.declared.words.Command.TheVariants.{Draw, Edit, Publish, Submit};
ghost use Rattle.desk_keeper.specs.declared.words.HowWords.TheVariants.{Merge, Replace};
ghost use Rattle.desk_keeper.specs.declared.words.TableWords.TheVariants.{Papers, Values};
ghost use Rattle.http_messages.specs.declared.replies.Method.TheVariants.{Get, Post};
ghost use Rattle.desk_routes.specs.declared.faults.RouteFault.TheVariants.{BadBase, BadChair, BadMethod, BadNumber, NoRoute};
ghost use Rattle.desk_routes.specs.declared.places.Asked.TheVariants as asked;
ghost use Rattle.desk_routes.specs.declared.places.Look.TheVariants as look;
ghost use Rattle.desk_routes.specs.declared.places.Routes.TheVariants.{Chairs};
ghost use Rattle.desk_routes.specs.Examples.{asked_with, base, chair, get, looked, looks, number, ordered, orders, plans, post};

/// Each route once.
pub fn worked_routes()
    ensures edit { post (codes "/edit/papers/replace") plans ≡ Ok (ordered (Edit 3 (record { table = Papers; how = Replace; body = codes "a,b" }))) }
    ensures values { post (codes "/edit/values-affinity/merge") plans ≡ Ok (ordered (Edit 3 (record { table = Values (codes "affinity"); how = Merge; body = codes "a,b" }))) }
    ensures submit { post (codes "/jobs/whole") plans ≡ Ok (ordered (Submit 3 Whole)) }
    ensures fair { post (codes "/jobs/fair") plans ≡ Ok (ordered (Submit 3 Fair)) }
    ensures publish { post (codes "/publish/7") orders ≡ Ok (ordered (Publish 7)) }
    ensures draw { post (codes "/draw/1") orders ≡ Ok (ordered (Draw 1 (codes "a,b"))) }
    ensures edition { get (codes "/edition") looks ≡ Ok (looked look.Edition) }
    ensures rules { get (codes "/rules") looks ≡ Ok (looked look.Rules) }
    ensures job { get (codes "/jobs/7") looks ≡ Ok (looked (look.Job 7)) }
    ensures answer { get (codes "/jobs/7/answer") looks ≡ Ok (looked (look.Answer 7)) }
    ensures publication { get (codes "/publications/1") looks ≡ Ok (looked (look.Publication 1)) }
    ensures ticket { get (codes "/publications/1/tickets/9999") looks ≡ Ok (looked (look.Ticket 1 9999)) }
    ensures take { post (codes "/worker/take") [] ≡ Ok asked.Take }
    ensures finish { post (codes "/worker/finish") [] ≡ Ok asked.Finish }
    ensures release { post (codes "/worker/release") [] ≡ Ok asked.Release }
{}

/// Targets that no route has, and methods that a route has not.
pub fn worked_targets()
    ensures mode_got { get (codes "/jobs/whole") looks ≡ Err (BadMethod Post) }
    ensures number_posted { post (codes "/jobs/7") plans ≡ Err (BadMethod Get) }
    ensures head { asked_with Chairs (codes "HEAD") (codes "/edition") looks ≡ Err (BadMethod Get) }
    ensures options { asked_with Chairs (codes "OPTIONS") (codes "/jobs/whole") plans ≡ Err (BadMethod Post) }
    ensures lower_case { asked_with Chairs (codes "get") (codes "/edition") looks ≡ Err (BadMethod Get) }
    ensures capital { post (codes "/jobs/Whole") plans ≡ Err NoRoute }
    ensures leading_zero { get (codes "/jobs/01") looks ≡ Err NoRoute }
    ensures greatest { get (codes "/jobs/18446744073709551615") looks ≡ Ok (looked (look.Job 18446744073709551615)) }
    ensures too_great { get (codes "/jobs/18446744073709551616") looks ≡ Err NoRoute }
    ensures settings_merged { post (codes "/edit/settings/merge") plans ≡ Err NoRoute }
    ensures source { post (codes "/edit/values-Affinity/merge") plans ≡ Err NoRoute }
    ensures trailing_stroke { get (codes "/edition/") looks ≡ Err NoRoute }
    ensures no_stroke { get (codes "edition") looks ≡ Err NoRoute }
    ensures empty_part { get (codes "/jobs//answer") looks ≡ Err NoRoute }
    ensures query { get (codes "/edition?x=1") looks ≡ Err NoRoute }
    ensures percent { get (codes "/%65dition") looks ≡ Err NoRoute }
    ensures worker { asked_with Chairs (codes "POST") (codes "/worker/take") [] ≡ Err NoRoute }
{}

/// Fields of a caller and of numbers, as they should be and not.
pub fn worked_fields()
    ensures no_chair { get (codes "/edition") [] ≡ Err BadChair }
    ensures chair_twice { get (codes "/edition") (chair (codes "ann") ∷ looks) ≡ Err BadChair }
    ensures comma { get (codes "/edition") (chair (codes "ann,bob") ∷ []) ≡ Err BadChair }
    ensures chair_last { get (codes "/jobs/whole") [] ≡ Err (BadMethod Post) }
    ensures chair_first { post (codes "/publish/7") [] ≡ Err BadChair }
    ensures no_number { post (codes "/publish/7") looks ≡ Err BadNumber }
    ensures number_twice { post (codes "/publish/7") (number (codes "5") ∷ orders) ≡ Err BadNumber }
    ensures number_zero { post (codes "/publish/7") (chair (codes "ann") ∷ number (codes "05") ∷ []) ≡ Err BadNumber }
    ensures no_base { post (codes "/jobs/whole") orders ≡ Err BadBase }
    ensures base_twice { post (codes "/edit/papers/merge") (base (codes "3") ∷ plans) ≡ Err BadBase }
    ensures base_unread { post (codes "/draw/1") (base (codes "x") ∷ orders) ≡ Ok (ordered (Draw 1 (codes "a,b"))) }
{}
