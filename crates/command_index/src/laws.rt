// Laws of indexes.

ghost use Rattle.std.specs.Prelude.{◌≡◌, ◌==◌, ◌&&◌, [], ◌∷◌, ℕ, List, None, Option, Some, bytes_eq, if◌then◌else◌, length};
ghost use Rattle.publication.specs.declared.certificate.Certificate.{Certificate};
ghost use Rattle.desk_keeper.specs.declared.words.Command.{Command};
ghost use Rattle.desk_history.specs.declared.entries.Done.{Done};
ghost use Rattle.desk_history.specs.declared.entries.Entry.TheVariants.{Accepted, Ended, Released, Took};
ghost use Rattle.desk_history.specs.declared.requests.Work.{Work};
ghost use Rattle.desk_history.specs.Histories.{History, commands, kept};
ghost use Rattle.command_index.specs.declared.index.CommandPlace.{CommandPlace};
ghost use Rattle.command_index.specs.Places.{IsIndexOf, place_in};

/// What follows from the definition: with one command more, whose number is new, its place is added; an entry that is no command leaves
/// the index; and what was added for a command that isn't kept can be taken out again.
pub fn index_laws()
    ensures empty { (index : List ℕ → ℕ → Option CommandPlace) → ((caller : List ℕ) (number : ℕ) → index caller number ≡ None) → IsIndexOf [] index }
    ensures accepted { (H : History) (old new : List ℕ → ℕ → Option CommandPlace) (caller : List ℕ) (number : ℕ) (command : Command) (reply : Done) (read : Option Certificate) → IsIndexOf H old → ((by : List ℕ) (its : ℕ) → new by its ≡ (if bytes_eq caller by && number == its then Some (record { entry = length H; command = commands H }) else old by its)) → IsIndexOf (Accepted caller number command reply read ∷ H) new }
    ensures took { (H : History) (index : List ℕ → ℕ → Option CommandPlace) (bench job : ℕ) → IsIndexOf H index → IsIndexOf (Took bench job ∷ H) index }
    ensures ended { (H : History) (index : List ℕ → ℕ → Option CommandPlace) (bench : ℕ) (done : Work) → IsIndexOf H index → IsIndexOf (Ended bench done ∷ H) index }
    ensures released { (H : History) (index : List ℕ → ℕ → Option CommandPlace) (bench : ℕ) → IsIndexOf H index → IsIndexOf (Released bench ∷ H) index }
    ensures withdrawn { (H : History) (old added new : List ℕ → ℕ → Option CommandPlace) (caller : List ℕ) (number : ℕ) (place : CommandPlace) → kept H caller number ≡ None → IsIndexOf H old → ((by : List ℕ) (its : ℕ) → added by its ≡ (if bytes_eq caller by && number == its then Some place else old by its)) → ((by : List ℕ) (its : ℕ) → new by its ≡ (if bytes_eq caller by && number == its then None else added by its)) → IsIndexOf H new }
{}
