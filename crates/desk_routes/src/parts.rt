// The parts of a target, which strokes separate.

ghost use Rattle.std.specs.Prelude.{◌≡◌, [], ◌∷◌, MatchOption};
ghost use Rattle.desk_routes.specs.Targets.{parts_of};

// The part up to the first stroke and all behind it, where there is a stroke.
pub(crate) fn first_part(text: &str) -> Option<(&str, &str)>
    ensures { MatchOption result (parts_of text.now ≡ text.now ∷ []) (λ parts. parts_of text.now ≡ parts.0.now ∷ parts_of parts.1.now) }
{
    text.split_once('/')
}
