// The fields of a line, which one space separates.
ghost use Rattle.std.specs.Prelude.{◌≡◌, List, [], ◌∷◌, MatchOption};
ghost use Rattle.std.specs.Option.{option_map};
ghost use Rattle.text_lines.specs.Fields.{fields, one_of, two_of, three_of, four_of, five_of, one_or_two_of, two_or_three_of, three_or_four_of};

/// The first field of a line and all behind it, where there is more than one.
pub fn first_field(line: &str) -> Option<(&str, &str)>
    ensures { MatchOption result (fields line.now ≡ line.now ∷ []) (λ parts. fields line.now ≡ parts.0.now ∷ fields parts.1.now) }
{
    line.split_once(' ')
}

/// The line itself, where it has just one field.
pub fn one_field(line: &str) -> Option<&str>
    ensures { option_map (λ part. part.now) result ≡ one_of (fields line.now) }
{
    match first_field(line) {
        Some(_) => None,
        None => Some(line),
    }
}

/// The two fields of a line, where it has just two.
pub fn two_fields(line: &str) -> Option<(&str, &str)>
    ensures { option_map (λ parts. (parts.0.now, parts.1.now)) result ≡ two_of (fields line.now) }
{
    let (first, rest) = first_field(line)?;
    let second = one_field(rest)?;
    Some((first, second))
}

/// The five fields of a line, where it has just five.
pub fn five_fields(line: &str) -> Option<(&str, &str, &str, &str, &str)>
    ensures { option_map (λ parts. (parts.0.now, parts.1.now, parts.2.now, parts.3.now, parts.4.now)) result ≡ five_of (fields line.now) }
{
    let (first, rest) = first_field(line)?;
    let (second, rest) = first_field(rest)?;
    let (third, rest) = first_field(rest)?;
    let (fourth, fifth) = two_fields(rest)?;
    Some((first, second, third, fourth, fifth))
}

// One field, or two.
#[tactic(auto, using(crate::proofs::FieldLaws::one_or_two_of_more, crate::proofs::FieldLaws::fields_some))]
fn one_or_two_fields(line: &str) -> Option<(&str, Option<&str>)>
    ensures { option_map (λ parts. (parts.0.now, option_map (λ part. part.now) parts.1)) result ≡ one_or_two_of (fields line.now) }
{
    match first_field(line) {
        None => Some((line, None)),
        Some((first, rest)) => {
            let second = one_field(rest)?;
            Some((first, Some(second)))
        }
    }
}

/// The three fields of a line and maybe a fourth, where it has just so many.
pub fn three_or_four_fields(line: &str) -> Option<(&str, &str, &str, Option<&str>)>
    ensures { option_map (λ parts. (parts.0.now, parts.1.now, parts.2.now, option_map (λ part. part.now) parts.3)) result ≡ three_or_four_of (fields line.now) }
{
    let (first, rest) = first_field(line)?;
    let (second, rest) = first_field(rest)?;
    let (third, fourth) = one_or_two_fields(rest)?;
    Some((first, second, third, fourth))
}
