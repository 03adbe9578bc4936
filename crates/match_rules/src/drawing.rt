// The piece on which a ticket falls.

ghost use Rattle.std.specs.Prelude.{◌≡◌, ◌+◌, ◌<◌, ◌≤◌, ◌↔◌, ◌∷◌, [], None, Some, IfSome, IsNone, length, take};
ghost use Rattle.match_rules.specs.Assignments.{tickets};
ghost use Rattle.match_rules.specs.Drawing.{piece_of};

use crate::lottery::Lottery;

/// The place of the piece that a ticket draws. Tickets are numbered from 0; the first piece has as many as its weight, the
/// next ones go to the second piece, and so on. `None` where the lottery has no such ticket. Takes no memory.
pub fn piece_of(lottery: &Lottery, ticket: u32) -> Option<u32>
    ensures exact { result ≡ piece_of lottery.now ticket }
    ensures place { IfSome result (λ place. place < length lottery.now) }
    ensures before { IfSome result (λ place. tickets (take place lottery.now) ≤ ticket) }
    ensures within { IfSome result (λ place. ticket < tickets (take (place + 1) lottery.now)) }
    ensures none { IsNone result ↔ (tickets lottery.now ≤ ticket) }
{
    let mut left = ticket;
    for (place, piece) in lottery.pieces().iter().enumerate() {
        if left < piece.weight {
            return Some(place as u32);
        }
        left -= piece.weight;
    }
    None
}

/// Worked examples of tickets that fall on pieces of 7,000 and 3,000 tickets, computed over the definition.
pub fn worked_draws()
    ensures first { piece_of (record { weight = 7000; pairs = 0 ∷ 3 ∷ [] } ∷ record { weight = 3000; pairs = 1 ∷ 2 ∷ [] } ∷ []) 6999 ≡ Some 0 }
    ensures second { piece_of (record { weight = 7000; pairs = 0 ∷ 3 ∷ [] } ∷ record { weight = 3000; pairs = 1 ∷ 2 ∷ [] } ∷ []) 7000 ≡ Some 1 }
    ensures last { piece_of (record { weight = 7000; pairs = 0 ∷ 3 ∷ [] } ∷ record { weight = 3000; pairs = 1 ∷ 2 ∷ [] } ∷ []) 9999 ≡ Some 1 }
    ensures none { piece_of (record { weight = 7000; pairs = 0 ∷ 3 ∷ [] } ∷ record { weight = 3000; pairs = 1 ∷ 2 ∷ [] } ∷ []) 10000 ≡ None }
{}
