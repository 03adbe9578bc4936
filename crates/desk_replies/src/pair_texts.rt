// The pairs of a ticket as text.

ghost use Rattle.std.specs.Prelude.{◌≡◌, ◌++◌, IfOk, OnOk};
ghost use Rattle.text_lines.specs.Texts.{line_of};
ghost use Rattle.desk_replies.specs.Accepted.{pair_line, pairs_text};

use desk_history::PairIds;
use std::alloc::{AllocError, Global};

fn push_pair(text: &mut Vec<u8>, pair: &PairIds) -> Result<(), AllocError>
    ensures { OnOk result (text.new.items ≡ text.old.items ++ line_of (pair_line pair.now)) }
{
    text.extend_from_slice(pair.paper.text().as_bytes())?;
    text.extend_from_slice(b",")?;
    text.extend_from_slice(pair.reviewer.text().as_bytes())?;
    text.extend_from_slice(b"\n")
}

/// A header, and a line for each pair.
pub fn pairs_text(alloc: Global, pairs: &[PairIds]) -> Result<Vec<u8>, AllocError>
    ensures { IfOk result (λ text. text.items ≡ pairs_text pairs.now) }
{
    let mut text = Vec::from_slice(alloc, b"paper,reviewer\n")?;
    for pair in pairs {
        push_pair(&mut text, pair)?;
    }
    Ok(text)
}
