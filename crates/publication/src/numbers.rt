// A line of canonical numbers, read in one pass.
ghost use Rattle.std.specs.Prelude.{◌≡◌, ◌≤◌, [], IfOk, IfSome};
ghost use Rattle.std.specs.Option.{option_map};
ghost use Rattle.publication.specs.Scans.{numbers_of, with_digit, scan, fresh};
ghost use Rattle.text_lines.specs.Fields.{fields};

use std::alloc::{AllocError, Global};

const MOST_NUMBER: u64 = 4_294_967_295;

/// The digits of a field so far: their number, at most 4,294,967,295.
#[derive(Clone, Copy)]
struct Digits {
    number: u64,
    empty: bool,
}

impl Digits {
    // The field with one more byte, where that may follow: a digit, and none behind a zero in front.
    #[tactic(auto, unfolding(crate::specs::Scans::with_digit))]
    fn with_digit(self, byte: u8) -> Option<Digits>
        requires { self.number ≤ 4294967295 }
        ensures next { result ≡ with_digit self byte }
        ensures held { IfSome result (λ next. next.number ≤ 4294967295) }
    {
        if !byte.is_ascii_digit() {
            return None;
        }
        if !self.empty && self.number == 0 {
            return None;
        }
        let number = self.number * 10 + u64::from(byte - b'0');
        Some(Digits {
            number: number.min(MOST_NUMBER),
            empty: false,
        })
    }
}

fn spaces_in(line: &[u8]) -> usize {
    line.iter().filter(|byte| **byte == b' ').count()
}

// The numbers of the fields of a line, each at most 4,294,967,295; None where one isn't canonical.
fn scanned(alloc: Global, line: &[u8]) -> Result<Option<Vec<u32>>, AllocError>
    ensures { IfOk result (λ found. option_map (λ numbers. numbers.items) found ≡ scan [] fresh line.now) }
{
    let mut numbers = Vec::with_capacity(alloc, spaces_in(line).saturating_add(1))?;
    let mut field = Digits {
        number: 0,
        empty: true,
    };
    for byte in line {
        if *byte == b' ' {
            if field.empty {
                return Ok(None);
            }
            numbers.push(field.number as u32)?;
            field = Digits {
                number: 0,
                empty: true,
            };
        } else {
            match field.with_digit(*byte) {
                Some(next) => field = next,
                None => return Ok(None),
            }
        }
    }
    if field.empty {
        return Ok(None);
    }
    numbers.push(field.number as u32)?;
    Ok(Some(numbers))
}

/// The numbers of the fields of a line, each at most 4,294,967,295; None where one isn't canonical.
pub fn numbers_in(alloc: Global, line: &[u8]) -> Result<Option<Vec<u32>>, AllocError>
    ensures { IfOk result (λ found. option_map (λ numbers. numbers.items) found ≡ numbers_of (fields line.now)) }
{
    scanned(alloc, line)
}
