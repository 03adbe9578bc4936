//! What names may name.

ghost use Rattle.std.specs.Prelude.{◌≡◌, true};
ghost use Rattle.desk_keeper.specs.Names.{is_chair_name};

use desk_keeper::{Bytes, Command, Name, Named, encode, is_chair_name, is_source_name};
use std::alloc::{AllocError, Global};
use std::str;

// The row by which a chair draws publication 1 with its own name, as its command number 0.
fn draw_row(alloc: Global, name: &str) -> Result<Vec<u8>, AllocError>
    requires { is_chair_name name.now ≡ true }
{
    let caller = Name::from_string(String::from_str(alloc, name)?);
    let text = Bytes::from_vec(Vec::from_slice(alloc, name.as_bytes())?);
    let command = Command::Draw {
        publication: 1,
        text,
    };
    let named = Named {
        caller,
        number: 0,
        command,
    };
    encode(alloc, &named, &[])
}

/// Says what a name may name, and the row of a chair's draw.
pub(crate) fn show_name(rt: &HostRuntime, name: &str) -> anyhow::Result<()> {
    println!(rt; "name {name} source {}", is_source_name(name))?;
    if is_chair_name(name) {
        let row = draw_row(rt.alloc(), name)?;
        println!(rt; "chair {}", str::from_utf8(row.as_slice())?)?;
    }
    Ok(())
}
