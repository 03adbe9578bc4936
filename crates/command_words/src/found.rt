// Words as `clap` finds them.
ghost use Rattle.std.specs.Prelude.{◌≡◌, true, [], map, unwrap_or, codes, IfOk, IfErr};
ghost use Rattle.std.specs.String.{string_bytes};
ghost use Rattle.clap.specs.Words.{app_of, all_of, rows_of, found_of, kind_of};
ghost use Rattle.clap.specs.declared.error.kind.ErrorKind.TheVariants.{OutOfMemory};
ghost use Rattle.command_words.specs.Hyphens.{are_plain};
ghost use Rattle.command_words.specs.Parsers.{words_app};

use clap::{Arg, ArgAction, ArgMatches, Command, Error};
use std::alloc::{AllocError, Global};

// A parser with one argument, which takes each word that begins with no hyphen.
fn words_parser<'a>(alloc: Global) -> Result<Command<'a>, AllocError>
    ensures { IfOk result (λ parser. app_of parser ≡ words_app) }
{
    let word = Arg::new(alloc, "word").action(ArgAction::Append);
    let parser = Command::new(alloc, "matcher").arg(word)?;
    Ok(parser.no_binary_name(true).disable_help_flag(true))
}

/// What `clap` finds in words of which none begins with a hyphen: all of them, in their order.
pub(crate) fn find_words<'a>(alloc: Global, words: &'a [String]) -> Result<ArgMatches<'a>, Error>
    requires { are_plain (map string_bytes words.now) ≡ true }
    ensures found { IfOk result (λ matches. unwrap_or (all_of (codes "word") (rows_of (found_of matches))) [] ≡ map string_bytes words.now) }
    ensures memory { IfErr result (λ error. kind_of error ≡ OutOfMemory) }
{
    let parser = words_parser(alloc)?;
    parser.try_get_matches_from(words)
}
