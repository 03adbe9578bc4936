// The text that shows which words are taken.
ghost use Rattle.std.specs.Prelude.{◌≡◌};
ghost use Rattle.command_words.specs.Usage.{usage_text};

/// The usage text: a line for each form of the words.
#[tactic(auto, unfolding(crate::specs::Usage::usage_text))]
pub fn usage() -> &'static [u8]
    ensures { result.now ≡ usage_text }
{
    b"usage: matcher check\n       matcher rules\n       matcher solve whole|fair\n       matcher session CHAIR...\n       matcher report shares|loads|papers|institutions\n       matcher report ticket NUMBER\n       matcher make SEED SIZE\n"
}
