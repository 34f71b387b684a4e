// What is said where what is asked for isn't there.
ghost use Rattle.std.specs.Prelude.{◌≡◌};
ghost use Rattle.card_text.specs.Absent as spec;

/// The line `none`, with its line feed: the account or the statement that is asked for isn't there.
#[tactic(auto, unfolding(crate::specs::Absent::none_line))]
pub fn none_line() -> &'static str
    ensures { result.now ≡ spec.none_line }
{
    "none\n"
}
