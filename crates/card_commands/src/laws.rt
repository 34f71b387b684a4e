//! Laws of the top call, for all that it may find outside. Their functions do nothing; their clauses are what holds.
ghost use Rattle.std.specs.Prelude.{[], ◌∷◌, Some};
ghost use Rattle.card_commands.specs.Statuses.{IsOneOf, status_of};
ghost use Rattle.card_commands.specs.Outside.{HandledAllLines, HandledFirstLines, HandledFirstLinesInPart};
ghost use Rattle.card_commands.specs.World.{Comes, IsCalm, World};

use crate::ended::Ended;
use card_desk::laws::load_of_rows;
use card_words::Command;

/// Where nothing outside fails, the kept rows are sound and the input isn't too long, a command ends in 0 or 1, or for want
/// of memory.
pub fn completeness<I, K, D>()
    ensures { (old new : World I K D) (c : Command) (e : Ended) → Comes old new (Some c) e → IsCalm old new c → IsOneOf (status_of e) (0 ∷ 1 ∷ 6 ∷ []) }
{
    load_of_rows();
}

/// Where the bytes of the input are visible, a run that read it to its end handled all of its lines, and one that was ended
/// early handled its first.
pub fn told_input<I, K>()
    ensures all { HandledAllLines I K }
    ensures first { HandledFirstLines I K }
    ensures front { HandledFirstLinesInPart I K }
{}
