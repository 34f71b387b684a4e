// Lines as items.
ghost use Rattle.std.specs.Prelude.{◌≡◌};
ghost use Rattle.card_lines.specs.Lines.{IsDatedLine};
ghost use Rattle.card_text.specs.Items.{IsDatedItem};
ghost use Rattle.card_commands.specs.Items as spec;

use card_lines::Line;
use card_text::Item;

/// The item of a line that has this number.
pub fn item_of(number: u64, line: Line) -> Item
    requires dated { IsDatedLine line }
    ensures item { result ≡ spec.item_of number line }
    ensures dated { IsDatedItem result }
{
    match line {
        Line::Request(request) => Item::Request(request),
        Line::Show(account) => Item::Show(account),
        Line::Bad(field) => Item::Bad { number, field },
    }
}
