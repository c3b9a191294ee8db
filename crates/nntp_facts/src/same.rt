//! Whether answers and the places where they stand are the same.
ghost use Rattle.std.specs.Prelude.{◌≡◌, ◌↔◌, IsTrue};
ghost use Rattle.nntp_wire.specs.Inner.AnswerView.{response};

use nntp_wire::{Answer, Block, GroupName, WaterMarks};

/// Tells whether both are the same name, or none is there.
pub(crate) fn is_same_name(some: &Option<GroupName<'_>>, other: &Option<GroupName<'_>>) -> bool
    ensures { IsTrue result ↔ (some.now ≡ other.now) }
{
    match (some, other) {
        (Some(some), Some(other)) => some.as_slice() == other.as_slice(),
        (None, None) => true,
        _ => false,
    }
}

/// Tells whether both are the same block, or none is there.
fn is_same_block(some: &Option<Block<'_>>, other: &Option<Block<'_>>) -> bool
    ensures { IsTrue result ↔ (some.now ≡ other.now) }
{
    match (some, other) {
        (Some(some), Some(other)) => some.is_same(other),
        (None, None) => true,
        _ => false,
    }
}

/// Tells whether both are the same marks of a group of the same name.
fn is_same_group(
    marks: &WaterMarks,
    name: &GroupName<'_>,
    other_marks: &WaterMarks,
    other_name: &GroupName<'_>,
) -> bool
    ensures { IsTrue result → (marks.now ≡ other_marks.now) × (name.now ≡ other_name.now) }
{
    marks == other_marks && name.as_slice() == other_name.as_slice()
}

/// Tells whether both answers say the same, octet by octet.
pub(crate) fn is_same_answer(some: &Answer<'_>, other: &Answer<'_>) -> bool
    ensures { IsTrue result → response some.now ≡ response other.now }
{
    match (some, other) {
        (Answer::Plain { code }, Answer::Plain { code: other }) => code == other,
        (
            Answer::Group { marks, name },
            Answer::Group {
                marks: other_marks,
                name: other_name,
            },
        ) => is_same_group(marks, name, other_marks, other_name),
        (
            Answer::Numbers { marks, name, block },
            Answer::Numbers {
                marks: other_marks,
                name: other_name,
                block: other_block,
            },
        ) => is_same_group(marks, name, other_marks, other_name) && block.is_same(other_block),
        (
            Answer::Sent {
                code,
                number,
                id,
                block,
            },
            Answer::Sent {
                code: other_code,
                number: other_number,
                id: other_id,
                block: other_block,
            },
        ) => {
            code == other_code
                && number == other_number
                && id.as_slice() == other_id.as_slice()
                && is_same_block(block, other_block)
        }
        (Answer::Active(block), Answer::Active(other)) => block.is_same(other),
        _ => false,
    }
}
