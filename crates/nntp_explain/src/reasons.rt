//! Why an answer is bad, as `explain` prints it. `here` is the number of its session.
ghost use Rattle.std.specs.Prelude.{◌≡◌, ◌++◌, OnOk, codes, decimal};
ghost use Rattle.std.specs.List.{flat_map};
ghost use Rattle.nntp_wire.specs.Lines.{lines_of_stream};
ghost use Rattle.nntp_article.specs.Session.Misfit as misfits;
ghost use Rattle.nntp_article.specs.Inner.MisfitView.{why};
ghost use Rattle.nntp_facts.specs.Inner.PointView.{point_of};
ghost use Rattle.nntp_theory.specs.Conflict as points;
ghost use Rattle.nntp_printing.specs.Printing.{escaped};
ghost use Rattle.nntp_explain.specs.Reasons.{about_line, octets_line, current_text, standing_line, allowed_text, misfit_line, misspelling_line, cut_line};
ghost use Rattle.nntp_explain.specs.Reasons.{closing_lines, field_text, surplus_lines};
ghost use Rattle.nntp_explain.specs.Reasons.{due_word, fault_word, number_line, rest_line, answer_at, answer_text, because_at, because_lines};

use nntp_article::{Field, Misfit};
use nntp_facts::{Placed, Point, Position, Standing};
use nntp_printing::{put_command, put_escaped, put_escaped_line, put_number, shown, shown_line};
use nntp_wire::{Due, LineFault, Misspelling, split_first_line};
use std::alloc::{AllocError, Allocator};

/// Adds the line that tells where the session stands.
pub(crate) fn put_standing<A: Allocator + Copy>(
    text: &mut Vec<u8, A>,
    standing: &Standing<'_>,
) -> Result<(), AllocError>
    ensures { OnOk result (text.new.items ≡ text.old.items ++ standing_line standing.now) }
{
    let Some(name) = &standing.selected else {
        return text.extend_from_slice(b"in no group\n");
    };
    put_named(text, b"in ", name.as_slice())?;
    put_number(text, b" since ", standing.selected_by)?;
    put_current(text, standing.position, standing.moved_by)
}

/// Adds the current article, and the answer that made it so, at the end of the line.
fn put_current<A: Allocator + Copy>(
    text: &mut Vec<u8, A>,
    position: Position,
    moved_by: u64,
) -> Result<(), AllocError>
    ensures { OnOk result (text.new.items ≡ text.old.items ++ codes " at " ++ current_text position moved_by ++ codes "\n") }
{
    match position {
        Position::Nowhere | Position::First => text.extend_from_slice(b" at first\n"),
        Position::Known(number) => {
            put_number(text, b" at ", number)?;
            put_number_line(text, b" since ", moved_by)
        }
    }
}

/// Adds the line of a reason why an answer doesn't fit.
pub(crate) fn put_misfit<A: Allocator + Copy>(
    text: &mut Vec<u8, A>,
    misfit: Misfit<'_>,
) -> Result<(), AllocError>
    ensures { OnOk result (text.new.items ≡ text.old.items ++ misfit_line (why misfit.entry)) }
{
    match misfit {
        Misfit::WrongCode { code, allowed } => put_wrong_code(text, code, allowed),
        Misfit::WrongName(name) => put_escaped_line(text, b"why name ", name),
        Misfit::WrongNumber(number) => put_number_line(text, b"why number ", number),
        Misfit::WrongId(id) => put_escaped_line(text, b"why id ", id),
        Misfit::BelowLow(low) => put_number_line(text, b"why low ", low),
        Misfit::WrongMarks(name) => put_escaped_line(text, b"why marks ", name),
        Misfit::BeyondLimit(number) => put_number_line(text, b"why limit ", number),
        Misfit::NotAbove { before, number } => put_not_above(text, before, number),
        Misfit::BeyondRange(number) => put_number_line(text, b"why range ", number),
        Misfit::Unmatched(name) => put_escaped_line(text, b"why match ", name),
        Misfit::ListedTwice(word) => put_escaped_line(text, b"why twice ", word),
        Misfit::WrongLines => text.extend_from_slice(b"why lines\n"),
        Misfit::NoHead => text.extend_from_slice(b"why head\n"),
        Misfit::OtherId(said) => put_escaped_line(text, b"why own ", said),
    }
}

/// Adds the line of a code that doesn't fit, and of the codes that do.
fn put_wrong_code<A: Allocator + Copy>(
    text: &mut Vec<u8, A>,
    code: u64,
    allowed: &[u64],
) -> Result<(), AllocError>
    ensures { OnOk result (text.new.items ≡ text.old.items ++ misfit_line (misfits.wrong_code code allowed.now)) }
{
    put_number(text, b"why code ", code)?;
    put_allowed(text, allowed)?;
    text.extend_from_slice(b"\n")
}

/// Adds the line of a number that isn't above the one before it.
fn put_not_above<A: Allocator + Copy>(
    text: &mut Vec<u8, A>,
    before: u64,
    number: u64,
) -> Result<(), AllocError>
    ensures { OnOk result (text.new.items ≡ text.old.items ++ misfit_line (misfits.not_above before number)) }
{
    put_number(text, b"why order ", before)?;
    put_number_line(text, b" ", number)
}

/// Adds the line of a reason why a frame spells nothing.
pub(crate) fn put_misspelling<A: Allocator + Copy>(
    text: &mut Vec<u8, A>,
    misspelling: Misspelling,
) -> Result<(), AllocError>
    ensures { OnOk result (text.new.items ≡ text.old.items ++ misspelling_line misspelling) }
{
    match misspelling {
        Misspelling::WrongOctet => text.extend_from_slice(b"why octet\n"),
        Misspelling::TooLong(length) => put_number_line(text, b"why length ", length as u64),
        Misspelling::NoCode => text.extend_from_slice(b"why code\n"),
        Misspelling::WrongArgument { place, due } => put_place_line(
            text,
            b"why argument ",
            place,
            due_end(due),
        ),
        Misspelling::WrongLine { place, fault } => put_place_line(
            text,
            b"why block line ",
            place,
            fault_end(fault),
        ),
        Misspelling::WrongBlock => text.extend_from_slice(b"why block\n"),
    }
}

/// Adds the line that tells what is missing of a response of which these octets came.
pub(crate) fn put_cut<A: Allocator + Copy>(
    text: &mut Vec<u8, A>,
    octets: &[u8],
) -> Result<(), AllocError>
    ensures { OnOk result (text.new.items ≡ text.old.items ++ cut_line (lines_of_stream octets.now)) }
{
    match split_first_line(octets) {
        Some(_) => text.extend_from_slice(b"why block\n"),
        None => text.extend_from_slice(b"why line\n"),
    }
}

/// Adds the lines that tell which answer of the session closed the connection, if one did, or else that no line is left to
/// be answered.
pub(crate) fn put_surplus<A: Allocator + Copy>(
    text: &mut Vec<u8, A>,
    here: u64,
    answers: &[Placed<'_>],
) -> Result<(), AllocError>
    ensures { OnOk result (text.new.items ≡ text.old.items ++ surplus_lines here answers.now) }
{
    match answers.last() {
        Some(answer) => put_closing(text, here, answer),
        None => text.extend_from_slice(b"why no command\n"),
    }
}

/// Adds that the answer closed the connection, if it did, or else that no line is left to be answered.
fn put_closing<A: Allocator + Copy>(
    text: &mut Vec<u8, A>,
    here: u64,
    answer: &Placed<'_>,
) -> Result<(), AllocError>
    ensures { OnOk result (text.new.items ≡ text.old.items ++ closing_lines here answer.now) }
{
    if answer.exchange.closes() {
        text.extend_from_slice(b"why closed\n")?;
        put_because(text, here, answer)
    } else {
        text.extend_from_slice(b"why no command\n")
    }
}

/// The end of the line of an argument, with the word for what is due.
fn due_end(due: Due) -> &'static [u8]
    ensures { result.now ≡ codes " " ++ due_word due ++ codes "\n" }
{
    match due {
        Due::Number => b" number\n",
        Due::GroupName => b" group\n",
        Due::MessageId => b" id\n",
    }
}

/// The end of the line of a line of a block, with the word for what is wrong with that.
fn fault_end(fault: LineFault) -> &'static [u8]
    ensures { result.now ≡ codes " " ++ fault_word fault ++ codes "\n" }
{
    match fault {
        LineFault::BadOctet => b" octet\n",
        LineFault::SingleDot => b" dot\n",
        LineFault::NoNumber | LineFault::NoArticleNumber | LineFault::NoListedNumber => {
            b" number\n"
        }
        LineFault::NoGroup => b" group\n",
        LineFault::NoMessageId | LineFault::NoListedId => b" id\n",
        LineFault::NoVersions => b" versions\n",
    }
}

/// Adds a line of a label, a place and its end.
fn put_place_line<A: Allocator + Copy>(
    text: &mut Vec<u8, A>,
    label: &[u8],
    place: usize,
    end: &[u8],
) -> Result<(), AllocError>
    ensures { OnOk result (text.new.items ≡ text.old.items ++ label.now ++ decimal place ++ end.now) }
{
    put_number(text, label, place as u64)?;
    text.extend_from_slice(end)
}

/// Adds a line of a label and a number.
pub(crate) fn put_number_line<A: Allocator + Copy>(
    text: &mut Vec<u8, A>,
    label: &[u8],
    number: u64,
) -> Result<(), AllocError>
    ensures { OnOk result (text.new.items ≡ text.old.items ++ number_line label.now number) }
{
    put_number(text, label, number)?;
    text.extend_from_slice(b"\n")
}

/// Adds the codes that fit, if any do.
fn put_allowed<A: Allocator + Copy>(
    text: &mut Vec<u8, A>,
    allowed: &[u64],
) -> Result<(), AllocError>
    ensures { OnOk result (text.new.items ≡ text.old.items ++ allowed_text allowed.now) }
{
    if allowed.is_empty() {
        return Ok(());
    }
    text.extend_from_slice(b" allowed")?;
    put_codes(text, allowed)
}

/// Adds codes, each behind a space.
fn put_codes<A: Allocator + Copy>(text: &mut Vec<u8, A>, found: &[u64]) -> Result<(), AllocError>
    ensures { OnOk result (text.new.items ≡ text.old.items ++ flat_map (λ code. codes " " ++ decimal code) found.now) }
{
    for code in found {
        put_number(text, b" ", *code)?;
    }
    Ok(())
}

/// Adds the line of what a bad answer and accepted ones conflict about.
pub(crate) fn put_about<A: Allocator + Copy>(
    text: &mut Vec<u8, A>,
    point: &Point<'_>,
) -> Result<(), AllocError>
    ensures { OnOk result (text.new.items ≡ text.old.items ++ about_line (point_of point.now)) }
{
    match point {
        Point::Step(name) => put_escaped_line(text, b"about step ", *name),
        Point::Group(name) => put_escaped_line(text, b"about group ", name.as_slice()),
        Point::Number { name, number } => {
            put_named_number(text, b"about number ", *name, *number)
        }
        Point::Count(name) => put_escaped_line(text, b"about count ", *name),
        Point::First(name) => put_escaped_line(text, b"about first ", *name),
        Point::IdOf { name, number } => put_named_number(text, b"about id ", *name, *number),
        Point::PlaceOf { name, id } => put_named_id(text, b"about place ", *name, *id),
        Point::Article(id) => put_escaped_line(text, b"about article ", *id),
        Point::HeadOf(id) => put_escaped_line(text, b"about head ", *id),
        Point::BodyOf(id) => put_escaped_line(text, b"about body ", *id),
        Point::FieldOf { id, field } => put_field_line(text, *id, *field),
    }
}

/// Adds the line of a header that answers conflict about.
fn put_field_line<A: Allocator + Copy>(
    text: &mut Vec<u8, A>,
    id: &[u8],
    field: Field,
) -> Result<(), AllocError>
    ensures { OnOk result (text.new.items ≡ text.old.items ++ about_line (points.FieldOf id.now field)) }
{
    put_field_name(text, b"about field ", id, field)?;
    text.extend_from_slice(b"\n")
}

/// Adds a label, and which header of which article it is.
pub(crate) fn put_field_name<A: Allocator + Copy>(
    text: &mut Vec<u8, A>,
    label: &[u8],
    id: &[u8],
    field: Field,
) -> Result<(), AllocError>
    ensures { OnOk result (text.new.items ≡ text.old.items ++ (label.now ++ field_text id.now field)) }
{
    put_named(text, label, id)?;
    text.push(b' ')?;
    text.extend_from_slice(field.name().as_bytes())
}

/// Adds a line of a label, a name and a number.
fn put_named_number<A: Allocator + Copy>(
    text: &mut Vec<u8, A>,
    label: &[u8],
    name: &[u8],
    number: u64,
) -> Result<(), AllocError>
    ensures { OnOk result (text.new.items ≡ text.old.items ++ (label.now ++ escaped name.now ++ number_line (codes " ") number)) }
{
    put_named(text, label, name)?;
    put_number_line(text, b" ", number)
}

/// Adds a line of a label, a name and a message-id.
fn put_named_id<A: Allocator + Copy>(
    text: &mut Vec<u8, A>,
    label: &[u8],
    name: &[u8],
    id: &[u8],
) -> Result<(), AllocError>
    ensures { OnOk result (text.new.items ≡ text.old.items ++ (label.now ++ escaped name.now ++ octets_line (codes " ") id.now)) }
{
    put_named(text, label, name)?;
    put_escaped_line(text, b" ", id)
}

/// Adds a label and a name.
fn put_named<A: Allocator + Copy>(
    text: &mut Vec<u8, A>,
    label: &[u8],
    name: &[u8],
) -> Result<(), AllocError>
    ensures { OnOk result (text.new.items ≡ text.old.items ++ (label.now ++ escaped name.now)) }
{
    text.extend_from_slice(label)?;
    put_escaped(text, name)
}

/// Adds the line of the answers below a bound, where further reasons are among them.
pub(crate) fn put_rest<A: Allocator + Copy>(
    text: &mut Vec<u8, A>,
    here: u64,
    answers: &[Placed<'_>],
    rest: Option<usize>,
) -> Result<(), AllocError>
    ensures { OnOk result (text.new.items ≡ text.old.items ++ rest_line here answers.now rest) }
{
    let Some(bound) = rest else {
        return Ok(());
    };
    put_answer_at(text, b"because some of ", here, answers, 0)?;
    put_answer_at(text, b" to ", here, answers, bound.saturating_sub(1))?;
    text.extend_from_slice(b"\n")
}

/// Adds a label, and which answer it is that stands at a place, if one is there.
fn put_answer_at<A: Allocator + Copy>(
    text: &mut Vec<u8, A>,
    label: &[u8],
    here: u64,
    answers: &[Placed<'_>],
    place: usize,
) -> Result<(), AllocError>
    ensures { OnOk result (text.new.items ≡ text.old.items ++ label.now ++ answer_at here answers.now place) }
{
    match answers.get(place) {
        Some(answer) => put_answer(text, label, here, answer),
        None => text.extend_from_slice(label),
    }
}

/// Adds a label, and which answer it is: its index, and the number of its session where that isn't `here`.
fn put_answer<A: Allocator + Copy>(
    text: &mut Vec<u8, A>,
    label: &[u8],
    here: u64,
    answer: &Placed<'_>,
) -> Result<(), AllocError>
    ensures { OnOk result (text.new.items ≡ text.old.items ++ label.now ++ answer_text here answer.now) }
{
    put_number(text, label, answer.exchange.index())?;
    if answer.session == here {
        return Ok(());
    }
    put_number(text, b" of session ", answer.session)
}

/// Adds the answer at a place, if one is there.
pub(crate) fn put_because_at<A: Allocator + Copy>(
    text: &mut Vec<u8, A>,
    here: u64,
    answers: &[Placed<'_>],
    place: usize,
) -> Result<(), AllocError>
    ensures { OnOk result (text.new.items ≡ text.old.items ++ because_at here answers.now place) }
{
    match answers.get(place) {
        Some(answer) => put_because(text, here, answer),
        None => Ok(()),
    }
}

/// Adds an answer that is a reason, and where its session stands there.
fn put_because<A: Allocator + Copy>(
    text: &mut Vec<u8, A>,
    here: u64,
    answer: &Placed<'_>,
) -> Result<(), AllocError>
    ensures { OnOk result (text.new.items ≡ text.old.items ++ because_lines here answer.now) }
{
    put_answer(text, b"because answer ", here, answer)?;
    text.push(b'\n')?;
    put_command(text, shown_line(answer.exchange.line()))?;
    put_escaped_line(text, b"answer ", shown(answer.exchange.initial()))?;
    put_standing(text, &answer.standing)
}
