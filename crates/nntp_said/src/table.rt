//! What each kind of answer says of the spool (RFC 3977, sections 6 and 7.6.3).
ghost use Rattle.std.specs.{Prelude.{◌≡◌, [], ◌∷◌, option_map}, Option.{option_map_or}};
ghost use Rattle.nntp_wire.specs.{declared.marks.Marks.{Marks}, Inner.{View.{asked, overview_value, overviewed, request, target}, AnswerView.{response}}};
ghost use Rattle.nntp_wire.specs.{Command.{over, retrieve}, Listing.{listed_numbers, overviews_of}};
ghost use Rattle.nntp_article.specs.Session.Machine.{Visible, only};
ghost use Rattle.nntp_said.specs.{Asks.{Estimates, ListsIn}, Facts.{Asks, IdAt, TextIs, ThereIs, here, facts_of, facts_of_code, facts_of_overview}};
ghost use Rattle.nntp_said.specs.{Facts.{facts_of_overviews, facts_of_place}, Inner.FactView.{ask_of, fact_of, numbers_listed}};

use crate::fact::{Ask, Fact, NumberLines};
use crate::position::Position;
use crate::said_facts::SaidFacts;
use nntp_wire::{
    Answer, Block, Command, GroupName, Marks, OverviewKeyword, OverviewLine, Prompt, Range,
    WaterMarks, What, Which, WhichArticles,
};

/// Returns what an answer says where marks are read so, this group is selected, and the session
/// stands at the position.
pub fn facts_of<'s>(
    how: Marks,
    selected: &'s [u8],
    at: Position,
    prompt: &'s Prompt<'s>,
    answer: &'s Answer<'s>,
) -> SaidFacts<'s>
    ensures { (v : Visible) → selected.now ≡ here v → result ≡ facts_of how v at (asked prompt.now) (response answer.now) }
{
    match (prompt, answer) {
        (Prompt::To(command), Answer::Plain { code }) => {
            facts_of_code(selected, at, command, *code)
        }
        (Prompt::To(Command::Group(_)), Answer::Group { marks, name }) => {
            facts_of_group(how, *marks, name)
        }
        (Prompt::To(Command::ListGroup { range, .. }), Answer::Numbers { marks, name, block }) => {
            facts_of_numbers(how, *marks, name, *range, block)
        }
        (Prompt::To(Command::Next), Answer::Sent { number, id, .. }) => {
            facts_of_step(selected, Ask::StepsUp(at, *number), *number, id.as_str())
        }
        (Prompt::To(Command::Last), Answer::Sent { number, id, .. }) => {
            facts_of_step(selected, Ask::StepsDown(at, *number), *number, id.as_str())
        }
        (
            Prompt::To(Command::Retrieve { what, which }),
            Answer::Sent {
                code: _,
                number,
                id,
                block,
            },
        ) => facts_of_article(
            selected,
            at,
            *what,
            which,
            *number,
            id.as_str(),
            block.as_ref(),
        ),
        (Prompt::To(Command::ListActive(wildmat)), Answer::Active(block)) => {
            SaidFacts::one(Fact::GroupsAre { wildmat, block })
        }
        (Prompt::To(Command::Over { which, .. }), Answer::Overviews(block)) => {
            facts_of_overviews(selected, at, which, block)
        }
        _ => SaidFacts::none(),
    }
}

/// Returns what a success of GROUP says.
fn facts_of_group<'s>(how: Marks, marks: WaterMarks, name: &'s GroupName<'s>) -> SaidFacts<'s>
    ensures { result ≡ ThereIs name.now ∷ Asks name.now (Estimates how marks) ∷ [] }
{
    SaidFacts::two(Fact::ThereIs(name), of_marks(how, name, marks))
}

/// Returns what a success of LISTGROUP says.
fn facts_of_numbers<'s>(
    how: Marks,
    marks: WaterMarks,
    name: &'s GroupName<'s>,
    range: Range,
    block: &'s Block<'s>,
) -> SaidFacts<'s>
    ensures { result ≡ ThereIs name.now ∷ Asks name.now (Estimates how marks) ∷ Asks name.now (ListsIn range (listed_numbers block.now)) ∷ [] }
{
    SaidFacts::three(
        Fact::ThereIs(name),
        of_marks(how, name, marks),
        Fact::Asks(
            name.as_slice(),
            Ask::Lists {
                range,
                lines: NumberLines::Numbers(block),
            },
        ),
    )
}

/// Returns what a success of NEXT or LAST says, which asks this of the numbers of the selected group.
fn facts_of_step<'s>(selected: &'s [u8], ask: Ask<'s>, number: u64, id: &'s str) -> SaidFacts<'s>
    ensures { result ≡ Asks selected.now (ask_of ask.entry) ∷ IdAt selected.now number id.now ∷ [] }
{
    SaidFacts::two(Fact::Asks(selected, ask), Fact::IdAt(selected, number, id))
}

/// Returns what the estimate and the water marks of a group say, where they are read so.
fn of_marks<'s>(how: Marks, name: &'s GroupName<'s>, marks: WaterMarks) -> Fact<'s>
    ensures { fact_of result ≡ Asks name.now (Estimates how marks) }
{
    Fact::Asks(name.as_slice(), Ask::Estimates { how, marks })
}

/// Returns what a code alone says.
fn facts_of_code<'s>(
    selected: &'s [u8],
    at: Position,
    command: &'s Command<'s>,
    code: u64,
) -> SaidFacts<'s>
    ensures { (v : Visible) → selected.now ≡ here v → result ≡ facts_of_code v at (request command.now) code }
{
    match (command, code) {
        (Command::Group(word), 411) => SaidFacts::one(Fact::ThereIsNo(*word)),
        (
            Command::ListGroup {
                group: Some(word),
                ..
            },
            411,
        ) => SaidFacts::one(Fact::ThereIsNo(*word)),
        (Command::Next | Command::Last, 420) => asks(selected, Ask::StandsNowhere(at)),
        (Command::Next, 421) => asks(selected, Ask::IsTop(at)),
        (Command::Last, 422) => asks(selected, Ask::IsBottom(at)),
        (Command::Retrieve { which, .. }, code) => facts_of_failure(selected, at, which, code),
        (Command::Over { keyword, which }, code) => {
            facts_of_no_overview(selected, at, *keyword, which, code)
        }
        _ => SaidFacts::none(),
    }
}

/// Returns that this is asked of the numbers of the selected group, and nothing else.
fn asks<'s>(selected: &'s [u8], ask: Ask<'s>) -> SaidFacts<'s>
    ensures { result ≡ Asks selected.now (ask_of ask.entry) ∷ [] }
{
    SaidFacts::one(Fact::Asks(selected, ask))
}

/// Returns that these are the numbers of the selected group in the range, and nothing else.
fn lists<'s>(selected: &'s [u8], range: Range, lines: NumberLines<'s>) -> SaidFacts<'s>
    ensures { result ≡ Asks selected.now (ListsIn range (numbers_listed lines.entry)) ∷ [] }
{
    asks(selected, Ask::Lists { range, lines })
}

/// Returns what a failure of OVER, XOVER, HDR or XHDR says.
fn facts_of_no_overview<'s>(
    selected: &'s [u8],
    at: Position,
    keyword: OverviewKeyword,
    which: &'s WhichArticles<'s>,
    code: u64,
) -> SaidFacts<'s>
    ensures { (v : Visible) → selected.now ≡ here v → result ≡ facts_of_code v at (over keyword (overviewed which.now)) code }
{
    match (which, keyword, code) {
        (WhichArticles::Id(word), _, 430) => SaidFacts::one(Fact::NoArticle(*word)),
        (WhichArticles::Range(range), _, 423)
        | (WhichArticles::Range(range), OverviewKeyword::Xover | OverviewKeyword::Xhdr, 420) => {
            lists(selected, *range, NumberLines::Nothing)
        }
        (WhichArticles::Current, _, 420) => asks(selected, Ask::StandsNowhere(at)),
        _ => SaidFacts::none(),
    }
}

/// Returns what a failure of ARTICLE, HEAD, BODY or STAT says.
fn facts_of_failure<'s>(
    selected: &'s [u8],
    at: Position,
    which: &'s Which<'s>,
    code: u64,
) -> SaidFacts<'s>
    ensures { (v : Visible) (what : What) → selected.now ≡ here v → result ≡ facts_of_code v at (retrieve what (target which.now)) code }
{
    match (which, code) {
        (Which::Id(word), 430) => SaidFacts::one(Fact::NoArticle(*word)),
        (Which::Number(Some(number)), 423) => { asks(selected, Ask::Lacks(*number)) }
        (Which::Current, 420) => asks(selected, Ask::StandsNowhere(at)),
        _ => SaidFacts::none(),
    }
}

/// Returns what a success of ARTICLE, HEAD, BODY or STAT says.
fn facts_of_article<'s>(
    selected: &'s [u8],
    at: Position,
    what: What,
    which: &Which<'_>,
    number: u64,
    id: &'s str,
    block: Option<&'s Block<'s>>,
) -> SaidFacts<'s>
    ensures { (v : Visible) → selected.now ≡ here v
        → result ≡ TextIs what id.now (option_map (λ b. b.now) block.entry) ∷ facts_of_place v at (target which.now) number id.now }
{
    let text = Fact::TextIs { what, id, block };
    with_place(text, selected, at, which, number, id)
}

/// Returns what is said of an article, and where it stands, which was asked for so.
fn with_place<'s>(
    said: Fact<'s>,
    selected: &'s [u8],
    at: Position,
    which: &Which<'_>,
    number: u64,
    id: &'s str,
) -> SaidFacts<'s>
    ensures { (v : Visible) → selected.now ≡ here v → result ≡ fact_of said.entry ∷ facts_of_place v at (target which.now) number id.now }
{
    let id = Fact::IdAt(selected, number, id);
    match which {
        Which::Id(_) if number == 0 => SaidFacts::one(said),
        Which::Current => {
            SaidFacts::three(said, Fact::Asks(selected, Ask::StandsAt(at, number)), id)
        }
        _ => SaidFacts::two(said, id),
    }
}

/// Returns what the overviews say that the lines are.
fn facts_of_overviews<'s>(
    selected: &'s [u8],
    at: Position,
    which: &WhichArticles<'_>,
    block: &'s Block<'s>,
) -> SaidFacts<'s>
    ensures { (v : Visible) → selected.now ≡ here v → result ≡ facts_of_overviews v at (overviewed which.now) (overviews_of block.now) }
{
    match which {
        WhichArticles::Range(range) => SaidFacts::one(Fact::OverviewsAre {
            name: selected,
            range: *range,
            block,
        }),
        WhichArticles::Id(word) => facts_of_overview(selected, at, &Which::Id(*word), block),
        WhichArticles::Current => facts_of_overview(selected, at, &Which::Current, block),
    }
}

/// Returns what the only overview says that the lines are.
fn facts_of_overview<'s>(
    selected: &'s [u8],
    at: Position,
    which: &Which<'_>,
    block: &'s Block<'s>,
) -> SaidFacts<'s>
    ensures { (v : Visible) → selected.now ≡ here v → result
        ≡ option_map_or (facts_of_overview v at (target which.now)) (only (overviews_of block.now)) [] }
{
    match only(block) {
        Some(overview) => with_place(
            Fact::FieldsAre { block },
            selected,
            at,
            which,
            overview.number,
            overview.id.as_str(),
        ),
        None => SaidFacts::none(),
    }
}

/// Returns the overview that the lines are, if they are just one.
fn only<'s>(block: &Block<'s>) -> Option<OverviewLine<'s>>
    ensures { option_map overview_value result ≡ only (overviews_of block.now) }
{
    let mut overviews = block.overviews();
    match (overviews.next(), overviews.next()) {
        (Some(overview), None) => Some(overview),
        _ => None,
    }
}
