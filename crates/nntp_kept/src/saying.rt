//! What an answer says of the spool (RFC 3977, sections 6 and 7.6.3).
ghost use Rattle.std.specs.Prelude.{◌≡◌, ◌<◌, ◌^◌, ℕ, get_or, List, [], ◌∷◌, None, Some, option_map, IsTrue};
ghost use Rattle.nntp_wire.specs.{Name.{IsGroupName}, Inner.{View.{asked}, AnswerView.{response}}, Listing.{overviews_of}};
ghost use Rattle.nntp_article.specs.{declared.session.profile.Profile.{Profile}, Session.Machine.{Visible, fits}, Inner.{Misfit.{numbers_of}, Listed.{Lists}}};
ghost use Rattle.nntp_article.specs.Inner.Listed.{lists_of};
ghost use Rattle.nntp_said.specs.{Facts.{Fact as FactValue, Asks, FieldsAre, IdAt as IdIs, OverviewsAre, here, facts_of, group_of}, Inner.FactView.{ask_of}};
ghost use Rattle.nntp_said.specs.{Inner.FactView.{fact_of}, Asks.{Bounds, Has}};
ghost use Rattle.nntp_kept.specs.Inner.Saying.{AreListed, IsSelectedShown, TellsHere, TellsThere, begun, group_of_overviews, nothing, numbers_shown, saying_by};
ghost use Rattle.nntp_kept.specs.Inner.{Saying.{saying_with, with_ask}, SayingView.{id_at, of_group, saying_of}};
ghost use Rattle.nntp_numbers.specs.Inner.{Part.{Says}, PartView.{said}, Summary.{AreBounded}};

use nntp_kept_articles::ArticlePart;
use nntp_numbers::NumbersPart;
use nntp_said::{Ask, Fact, NumberLines, Position, SaidFacts, facts_of};
use nntp_wire::{ActiveLine, Answer, Block, GroupName, Marks, Prompt, Range, Wildmat};
use std::slice;

/// A number of a group, and the message-id that it has.
#[derive(Clone, Copy)]
pub struct IdAt<'s> {
    /// The article number.
    pub number: u64,
    /// The message-id.
    pub id: &'s str,
}

/// The part of a saying that is about one group.
#[derive(Drop)]
pub struct GroupPart<'s> {
    /// The octets of the group's name.
    pub name: &'s [u8],
    /// What is said of the numbers of the group.
    pub numbers: NumbersPart<'s>,
    /// The id that a number of the group has, if one is said.
    pub id: Option<IdAt<'s>>,
}

impl<'s> GroupPart<'s> {
    /// Says what LIST ACTIVE says of a group that it lists: its numbers are between the marks.
    pub fn of_bounds(line: &'s ActiveLine<'s>) -> GroupPart<'s>
        ensures name { result.name.now ≡ line.now.name }
        ensures numbers { Says (said result.numbers) (Bounds line.now.low line.now.high ∷ []) }
        ensures bounded { AreBounded (Bounds line.now.low line.now.high ∷ []) }
        ensures id { id_at result.id ≡ None }
    {
        GroupPart {
            name: line.name.as_slice(),
            numbers: NumbersPart::of_bounds(line.low, line.high),
            id: None,
        }
    }

    /// Says of the group of this name that the number has the id, and nothing else.
    pub(crate) fn of_id(name: &'s [u8], number: u64, id: &'s str) -> GroupPart<'s>
        ensures name { result.name.now ≡ name.now }
        ensures numbers { Says (said result.numbers) [] }
        ensures id { id_at result.id ≡ Some (number, id.now) }
    {
        GroupPart {
            name,
            numbers: NumbersPart::nothing(),
            id: Some(IdAt { number, id }),
        }
    }

    /// Says nothing of the group of this name.
    fn nothing(name: &'s [u8]) -> GroupPart<'s>
        ensures { of_group result ≡ begun None name.now }
    {
        GroupPart {
            name,
            numbers: NumbersPart::nothing(),
            id: None,
        }
    }

    /// Says of the group of this name that the number is there, which `shown` shows.
    fn of_number(name: &'s [u8], number: u64, shown: &'s [u64]) -> GroupPart<'s>
        ensures { of_group result ≡ with_ask shown.now (Has number) (begun None name.now) }
    {
        let mut group = GroupPart::nothing(name);
        group.numbers.list(number, number, shown);
        group
    }
}

/// The part of a saying that lists the overviews of all numbers in a range.
#[derive(Drop)]
pub struct OverviewsPart<'s> {
    /// The range that was asked for.
    pub range: Range,
    /// The lines that are the overviews.
    pub block: &'s Block<'s>,
}

/// The part of a saying that lists all groups that match.
#[derive(Drop)]
pub struct ActivePart<'s> {
    /// The wildmat that the groups match, if one is given.
    pub wildmat: &'s Option<Wildmat<'s>>,
    /// The lines that list the groups.
    pub block: &'s Block<'s>,
}

/// All that one answer says of the spool, in parts.
#[derive(Drop)]
pub struct Saying<'s> {
    /// There is a group of this name.
    pub there_is: Option<&'s GroupName<'s>>,
    /// There is no group of this name.
    pub there_is_no: Option<&'s [u8]>,
    /// What is said of one group, if anything is.
    pub group: Option<GroupPart<'s>>,
    /// What is said of one message-id, if anything is.
    pub article: Option<ArticlePart<'s>>,
    /// The overviews of the group's numbers in a range are these.
    pub overviews: Option<OverviewsPart<'s>>,
    /// The groups that match are these.
    pub groups: Option<ActivePart<'s>>,
}

/// The saying of an answer that says nothing.
const NOTHING: Saying<'static> = Saying {
    there_is: None,
    there_is_no: None,
    group: None,
    article: None,
    overviews: None,
    groups: None,
};

impl<'s> Saying<'s> {
    /// Returns what an answer says where marks are read so, this group is selected, and the session
    /// stands at the position; `numbers` are those that the answer lists.
    pub fn of(
        how: Marks,
        selected: &'s [u8],
        at: Position,
        prompt: &'s Prompt<'s>,
        answer: &'s Answer<'s>,
        numbers: &'s [u64],
    ) -> Saying<'s>
        ensures tells { (profile : Profile) (v : Visible) (facts : List FactValue) → IsTrue (fits profile v (asked prompt.now) (response answer.now))
            → IsSelectedShown v facts
            → selected.now ≡ here v → numbers.now ≡ numbers_of (response answer.now)
            → TellsHere selected.now facts (saying_of result) (facts_of how v at (asked prompt.now) (response answer.now)) }
        ensures listed { (lists : Lists) → lists ≡ lists_of (response answer.now) → AreListed (saying_of result) lists }
    {
        Saying::by(
            &mut facts_of(how, selected, at, prompt, answer),
            numbers_shown(answer, numbers),
        )
    }

    /// Returns what the facts say that are left, and goes past them; `shown` are the numbers that their
    /// answer shows.
    #[tactic(auto, using(crate::proofs::Keeping::FactsSaid::no_first))]
    pub(crate) fn by(facts: &mut SaidFacts<'s>, shown: &'s [u64]) -> Saying<'s>
        ensures { saying_of result ≡ saying_by shown.now nothing facts.old }
    {
        let mut saying = NOTHING;
        while let Some(fact) = facts.first() {
            saying.add(fact, shown);
            facts.pass_first();
        }
        saying
    }

    /// Says a fact too; `shown` are the numbers that its answer shows.
    fn add(&mut self, fact: &Fact<'s>, shown: &'s [u64])
        ensures { saying_of self.new ≡ saying_with shown.now (fact_of fact.now) (saying_of self.old) }
    {
        match fact {
            Fact::ThereIs(name) => self.there_is = Some(*name),
            Fact::ThereIsNo(name) => self.there_is_no = Some(*name),
            Fact::Asks(name, ask) => self.add_ask(*name, *ask, shown),
            Fact::IdAt(name, number, id) => self.add_id(*name, *number, *id, shown),
            Fact::TextIs { what, id, block } => {
                self.article = Some(ArticlePart::Sends {
                    id: *id,
                    what: *what,
                    block: *block,
                });
            }
            Fact::NoArticle(id) => self.article = Some(ArticlePart::Lacks(*id)),
            Fact::FieldsAre { block } => self.add_fields(*block),
            Fact::OverviewsAre { name, range, block } => {
                self.add_overviews(*name, *range, *block, shown);
            }
            Fact::GroupsAre { wildmat, block } => {
                self.groups = Some(ActivePart {
                    wildmat: *wildmat,
                    block: *block,
                });
            }
        }
    }

    /// Says this too of the numbers of the group.
    fn add_ask(&mut self, name: &'s [u8], ask: Ask<'s>, shown: &'s [u64])
        ensures { saying_of self.new ≡ saying_with shown.now (Asks name.now (ask_of ask.entry)) (saying_of self.old) }
    {
        let group = self.group.get_or_insert_with(|| GroupPart::nothing(name));
        group.numbers.say(ask, shown);
    }

    /// Says too that the overviews tell what their articles do. It looks at the first one, which is the only one.
    fn add_fields(&mut self, block: &'s Block<'s>)
        ensures { (shown : List ℕ) → saying_of self.new ≡ saying_with shown (FieldsAre (overviews_of block.now)) (saying_of self.old) }
    {
        if let Some(overview) = block.overviews().next() {
            let id = overview.id.as_str();
            self.article = Some(ArticlePart::Describes { id, block });
        }
    }

    /// Says too that the overviews of the group's numbers in the range are these.
    fn add_overviews(
        &mut self,
        name: &'s [u8],
        range: Range,
        block: &'s Block<'s>,
        shown: &'s [u64],
    )
        ensures { saying_of self.new ≡ saying_with shown.now (OverviewsAre name.now range (overviews_of block.now)) (saying_of self.old) }
    {
        let lines = NumberLines::Overviews(block);
        self.add_ask(name, Ask::Lists { range, lines }, shown);
        self.overviews = Some(OverviewsPart { range, block });
    }

    /// Says too that the number of the group has the id, and that this has an article.
    fn add_id(&mut self, name: &'s [u8], number: u64, id: &'s str, shown: &'s [u64])
        ensures { saying_of self.new ≡ saying_with shown.now (IdIs name.now number id.now) (saying_of self.old) }
    {
        let group = self
            .group
            .get_or_insert_with(|| GroupPart::of_number(name, number, shown));
        group.id = Some(IdAt { number, id });
        if self.article.is_none() {
            self.article = Some(ArticlePart::Exists(id));
        }
    }

    /// Returns the group of which an answer speaks: the one that it says to be there, or the selected one.
    pub fn group_of(&self, selected: Option<&'s GroupName<'s>>) -> Option<&'s GroupName<'s>>
        ensures { (facts : List FactValue) → TellsThere (option_map (λ name. name.now) selected.entry) (saying_of self.now) facts
            → option_map (λ name. name.now) result ≡ group_of facts }
    {
        match (self.there_is, &self.group) {
            (Some(name), _) => Some(name),
            (None, Some(_)) => selected,
            (None, None) => None,
        }
    }

    /// Returns the group of whose numbers overviews are said, if any are.
    pub(crate) fn group_of_overviews(&self) -> Option<&GroupPart<'s>>
        ensures { option_map (λ group. of_group group.now) result ≡ group_of_overviews (saying_of self.now) }
    {
        match (&self.overviews, &self.group) {
            (Some(_), Some(group)) => Some(group),
            _ => None,
        }
    }

    /// Says that there is such a group, and this of its numbers.
    pub fn selects(name: &'s GroupName<'s>, numbers: NumbersPart<'s>) -> Saying<'s>
        ensures is_name { IsGroupName name.now }
        ensures says { saying_of result
            ≡ record nothing { there_is = Some name.now; group = Some (record { name = name.now; numbers = said numbers.entry; id = None }) } }
    {
        Saying {
            there_is: Some(name),
            group: Some(GroupPart {
                name: name.as_slice(),
                numbers,
                id: None,
            }),
            ..NOTHING
        }
    }
}

/// Returns the numbers that an answer shows: the one that it gives, or those that it lists.
pub(crate) fn numbers_shown<'s>(answer: &'s Answer<'s>, listed: &'s [u64]) -> &'s [u64]
    ensures shown { result.now ≡ numbers_shown listed.now (response answer.now) }
    ensures small { (i : ℕ) → get_or listed.now i 0 < 2 ^ 64 }
{
    match answer {
        Answer::Sent { number, .. } => slice::from_ref(number),
        _ => listed,
    }
}
