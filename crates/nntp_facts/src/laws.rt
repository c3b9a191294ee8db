//! Laws of what is kept of sessions, and those of nntp_said and nntp_theory.
pub use nntp_said::laws::{current_article_is_read_off, permitted_by_facts};
pub use nntp_theory::laws::{
    answered_prompts_matter, answers_add_up, answers_stand_together_where_a_spool_has_them,
    bad_answer_has_one_class, contradiction_conflicts_with_those_before, core_is_found,
    explanation_is_by_all_pairs, explanation_is_by_pairs, fewer_facts_hold,
    given_numbers_are_counted, given_numbers_meet_what_is_asked, given_spool_exists,
    given_spool_is_least, given_spool_is_one, given_spool_permits,
    next_answer_is_permitted_where_it_joins, no_answers_are_permitted, no_spool_has_what_conflicts,
    one_answer_is_bad, outcome_at_a_response, outcome_at_octets, outcome_at_the_end,
    pairing_ends_in_class, pairing_to_octets_is_bad, pairing_to_the_end_is_explained,
    permitted_where_all_stands_together, settled_answer_stays_bad, size_is_bounded,
    size_is_bounded_by_octets, some_spool_permits_or_none, spelled_answers_are_well_formed,
    streams_are_explained_or_bad, streams_have_one_outcome, strict_marks_are_all_that_is_added,
    unpermitted_response_is_bad,
};

pub mod reading;
pub mod sessions;
