//! Laws that follow from the definitions alone.
ghost use Rattle.std.specs.{Prelude.{◌↔◌, ◌⊎◌, List}, List.{AllByRecursion}};
ghost use Rattle.nntp_wire.specs.Answer.{Asked, Response};
ghost use Rattle.nntp_article.specs.{Session.{Spool.{Spool}, Machine.{Run, State, start}}, declared.session.profile.Profile.{Profile}};
ghost use Rattle.nntp_said.specs.{Inner.{Asks.{RunsAt}, Facts.{FitsAll}}, Facts.{Holds, facts_from}, declared.position.Position.TheVariants.{Nowhere}};

/// A spool permits a session exactly if it permits each answer with the current article read off
/// the session.
#[tactic(auto, using(crate::proofs::CurrentArticle::read_off, crate::proofs::CurrentArticle::run_from))]
pub fn current_article_is_read_off()
    ensures { (profile : Profile) (S : Spool) (prompts : List Asked) (answers : List Response)
        → Run profile S start prompts answers ↔ RunsAt profile S start.visible Nowhere prompts answers }
{}

/// A spool permits a session exactly if each answer fits and all that the answers say holds of it.
#[tactic(auto, using(crate::proofs::FactsHold::permits_by_facts))]
pub fn permitted_by_facts()
    ensures { (profile : Profile) (S : Spool) (prompts : List Asked) (answers : List Response) → RunsAt profile S start.visible Nowhere prompts answers
        ↔ (FitsAll profile start.visible prompts answers × AllByRecursion (Holds S) (facts_from profile.marks start.visible Nowhere prompts answers)) }
{}

/// A spool permits the answers to these prompts from this state on, or it doesn't.
#[tactic(auto, using(crate::proofs::PermittingDecided::dec_run))]
pub fn permitting_is_decided()
    ensures { (profile : Profile) (S : Spool) (s : State) (prompts : List Asked) (answers : List Response)
        → Run profile S s prompts answers ⊎ (Run profile S s prompts answers → ⊥) }
{}
