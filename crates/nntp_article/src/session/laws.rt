//! Laws of the machine's definitions alone.
ghost use Rattle.std.specs.Prelude.{◌≡◌, ◌≤◌, ◌↔◌, ◌==◌, ℕ, IsTrue, IsFalse, List, None, Some, MatchOption};
ghost use Rattle.nntp_article.specs.Session.Spool.{Name, Spool, Numbers, least};
ghost use Rattle.nntp_article.specs.Inner.Spool.{IsFirst};
ghost use Rattle.nntp_article.specs.declared.session.profile.Profile.{Profile};
ghost use Rattle.nntp_article.specs.Session.Machine.{Visible, State, is_one_of, is_same, is_article_number, fits, Permits};
ghost use Rattle.nntp_article.specs.Article.Parts.{Id, said_id};
ghost use Rattle.nntp_article.specs.Session.Misfit.{misfit, wrong_code, wrong_name, wrong_number, wrong_id, below_low, wrong_marks, beyond_limit, not_above};
ghost use Rattle.nntp_article.specs.Session.Misfit.{beyond_range, unmatched, listed_twice, wrong_lines, no_head, other_id};
ghost use Rattle.nntp_article.specs.Inner.Misfit.{has_wrong_marks, has_wrong_lines, lacks_parts};
ghost use Rattle.nntp_article.specs.Inner.Misfit.{asked_group, asked_number, asked_id, answered_number, answered_id, sent_by, sent_head, listed_words, IsTwice};
ghost use Rattle.nntp_article.specs.Session.Misfit.{allowed_codes, answered_code};
ghost use Rattle.nntp_article.specs.Inner.Misfit.{is_success, marked_by, numbers_of, is_outside, is_unmatched, AreNeighbours, IsAbove};
ghost use Rattle.nntp_wire.specs.Answer.{Asked, Response, plain};

/// An answer that some spool permits meets the visible condition, and the visible state after it is
/// the same whatever the spool.
pub fn visible_state_is_fixed()
    ensures visible_condition { (profile : Profile) (S : Spool) (s new : State) (asked : Asked) (response : Response)
        → Permits profile S s asked response new → IsTrue (fits profile s.visible asked response) }
    ensures visible_state { (profile : Profile) (S S' : Spool) (s s' new new' : State) (asked : Asked) (response : Response)
        → Permits profile S s asked response new → Permits profile S' s' asked response new'
        → s.visible ≡ s'.visible → new.visible ≡ new'.visible }
{}

/// Over one spool the state after an answer is determined.
pub fn new_state_is_determined()
    ensures { (profile : Profile) (S : Spool) (s new new' : State) (asked : Asked) (response : Response)
        → Permits profile S s asked response new → Permits profile S s asked response new' → new ≡ new' }
{}

/// The first number of a group is its least (RFC 3977, section 6.1.1.2). A group without numbers
/// has no first one.
pub fn first_is_least()
    ensures { (N : Numbers) → IsFirst N (least N) }
{}

/// A reason is given exactly for the answers that don't fit.
pub fn misfits_alone_have_reasons()
    ensures { (profile : Profile) (v : Visible) (asked : Asked) (response : Response)
        → IsTrue (fits profile v asked response) ↔ (misfit profile v asked response ≡ None) }
{}

/// Each allowed code fits: by itself, unless it begins an answer that says more than its code.
pub fn allowed_codes_fit()
    ensures { (profile : Profile) (v : Visible) (asked : Asked) (code : ℕ)
        → IsTrue (is_one_of (allowed_codes v asked) code) → IsFalse (is_success asked code) → IsTrue (fits profile v asked (plain code)) }
{}

/// What a reason names is at fault.
pub fn reasons_are_so()
    ensures code { (profile : Profile) (v : Visible) (asked : Asked) (response : Response) (code : ℕ) (allowed : List ℕ)
        → misfit profile v asked response ≡ Some (wrong_code code allowed) → (code ≡ answered_code asked response) × (allowed ≡ allowed_codes v asked) }
    ensures name { (profile : Profile) (v : Visible) (asked : Asked) (response : Response) (name : Name)
        → misfit profile v asked response ≡ Some (wrong_name name)
        → MatchOption (marked_by response) ⊥ (λ marked. marked.0 ≡ name) × MatchOption (asked_group v asked) ⊥ (λ word. IsFalse (is_same name word)) }
    ensures number { (profile : Profile) (v : Visible) (asked : Asked) (response : Response) (number : ℕ)
        → misfit profile v asked response ≡ Some (wrong_number number)
        → (answered_number response ≡ Some number) × MatchOption (asked_number asked) (v.selected ≡ None) (λ n. IsFalse (number == n)) }
    ensures id { (profile : Profile) (v : Visible) (asked : Asked) (response : Response) (id : Id)
        → misfit profile v asked response ≡ Some (wrong_id id)
        → (answered_id response ≡ Some id) × MatchOption (asked_id asked) ⊥ (λ word. IsFalse (is_same id word)) }
    ensures low { (profile : Profile) (v : Visible) (asked : Asked) (response : Response) (low : ℕ)
        → misfit profile v asked response ≡ Some (below_low low) → MatchOption (marked_by response) ⊥ (IsAbove v low) }
    ensures marks { (profile : Profile) (v : Visible) (asked : Asked) (response : Response) (name : Name)
        → misfit profile v asked response ≡ Some (wrong_marks name) → IsTrue (has_wrong_marks response name) }
    ensures limit { (profile : Profile) (v : Visible) (asked : Asked) (response : Response) (number : ℕ)
        → misfit profile v asked response ≡ Some (beyond_limit number) → IsFalse (is_article_number profile.limit number) }
    ensures order { (profile : Profile) (v : Visible) (asked : Asked) (response : Response) (before number : ℕ)
        → misfit profile v asked response ≡ Some (not_above before number) → AreNeighbours (numbers_of response) before number × (number ≤ before) }
    ensures range { (profile : Profile) (v : Visible) (asked : Asked) (response : Response) (number : ℕ)
        → misfit profile v asked response ≡ Some (beyond_range number) → IsTrue (is_outside asked number) }
    ensures matched { (profile : Profile) (v : Visible) (asked : Asked) (response : Response) (name : Name)
        → misfit profile v asked response ≡ Some (unmatched name) → IsTrue (is_unmatched asked name) }
    ensures twice { (profile : Profile) (v : Visible) (asked : Asked) (response : Response) (word : List ℕ)
        → misfit profile v asked response ≡ Some (listed_twice word) → IsTwice (listed_words response) word }
    ensures lines { (profile : Profile) (v : Visible) (asked : Asked) (response : Response)
        → misfit profile v asked response ≡ Some wrong_lines → IsTrue (has_wrong_lines asked response) }
    ensures head { (profile : Profile) (v : Visible) (asked : Asked) (response : Response)
        → misfit profile v asked response ≡ Some no_head → IsTrue (lacks_parts asked response) }
    ensures own { (profile : Profile) (v : Visible) (asked : Asked) (response : Response) (said : Id)
        → misfit profile v asked response ≡ Some (other_id said)
        → MatchOption (sent_head asked response) ⊥ (λ head. said_id head ≡ Some said)
        × MatchOption (sent_by response) ⊥ (λ sent. IsFalse (is_same said sent.id)) }
{}
