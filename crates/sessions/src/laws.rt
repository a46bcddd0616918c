//! What holds of runs.
ghost use Rattle.std.specs.Prelude.{◌≡◌, ◌≤◌, ◌++◌, ◌∷◌, [], ℕ, IsNone, IsSome, List, Some, length, slice_get, true};
ghost use Rattle.move_core.specs.Contexts.{IsValidIn};
ghost use Rattle.move_core.specs.Plans.{conf};
ghost use Rattle.sessions.specs.Runs.{IsMadeBy, IsRun, Turn, moves_of};
ghost use Rattle.sessions.specs.Turns.{Aim, Begin, End, Event, IsTurn, Refusal, Retarget, Step};
ghost use Rattle.sessions.specs.Worlds.{IsKept, Session, WorldState, session_of};
ghost use Rattle.sessions.specs.declared.commits.Commit.{Commit};
ghost use Rattle.sessions.specs.declared.replies.Reply.{Reply};
ghost use Rattle.sessions.specs.declared.replies.Reply.TheVariants.{Ended, Exists, Refused, Unknown};

/// A run keeps what every world keeps, and the context and the opening.
pub fn runs_keep_worlds()
    ensures kept { (w after : WorldState) (turns : List Turn) → IsKept w → IsRun w turns after
        → IsKept after }
    ensures ctx { (w after : WorldState) (turns : List Turn) → IsRun w turns after
        → after.ctx ≡ w.ctx }
    ensures opening { (w after : WorldState) (turns : List Turn) → IsRun w turns after
        → after.opening ≡ w.opening }
{}

/// A run and a turn behind it are a run.
pub fn runs_go_on()
    ensures { (w next after : WorldState) (turns : List Turn) (event : Event) (reply : Reply)
        → IsRun w turns next → IsTurn next event reply after
        → IsRun w (turns ++ (event, reply) ∷ []) after }
{}

/// What is told with the world unchanged, where a session of the name is there and where none is.
pub fn refusals_are_turns()
    ensures exists { (w : WorldState) (name : List ℕ) (aim : Aim) → IsSome (session_of name w)
        → IsTurn w (Begin name aim) Exists w }
    ensures refused_begin { (w : WorldState) (name : List ℕ) (number : ℕ)
        → IsNone (session_of name w) → IsTurn w (Begin name (Refusal number)) (Refused number) w }
    ensures unknown_step { (w : WorldState) (name : List ℕ) → IsNone (session_of name w)
        → IsTurn w (Step name) Unknown w }
    ensures unknown_retarget { (w : WorldState) (name : List ℕ) (aim : Aim)
        → IsNone (session_of name w) → IsTurn w (Retarget name aim) Unknown w }
    ensures refused_retarget { (w : WorldState) (name : List ℕ) (number : ℕ)
        → IsSome (session_of name w)
        → IsTurn w (Retarget name (Refusal number)) (Refused number) w }
    ensures unknown_end { (w : WorldState) (name : List ℕ) → IsNone (session_of name w)
        → IsTurn w (End name) Unknown w }
{}

/// Each commit of a run was made by a step of the session of its name, whose goal it carries.
pub fn commits_are_of_steps()
    ensures { (w after : WorldState) (turns : List Turn) (i : ℕ) (k : Commit)
        → IsRun w turns after → length w.commits ≤ i → slice_get after.commits i ≡ Some k
        → IsMadeBy w turns i k }
{}

/// Each configuration from the opening to the one now is valid, and the moves of the commits lead through them.
pub fn configurations_are_valid()
    ensures valid { (w : WorldState) (i : ℕ) → IsKept w
        → IsValidIn w.ctx (conf w.opening (moves_of w.commits) i) }
    ensures last { (w : WorldState) → IsKept w
        → conf w.opening (moves_of w.commits) (length w.commits) ≡ w.config }
{}

/// A session ends done only where the configuration now is its goal.
pub fn done_is_at_the_goal()
    ensures { (w after : WorldState) (name : List ℕ) → IsTurn w (End name) (Ended true) after
        → (s : Session) × (session_of name w ≡ Some s) × (w.config ≡ s.goal) }
{}
