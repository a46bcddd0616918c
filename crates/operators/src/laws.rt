//! What holds of scripts that have run.
ghost use Rattle.std.specs.Prelude.{◌≡◌, ◌≤◌, ℕ, List, length, map};
ghost use Rattle.move_core.specs.Contexts.{IsValidIn};
ghost use Rattle.gcu_requests.specs.Request.{Operating, Patched};
ghost use Rattle.gcu_words.specs.declared.script_lines.ScriptLine.{ScriptLine};
ghost use Rattle.sessions.specs.Runs.{IsRun, Turn};
ghost use Rattle.sessions.specs.Worlds.{IsKept, WorldState};
ghost use Rattle.sessions.specs.declared.replies.Reply.{Reply};
ghost use Rattle.operators.specs.Runs.{IsOperated, IsRunOf};

/// What is told on the lines of a script is told on the turns of a run.
pub fn scripts_run_worlds()
    ensures { (patches : List Patched) (budget : ℕ) (w after : WorldState)
        (lines : List ScriptLine) (replies : List Reply)
        → IsRunOf patches budget w lines replies after
        → (turns : List Turn) × IsRun w turns after × (map (λ t. t.1) turns ≡ replies) }
{}

/// The commits of a script lead on from the stored configuration where that is valid, each allowed where it stands
/// towards the goal that it carries. There is at most one for each line.
pub fn scripts_keep_worlds()
    ensures kept { (p : Operating) (text : List ℕ) (after : WorldState)
        → IsValidIn p.ctx p.start → IsOperated p text after → IsKept after }
    ensures ctx { (p : Operating) (text : List ℕ) (after : WorldState)
        → IsOperated p text after → after.ctx ≡ p.ctx }
    ensures opening { (p : Operating) (text : List ℕ) (after : WorldState)
        → IsOperated p text after → after.opening ≡ p.start }
    ensures few { (p : Operating) (text : List ℕ) (after : WorldState)
        → IsOperated p text after → length after.commits ≤ length p.lines }
{}
