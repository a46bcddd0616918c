//! Which words are a command over the files of one ASIC.
ghost use Rattle.std.specs.Prelude.{◌≡◌, ◌≢◌, ◌<◌, ◌∷◌, [], ℕ, List, Some, None, IfSome, IsSome, MatchOption};
ghost use Rattle.gcu_words.specs.Words.{is_word};
ghost use Rattle.scopes.specs.Scopes.{most_asics, scope_name};
ghost use Rattle.scopes.specs.declared.scope.Scope.TheVariants.{Asic as asic};
ghost use Rattle.gcu_words.specs.Form.{form};
ghost use Rattle.gcu_words.specs.FormView.{form_view, HasItsOptions};
ghost use Rattle.gcu_words.specs.ScopeForm.{HasNoScope, IsReadScoped, cut_options as options_cut, cut_scope as scope_cut, resume_word, scope_word, takes_scope as may_take};

use crate::form::{Form, form_of_one, resumed};
use crate::reading::read_budget_option;
use host_core::Txt;
use scopes::Scope;

/// The word before the name of a scope.
const SCOPE: &str = "--scope";

/// A command over the files of one ASIC.
#[derive(Drop)]
pub struct ScopeForm<'a> {
    pub scope: Scope,
    /// The command that the words are without the option.
    pub form: Form<'a>,
}

/// Words with the option taken away.
#[derive(Drop)]
struct Cut<'a> {
    /// The name of the scope.
    name: &'a Txt,
    /// The command that is left.
    form: Form<'a>,
}

/// The command over the files of one ASIC that the words are, where they are one.
pub fn read_scope_form(words: &[Txt]) -> Option<ScopeForm<'_>>
    ensures form { MatchOption result (HasNoScope words.now) (IsReadScoped words.now) }
    ensures options { IfSome result (λ read. HasItsOptions read.form) }
{
    let cut = cut_scope(words)?;
    let scope = asic_named(cut.name)?;
    let form = some_command(cut.form)?;
    Some(ScopeForm { scope, form })
}

/// The name that the option has, and the command without it.
fn cut_scope(words: &[Txt]) -> Option<Cut<'_>>
    ensures cut { MatchOption result (scope_cut words.now ≡ None)
        (λ cut. (plain : List (List ℕ)) × (scope_cut words.now ≡ Some (cut.name.now, plain))
        × (form plain ≡ form_view cut.form)) }
    ensures options { IfSome result (λ cut. HasItsOptions cut.form) }
{
    match words {
        [command, option, name] => cut_interruption(command, option, name),
        [command, a, b, c, d] => cut_resume(command, a, b, c, d),
        _ => None,
    }
}

/// The same of a command with no other option.
fn cut_interruption<'a>(command: &'a Txt, option: &Txt, name: &'a Txt) -> Option<Cut<'a>>
    ensures cut { MatchOption result (scope_cut (command.now ∷ option.now ∷ name.now ∷ []) ≡ None)
        (λ cut. (plain : List (List ℕ))
        × (scope_cut (command.now ∷ option.now ∷ name.now ∷ []) ≡ Some (cut.name.now, plain))
        × (form plain ≡ form_view cut.form)) }
    ensures options { IfSome result (λ cut. HasItsOptions cut.form) }
{
    if takes_scope(command) && is_scope(option) {
        let form = form_of_one(command);
        return Some(Cut { name, form });
    }
    None
}

/// The same of a change that is resumed by a budget.
fn cut_resume<'a>(
    command: &'a Txt,
    a: &'a Txt,
    b: &'a Txt,
    c: &'a Txt,
    d: &'a Txt,
) -> Option<Cut<'a>>
    ensures cut { MatchOption result
        (scope_cut (command.now ∷ a.now ∷ b.now ∷ c.now ∷ d.now ∷ []) ≡ None)
        (λ cut. (plain : List (List ℕ))
        × (scope_cut (command.now ∷ a.now ∷ b.now ∷ c.now ∷ d.now ∷ [])
        ≡ Some (cut.name.now, plain))
        × (form plain ≡ form_view cut.form)) }
    ensures options { IfSome result (λ cut. HasItsOptions cut.form) }
{
    if command.as_str() == "resume" {
        return cut_options(command, a, b, c, d);
    }
    None
}

/// The same of its two options, in either order.
fn cut_options<'a>(
    command: &'a Txt,
    a: &'a Txt,
    b: &'a Txt,
    c: &'a Txt,
    d: &'a Txt,
) -> Option<Cut<'a>>
    ensures cut { MatchOption result (options_cut a.now b.now c.now d.now ≡ None)
        (λ cut. (plain : List (List ℕ))
        × (options_cut a.now b.now c.now d.now ≡ Some (cut.name.now, plain))
        × (form plain ≡ form_view cut.form)) }
    ensures options { IfSome result (λ cut. HasItsOptions cut.form) }
{
    if is_scope(a) {
        let form = resumed_by(command, c, d);
        return Some(Cut { name: b, form });
    }
    if is_scope(c) {
        let form = resumed_by(command, a, b);
        return Some(Cut { name: d, form });
    }
    None
}

/// A change that is resumed, by the budget that words are.
fn resumed_by<'a>(command: &'a Txt, word: &Txt, digits: &Txt) -> Form<'a>
    ensures form { form_view result ≡ form (resume_word ∷ word.now ∷ digits.now ∷ []) }
    ensures options { HasItsOptions result }
{
    match read_budget_option(word, digits) {
        Some(options) => resumed(command, options),
        None => Form::Unknown,
    }
}

/// Whether a command has to do with a change that was stopped.
fn takes_scope(command: &Txt) -> bool
    ensures { result ≡ may_take command.now }
{
    let name = command.as_str();
    name == "status" || name == "resume" || name == "abandon"
}

/// Whether a word stands before the name of a scope.
fn is_scope(word: &Txt) -> bool
    ensures { result ≡ is_word word.now scope_word }
{
    word.as_str() == SCOPE
}

/// The ASIC of that name.
fn asic_named(name: &Txt) -> Option<Scope>
    ensures { MatchOption result ((n : ℕ) → n < most_asics → name.now ≢ scope_name (asic n))
        (λ s. (n : ℕ) × (n < most_asics) × (s ≡ asic n) × (name.now ≡ scope_name s)) }
{
    match Scope::named(name.as_str())? {
        Scope::Localhost => None,
        Scope::Asic(number) => Some(Scope::Asic(number)),
    }
}

/// The command, where it is one.
fn some_command(command: Form<'_>) -> Option<Form<'_>>
    ensures { MatchOption result (form_view command.entry ≡ None)
        (λ f. (f ≡ command.entry) × IsSome (form_view command.entry)) }
{
    match command {
        Form::Unknown => None,
        other => Some(other),
    }
}
