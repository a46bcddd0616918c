//! Steps of a path that go down from a node and come back to it.
ghost use Rattle.std.specs.Prelude.{◌≡◌, ◌++◌, ◌∷◌, IfSome};

use crate::Step;

/// What a step to children and the steps behind it come to, where they may lead back to where they begin.
pub(crate) enum Detour<'s> {
    /// They lead back, and these steps are left.
    Back(&'s [Step]),
    /// They lead nowhere.
    Nowhere,
    /// They may lead elsewhere.
    Unknown,
}

/// Steps from a child of a node, before the one that leads back to that node and behind it.
pub(crate) fn split_detour(steps: &[Step]) -> Option<(&[Step], &[Step])>
    ensures { IfSome result (λ parts. steps.now ≡ parts.0.now ++ Step.Up ∷ parts.1.now) }
{
    let mut below: usize = 0;
    for i in 0..steps.len() {
        match &steps[i] {
            Step::Child { .. } => below += 1,
            Step::Stay => {}
            Step::Up => {
                if below == 0 {
                    return Some((&steps[..i], &steps[i + 1..]));
                }
                below -= 1;
            }
        }
    }
    None
}
