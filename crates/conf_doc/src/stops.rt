//! Where a walk over a tree stops.
ghost use Rattle.std.specs.Prelude.{◌≡◌, [], ◌∷◌, ◌++◌, IfOk, string_bytes, decimal};
ghost use Rattle.host_core.specs.Characters.{slash};
ghost use Rattle.conf_doc.specs.Pointer.{escaped};
ghost use Rattle.conf_doc.specs.Stops.{IsBelow};

use crate::pointers::push_token;
use host_core::{Memory, Txt};
use std::alloc::{AllocError, AllocFailed, Global};

/// Why a walk over a tree stopped.
#[derive(Drop)]
pub(crate) enum Stop {
    /// At a node with a fault; the tokens that lead to it from where the walk began are this RFC 6901 pointer.
    At(Txt),
    Memory,
}

impl From<Memory> for Stop {
    ghost use Rattle.std.specs.Prelude.{◌≡◌};
    ghost use Rattle.conf_doc.specs.declared.stops.Stop.TheVariants.{Memory as wanting};

    ghost from_gives = { λ _ s. s ≡ wanting };

    fn from(_error: Memory) -> Stop {
        Stop::Memory
    }
}

impl From<AllocError> for Stop {
    ghost use Rattle.std.specs.Prelude.{◌≡◌};
    ghost use Rattle.conf_doc.specs.declared.stops.Stop.TheVariants.{Memory as wanting};

    ghost from_gives = { λ _ s. s ≡ wanting };

    fn from(_error: AllocError) -> Stop {
        Stop::Memory
    }
}

impl<T: Drop> From<AllocFailed<T>> for Stop {
    ghost use Rattle.std.specs.Prelude.{◌≡◌};
    ghost use Rattle.conf_doc.specs.declared.stops.Stop.TheVariants.{Memory as wanting};

    ghost from_gives = { λ _ s. s ≡ wanting };

    fn from(_error: AllocFailed<T>) -> Stop {
        Stop::Memory
    }
}

impl Stop {
    /// A stop at the node where the walk began.
    pub(crate) fn here(alloc: Global) -> Stop
        ensures { result ≡ Stop.At [] }
    {
        Stop::At(Txt::from(String::new(alloc)))
    }

    /// The stop as a walk sees it that began one token above.
    pub(crate) fn below(self, alloc: Global, token: &str) -> Stop
        ensures { IsBelow token.now self result }
    {
        match self {
            Stop::At(place) => match deeper(alloc, token, place.as_str()) {
                Ok(place) => Stop::At(place),
                Err(_) => Stop::Memory,
            },
            Stop::Memory => Stop::Memory,
        }
    }

    /// The same, where the token is the place of an item.
    pub(crate) fn below_item(self, alloc: Global, i: usize) -> Stop
        ensures { IsBelow (decimal i) self result }
    {
        match i.to_string(alloc) {
            Ok(token) => self.below(alloc, token.as_str()),
            Err(_) => Stop::Memory,
        }
    }
}

fn deeper(alloc: Global, token: &str, place: &str) -> Result<Txt, AllocError>
    ensures { IfOk result (λ t. t ≡ slash ∷ (escaped token.now ++ place.now)) }
{
    let mut text = String::new(alloc);
    push_token(&mut text, token)?;
    text.push_str(place)?;
    Ok(Txt::from(text))
}
