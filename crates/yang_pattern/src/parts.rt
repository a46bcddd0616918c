//! Parts of a pattern while it is read.

ghost use Rattle.std.specs.Prelude.{◌≡◌, ℕ, Bool, List, IfOk, Some};
ghost use Rattle.yang_pattern.specs.Symbols.{accepts, factor};
ghost use Rattle.yang_pattern.specs.Pattern.{Branches, one, or, Branch, none, followed, Piece, once, times, Atom, symbol, group};
ghost use Rattle.yang_pattern.specs.Pattern.{MatchesAtom, atom_size};
ghost use Rattle.yang_pattern.specs.Parts.{IsPatternPart, IsBranchPart, IsPiecePart, IsAtomPart, IsFragmentOf};

use crate::fragments::Fragment;
use crate::sets::MOST_PLACES;
use crate::symbols::Quantifier;
use std::alloc::{AllocError, Global};

/// A part of a pattern, whatever it is a part of.
#[derive(Drop)]
pub struct Part {
    /// The machine, or None where the size is above `MOST_PLACES`. A larger part may still stand in
    /// a pattern, under `{0}`.
    pub fragment: Option<Fragment>,
}

/// What a quantifier multiplies a size by.
fn factor(quantifier: Quantifier) -> usize
    ensures { result ≡ factor quantifier }
{
    match quantifier {
        Quantifier::OneOrMore => 1,
        Quantifier::AtLeast(least) => least as usize + 1,
        Quantifier::Between { least, more } => least as usize + more as usize,
    }
}

/// The part for an atom's machine as often as the quantifier allows.
fn repeat(alloc: Global, atom: Fragment, quantifier: Quantifier) -> Result<Part, AllocError>
    ensures { IfOk result (λ part. (r : ℕ → ℕ → Bool) (a : Atom)
        → IsFragmentOf r (Some atom) (MatchesAtom a) (atom_size a)
        → IsPiecePart r part (times a quantifier)) }
{
    if atom.places.len() * factor(quantifier) > MOST_PLACES {
        return Ok(Part { fragment: None });
    }
    Ok(Part {
        fragment: Some(atom.times(alloc, quantifier)?),
    })
}

impl Part {
    /// A branch with no piece.
    pub fn nothing(alloc: Global) -> Part
        ensures { (r : ℕ → ℕ → Bool) → IsBranchPart r result none }
    {
        Part {
            fragment: Some(Fragment::nothing(alloc)),
        }
    }

    /// The symbol of a token.
    pub fn symbol(alloc: Global, number: usize) -> Result<Part, AllocError>
        ensures { IfOk result (λ part. (r : ℕ → ℕ → Bool) (s : Bool × List (ℕ × ℕ))
            → ((c : ℕ) → r number c ≡ accepts s c) → IsAtomPart r part (symbol s)) }
    {
        Ok(Part {
            fragment: Some(Fragment::one(alloc, number)?),
        })
    }

    /// A branch and one piece more.
    pub fn followed_by(self, piece: &Part) -> Result<Part, AllocError>
        ensures { IfOk result (λ part. (r : ℕ → ℕ → Bool) (b : Branch) (p : Piece)
            → IsBranchPart r self b → IsPiecePart r piece.now p
            → IsBranchPart r part (followed b p)) }
    {
        match self.fragment {
            None => Ok(Part { fragment: None }),
            Some(left) => match &piece.fragment {
                None => Ok(Part { fragment: None }),
                Some(right) => {
                    if left.places.len() + right.places.len() > MOST_PLACES {
                        return Ok(Part { fragment: None });
                    }
                    Ok(Part {
                        fragment: Some(left.join(right)?),
                    })
                }
            },
        }
    }

    /// Branches and one more.
    pub fn or(self, branch: &Part) -> Result<Part, AllocError>
        ensures { IfOk result (λ part. (r : ℕ → ℕ → Bool) (bs : Branches) (b : Branch)
            → IsPatternPart r self bs → IsBranchPart r branch.now b
            → IsPatternPart r part (or bs b)) }
    {
        match self.fragment {
            None => Ok(Part { fragment: None }),
            Some(left) => match &branch.fragment {
                None => Ok(Part { fragment: None }),
                Some(right) => {
                    if left.places.len() + right.places.len() > MOST_PLACES {
                        return Ok(Part { fragment: None });
                    }
                    Ok(Part {
                        fragment: Some(left.either(right)?),
                    })
                }
            },
        }
    }

    /// An atom as often as the quantifier allows.
    pub fn times(self, alloc: Global, quantifier: Quantifier) -> Result<Part, AllocError>
        ensures { IfOk result (λ part. (r : ℕ → ℕ → Bool) (a : Atom)
            → IsAtomPart r self a → IsPiecePart r part (times a quantifier)) }
    {
        let factor = factor(quantifier);
        match self.fragment {
            None => {
                if factor > 0 {
                    return Ok(Part { fragment: None });
                }
                Ok(Part {
                    fragment: Some(Fragment::nothing(alloc)),
                })
            }
            Some(atom) => repeat(alloc, atom, quantifier),
        }
    }
}
