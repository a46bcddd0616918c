//! Where the reading of a text stops that is no pattern.

ghost use Rattle.std.specs.Prelude.{◌≡◌, ◌++◌, ◌∷◌, [], ℕ, List, IfOk, IfSome, IsSomeAnd};
ghost use Rattle.yang_pattern.specs.declared.letters.Letter.{Letter};
ghost use Rattle.yang_pattern.specs.Reading.{Progress, read, start};
ghost use Rattle.yang_pattern.specs.Scans.{IsStanding, IsScanned, IsLexed, IsScanBehind, IsWholeUpTo};
ghost use Rattle.yang_pattern.specs.Errors.{IsFaultFree};

use crate::frames::MOST_GROUPS;
use crate::letters::{Letter, letter_of};
use crate::symbols::Token;
use crate::tokens::{Mode, Step, advance};
use std::alloc::{AllocError, Global};

/// What may come behind tokens: how many groups are open, and whether a quantifier may follow.
#[derive(Clone, Copy)]
pub struct Standing {
    pub groups: usize,
    pub atom: bool,
}

impl Standing {
    fn new() -> Standing
        ensures { IsStanding result start }
    {
        Standing {
            groups: 0,
            atom: false,
        }
    }

    /// One token more. None where it can't stand here.
    fn with(self, token: &Token) -> Option<Standing>
        ensures { IfSome result (λ next. (s : Progress) → IsStanding self s
            → IsSomeAnd (read token.now s) (IsStanding next)) }
    {
        match token {
            Token::Open => {
                if self.groups >= MOST_GROUPS {
                    return None;
                }
                Some(Standing {
                    groups: self.groups + 1,
                    atom: false,
                })
            }
            Token::Close => {
                if self.groups == 0 {
                    return None;
                }
                Some(Standing {
                    groups: self.groups - 1,
                    atom: true,
                })
            }
            Token::Bar => Some(Standing {
                groups: self.groups,
                atom: false,
            }),
            Token::Times(_) => {
                if !self.atom {
                    return None;
                }
                Some(Standing {
                    groups: self.groups,
                    atom: false,
                })
            }
            Token::Symbol(_) => Some(Standing {
                groups: self.groups,
                atom: true,
            }),
        }
    }
}

/// What is read of a text.
#[derive(Drop)]
pub struct Scan {
    pub after_backslash: bool,
    pub mode: Mode,
    pub standing: Standing,
}

impl Scan {
    fn new() -> Scan
        ensures { IsScanned [] result }
    {
        Scan {
            after_backslash: false,
            mode: Mode::Outside,
            standing: Standing::new(),
        }
    }

    /// One letter more. None where it can't stand here.
    fn with_letter(
        mode: Mode,
        standing: Standing,
        alloc: Global,
        letter: Letter,
    ) -> Result<Option<Scan>, AllocError>
        ensures { IfOk result (λ found. IfSome found (IsScanBehind mode standing letter)) }
    {
        match advance(alloc, mode, letter)? {
            None => Ok(None),
            Some(step) => {
                let Step { mode, token } = step;
                match token {
                    None => Ok(Some(Scan {
                        after_backslash: false,
                        mode,
                        standing,
                    })),
                    Some(token) => match standing.with(&token) {
                        None => Ok(None),
                        Some(standing) => Ok(Some(Scan {
                            after_backslash: false,
                            mode,
                            standing,
                        })),
                    },
                }
            }
        }
    }

    /// One character more. None where it can't stand here.
    fn with(self, alloc: Global, c: char) -> Result<Option<Scan>, AllocError>
        ensures { IfOk result (λ found. IfSome found (λ next. (cs : List ℕ)
            → IsScanned cs self → IsScanned (cs ++ c ∷ []) next)) }
    {
        let Scan {
            after_backslash,
            mode,
            standing,
        } = self;
        if c == '\\' && !after_backslash {
            return Ok(Some(Scan {
                after_backslash: true,
                mode,
                standing,
            }));
        }
        match letter_of(after_backslash, c) {
            None => Ok(None),
            Some(letter) => Scan::with_letter(mode, standing, alloc, letter),
        }
    }

    /// The place `at`, where nothing but groups is open there, and else the place before it.
    fn last_whole(&self, before: usize, at: usize) -> usize
        ensures { IsWholeUpTo self.now before at result }
    {
        if self.after_backslash {
            return before;
        }
        match self.mode {
            Mode::Outside => at,
            _ => before,
        }
    }
}

/// The place where the reading of a text stops: where the character, class or quantifier begins
/// that can't stand there or has no end, and else the text's end.
pub fn find_fault(alloc: Global, text: &str) -> Result<usize, AllocError>
    ensures { IfOk result (IsFaultFree text.now) }
{
    let mut scan = Scan::new();
    let mut whole = 0;
    let mut at = 0;
    for c in text.chars() {
        whole = scan.last_whole(whole, at);
        match scan.with(alloc, c)? {
            None => return Ok(whole),
            Some(next) => scan = next,
        }
        at += c.len_utf8();
    }
    Ok(scan.last_whole(whole, at))
}
