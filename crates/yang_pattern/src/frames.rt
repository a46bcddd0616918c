//! The reader of tokens: what is read of each open group.

ghost use Rattle.std.specs.Prelude.{◌≡◌, ℕ, Bool, List, Option, IfOk, MatchOption, IsSomeAnd, Some, None};
ghost use Rattle.yang_pattern.specs.Symbols.{symbol_accepts, accepts};
ghost use Rattle.yang_pattern.specs.Pattern.{Branch, Atom, followed, times, symbol, group};
ghost use Rattle.yang_pattern.specs.Parts.{IsPatternPart, IsBranchPart, IsAtomPart};
ghost use Rattle.yang_pattern.specs.Reading.{Opened, Progress, fresh, settle, close, with_atom, with_bar, with_times, enter, leave, read, finish, start, IsLast, IsFrame, IsReader, FrameFollows, ReaderFollows};

use crate::parts::Part;
use crate::symbols::{Quantifier, Token};
use std::alloc::{AllocError, Global};

/// How many groups may be open at once.
pub const MOST_GROUPS: usize = 32;

/// What is read of an open group: its closed branches, the pieces of the open one, and an atom that
/// a quantifier may follow.
#[derive(Drop)]
pub struct Frame {
    choices: Option<Part>,
    branch: Part,
    last: Option<Part>,
}

/// What is read of a pattern: the innermost open group, and those round it.
#[derive(Drop)]
pub struct Reader {
    outer: Vec<Frame>,
    current: Frame,
}

/// The branch, with the atom that no quantifier follows.
fn settle(branch: Part, last: Option<Part>) -> Result<Part, AllocError>
    ensures { IfOk result (λ part. (r : ℕ → ℕ → Bool) (b : Branch) (a : Option Atom)
        → IsBranchPart r branch b → IsLast r last a → IsBranchPart r part (settle b a)) }
{
    match last {
        None => Ok(branch),
        Some(atom) => branch.followed_by(&atom),
    }
}

/// The branch, with an atom as often as the quantifier allows.
fn quantify(
    branch: Part,
    atom: Part,
    alloc: Global,
    quantifier: Quantifier,
) -> Result<Part, AllocError>
    ensures { IfOk result (λ part. (r : ℕ → ℕ → Bool) (b : Branch) (a : Atom)
        → IsBranchPart r branch b → IsAtomPart r atom a
        → IsBranchPart r part (followed b (times a quantifier))) }
{
    let piece = atom.times(alloc, quantifier)?;
    branch.followed_by(&piece)
}

impl Frame {
    fn new(alloc: Global) -> Frame
        ensures { (r : ℕ → ℕ → Bool) → IsFrame r result fresh }
    {
        Frame {
            choices: None,
            branch: Part::nothing(alloc),
            last: None,
        }
    }

    /// All branches, where the group ends.
    fn close(self) -> Result<Part, AllocError>
        ensures { IfOk result (λ part. (r : ℕ → ℕ → Bool) (o : Opened)
            → IsFrame r self o → IsPatternPart r part (close o)) }
    {
        let branch = settle(self.branch, self.last)?;
        match self.choices {
            None => Ok(branch),
            Some(choices) => choices.or(&branch),
        }
    }

    fn with_atom(self, atom: Part) -> Result<Frame, AllocError>
        ensures { IfOk result (λ frame. (r : ℕ → ℕ → Bool) (o : Opened) (a : Atom)
            → IsFrame r self o → IsAtomPart r atom a → IsFrame r frame (with_atom o a)) }
    {
        Ok(Frame {
            choices: self.choices,
            branch: settle(self.branch, self.last)?,
            last: Some(atom),
        })
    }

    /// The group of the other frame ends, and is an atom of this one.
    fn with_group(self, inner: Frame) -> Result<Frame, AllocError>
        ensures { IfOk result (λ frame. (r : ℕ → ℕ → Bool) (o p : Opened)
            → IsFrame r self o → IsFrame r inner p
            → IsFrame r frame (with_atom o (group (close p)))) }
    {
        let atom = inner.close()?;
        self.with_atom(atom)
    }

    fn with_bar(self, alloc: Global) -> Result<Frame, AllocError>
        ensures { IfOk result (λ frame. (r : ℕ → ℕ → Bool) (o : Opened)
            → IsFrame r self o → IsFrame r frame (with_bar o)) }
    {
        Ok(Frame {
            choices: Some(self.close()?),
            branch: Part::nothing(alloc),
            last: None,
        })
    }

    /// None where no atom stands before the quantifier.
    fn with_times(self, alloc: Global, quantifier: Quantifier) -> Result<Option<Frame>, AllocError>
        ensures { IfOk result (FrameFollows self (λ o. with_times o quantifier)) }
    {
        let Frame {
            choices,
            branch,
            last,
        } = self;
        match last {
            None => Ok(None),
            Some(atom) => {
                let branch = quantify(branch, atom, alloc, quantifier)?;
                Ok(Some(Frame {
                    choices,
                    branch,
                    last: None,
                }))
            }
        }
    }
}

impl Reader {
    pub fn new(alloc: Global) -> Reader
        ensures { (r : ℕ → ℕ → Bool) → IsReader r result start }
    {
        Reader {
            outer: Vec::new(alloc),
            current: Frame::new(alloc),
        }
    }

    /// A group begins. None where too many are open.
    fn enter(self, alloc: Global) -> Result<Option<Reader>, AllocError>
        ensures { IfOk result (ReaderFollows self enter) }
    {
        let Reader { mut outer, current } = self;
        if outer.len() >= MOST_GROUPS {
            return Ok(None);
        }
        outer.push(current)?;
        Ok(Some(Reader {
            outer,
            current: Frame::new(alloc),
        }))
    }

    /// A group ends. None where none is open.
    fn leave(self) -> Result<Option<Reader>, AllocError>
        ensures { IfOk result (ReaderFollows self (λ s. leave s.current s.outer)) }
    {
        let Reader { mut outer, current } = self;
        match outer.pop() {
            None => Ok(None),
            Some(frame) => {
                let current = frame.with_group(current)?;
                Ok(Some(Reader { outer, current }))
            }
        }
    }

    /// One token more, which has this number. None where it can't stand here.
    pub fn read(
        self,
        alloc: Global,
        number: usize,
        token: &Token,
    ) -> Result<Option<Reader>, AllocError>
        ensures { IfOk result (λ found. MatchOption found
            ((r : ℕ → ℕ → Bool) (s : Progress) → IsReader r self s → read token.now s ≡ None)
            (λ reader. (r : ℕ → ℕ → Bool) (s : Progress)
            → ((c : ℕ) → r number c ≡ symbol_accepts (Some token.now) c) → IsReader r self s
            → IsSomeAnd (read token.now s) (λ n. IsReader r reader n))) }
    {
        match token {
            Token::Open => self.enter(alloc),
            Token::Close => self.leave(),
            Token::Bar => Ok(Some(self.bar(alloc)?)),
            Token::Times(quantifier) => self.times(alloc, *quantifier),
            Token::Symbol(_) => Ok(Some(self.symbol(alloc, number)?)),
        }
    }

    fn bar(self, alloc: Global) -> Result<Reader, AllocError>
        ensures { IfOk result (λ reader. (r : ℕ → ℕ → Bool) (s : Progress) → IsReader r self s
            → IsReader r reader (record { current = with_bar s.current; outer = s.outer })) }
    {
        let Reader { outer, current } = self;
        Ok(Reader {
            outer,
            current: current.with_bar(alloc)?,
        })
    }

    fn times(self, alloc: Global, quantifier: Quantifier) -> Result<Option<Reader>, AllocError>
        ensures { IfOk result (λ found. MatchOption found
            ((r : ℕ → ℕ → Bool) (s : Progress) → IsReader r self s
            → with_times s.current quantifier ≡ None)
            (λ reader. (r : ℕ → ℕ → Bool) (s : Progress) → IsReader r self s
            → IsSomeAnd (with_times s.current quantifier)
            (λ n. IsReader r reader (record { current = n; outer = s.outer })))) }
    {
        let Reader { outer, current } = self;
        match current.with_times(alloc, quantifier)? {
            None => Ok(None),
            Some(current) => Ok(Some(Reader { outer, current })),
        }
    }

    fn symbol(self, alloc: Global, number: usize) -> Result<Reader, AllocError>
        ensures { IfOk result (λ reader. (r : ℕ → ℕ → Bool) (s : Progress)
            (y : Bool × List (ℕ × ℕ)) → ((c : ℕ) → r number c ≡ accepts y c) → IsReader r self s
            → IsReader r reader
            (record { current = with_atom s.current (symbol y); outer = s.outer })) }
    {
        let Reader { outer, current } = self;
        let atom = Part::symbol(alloc, number)?;
        Ok(Reader {
            outer,
            current: current.with_atom(atom)?,
        })
    }

    /// The whole pattern, where no group is open.
    pub fn finish(self) -> Result<Option<Part>, AllocError>
        ensures { IfOk result (λ found. MatchOption found
            ((r : ℕ → ℕ → Bool) (s : Progress) → IsReader r self s
            → finish s.current s.outer ≡ None)
            (λ part. (r : ℕ → ℕ → Bool) (s : Progress) → IsReader r self s
            → IsSomeAnd (finish s.current s.outer) (λ bs. IsPatternPart r part bs))) }
    {
        let Reader { outer, current } = self;
        if outer.is_empty() {
            Ok(Some(current.close()?))
        } else {
            Ok(None)
        }
    }
}
