//! Machines for parts of a pattern: which place may follow which.

ghost use Rattle.std.specs.Prelude.{◌≡◌, ◌<◌, ◌≤◌, ◌+◌, ◌*◌, ℕ, IfOk, OnOk, vec_len, false, true, List, [], ◌∷◌, length, ◌↔◌, ◌⊎◌, Bool, IsTrue, suc};
ghost use Rattle.yang_pattern.specs.PlaceSets.{IsWithin};

use crate::sets::Places;
use crate::symbols::Quantifier;
use std::alloc::{AllocError, Global};

/// A place of a pattern: it reads one character that its symbol accepts.
#[derive(Clone, Copy)]
pub struct Place {
    /// The number of the symbol's token.
    pub token: usize,
    /// The places that may come next.
    pub follow: Places,
    /// Whether a text may end here.
    pub last: bool,
}

impl Place {
    ghost use Rattle.yang_pattern.specs.PlaceSets.{IsLedOn, IsShifted};

    /// The place with what follows when another fragment comes behind its own: where a text could
    /// end, it goes on with `entered`, and ends only if the other one takes the empty text.
    fn lead_on(&self, entered: &Places, empty: bool) -> Place
        ensures { IsLedOn entered.now empty self.now result }
    {
        Place {
            token: self.token,
            follow: self.follow.with(entered, self.last),
            last: self.last & empty,
        }
    }

    /// The place among others, `by` places further on.
    fn shift(&self, by: usize) -> Place
        requires { by ≤ 1024 }
        ensures { IsShifted by self.now result }
    {
        Place {
            token: self.token,
            follow: self.follow.shift(by),
            last: self.last,
        }
    }
}

/// A machine for a part of a pattern: the places of the part, in order.
#[derive(Drop)]
pub struct Fragment {
    pub places: Vec<Place>,
    /// The places at which a text may begin.
    pub first: Places,
    /// Whether the empty text is taken.
    pub empty: bool,
    ghost within: { IsWithin places.items first },
    ghost small: { length places.items ≤ 1024 },
}

ghost use Rattle.yang_pattern.specs.PlaceSets.{place_at, IsAppended, IsLedOn};

/// Links each of the places to the fragment that comes behind them.
fn link(places: &mut Vec<Place>, entered: &Places, empty: bool)
    ensures count { length places.new.items ≡ length places.old.items }
    ensures linked { (k : ℕ) → k < length places.old.items
        → IsLedOn entered.now empty (place_at places.old.items k) (place_at places.new.items k) }
{
    for place in places.iter_mut() {
        *place = place.lead_on(entered, empty);
    }
}

/// Puts the places of another fragment behind.
fn append(places: &mut Vec<Place>, more: &[Place]) -> Result<(), AllocError>
    requires { vec_len places.old + length more.now ≤ 1024 }
    ensures { OnOk result (IsAppended places.old.items more.now places.new.items) }
{
    let count = places.len();
    for place in more {
        places.push(place.shift(count))?;
    }
    Ok(())
}

impl Fragment {
    ghost use Rattle.yang_pattern.specs.Machine.{HasLanguage, texts_of, OneOf, Both, Either, SomeOf, OrNothing, Times};
    ghost use Rattle.yang_pattern.specs.declared.symbols.Quantifier.TheVariants.{AtLeast, Between};
    ghost use Rattle.yang_pattern.specs.Symbols.{Repeated, factor};

    /// Takes the empty text alone.
    pub fn nothing(alloc: Global) -> Fragment
        ensures count { vec_len result.places ≡ 0 }
        ensures language { HasLanguage result (λ _ u. u ≡ []) }
    {
        Fragment {
            places: Vec::new(alloc),
            first: Places::new(),
            empty: true,
        }
    }

    /// Takes one character, which the symbol of the token accepts.
    pub fn one(alloc: Global, token: usize) -> Result<Fragment, AllocError>
        ensures count { IfOk result (λ f. vec_len f.places ≡ 1) }
        ensures language { IfOk result (λ f. HasLanguage f (OneOf token)) }
    {
        let mut places = Vec::new(alloc);
        places.push(Place {
            token,
            follow: Places::new(),
            last: true,
        })?;
        let mut first = Places::new();
        first.insert(0);
        Ok(Fragment {
            places,
            first,
            empty: false,
        })
    }

    /// Takes a text of the one and then a text of the other.
    pub fn join(self, right: &Fragment) -> Result<Fragment, AllocError>
        requires { vec_len self.places + vec_len right.now.places ≤ 1024 }
        ensures count { IfOk result
            (λ f. vec_len f.places ≡ vec_len self.places + vec_len right.now.places) }
        ensures language { IfOk result
            (λ f. HasLanguage f (λ r. Both (texts_of r self) (texts_of r right.now))) }
    {
        // nothing behind, and so no link to make
        if right.empty && right.places.is_empty() {
            return Ok(self);
        }
        self.join_places(right)
    }

    /// The same, where each place that may end is linked to the first places behind it.
    fn join_places(self, right: &Fragment) -> Result<Fragment, AllocError>
        requires { vec_len self.places + vec_len right.now.places ≤ 1024 }
        ensures count { IfOk result
            (λ f. vec_len f.places ≡ vec_len self.places + vec_len right.now.places) }
        ensures language { IfOk result
            (λ f. HasLanguage f (λ r. Both (texts_of r self) (texts_of r right.now))) }
    {
        let mut places = self.places;
        let entered = right.first.shift(places.len());
        link(&mut places, &entered, right.empty);
        append(&mut places, &right.places)?;
        Ok(Fragment {
            places,
            first: self.first.with(&entered, self.empty),
            empty: self.empty & right.empty,
        })
    }

    /// Takes what one of the two takes.
    pub fn either(self, right: &Fragment) -> Result<Fragment, AllocError>
        requires { vec_len self.places + vec_len right.now.places ≤ 1024 }
        ensures count { IfOk result
            (λ f. vec_len f.places ≡ vec_len self.places + vec_len right.now.places) }
        ensures language { IfOk result
            (λ f. HasLanguage f (λ r. Either (texts_of r self) (texts_of r right.now))) }
    {
        let mut places = self.places;
        let entered = right.first.shift(places.len());
        append(&mut places, &right.places)?;
        Ok(Fragment {
            places,
            first: self.first.with(&entered, true),
            empty: self.empty | right.empty,
        })
    }

    /// Takes one or more texts in a row.
    fn again(self) -> Fragment
        ensures count { vec_len result.places ≡ vec_len self.places }
        ensures language { HasLanguage result (λ r. SomeOf (texts_of r self)) }
    {
        let mut places = self.places;
        link(&mut places, &self.first, true);
        Fragment {
            places,
            first: self.first,
            empty: self.empty,
        }
    }

    /// Takes the empty text too.
    fn or_nothing(self) -> Fragment
        ensures count { vec_len result.places ≡ vec_len self.places }
        ensures language { HasLanguage result (λ r. OrNothing (texts_of r self)) }
    {
        Fragment {
            places: self.places,
            first: self.first,
            empty: true,
        }
    }

    /// Takes a text of its own and then `n` texts of the other, one after another.
    fn followed_by(self, part: &Fragment, n: u8) -> Result<Fragment, AllocError>
        requires { vec_len self.places + n * vec_len part.now.places ≤ 1024 }
        ensures count { IfOk result
            (λ f. vec_len f.places ≡ vec_len self.places + n * vec_len part.now.places) }
        ensures language { IfOk result
            (λ f. HasLanguage f (λ r. Both (texts_of r self) (Repeated (texts_of r part.now) n))) }
    {
        let mut whole = self;
        for _i in 0..n {
            whole = whole.join(part)?;
        }
        Ok(whole)
    }

    /// Takes `least` or more texts in a row.
    fn at_least(self, alloc: Global, least: u8) -> Result<Fragment, AllocError>
        requires { vec_len self.places * (least + 1) ≤ 1024 }
        ensures count { IfOk result (λ f. vec_len f.places ≡ vec_len self.places * (least + 1)) }
        ensures language { IfOk result
            (λ f. HasLanguage f (λ r. Times (texts_of r self) (AtLeast least))) }
    {
        let whole = Fragment::nothing(alloc).followed_by(&self, least)?;
        whole.join(&self.again().or_nothing())
    }

    /// Takes `least` texts in a row and at most `more` behind them.
    fn between(self, alloc: Global, least: u8, more: u8) -> Result<Fragment, AllocError>
        requires { vec_len self.places * (least + more) ≤ 1024 }
        ensures count { IfOk result (λ f. vec_len f.places ≡ vec_len self.places * (least + more)) }
        ensures language { IfOk result
            (λ f. HasLanguage f (λ r. Times (texts_of r self) (Between least more))) }
    {
        let whole = Fragment::nothing(alloc).followed_by(&self, least)?;
        whole.followed_by(&self.or_nothing(), more)
    }

    /// Takes as many texts in a row as the quantifier allows.
    pub fn times(self, alloc: Global, quantifier: Quantifier) -> Result<Fragment, AllocError>
        requires { vec_len self.places * factor quantifier ≤ 1024 }
        ensures count { IfOk result
            (λ f. vec_len f.places ≡ vec_len self.places * factor quantifier) }
        ensures language { IfOk result
            (λ f. HasLanguage f (λ r. Times (texts_of r self) quantifier)) }
    {
        match quantifier {
            Quantifier::OneOrMore => Ok(self.again()),
            Quantifier::AtLeast(least) => self.at_least(alloc, least),
            Quantifier::Between { least, more } => self.between(alloc, least, more),
        }
    }
}
