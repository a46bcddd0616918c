//! What the words of the contracts say of one another.
ghost use Rattle.std.specs.Prelude.{◌≡◌, ℕ, List, Some};
ghost use Rattle.xpath_part.specs.Expression.{Expression};
ghost use Rattle.xpath_part.specs.Grammar.{IsExpression};
ghost use Rattle.xpath_part.specs.Reading.{read_expression};

/// What a text spells by the grammar is what is read of it.
pub fn spelled_is_read()
    ensures { (s : List ℕ) (e : Expression) → IsExpression s e → read_expression s ≡ Some e }
{}

/// What is read of a text is what it spells by the grammar.
pub fn read_is_spelled()
    ensures { (s : List ℕ) (e : Expression) → read_expression s ≡ Some e → IsExpression s e }
{}
