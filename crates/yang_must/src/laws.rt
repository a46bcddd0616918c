//! What the words of the contracts say of one another.
ghost use Rattle.xpath_part.specs.Reading.{read_expression};
ghost use Rattle.yang_must.specs.Musts.{ReadsExpressions};

use xpath_part::{read_is_spelled, spelled_is_read};

/// There is a function that gives the expression of each text that spells one.
pub fn reader_reads()
    ensures { ReadsExpressions read_expression }
{
    spelled_is_read();
    read_is_spelled();
}
