//! What the words of the contracts say of one another.
ghost use Rattle.yang_faults.specs.Tests.{Tests, Decide};

use yang_pattern::patterns_are_decided;
use yang_types::texts_are_decided;
use yang_values::circles_are_decided;

/// There are tests that tell what they are to tell, so what is said of all such tests is said of some.
pub fn tests_exist()
    ensures { (tests : Tests) × Decide tests }
{
    patterns_are_decided();
    texts_are_decided();
    circles_are_decided();
}
