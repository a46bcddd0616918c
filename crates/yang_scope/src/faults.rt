//! Faults, their order, and the least of those met so far.
ghost use Rattle.std.specs.Prelude.{◌≡◌, IsTrue};
ghost use Rattle.yang_text.specs.Whys.{why_number};
ghost use Rattle.yang_scope.specs.Faults.{is_before, lesser};

use yang_text::ModelWhy;

/// A fault of the models: the file that has it, counted from 0, its line, counted from 1, and its name.
#[derive(Clone, Copy)]
pub struct Fault {
    pub file: u32,
    pub line: u32,
    pub why: ModelWhy,
}

/// The place of a name in the order of the names.
fn number_of(why: ModelWhy) -> u8
    ensures { result ≡ why_number why }
{
    why as u8
}

impl Fault {
    /// Whether this fault is answered before another one: the lower file, then the lower line, then the
    /// first name.
    fn is_before(&self, other: &Fault) -> bool
        ensures { result ≡ is_before self.now other.now }
    {
        if self.file != other.file {
            return self.file < other.file;
        }
        if self.line != other.line {
            return self.line < other.line;
        }
        number_of(self.why) < number_of(other.why)
    }
}

/// Keeps the lesser of a fault and the least one so far.
pub fn note(least: &mut Option<Fault>, file: u32, line: u32, why: ModelWhy)
    ensures { least.new ≡ lesser least.old (record { file = file; line = line; why = why }) }
{
    let fault = Fault { file, line, why };
    match least {
        Some(first) if !fault.is_before(first) => {}
        _ => *least = Some(fault),
    }
}
