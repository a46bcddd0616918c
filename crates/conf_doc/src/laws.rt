//! What holds of documents and their texts.
ghost use Rattle.std.specs.Prelude.{◌++◌};
ghost use Rattle.conf_doc.specs.Document.{Document};
ghost use Rattle.conf_doc.specs.Sound.{IsSound};
ghost use Rattle.conf_doc.specs.Texts.{ReadsBack, compact, line_feed};

/// The compact text of a document reads back, alone and with a line feed behind it.
pub fn compact_reads_back()
    ensures value { (d : Document) → IsSound d → ReadsBack (compact d) d }
    ensures line { (d : Document) → IsSound d → ReadsBack (compact d ++ line_feed) d }
{}
