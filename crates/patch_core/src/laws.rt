//! What holds of the definitions, for contracts that speak of pointers, patches and their texts.
ghost use Rattle.std.specs.Prelude.{◌≡◌, ◌≤◌, ◌↔◌, ℕ, List, IsTrue, Ok, Err, Some};
ghost use Rattle.conf_doc.specs.Document.{Document, depth};
ghost use Rattle.conf_doc.specs.Pointer.{pointer};
ghost use Rattle.conf_doc.specs.Sound.{IsSound};
ghost use Rattle.serde_json.specs.Data.{Items};
ghost use Rattle.patch_core.specs.Apply.{most_levels};
ghost use Rattle.patch_core.specs.Operation.{Operation, Tokens};
ghost use Rattle.patch_core.specs.Reading.{AreOperations, IsFirstFault, operations_from, patch};
ghost use Rattle.patch_core.specs.Same.{same};
ghost use Rattle.patch_core.specs.Tokens.{tokens};
ghost use Rattle.patch_core.specs.Writing.{patch_document, patch_file};
ghost use Rattle.patch_core.specs.declared.errors.PatchError.TheVariants.{BadPatch};
ghost use Rattle.patch_core.specs.declared.errors.PatchWhy.{PatchWhy};

use conf_doc::compact_reads_back;

/// The tokens of a pointer's text are its tokens, and no other text has them.
pub fn tokens_of_pointer()
    ensures there { (path : Tokens) → tokens (pointer path) ≡ Some path }
    ensures back { (text : List ℕ) → (path : Tokens)
        → tokens text ≡ Some path → text ≡ pointer path }
{}

/// A test compares documents by equality.
pub fn same_is_equality()
    ensures { (v : Document) → (w : Document) → IsTrue (same v w) ↔ (v ≡ w) }
{}

/// The operations of a patch are those of its elements, and the fault is that of the first that is none.
pub fn patch_of_elements()
    ensures operations { (ds : Items) → (ops : List Operation)
        → (operations_from 0 ds ≡ Ok ops) ↔ AreOperations ds ops }
    ensures fault { (ds : Items) → (i : ℕ) → (why : PatchWhy)
        → (operations_from 0 ds ≡ Err (BadPatch i why)) ↔ IsFirstFault ds i why }
{}

/// The file of a patch is read as that patch.
pub fn patch_reads_back()
    ensures { (ops : List Operation) → IsSound (patch_document ops)
        → depth (patch_document ops) ≤ most_levels → patch (patch_file ops) ≡ Ok ops }
{
    compact_reads_back();
}
