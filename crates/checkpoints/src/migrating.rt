//! The checkpoints of the old format, with all that is written of them.
ghost use Rattle.std.specs.Prelude.{◌≡◌, ◌≤◌, true, All, IfErr, IfOk, IfSome, IsErrOf, length, option_map};
ghost use Rattle.host_core.specs.Counts.{Rose};
ghost use Rattle.host_core.specs.Names.{longest_plain_name};
ghost use Rattle.conf_doc.specs.WellFormed.{IsConfig};
ghost use Rattle.conf_store.specs.Reads.{OnlyReads};
ghost use Rattle.checkpoints.specs.Answers.{IsOfListing};
ghost use Rattle.checkpoints.specs.Migrations.{IsDue, migration as all_new, new_file, new_files, old_held, old_point};
ghost use Rattle.checkpoints.specs.Names.{is_good_name as is_name, point_file as file_of};
ghost use Rattle.checkpoints.specs.Rewrites.{IsNewText, rewrite_view};
ghost use Rattle.checkpoints.specs.declared.errors.PointError.TheVariants.{Disk as disk_failed};

use crate::PointError;
use crate::listing::names;
use crate::reading::read_point;
use crate::rewrites::{Migration, Rewrite};
use crate::writing::point_bytes;
use conf_doc::{Config, ReadError, ShapeError, config_of_tree, read_tree};
use host_core::{Host, Memory, Names, Txt};
use std::alloc::Global;

/// The checkpoints of the old format in the order of their names' bytes, with every byte that is written where
/// they are put anew in format 2 with the number 0. `Disk` comes only where the disk count rose.
pub fn prepare_migration<H: Host>(alloc: Global, host: &mut H) -> Result<Migration, PointError>
    requires { longest_plain_name ≤ H.longest_name }
    ensures all { IfOk result (λ m. IfSome (H.told host.old) (λ s. m ≡ all_new s.files)) }
    // Each may be put now.
    ensures due { IfOk result (λ m. IfSome (H.told host.old)
        (λ s. All (λ n. IsDue n s.files) m)) }
    ensures errors { IfErr result IsOfListing }
    ensures reads { OnlyReads H.told H.counts H.moment H.left_since H.goes_on host.old host.new }
    ensures cause { IsErrOf result disk_failed
        → Rose (H.counts host.old).disk (H.counts host.new).disk }
{
    let all = names(alloc, host)?;
    find_rewrites(alloc, host, &all)
}

/// Those among the checkpoints of these names.
fn find_rewrites<H: Host>(
    alloc: Global,
    host: &mut H,
    names: &Names,
) -> Result<Migration, PointError>
    requires longest { longest_plain_name ≤ H.longest_name }
    requires good { All (λ n. is_name n ≡ true) names.now }
    ensures all { IfOk result (λ m. IfSome (H.told host.old)
        (λ s. m ≡ new_files s.files names.now)) }
    ensures due { IfOk result (λ m. IfSome (H.told host.old)
        (λ s. All (λ n. IsDue n s.files) m)) }
    ensures errors { IfErr result IsOfListing }
    ensures reads { OnlyReads H.told H.counts H.moment H.left_since H.goes_on host.old host.new }
    ensures cause { IsErrOf result disk_failed
        → Rose (H.counts host.old).disk (H.counts host.new).disk }
{
    let mut migration = Migration::new(alloc);
    for i in 0..names.len() {
        let found = find_rewrite(alloc, host, names.at(i))?;
        migration.add(found)?;
    }
    Ok(migration)
}

/// The checkpoint of a name, where its file is of the old format.
fn find_rewrite<H: Host>(
    alloc: Global,
    host: &mut H,
    name: &Txt,
) -> Result<Option<Rewrite>, PointError>
    requires longest { longest_plain_name ≤ H.longest_name }
    requires good { is_name name.now ≡ true }
    ensures found { IfOk result (λ r. IfSome (H.told host.old)
        (λ s. option_map rewrite_view r
        ≡ option_map (new_file name.now) (old_point s.files name.now))) }
    ensures due { IfOk result (λ r. IfSome (H.told host.old)
        (λ s. IfSome r (λ x. IsDue (rewrite_view x) s.files))) }
    ensures errors { IfErr result IsOfListing }
    ensures reads { OnlyReads H.told H.counts H.moment H.left_since H.goes_on host.old host.new }
    ensures cause { IsErrOf result disk_failed
        → Rose (H.counts host.old).disk (H.counts host.new).disk }
{
    let (file, found) = read_point(alloc, host, name.as_str())?;
    match found {
        None => Ok(None),
        Some(bytes) => {
            let rewrite = rewrite_of(alloc, name, file, &bytes)?;
            Ok(rewrite)
        }
    }
}

/// The checkpoint of a name whose file has these bytes, where they are of the old format.
fn rewrite_of(alloc: Global, name: &Txt, file: Txt, bytes: &[u8]) -> Result<Option<Rewrite>, Memory>
    requires named { file ≡ file_of name.now }
    requires short { length file ≤ longest_plain_name }
    ensures found { IfOk result (λ r. option_map rewrite_view r
        ≡ option_map (new_file name.now) (old_held bytes.now)) }
    ensures text { IfOk result (λ r. IfSome r (λ x. IsNewText bytes.now x.text.items)) }
{
    let config = old_config(alloc, bytes)?;
    match config {
        None => Ok(None),
        Some(config) => {
            let text = point_bytes(alloc, &config, 0)?;
            let name = name.copy(alloc)?;
            Ok(Some(Rewrite { name, file, text }))
        }
    }
}

/// The configuration that bytes of the old format are, or None of any other.
fn old_config(alloc: Global, bytes: &[u8]) -> Result<Option<Config>, Memory>
    ensures { IfOk result (λ c. c ≡ old_held bytes.now) }
{
    let tree = match read_tree(alloc, bytes) {
        Ok(tree) => tree,
        Err(ReadError::Memory) => return Err(Memory),
        Err(_) => return Ok(None),
    };
    match config_of_tree(alloc, tree) {
        Ok(config) => Ok(Some(config)),
        Err(ShapeError::Shape { .. }) => Ok(None),
        Err(ShapeError::Memory) => Err(Memory),
    }
}
