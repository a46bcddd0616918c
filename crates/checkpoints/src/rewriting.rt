//! A checkpoint of the old format put anew in format 2.
ghost use Rattle.std.specs.Prelude.{◌≤◌, ◌<◌, IfSome, OnErr, OnOk, length, slice_get};
ghost use Rattle.host_core.specs.Counts.{DiskMayRise, Rose};
ghost use Rattle.host_core.specs.Crashes.{LeavesOnly};
ghost use Rattle.host_core.specs.Names.{longest_plain_name};
ghost use Rattle.conf_store.specs.Changes.{AreLeft, Changes, IsSettled, Settles};
ghost use Rattle.checkpoints.specs.Migrations.{IsDue, IsRewritten, IsRewrittenOrNot};

use crate::rewrites::Migration;
use conf_store::put_file;
use host_core::{Failed, Host};

/// Puts the file of one checkpoint anew. A crash at any moment leaves all checkpoints and their numbers as
/// they were, and all other files but `tmp.new`. `Failed` comes only where the disk count rose. Nothing may be
/// pending, and the file reads as when the migration was prepared. No memory is taken.
pub fn put_one<H: Host>(host: &mut H, migration: &Migration, i: usize) -> Result<(), Failed>
    requires within { i < length migration.now }
    requires longest { longest_plain_name ≤ H.longest_name }
    requires ready { IfSome (H.told host.old) IsSettled }
    requires due { IfSome (H.told host.old)
        (λ s. IfSome (slice_get migration.now i) (λ n. IsDue n s.files)) }
    ensures ok { OnOk result (IfSome (slice_get migration.now i)
        (λ n. Settles (IsRewritten n) (H.told host.old) (H.told host.new))) }
    // After `Failed` the file, as it reads and as a crash leaves it, was put anew or not.
    ensures err { OnErr result (IfSome (slice_get migration.now i)
        (λ n. Changes (IsRewrittenOrNot n) (H.told host.old) (H.told host.new))) }
    // So it is at each moment.
    ensures any_moment { IfSome (H.told host.old) (λ s. IfSome (slice_get migration.now i)
        (λ n. LeavesOnly H.moment H.left_since host.old host.new
        (AreLeft (IsRewrittenOrNot n) s))) }
    ensures later { H.moment host.old ≤ H.moment host.new }
    ensures counts { DiskMayRise (H.counts host.old) (H.counts host.new) }
    ensures cause { OnErr result (Rose (H.counts host.old).disk (H.counts host.new).disk) }
    ensures goes { H.goes_on host.old host.new }
{
    let rewrite = migration.at(i);
    put_file(host, rewrite.file.as_str(), &rewrite.text)
}
