//! Files that are written.
ghost use Rattle.std.specs.Prelude.{OnOk};
ghost use Rattle.doslink_files.specs.Written.{StandsAt};

use omf_files::World;
use std::io::{self, Write};

/// Puts a file of these bytes at a path, in the place of what stood there before.
///
/// # Errors
/// The file can't be created, written or put there. What stood there before then stays as it was.
pub fn put_file<W: World>(world: &W, path: &str, bytes: &[u8]) -> io::Result<()>
    ensures { OnOk result (StandsAt (W.blank world.now) (W.Puts world.now) path.now bytes.now) }
{
    let mut file = world.create(path)?;
    file.write_all(bytes)?;
    file.flush()?;
    world.keep(file, path)
}
