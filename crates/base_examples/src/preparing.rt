//! What is done in the folder of a row by no host: what lies there, and which folder it is.
use example_rows::{Fail, number_at, text_at};
use serde_json::Value;
use std::env::Env;
use std::fs::Permissions;
use std::os::unix::fs::PermissionsExt;
use std::rt::Files;
use std::{env, fs, io};

/// The folder of a row.
const ROOM: &str = "room";

/// The bits of a mode that tell who may do what.
const PERMISSIONS: u32 = 0o777;

/// Makes a folder and works there.
pub fn enter<R: Files + Env>(rt: &R) -> io::Result<()> {
    rt.create_dir(ROOM)?;
    env::set_current_dir(rt, ROOM)
}

/// Goes back, and removes that folder.
pub fn leave<R: Files + Env + AllocGlobal>(rt: &R) -> io::Result<()> {
    fs::set_permissions(rt, ".", Permissions::from_mode(0o755))?;
    env::set_current_dir(rt, "..")?;
    fs::remove_dir_all(rt, ROOM)
}

/// Puts a folder, a link or a file there, or gives one a mode. That is as said.
pub fn prepare<R: Files>(rt: &R, does: &str, call: &Value) -> Result<bool, Fail> {
    let name = text_at(call, "name")?;
    match does {
        "make folder" => rt.create_dir(name)?,
        "link" => rt.symlink(text_at(call, "to")?, name)?,
        "put" => fs::write(rt, name, text_at(call, "bytes")?.as_bytes())?,
        _ => fs::set_permissions(rt, name, mode_at(call)?)?,
    }
    Ok(true)
}

/// Whether the file of a name has the mode.
pub fn has_mode<R: Files>(rt: &R, call: &Value) -> Result<bool, Fail> {
    let about = fs::metadata(rt, text_at(call, "name")?)?;
    Ok(about.permissions().mode() & PERMISSIONS == mode_at(call)?.mode())
}

/// The mode of a call.
fn mode_at(call: &Value) -> Result<Permissions, Fail> {
    match u32::try_from(number_at(call, "mode")?) {
        Ok(mode) => Ok(Permissions::from_mode(mode)),
        Err(_) => Err(Fail::Row),
    }
}
