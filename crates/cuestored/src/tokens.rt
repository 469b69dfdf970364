use crate::files::on_file;
use anyhow::Result;
use cue_doors::Keys;
use cue_owners::{Owners, sole_token};
use cue_settings::{Settings, SettingsError};
use std::io::Read;
use std::{fs, str};

/// All bytes of a file.
fn text_of(rt: &HostRuntime, path: &str) -> Result<Vec<u8>> {
    let alloc = rt.alloc();
    let mut text = Vec::new(alloc);
    let mut file = on_file(alloc, "open", path, fs::File::open(rt, path))?;
    on_file(alloc, "read", path, file.read_to_end(&mut text))?;
    Ok(text)
}

/// The tokens of a file, if there is one.
fn owners_in(rt: &HostRuntime, path: Option<&str>) -> Result<Option<Owners>> {
    let Some(path) = path else {
        return Ok(None);
    };
    let text = text_of(rt, path)?;
    match Owners::read(rt.alloc(), &text) {
        Ok(owners) => Ok(Some(owners)),
        Err(why) => Err(SettingsError::of_token_file(rt.alloc(), path, why).into()),
    }
}

/// The tokens that the site knows.
pub(crate) fn keys_of(rt: &HostRuntime, words: &Settings) -> Result<Keys> {
    Ok(Keys {
        writers: owners_in(rt, words.token_file)?,
        readers: owners_in(rt, words.read_token_file)?,
    })
}

/// The token that the site sends to its peers, if there is one.
pub(crate) fn peer_token(rt: &HostRuntime, words: &Settings) -> Result<Option<String>> {
    let Some(path) = words.peer_token_file else {
        return Ok(None);
    };
    let text = text_of(rt, path)?;
    let Some(token) = sole_token(rt.alloc(), &text)? else {
        return Err(SettingsError::PeerToken(String::from_str(rt.alloc(), path)?).into());
    };
    match str::from_utf8(&token) {
        Ok(token) => Ok(Some(String::from_str(rt.alloc(), token)?)),
        Err(_) => Err(SettingsError::PeerToken(String::from_str(rt.alloc(), path)?).into()),
    }
}
